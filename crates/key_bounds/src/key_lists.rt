//! The own bounds of a query's entries, and the bounds that are carried to entries.
use base_io::Seq;
use bound_fold::EntryLists;
use key_stats::CarriedBounds;

/// `own` has a row bound for each of the first `count` entries, and a list for each of their joined columns. `carried` has the bounds that are
/// carried along equalities. Each carried bound counts only in sets that have both entries of its equality.
#[derive(Drop)]
pub struct KeyLists {
    pub count: u8,
    pub own: EntryLists,
    pub carried: Seq<CarriedBounds>,
}
