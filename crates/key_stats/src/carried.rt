//! The bounds of an entry by conjuncts that are carried to it along one equality.
use berge_tree::Edge;
use bound_fold::EntryLists;

/// An equality along which the right entry carries its own conjuncts to the left entry. `lists` has the row bound of the left entry by these
/// conjuncts, and a list of each of its joined columns.
#[derive(Drop)]
pub struct CarriedBounds {
    pub edge: Edge,
    pub lists: EntryLists,
}
