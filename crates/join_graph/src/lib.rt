//! The join graph of a query: finds the kept equalities of a set of entries (those of a spanning forest of the graph).
//!
//! `split` divides the conjuncts of a query into `Parts`: the own conjuncts of each entry, the equalities, and the residual conjuncts (all others).
//! `kept` gives the kept equalities of a set in a turn. They close no cycle, and `rooted` of berge_tree makes join trees of them. A turn goes once
//! through the equalities of the set, in text order. It begins at one of them, and after the last equality it continues with the first. An equality
//! is kept if it joins two entries that the equalities kept so far don't connect. A set has `count_turns` turns, numbered from 0, and each begins at
//! a different equality.
//!
//! In contracts `local_of`, `equalities_of` and `residual_of` are the parts of the conjuncts. `turn_count` is the number of a set's turns, `kept_of`
//! has the kept equalities of a turn, and `Keeps` defines which equalities are kept.
#![tactic(auto)]

mod keeping;
mod laws;
mod naming;
mod parts;
mod splitting;

pub use keeping::{count_turns, count_within, joins_within, kept};
pub use laws::{
    conjuncts_are_in_one_part, entries_are_apart_or_connected, examples,
    kept_equalities_are_unique, kept_equalities_make_no_cycle, numbers_are_indices,
    what_joins_entries,
};
pub use parts::Parts;
pub use splitting::split;
