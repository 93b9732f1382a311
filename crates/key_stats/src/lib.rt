//! Bounds the rows of an entry by own conjuncts of another entry, which are carried along a reference to a key.
//!
//! In: an equality along which conjuncts are carried. Out: statistics of the widened table, filtered by the carrying entry's own conjuncts. The
//! widened table is the foreign-key join of the two entries: each row that refers to a row of the carrying entry, together with that row.
//!
//! In contracts `carried_list` and `carried_rows` are the results. The module `laws` says which rows they bound.
#![tactic(auto)]

mod carried;
mod laws;

pub use carried::CarriedBounds;
pub use laws::carried_lists_stand;
