//! Computes the bound of every set of a query's entries. The order of least cost is chosen by these bounds.
//!
//! In: the equalities of the query, and for each entry its row bound and the lists of its joined columns. Row bound and lists may depend on the set
//! in which the entry is joined (`EntryListsBySet`). Out: for each set of entries, the bound of the join of exactly these entries. The bound of {0,
//! 2} has the index 5, which is 101 in binary.
//!
//! In contracts `bounds_in_sets` gives the bounds, or `bounds_of_sets` if row bounds and lists are the same in every set. The function
//! `bounds_of_sets` requires `SetHasBounds` of bound_fold for the set of all entries.
#![tactic(auto)]

mod alike;
mod cycles;
mod every_set;
mod graph;
mod in_sets;
mod laws;
mod one_set;
mod parts;

pub use every_set::{bounds_in_sets, bounds_of_sets};
pub use in_sets::{EntryListsBySet, folded_bound};
pub use laws::{
    alike_turns_have_the_same_trees, fewer_entries_close_no_cycle, one_turn_serves, parts_multiply,
};
