//! Computes the bounds of all sets of a query's entries, by counting over its reduced scans.
//!
//! In: a query and its tables. Out: its reduced scans, and the bound of each set of entries by counting over these (`from_counts`).
//!
//! The laws say why plans can be chosen by these bounds (`counted_bounds_of_sets`). They hold for any lists of rows, and for any choice of the
//! conjuncts under which sets are counted (`CountsMade` of counted_bounds). No level over the lists has more rows than the bound of its set. This
//! bound is at most the bound from degree sequences of the same lists, at any accuracy. Suppose that the parts of a set are counted under all of
//! their conjuncts, and that no constant conjunct is false, as 1 = 2 is. Then the bound is the number of rows.
//!
//! In contracts `set_bounds_by_counts` gives the bounds.
#![tactic(auto)]

pub mod laws;
mod sources;

pub use sources::from_counts;
