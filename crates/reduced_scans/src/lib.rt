//! Reduces scans by semi-joins: removes rows that lack a match across some equality, until nothing changes.
//!
//! In: a query, its database, and the list of each entry's scan. Out: for each entry the list of its reduced rows, in file order. `reduce_scans`
//! makes these lists.
//!
//! First, semi-joins remove rows that have no match in the scans. A semi-join does so only if the values on the other side of the equality lie in a
//! short range. Then each remaining row is linked to the values that it gives and needs, and a worklist removes the rows whose last match was
//! removed.
//!
//! The contract is `AreReducedScans`; `reduced_of` gives the reduced scans as a function. The laws say: there is exactly one family of reduced scans,
//! repeated rounds reach it, and no row of the answer is lost.
#![tactic(auto)]

mod equality_values;
mod laws;
mod reducing;
mod semi_joins;
mod value_sets;
mod wiring;

pub use laws::{no_row_of_the_answer_is_lost, one_reduction, reduced_scans_are_by_rounds};
pub use reducing::reduce_scans;
