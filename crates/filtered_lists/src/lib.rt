//! The definition of a filtered entry's list: how the entry's own conjuncts combine the lists of its statistics. A law
//! says that the result dominates the keys of the rows in the entry's scan.
//!
//! In: conjuncts, and lists for a joined column of an entry (`ColumnLists`). One list is for all rows, one for the rows
//! with each value of a filter column, and one for the rows in each range of a filter column. Out: definitions and laws;
//! `predicate_bounds` computes the lists. NOT is pushed down to the comparisons, and the ranges of one column in an AND become one range. AND
//! takes the least running sum at each rank; OR adds the lists rank by rank. Last, the list of all rows limits the result.
//!
//! In contracts `filtered_list` and `row_bound` are the list and the row bound of a filtered entry. `ListsStandFor` and `CountsStandFor` say
//! when statistics stand for the entry's table.
#![tactic(auto)]

mod examples;
mod laws;

pub use examples::{comparisons, conditions, tables};
pub use laws::{filters_are_never_under, filters_stay_within_the_whole, row_bounds_are_sums};
