//! Takes the row bounds and lists of a query's entries from their statistics.
//!
//! In: a query with the parts of its conjuncts (`Parts` of join_graph), and the statistics of its entries. Out: for each FROM entry a row bound of
//! its scan, and a list for each of its joined columns. From these the crate set_bounds makes the bounds of all sets of entries.
//!
//! In contracts `HasStatistics` says which counts and lists (`Statistics`) a `QueryStats` has, and `StandFor` says that they bound tables.
//! `scan_bounds` and `set_bounds` are the bounds.
#![tactic(auto)]

mod bounds;
mod examples;
mod laws;
mod lists;

pub use bounds::scans_of;
pub use examples::pairs;
pub use laws::unfiltered_bounds_are_near;
pub use lists::entry_lists;
