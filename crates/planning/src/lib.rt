//! Finds the best order of a query's entries from its database, with the bounds of scans and levels.
//!
//! In: a query and the tables of its entries. Each entry gets a row bound, and each of its joined columns a degree sequence. They are made from
//! statistics of the entry's table (`from_statistics`), or from a list of its rows, such as its reduced scan (`from_reduced`). Then `bounds_from`
//! makes the bounds of all sets of entries, a `QueryBounds`. By these bounds `plan_from` chooses the order of least cost. Out: the plan, or why no
//! plan is within the budget. `from_reduced` returns the reduced scans too, since the plan's levels are joined from them.
//!
//! In contracts `HasBounds` says which bounds a `QueryBounds` has, and `planned_from` (in `specs/Plans.antt`) is the resulting plan. `planned`,
//! `planned_over` and `planned_reduced` are plans from statistics, from lists of rows and from reduced scans. Each is a function of the query, its
//! tables as rows of values, the accuracy and the budget. `planned_over` has the lists as a further argument. The laws say that no bound of a plan is
//! too low.
//!
//! ```text
//! let known = from_statistics(alloc, &query, &db, accuracy)?;
//! let plan = plan_from(alloc, &known, budget)?;
//! let Reduced { known, lists } = from_reduced(alloc, &query, &db, accuracy)?;
//! ```
#![tactic(auto)]

mod examples;
mod known;
pub mod laws;
pub mod list_laws;
mod lists;
mod reduced;
pub mod reduced_examples;
mod rows;
mod scans;
mod sources;

pub use examples::small_plans;
pub use known::{QueryBounds, bounds_from, plan_from};
pub use reduced::{Reduced, from_reduced, reduced_lists};
pub use scans::scan_entries;
pub use sources::{from_given_statistics, from_rows, from_statistics};
