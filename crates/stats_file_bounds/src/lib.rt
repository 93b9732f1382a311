//! Computes the bounds of a query from a statistics file, without the query's tables.
//!
//! In: a query, and a `StatsFile` that keeps the rules. Out: the `QueryStats` for the query's bounds, in the form in which gathered_stats makes them
//! from tables; and a `QueryBounds` with the bounds of all sets and scans, by which a plan is chosen. If the file lacks a section or a pair that an
//! entry needs, the error names the first such FROM entry.
//!
//! In contracts `stats_file_statistics` (in `specs/FileStatistics.antt`) are the statistics that a file gives. `first_missing` (in
//! `specs/Found.antt`) is the first entry for which the file lacks something. `set_bounds_of_file` and `scan_bounds_of_file` (in `specs/Bounds.antt`)
//! are the bounds. If a file stands for tables, no bound from it is too low for these tables; the module `laws` says this.
//!
//! ```text
//! let stats = query_stats(alloc, &query, &parts, &file)?;  // Tells query stats (stats_file_statistics query file)
//! let known = from_file(alloc, &query, &file)?;            // HasBounds (set_bounds_of_file query file) ..
//! ```
#![tactic(auto)]

mod answers;
mod compare;
mod entry;
mod errors;
mod examples;
mod find;
pub mod laws;
mod sources;
mod stats;

pub use errors::NeedError;
pub use examples::{small_files, small_plans};
pub use sources::from_file;
pub use stats::query_stats;
