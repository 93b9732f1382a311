//! Makes the statistics file of a query, with the statistics that the query's bounds need. For each table of the query, the file has the number of
//! rows, and all lists of each needed pair. A pair is a filter column and a joined column.
//!
//! In: a query over its schema, and its database. Out: a `StatsFile`, whose text `write_stats` of stats_file writes. Each filter column is sorted
//! once, for all needed pairs in which it is.
//!
//! In contracts `needs_of`, `pairs_of` and `needed` (in `specs/Needs.antt`) say what an entry needs, and `file_of_query` (in `specs/Files.antt`) is
//! the file. `StandsFor` (in `specs/Standing.antt`) says when a file stands for tables.
//!
//! ```text
//! let needs = needs_of(alloc, steps, equalities, 0)?;                    // needs ≡ needs_of query 0
//! needs.add_pairs(&mut pairs)?;                                          // pairs ≡ pairs_of needs
//! let file = stats_of(alloc, &schema, &query, &db, Accuracy::of(1))?;    // file ≡ file_of_query schema query (tables_of db) 1
//! write_stats(&file, &schema, sink)?;
//! ```
#![tactic(auto)]

mod column_pairs;
mod data;
mod examples;
mod files;
mod filters;
pub mod laws;
mod needs;
mod pairs;
mod sections;

pub use column_pairs::ColumnPair;
pub use examples::{small_files, small_needs};
pub use files::stats_of;
pub use needs::{Needs, needs_of};
pub use pairs::pair_of_columns;
