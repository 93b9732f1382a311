//! Updates a statistics file after rows were appended to a table. The new file is made from the old file and the new rows, without reading the old
//! rows.
//!
//! In: a `StatsFile`, and the cells of the new rows of one of its tables. Out: the file after the append. To each list of that table, the compressed
//! list of those new rows that it counts is added rank by rank. Cuts and frequent values stay as they are. The time depends on the number of new rows
//! and on the length of the file, but not on the number of old rows.
//!
//! In contracts `file_after` (in `specs/Appended.antt`) is the new file, and `MayAppend` (in `specs/Conditions.antt`) is required to make it. The
//! module `laws` says which rows the new file stands for.
//!
//! ```text
//! let file = append_rows(alloc, &schema, file, table, &cells, &pool)?;   // file_after file table (rows_of_cells pool cells)
//! ```
#![tactic(auto)]

mod compare;
mod examples;
mod file;
pub mod laws;
mod lists;
mod nodes;
mod pair;
mod rest;

pub use examples::small_appends;
pub use file::append_rows;
