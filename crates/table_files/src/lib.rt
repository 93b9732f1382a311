//! Reads the tables of a query from their files: the stage of a run after the query is read.
//!
//! A query has from one to twelve FROM entries. Each table that they name is read once, in the order in
//! which FROM first names it. Its file has the table's name in lower case and `.csv`. Entries of one table
//! share its cells, and all tables share one pool of texts. All files are read into the same memory, one after
//! another. This memory is freed after the last file.
//!
//! In contracts `tables_stage` (in `specs/Stage.antt`) gives the rows of each entry's table, or the first refusal. `IsReached` (in
//! `specs/Stage.antt`) says which files the stage reads. `entry_rows` and `HasCells` (in `specs/EntryTables.antt`) say what a database has for
//! each entry.
#![tactic(auto)]

mod each;
mod examples;
mod laws;
mod load;
mod numbers;
mod rows;
mod stage;
mod table;

pub use examples::{first_absent_file, order_of_tables};
pub use laws::entries_have_their_rows;
pub use load::load_file;
pub use rows::{TableRows, read_rows};
pub use stage::read_tables;
