//! The statistics of a query's tables, as definitions over plain rows. They are lists and row counts for a filter column and a joined column of an
//! entry's table. Bounds are made from these lists and counts (SafeBound, SIGMOD 2023).
//!
//! Only the definitions of `specs/Cells.antt` know of cells or of a pool of texts. Where a value has to be a number, it is the number of the first
//! row that has the value. Two laws say that columns of cells have the same lists, and that the lists stand for the tables.
//!
//! In: tables as lists of rows. Out: definitions and laws; nothing here runs. In contracts `column_lists` and `entry_counts` (in
//! `specs/Statistics.antt`) are the statistics. `SeparatesValues` (in `specs/Keys.antt`) is about keys of rows, and `IsCellFor` (in
//! `specs/Cells.antt`) about the cell of a literal. `laws` has the laws, and `examples` works out a table of six rows.
#![tactic(auto)]

pub mod examples;
pub mod laws;
