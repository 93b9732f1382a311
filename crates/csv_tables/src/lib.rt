//! Reads the bytes of CSV files into cells, and their texts into a pool.
//!
//! This is the stage after the schema is read. A table file is read record by record (RFC 4180, as the crate `csv` reads it). A file without a
//! quotation mark takes a faster path, which gives the same records. Each field of a declared column becomes one cell of 8 bytes. The cell of a
//! number has its bits; the cell of a text has the text's number in the pool, which has each text once. Then declared keys are checked.
//!
//! Contracts use `rows_of_file` (in `specs/Files.antt`), which says which rows a file has or why it is refused. They also use `rows_of_cells` and
//! `AreCellsOf` (in `specs/Cells.antt`), which give the values of cells. In contracts a `Pool` is the list of its texts. `compare_texts` gives the
//! order of texts.
#![tactic(auto)]

mod cases;
mod cell;
mod fields;
mod header;
mod keys;
mod number;
mod number_rows;
mod order;
mod plain;
mod pool;
mod records;
mod rows;
mod table;
mod types;

pub use cases::examples;
pub use cell::{cell_of, value_of};
pub use order::compare_texts;
pub use pool::Pool;
pub use table::read_table;
pub use types::{Cells, Database, TableError};
