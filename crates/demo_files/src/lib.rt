//! The files of a shop, made in memory, so that a first run needs no files.
//!
//! `demo_store` takes a number, which shifts each order's customer, each item's order and each customer's region.
//! It returns a store with a schema, a query and the files of four tables. No read of this store fails.
//!
//! Contracts use `demo_files` (in `specs/Files.antt`), the files with their names. `specs/Shop.antt` defines the records of the tables. The law
//! `files_are_read_back` says that reading the files as CSV gives exactly these records.
//!
//! ```text
//! let store = demo_store(alloc, 7)?;
//! ```
#![tactic(auto)]

mod laws;
mod records;
mod store;
mod tables;
mod texts;

pub use laws::{examples, files_are_read_back, files_by_name};
pub use store::demo_store;
