//! Laws of the shop's files (`demo_files`): every file that a query over the shop's schema reads is one of them.
//!
//! The schema text of the shop declares four tables (`shop_schema` in `specs/ShopSchema.antt`), and there is a file for each table. So no file is
//! absent: neither the schema's file, nor the query's file, nor the file of a table that the query names.
#![tactic(auto)]

mod laws;

pub use laws::{no_file_is_absent, the_schema_is_read};
