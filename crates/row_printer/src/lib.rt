//! Writes the records of a CSV text through a buffer into a sink. No function here allocates memory.
//!
//! A caller writes a record field by field. It calls `put_field` for each field, `put_comma` between two fields, and `put_record_end`
//! at the end. A record with only one field is written by `put_only_field` and `put_record_end`.
//!
//! Contracts use `field_text` and `record_text` (in `specs/Fields.antt`), which say how a field is quoted and how a record ends.
#![tactic(auto)]

mod cases;
mod field;

pub use cases::examples;
pub use field::{put_comma, put_field, put_only_field, put_record_end};
