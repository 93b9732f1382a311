//! Splits bytes without a quotation mark into CSV records: each line is a record, split at commas.
#![tactic(auto)]

mod laws;
mod lines;
mod quotes;

pub use laws::plain_records_are_records;
pub use lines::{Line, ends_field, field_end, line_at, skip_line_ends};
pub use quotes::scan;
