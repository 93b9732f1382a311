//! The result of reading the text of a statistics file, as a function of the text and a schema.
//!
//! The contract of `read_stats` is a relation between a text and a result. It leaves open only whether the call runs out of memory. If the call
//! doesn't, the result is `stats_answer` (in `specs/StatsTexts.antt`). The laws say that the relation allows this result, and no other result except
//! that memory ran out.
#![tactic(auto)]

mod examples;
mod laws;

pub use examples::small_texts;
pub use laws::{schemas_have_byte_columns, stats_texts};
