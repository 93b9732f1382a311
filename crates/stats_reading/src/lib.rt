//! Reads a statistics file from its bytes, or names the first line that is refused.
//!
//! In: a schema and the bytes of a file. Out: the only `StatsFile` that has these bytes as its text. If no file has this text: the cause, and the
//! number of the first line that no file has after the lines before it. The contract is `IsAllowedResult` of stats_file (in `specs/Answers.antt`).
//!
//! ```text
//! let file = read_stats(alloc, &schema, bytes)?;
//! ```
#![tactic(auto)]

mod begins;
mod compare;
mod draft;
mod ends;
mod fault;
mod follows;
mod laws;
mod line;
mod read;
mod stages;
mod take;
mod takes;

pub use laws::{a_text_spells_one_file, a_written_file_is_read};
pub use read::read_stats;
