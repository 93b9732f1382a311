//! Writes statistics files, which have the conditional statistics of tables, and defines their text.
//!
//! A `StatsFile` has a section for each table. The section has the table's number of rows, and all lists for each pair of a filter column and a
//! joined column. The command `stats` writes such files; `plan --stats` and `append` read them.
//!
//! In contracts `KeepsRules` (in `specs/Rules.antt`) has the rules on the values of a file, and `file_text` (in `specs/FileText.antt`) is the file's
//! only text. `IsAllowedResult` (in `specs/Answers.antt`) says which results a reader may return for the bytes of a file.
//!
//! ```text
//! write_stats(&file, &schema, sink)?;
//! ```
#![tactic(auto)]

mod cases;
mod laws;
mod parts;
mod types;
mod write;

pub use cases::examples;
pub use laws::{texts_are_grammatical, words_are_grammatical};
pub use types::{Datum, PairStats, StatsError, StatsFile, TableStats};
pub use write::write_stats;
