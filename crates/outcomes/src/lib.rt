//! How a run and its steps may end: refusals of the input, early ends of a reading, and statuses. The crate also
//! says what a step that reads promises.
//!
//! A `Refusal` says what is wrong with the words of the command line, or with a file. It follows only from words and files. A step that
//! reads may stop with a `Failure`: a refusal, a failed read with its file, or too little memory. A run ends with a `Status`.
//!
//! In contracts `status_of_failure` and `code_of` (in `specs/Statuses.antt`) give the status of a failure and the exit status. `Reads` (in
//! `specs/Reads.antt`) is the promise of a step that reads from a store. The law `then_reads` chains two steps that read. For steps that
//! write there are `Wrote` and `WroteBuffered` of base_io.
#![tactic(auto)]

mod failure;
mod names;
mod refusal;
mod status;

pub use failure::{Failure, table_failure};
pub use names::{FileId, SinkId};
pub use refusal::{QueryCause, Refusal, SchemaCause, StatsCause, TableCause};
pub use status::{NO_MEMORY, NO_WORDS, Status};
