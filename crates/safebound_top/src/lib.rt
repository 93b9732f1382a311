//! The top call: from the words of a command line to the bytes of two streams.
//!
//! The top call calls the stages one after another, and does nothing else. `read_words` finds the command in the words. `load_schema` and
//! `prepare_run` read every file, plan, take all memory of the run, and write nothing. `write_outcome` writes the plan text and then the rows text or
//! the audit text, or it writes the text of a statistics file. Writing allocates no memory. If the status isn't `Done`, `write_fault` writes one line
//! that reports the status.
//!
//! `safebound` has four clauses:
//!
//! - `promise` says what `run` has printed when it ends with Done. The clause speaks only of words, files and SQL (`Promise` in
//!   `specs/Promise.antt`).
//! - `headline` says what any call writes and returns, and why (`Headline` in `specs/Headline.antt`).
//! - `untouched` says that `demo` doesn't change the caller's store.
//! - `buffers` says that the joins wrote into the buffers of the plan, and that these buffers have exactly the plan's bytes
//!   (`KeepsItsBuffers` of prepared_runs). The call hands the buffers out.
//!
//! The headline speaks of `verdict` (of prepared_runs): what the words and the files determine. Each step that reads has the clause `Reads`
//! over its stage of the verdict, and `StageRan` and `CallHistory` (in `specs/CallHistory.antt`) put the stages together.
#![tactic(auto)]

mod report;
mod texts;
mod top_call;

pub use outcomes::{
    FileId, NO_MEMORY, NO_WORDS, QueryCause, Refusal, SchemaCause, SinkId, StatsCause, Status,
    TableCause,
};
pub use prepared_runs::Joined;
pub use report::write_fault;
pub use safebound_words::{
    Command, ListSource, NewRows, OutText, PlanTerms, PlanWork, QueryTask, SchemaTask, Shape, Word,
    WordsError, read_words,
};
pub use top_call::{refuse_words, safebound};
