//! A run up to its first written byte: the outcome that words and files determine, and everything that is read, planned and reserved before.
//!
//! The top call (in `safebound_top`) uses this crate, and writes what the crate prepares. `load_schema` and `prepare_run` read every file,
//! plan, and take all memory of the run. They write nothing. `join` lists the rows of a plan in the memory that was taken. `open_shop` makes
//! the files that `demo` reads.
//!
//! Contracts use `verdict` (in `specs/Verdict.antt`). The verdict is computed in stages, from the words to the plan. It is a `RunOutcome` or a
//! refusal. Each function that reads has the clause `Reads` over its stage of the verdict. The result of `prepare_run` can be written without further
//! memory (`CanBeWritten` in `specs/PreparedRun.antt`).
//!
//! ```text
//! let schema = load_schema(alloc, store, &command.schema_file)?;
//! let ready = prepare_run(alloc, store, &command.schema_task, &schema)?;    // nothing is written so far
//! ```
#![tactic(auto)]

mod append;
mod files;
mod joined;
mod limit;
mod prepare;
mod scans;
mod shapes;
mod shop;
mod stats_files;

pub use append::PreparedAppend;
pub use files::load_schema;
pub use joined::{Joined, join};
pub use prepare::{PendingOutput, PreparedQuery, PreparedRun, prepare_run};
pub use scans::Joins;
pub use shapes::Room;
pub use shop::{Shop, open_shop};
pub use stats_files::{PreparedStatsFile, PreparedStatsFilePlan};
