//! Laws that follow from the top call's definitions. No law computes anything; its contract is the law. The laws are for readers of the
//! proofs: no command of the program calls them.
//!
//! - `laws` states again, for readers, facts from which the headline is proved. A verdict has no bound that is too low. The rows that it prints are the answer.
//!   It never refuses because memory ran out.
//! - `corollaries` has laws that follow from the headline and the verdict.
//! - `from_files` compares plans from statistics files with plans from tables.
//! - `appends` says for which rows the file that `append` writes stands.
//! - `file_plans` is about the bounds of plans from the bytes of statistics files. Each of its laws is about two or more whole calls, each with its
//!   words, its files and its streams. Two calls are connected only by the bytes that one call wrote and the other read, and by the schema that
//!   both calls read.
//! - `written_files` has the facts from which `file_plans` is proved. A file after an append keeps the rules. Whether a file stands for
//!   tables doesn't depend on the query that names them.
#![tactic(auto)]

pub mod appends;
pub mod corollaries;
pub mod file_plans;
pub mod from_files;
pub mod laws;
pub mod written_files;
