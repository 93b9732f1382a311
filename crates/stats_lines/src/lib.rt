//! Decides what each line of a statistics file does. A line is taken if its words spell a value that may come next.
//!
//! `read_stats` decides this over machine numbers and texts. The definitions of this crate decide it over mathematical values, by a search among all
//! lines that may come next. So the result for each file is a value that specifications can use: `result_from` in `specs/Results.antt`, which
//! `stats_answer` of stats_answers calls for the whole text. A law says that it is a result that `read_stats` may return. Nothing in this crate runs.
#![tactic(auto)]

mod laws;

pub use laws::texts_are_answered;
