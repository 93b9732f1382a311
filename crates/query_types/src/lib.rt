//! The types of a query over a schema: its FROM entries, its conditions and its outputs.
//!
//! sql_parse makes queries, and every later stage takes a query. `IsQueryOf` (in `specs/Validity.antt`) lists the facts about every query that was
//! read over a schema. For example, each column that the query names exists.
#![tactic(auto)]

mod types;

pub use types::{ColumnRef, Cond, Op, Operand, Out, Query, Source};
