//! Reads the bytes of a query file into a query over a schema, or finds the first refusal.
//!
//! This is the stage after the schema is read (`schema_types`). Other crates find the tokens of the text (`sql_tokens`), build the syntax tree
//! (`query_grammar`), and resolve names and conditions (`query_names`). This crate reads outputs, tests limits, and decides which refusal comes
//! first. The result is a `Query` of `query_types`.
//!
//! Contracts use three definitions. `IsAnswer` (in `specs/Reading.antt`) says which results a text may have, and gives each refusal with its offset.
//! The law `one_answer` says that only one result is possible, unless memory runs out. `query_or_refusal` (in `specs/QueryOrRefusal.antt`) is the
//! query of a syntax tree over a schema, or the first refusal. Every query that was read satisfies `IsQueryOf` (of `query_types`). So a caller writes
//!
//! ```text
//! let query = read_query(alloc, &schema, text)?;    // of a text of at most MOST_TEXT bytes
//! ```
//!
//! over a schema that `read_schema` gave, and knows `IsQueryOf schema query` from there on.
#![tactic(auto)]

mod binding;
mod clauses;
mod joins;
mod laws;
mod number_range;
mod outputs;
mod parts;
mod query_limits;
mod read;
mod select_list;

pub use laws::{of_schema, one_answer};
pub use query_names::QueryError;
pub use read::read_query;
