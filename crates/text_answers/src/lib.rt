//! The results of reading a schema text and a query text, as functions of the text.
//!
//! The contracts of `read_schema` and `read_query` are relations between a text and its result. They leave open only whether a call runs out of
//! memory. If it doesn't, the results are `schema_answer` (in `specs/SchemaTexts.antt`) and `query_answer` (in `specs/QueryTexts.antt`). Callers use
//! these definitions if they need a value. The laws say that the relations allow these results and no others.
#![tactic(auto)]

mod examples;
mod laws;

pub use examples::{small_queries, small_schemas};
pub use laws::{query_limits, query_texts, schema_texts};
