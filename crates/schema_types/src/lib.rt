//! Reads the bytes of a schema file into a schema.
//!
//! This is the first stage after the files are read. It finds the tokens of a text (`sql_tokens`) and the tables that they spell (`schema_grammar`).
//! Then it checks names, nullability and limits. `IsSchemaOf` (in `specs/Texts.antt`) says which results a text may have. `IsValid` (in
//! `specs/Validity.antt`) says what is true of every schema that was read. Later stages use `NameList` too: a list of names that finds the index of a
//! name.
#![tactic(auto)]

mod answer;
mod build;
mod elements;
mod errors;
mod index;
mod laws;
mod lists;
mod name_list;
mod names;
mod nullability;
mod read;
mod references;
mod schema;
mod scope;
mod size_limits;
mod types;

pub use errors::{LimitKind, SchemaError};
pub use laws::{one_answer, schemas_are_valid};
pub use name_list::NameList;
pub use read::read_schema;
pub use sql_tokens::{LexError, Token, TokenKind, tokens};
pub use types::{Column, Kind, Reference, Schema, Table};
