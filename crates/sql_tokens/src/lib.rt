//! The lexer of schema and query texts (SQL-92 5.1 to 5.3, in this profile): their tokens, and the terminals of tokens for the grammars.
//!
//! `tokens` finds the tokens of a text, or the byte of its first error. `lexemes` gives each token its terminal. `name`, `literal` and `number` read
//! a single token.
//!
//! Contracts use `IsLexed` (the tokens of a text) and `IsBad` (the byte of its first error). For single tokens contracts use `lexeme_of`,
//! `IsLexemeOf` (a lexeme lies in the text), `name_of`, `literal_text_of` and `number_of`. The laws are functions without a body.
#![tactic(auto)]

mod keywords;
mod laws;
mod lexer;
mod names;
mod pieces;
mod runs;
mod terminals;
mod token;

pub use laws::{
    no_error_with_tokens, one_offence, one_reading, tokens_are_in_order, tokens_are_longest,
    tokens_have_forms, tokens_or_error_of_text,
};
pub use lexer::tokens;
pub use names::{literal, name, number};
pub use terminals::lexemes;
pub use token::{LexError, Token, TokenKind};
