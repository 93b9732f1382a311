//! Formal languages over tokens, and predictive parsers of them: the theory on which the grammars of schema and query texts are built.
//!
//! A language relates lists of tokens to the values that they spell. It is built from single terminals (`one`) by sequence (`▸`), choice (`∪`),
//! option (`maybe`) and repetition (`many`). A viable prefix is the beginning of some list that spells a value. A list that spells
//! no value has a syntax error (`IsSyntaxErrorAt`): the first token after the longest viable prefix of this list. So the error's place depends on the
//! language, and not on a parser.
//!
//! A grammar's crate writes each rule four times:
//!
//! - as a language;
//! - as a parser, with a combinator for each combinator of the language (`read_then` for `▸`, `read_either` for `∪`, ..);
//! - as a proof that the parser reads the language (`Parses`), by the lemmas of `proofs/Combined`; their conditions are those of an LL(1) grammar;
//! - as a function over `Reader`, whose contract (`IsReadAs`) says that it gives what the parser gives.
//!
//! `proofs/Loops` has lemmas for the loops of these functions, and `proofs/Ends` for the clauses of the call that reads a whole text.
//!
//! ```text
//! fn next_name(reader: &mut Reader<'_>) -> Result<Lexeme, Stop>
//!     ensures { IsReadAs result reader.new (read_next_name reader.old) }
//! {
//!     reader.one(COMMA)?;
//!     reader.one(NAME)
//! }
//! ```
#![tactic(auto)]

mod lexeme;
mod reader;
mod stop;
mod syntax_error;
mod terminal;

pub use lexeme::Lexeme;
pub use reader::Reader;
pub use stop::Stop;
pub use syntax_error::SyntaxError;
pub use terminal::{NAME, Terminal, is_among};
