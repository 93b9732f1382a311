//! Tokens, and the errors of the lexer.
ghost use Rattle.std.specs.Prelude.{◌≡◌};
ghost use Rattle.sql_tokens.specs.declared.token.LexError.TheVariants as error;

use base_io::NoMemory;

/// The kind of a token (SQL-92 5.2 to 5.3): an identifier or key word, a delimited identifier, an unsigned integer, a character string literal, or a
/// sign.
#[derive(Clone, Copy, Debug, PartialEq, Eq)]
pub enum TokenKind {
    Word,
    Quoted,
    Number,
    Text,
    Symbol,
}

/// A token of a text: its kind, and its bytes in the text, from `start` to `end`. Byte `end` isn't included.
#[derive(Clone, Copy, Debug)]
pub struct Token {
    pub kind: TokenKind,
    pub start: u32,
    pub end: u32,
}

/// Why the lexer found no tokens.
#[derive(Clone, Copy, Debug, PartialEq, Eq)]
pub enum LexError {
    /// The first error of the text is at this byte.
    Bad { at: u32 },
    /// Memory ran out.
    NoMemory,
}

impl From<NoMemory> for LexError {
    ghost from_gives = { λ _ e. e ≡ error.NoMemory };

    fn from(_: NoMemory) -> LexError {
        LexError::NoMemory
    }
}
