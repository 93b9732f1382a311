//! How deep the parentheses of a query text are nested.
ghost use Rattle.std.specs.Prelude.{◌≡◌, ◌+◌, ◌<◌, ◌^◌};
ghost use Rattle.query_grammar.specs.Nesting.{nesting, open_after};

use crate::terminals::{CLOSE, OPEN};
use ll_grammars::{Lexeme, is_among};

/// The most parentheses that may be open at once in a query text.
pub const MAX_NESTING: u32 = 64;

/// How many parentheses are open after `token`, if `opened` parentheses are open before it.
fn open_behind(opened: u64, token: Lexeme) -> u64
    requires { opened + 1 < 2 ^ 64 }
    ensures { result ≡ open_after opened token }
{
    if is_among(token.terminal, OPEN) {
        opened + 1
    } else if is_among(token.terminal, CLOSE) {
        opened.saturating_sub(1)
    } else {
        opened
    }
}

/// The greatest number of parentheses that are open at once. A `)` without an open `(` closes nothing. Parentheses around
/// the values of IN count too.
pub fn nesting(tokens: &[Lexeme]) -> u64
    ensures { result ≡ nesting tokens.now }
{
    let mut open = 0;
    let mut greatest = 0;
    for token in tokens {
        open = open_behind(open, *token);
        greatest = greatest.max(open);
    }
    greatest
}
