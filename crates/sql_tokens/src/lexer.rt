//! Finds the tokens of a text, from its first byte to its last.
ghost use Rattle.std.specs.Prelude.{◌≡◌, ◌+◌, ◌<◌, ◌≤◌, length, IfOk, IfErr, All};
ghost use Rattle.limits.specs.Profile.{most_text};
ghost use Rattle.sql_tokens.specs.Words.{IsTokenOf};
ghost use Rattle.sql_tokens.specs.Pieces.{tokens_at, IsResultOf};
ghost use Rattle.sql_tokens.specs.Lexing.{byte_order_mark_len, IsLexed, IsRefusal, TokensAreInOrder};

use crate::pieces::{TextPiece, piece_at};
use crate::{LexError, Token};
use base_io::Seq;
use std::alloc::Global;

/// The tokens of the bytes `text`, or the byte of the first error. The first of the bytes is byte `start` of the whole text.
#[tactic(auto, using(crate::proofs::Walk::walk_separator, crate::proofs::Walk::walk_token, crate::proofs::Walk::walk_wrong, crate::proofs::Walk::walk_done, crate::proofs::Walk::walk_start))]
fn tokens_from(alloc: Global, start: u32, text: &[u8]) -> Result<Seq<Token>, LexError>
    requires { start + length text.now ≤ most_text }
    ensures { IsResultOf result (tokens_at start text.now) }
{
    let mut tokens = Seq::new(alloc);
    let mut rest = text;
    let mut at = start;
    'pieces: while let Some((first, tail)) = rest.split_first() {
        match piece_at(*first, tail) {
            TextPiece::Separator(n) => {
                rest = rest.split_at(n).1;
                at += n as u32;
            }
            TextPiece::Token(kind, n) => {
                tokens.push(Token {
                    kind,
                    start: at,
                    end: at + n as u32,
                })?;
                rest = rest.split_at(n).1;
                at += n as u32;
            }
            TextPiece::Wrong(offset) => {
                return Err(LexError::Bad {
                    at: at + offset as u32,
                });
            }
        }
    }
    Ok(tokens)
}

/// The length of the byte order mark at the very start, or 0 without a mark.
fn byte_order_mark_len_of(text: &[u8]) -> usize
    ensures value { result ≡ byte_order_mark_len text.now }
    ensures within { result ≤ length text.now }
    ensures small { result ≤ 3 }
{
    match text {
        [0xef, 0xbb, 0xbf, ..] => 3,
        _ => 0,
    }
}

/// The tokens of a text. A byte order mark at the very start is skipped, but offsets count its bytes.
///
/// Bytes that aren't UTF-8 are refused before anything else, at the first byte of the first bad sequence. Otherwise the text is refused at the first
/// of these errors:
/// - a character that begins no token, at this character;
/// - a quote that is never closed, or a delimited identifier without characters, at the opening quote;
/// - a control character in a delimited identifier, at this character.
pub fn tokens(alloc: Global, text: &[u8]) -> Result<Seq<Token>, LexError>
    requires { length text.now ≤ most_text }
    ensures ok { IfOk result (λ found. IsLexed text.now found) }
    ensures bad { IfErr result (λ error. IsRefusal text.now error) }
    ensures in_order { IfOk result (λ found. TokensAreInOrder 0 (length text.now) found) }
    ensures within { IfOk result (λ found. All (IsTokenOf text.now) found) }
{
    match std::str::from_utf8(text) {
        Ok(_) => {
            let start = byte_order_mark_len_of(text);
            tokens_from(alloc, start as u32, &text[start..])
        }
        Err(error) => Err(LexError::Bad {
            at: error.valid_up_to() as u32,
        }),
    }
}
