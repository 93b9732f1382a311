//! What a text begins with: a separator, a token or an error.
ghost use Rattle.std.specs.Prelude.{◌≡◌, ◌∷◌, ◌+◌, ◌<◌, ◌≤◌, length, slice_index, IfSome};
ghost use Rattle.limits.specs.Profile.{most_text};
ghost use Rattle.sql_tokens.specs.Tokens.{is_blank, is_one_byte_symbol, is_two_byte_symbol};
ghost use Rattle.sql_tokens.specs.Pieces.{closing_length, identifier, literal, symbol, piece, Fits};

use crate::TokenKind;
use crate::runs::ByteClass;

/// What a text begins with. A separator or a token has its number of bytes. An error (`Wrong`) has the number of bytes before it.
#[derive(Clone, Copy, Debug)]
pub enum TextPiece {
    Separator(usize),
    Token(TokenKind, usize),
    Wrong(usize),
}

/// The number of bytes up to and including the closing quote.
#[tactic(auto, using(crate::proofs::Closing::closed_keeps_one, crate::proofs::Closing::closed_keeps_two, crate::proofs::Closing::closed_last, crate::proofs::Closing::closed_here, crate::proofs::Closing::closed_never))]
fn closed_len(quote: u8, bytes: &[u8]) -> Option<usize>
    ensures value { result ≡ closing_length quote bytes.now }
    ensures within { IfSome result (λ n. (1 ≤ n) × (n ≤ length bytes.now)) }
{
    let mut n = 0;
    'all: while n < bytes.len() {
        if bytes[n] != quote {
            n += 1;
        } else if n + 1 == bytes.len() {
            return Some(n + 1);
        } else if bytes[n + 1] != quote {
            return Some(n + 1);
        } else {
            n += 2;
        }
    }
    None
}

#[tactic(auto, unfolding(crate::specs::Pieces::identifier))]
fn identifier_piece(rest: &[u8]) -> TextPiece
    requires { length rest.now < most_text }
    ensures value { result ≡ identifier rest.now }
    ensures fits { Fits result (length rest.now + 1) }
{
    match closed_len(b'"', rest) {
        None => TextPiece::Wrong(0),
        Some(n) => {
            if n == 1 {
                return TextPiece::Wrong(0);
            }
            let plain = ByteClass::NotControl.len(rest);
            if plain < n {
                TextPiece::Wrong(plain + 1)
            } else {
                TextPiece::Token(TokenKind::Quoted, n + 1)
            }
        }
    }
}

#[tactic(auto, unfolding(crate::specs::Pieces::literal))]
fn literal_piece(rest: &[u8]) -> TextPiece
    requires { length rest.now < most_text }
    ensures value { result ≡ literal rest.now }
    ensures fits { Fits result (length rest.now + 1) }
{
    match closed_len(b'\'', rest) {
        None => TextPiece::Wrong(0),
        Some(n) => TextPiece::Token(TokenKind::Text, n + 1),
    }
}

fn is_blank_byte(byte: u8) -> bool
    ensures { result ≡ is_blank byte }
{
    byte == b' ' || byte == b'\t' || byte == b'\r' || byte == b'\n'
}

fn is_two_byte_symbol(first: u8, second: u8) -> bool
    ensures { result ≡ is_two_byte_symbol first second }
{
    (first == b'<' && second == b'>')
        || (first == b'<' && second == b'=')
        || (first == b'>' && second == b'=')
}

fn is_one_byte_symbol(byte: u8) -> bool
    ensures { result ≡ is_one_byte_symbol byte }
{
    byte == b'='
        || byte == b'<'
        || byte == b'>'
        || byte == b'('
        || byte == b')'
        || byte == b','
        || byte == b'.'
        || byte == b';'
        || byte == b'*'
        || byte == b'+'
        || byte == b'-'
}

fn first_or_zero(bytes: &[u8]) -> u8
    ensures value { result ≡ slice_index bytes.now 0 }
    ensures one { (0 < result) → 0 < length bytes.now }
{
    if bytes.is_empty() { 0 } else { bytes[0] }
}

#[tactic(auto, unfolding(crate::specs::Pieces::symbol))]
fn symbol_piece(first: u8, rest: &[u8]) -> TextPiece
    ensures value { result ≡ symbol first rest.now }
    ensures fits { Fits result (length rest.now + 1) }
{
    let second = first_or_zero(rest);
    if is_two_byte_symbol(first, second) {
        TextPiece::Token(TokenKind::Symbol, 2)
    } else if is_one_byte_symbol(first) {
        TextPiece::Token(TokenKind::Symbol, 1)
    } else {
        TextPiece::Wrong(0)
    }
}

/// What a text begins with, given its first byte and the other bytes.
#[tactic(auto, unfolding(crate::specs::Pieces::piece))]
pub fn piece_at(first: u8, rest: &[u8]) -> TextPiece
    requires { length rest.now < most_text }
    ensures value { result ≡ piece (first ∷ rest.now) }
    ensures fits { Fits result (length rest.now + 1) }
{
    if is_blank_byte(first) {
        TextPiece::Separator(1)
    } else if first.is_ascii_alphabetic() {
        TextPiece::Token(TokenKind::Word, ByteClass::Word.len(rest) + 1)
    } else if first.is_ascii_digit() {
        TextPiece::Token(TokenKind::Number, ByteClass::Digits.len(rest) + 1)
    } else if first == b'"' {
        identifier_piece(rest)
    } else if first == b'\'' {
        literal_piece(rest)
    } else if first == b'-' && first_or_zero(rest) == b'-' {
        TextPiece::Separator(ByteClass::NotLineFeed.len(rest) + 1)
    } else {
        symbol_piece(first, rest)
    }
}
