//! The terminal of each token.
ghost use Rattle.std.specs.Prelude.{◌≡◌, map, IfOk, All};
ghost use Rattle.sql_tokens.specs.Words.{IsTokenOf, IsLexemeOf, lexeme_of, terminal_of, symbol_terminal, one_char_terminal, pair_terminal, number_terminal, is_zero_digit};
ghost use Rattle.std.specs.List.{list_all};

use crate::keywords::word_terminal;
use crate::{Token, TokenKind};
use base_io::{NoMemory, Seq};
use ll_grammars::{Lexeme, Terminal};
use std::alloc::Global;

fn sign(byte: u8) -> Terminal
    ensures { result ≡ one_char_terminal byte }
{
    match byte {
        b'<' => Terminal::Less,
        b'>' => Terminal::Greater,
        b'=' => Terminal::Equal,
        b'(' => Terminal::Open,
        b')' => Terminal::Close,
        b',' => Terminal::Comma,
        b'.' => Terminal::Dot,
        b';' => Terminal::Semicolon,
        b'*' => Terminal::Star,
        b'+' => Terminal::Plus,
        _ => Terminal::Minus,
    }
}

fn pair(first: u8, second: u8) -> Terminal
    ensures { result ≡ pair_terminal first second }
{
    if first == b'>' {
        Terminal::GreaterOrEqual
    } else if second == b'>' {
        Terminal::NotEqual
    } else {
        Terminal::LessOrEqual
    }
}

fn symbol(bytes: &[u8]) -> Terminal
    ensures { result ≡ symbol_terminal bytes.now }
{
    if bytes.len() == 2 {
        pair(bytes[0], bytes[1])
    } else if bytes.is_empty() {
        sign(0)
    } else {
        sign(bytes[0])
    }
}

/// Whether all these digits are 0.
fn is_zero(digits: &[u8]) -> bool
    ensures { result ≡ list_all is_zero_digit digits.now }
{
    'all: for digit in digits {
        if *digit != b'0' {
            return false;
        }
    }
    true
}

fn digits(bytes: &[u8]) -> Terminal
    ensures { result ≡ number_terminal bytes.now }
{
    if is_zero(bytes) {
        Terminal::Zero
    } else {
        Terminal::Number
    }
}

#[tactic(auto, unfolding(crate::specs::Words::terminal_of))]
fn terminal(kind: TokenKind, bytes: &[u8]) -> Terminal
    ensures { result ≡ terminal_of kind bytes.now }
{
    match kind {
        TokenKind::Word => word_terminal(bytes),
        TokenKind::Quoted => Terminal::Name,
        TokenKind::Number => digits(bytes),
        TokenKind::Text => Terminal::Text,
        TokenKind::Symbol => symbol(bytes),
    }
}

fn lexeme(text: &[u8], token: &Token) -> Lexeme
    requires { IsTokenOf text.now token.now }
    ensures { result ≡ lexeme_of text.now token.now }
{
    let bytes = &text[token.start as usize..token.end as usize];
    Lexeme {
        terminal: terminal(token.kind, bytes),
        start: token.start,
        end: token.end,
    }
}

/// The tokens of a text, as `Lexeme`s, which grammars take.
#[tactic(auto, using(crate::proofs::LexemeFacts::token_at, crate::proofs::LexemeFacts::lexemes_within))]
pub fn lexemes(alloc: Global, text: &[u8], tokens: &[Token]) -> Result<Seq<Lexeme>, NoMemory>
    requires { All (IsTokenOf text.now) tokens.now }
    ensures same { IfOk result (λ found. found ≡ map (lexeme_of text.now) tokens.now) }
    ensures within { IfOk result (λ found. All (IsLexemeOf text.now) found) }
{
    let mut found = Seq::new(alloc);
    'all: for token in tokens {
        found.push(lexeme(text, token))?;
    }
    Ok(found)
}
