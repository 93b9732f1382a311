//! Reads names, text literals and numbers from their tokens.
ghost use Rattle.std.specs.Prelude.{◌≡◌, ◌<◌, ◌-◌, ◌^◌, IfOk, min, string_bytes};
ghost use Rattle.sql_tokens.specs.Words.{IsLexemeOf, slice, name_of, literal_text_of, number_of, unquoted, name_of_bytes, literal_of_bytes};

use base_io::{Name, NoMemory};
use ll_grammars::Lexeme;
use std::alloc::Global;

/// The bytes of a token in the text.
fn bytes_of_token<'a>(text: &'a [u8], lexeme: &Lexeme) -> &'a str
    requires { IsLexemeOf text.now lexeme.now }
    ensures { result.now ≡ slice text.now lexeme.now.start lexeme.now.end }
{
    match std::str::from_utf8(&text[lexeme.start as usize..lexeme.end as usize]) {
        Ok(part) => part,
        Err(_) => unreachable!(),
    }
}

/// The characters before the closing quote. Two quotes in a row are read as one.
#[tactic(auto, using(crate::proofs::Unquoting::unquoted_step, crate::proofs::Unquoting::unquoted_end, crate::proofs::Unquoting::unquoted_whole))]
fn unquote(alloc: Global, quote: char, text: &str) -> Result<String, NoMemory>
    requires { quote < 128 }
    ensures { IfOk result (λ found. string_bytes found ≡ unquoted quote text.now) }
{
    let mut found = String::new(alloc);
    let mut rest = text;
    'quotes: while let Some((before, after)) = rest.split_once(quote) {
        found.push_str(before)?;
        match after.strip_prefix(quote) {
            None => return Ok(found),
            Some(more) => {
                found.push(quote)?;
                rest = more;
            }
        }
    }
    found.push_str(rest)?;
    Ok(found)
}

fn name_text(alloc: Global, bytes: &str) -> Result<String, NoMemory>
    ensures { IfOk result (λ found. string_bytes found ≡ name_of_bytes bytes.now) }
{
    match bytes.strip_prefix('"') {
        Some(rest) => unquote(alloc, '"', rest),
        None => Ok(bytes.to_ascii_uppercase(alloc)?),
    }
}

fn literal_text(alloc: Global, bytes: &str) -> Result<String, NoMemory>
    ensures { IfOk result (λ found. string_bytes found ≡ literal_of_bytes bytes.now) }
{
    match bytes.strip_prefix('\'') {
        Some(rest) => unquote(alloc, '\'', rest),
        None => Ok(String::from_str(alloc, bytes)?),
    }
}

/// The name that a token spells (SQL-92 5.2): a word in upper case, or the characters of a delimited identifier as they are written, without the
/// outer quotes. Two quotes in a row are read as one.
#[tactic(auto, unfolding(crate::specs::Words::name_of))]
pub fn name(alloc: Global, text: &[u8], lexeme: &Lexeme) -> Result<Name, NoMemory>
    requires { IsLexemeOf text.now lexeme.now }
    ensures { IfOk result (λ name. name ≡ name_of text.now lexeme.now) }
{
    let found = name_text(alloc, bytes_of_token(text, lexeme))?;
    Name::from_str(alloc, found.as_str())
}

/// The characters of a text literal (SQL-92 5.3). Two quotes in a row are read as one.
#[tactic(auto, unfolding(crate::specs::Words::literal_text_of))]
pub fn literal(alloc: Global, text: &[u8], lexeme: &Lexeme) -> Result<Name, NoMemory>
    requires { IsLexemeOf text.now lexeme.now }
    ensures { IfOk result (λ name. name ≡ literal_text_of text.now lexeme.now) }
{
    let found = literal_text(alloc, bytes_of_token(text, lexeme))?;
    Name::from_str(alloc, found.as_str())
}

/// The value of a number, or `u64::MAX` if the value is larger.
#[tactic(auto, using(crate::proofs::Digits::one_digit_more, crate::proofs::Digits::no_digit_more), unfolding(crate::specs::Words::number_of))]
pub fn number(text: &[u8], lexeme: &Lexeme) -> u64
    requires { IsLexemeOf text.now lexeme.now }
    ensures { result ≡ min (number_of (slice text.now lexeme.now.start lexeme.now.end)) (2 ^ 64 - 1) }
{
    let digits = &text[lexeme.start as usize..lexeme.end as usize];
    let mut value: u64 = 0;
    'all: for digit in digits {
        value = value
            .saturating_mul(10)
            .saturating_add(u64::from(digit.saturating_sub(b'0')));
    }
    value
}
