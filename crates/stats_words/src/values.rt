//! Words that are values of columns.
ghost use Rattle.std.specs.Prelude.{◌≡◌, ◌↔◌, ℕ, IfOk, IsTrue, IsUtf8, MatchOption};
ghost use Rattle.schema_types.specs.declared.types.Kind.TheVariants as kinds;
ghost use Rattle.stats_file.specs.declared.types.Datum.TheVariants as datums;
ghost use Rattle.stats_file.specs.Grammar.{IsValueWord};
ghost use Rattle.stats_file.specs.Lines.{datum_text};
ghost use Rattle.stats_file.specs.Rules.{IsOfKind};
ghost use Rattle.stats_words.specs.Words.{Spells};

use crate::hex::{hex_bytes, is_hex_word};
use crate::numbers::{is_signed_numeral, signed_number};
use base_io::{Name, NoMemory};
use schema_types::Kind;
use stats_file::Datum;
use std::alloc::Global;

/// Whether a word is a value: a numeral, perhaps with a dash before it, or a word of hexadecimal digits.
pub fn is_value_word(word: &[u8]) -> bool
    ensures { IsTrue result ↔ IsValueWord word.now }
{
    is_signed_numeral(word) || is_hex_word(word)
}

// The number that a word spells, as a value.
fn number_datum(word: &[u8]) -> Option<Datum>
    ensures { Spells datum_text (IsOfKind kinds.Int) word.now result }
{
    match signed_number(word) {
        Some(number) => Some(Datum::Int(number)),
        None => None,
    }
}

// The text of these bytes, if they are UTF-8.
fn text_of(alloc: Global, bytes: &[u8]) -> Result<Option<Datum>, NoMemory>
    ensures { IfOk result
        (λ datum. MatchOption datum (IsUtf8 bytes.now → ⊥) (λ d. IsUtf8 bytes.now × (d ≡ datums.Text bytes.now))) }
{
    match str::from_utf8(bytes) {
        Ok(text) => {
            let name = Name::from_str(alloc, text)?;
            Ok(Some(Datum::Text(name)))
        }
        Err(_) => Ok(None),
    }
}

// The text that a word spells, as a value.
fn text_datum(alloc: Global, word: &[u8]) -> Result<Option<Datum>, NoMemory>
    ensures { (most : ℕ) → IfOk result (λ datum. Spells datum_text (IsOfKind (kinds.Text most)) word.now datum) }
{
    if !is_hex_word(word) {
        return Ok(None);
    }
    let bytes = hex_bytes(alloc, word)?;
    text_of(alloc, bytes.as_slice())
}

/// The value for a column of this kind that a word spells.
pub fn datum(alloc: Global, kind: Kind, word: &[u8]) -> Result<Option<Datum>, NoMemory>
    ensures { IfOk result (λ datum. Spells datum_text (IsOfKind kind) word.now datum) }
{
    match kind {
        Kind::Int => Ok(number_datum(word)),
        Kind::Text(_) => text_datum(alloc, word),
    }
}
