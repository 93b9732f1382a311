//! Names and texts as words of hexadecimal digits.
ghost use Rattle.std.specs.Prelude.{◌≡◌, ◌*◌, ◌/◌, ◌%◌, ◌<◌, ◌↔◌, ◌∷◌, [], true, IfOk, IsTrue};
ghost use Rattle.std.specs.List.{flat_map, list_all};
ghost use Rattle.stats_file.specs.Grammar.{are_hex_pairs, is_hex_digit as hex_test, IsHexWord};
ghost use Rattle.stats_file.specs.Lines.{hex_byte, hex_digit as digit_of, hex_text};

use base_io::NoMemory;
use std::alloc::Global;

fn is_hex_digit(byte: u8) -> bool
    ensures { result ≡ hex_test byte }
{
    byte.is_ascii_digit() || (b'a' <= byte && byte <= b'f')
}

fn are_hex_digits(bytes: &[u8]) -> bool
    ensures { result ≡ list_all hex_test bytes.now }
{
    bytes.iter().all(|byte| is_hex_digit(*byte))
}

fn are_pairs(digits: &[u8]) -> bool
    ensures { result ≡ are_hex_pairs digits.now }
{
    if digits.len() % 2 != 0 {
        return false;
    }
    are_hex_digits(digits)
}

/// Whether a word is the letter x, followed by pairs of hexadecimal digits in lower case.
pub fn is_hex_word(word: &[u8]) -> bool
    ensures { IsTrue result ↔ IsHexWord word.now }
{
    match word {
        [b'x', digits @ ..] => are_pairs(digits),
        _ => false,
    }
}

fn hex_digit(n: u8) -> u8
    requires { n < 16 }
    ensures { result ≡ digit_of n }
{
    if n < 10 { b'0' + n } else { b'a' - 10 + n }
}

// Whether `digits` is twice `bytes`.
fn are_twice(digits: usize, bytes: usize) -> bool
    ensures { IsTrue result ↔ (digits ≡ 2 * bytes) }
{
    digits % 2 == 0 && digits / 2 == bytes
}

fn is_pair_of(high: u8, low: u8, byte: u8) -> bool
    ensures { IsTrue result ↔ ((high ≡ digit_of (byte / 16)) × (low ≡ digit_of (byte % 16))) }
{
    high == hex_digit(byte / 16) && low == hex_digit(byte % 16)
}

fn are_pairs_of(digits: &[u8], bytes: &[u8]) -> bool
    ensures { IsTrue result ↔ (digits.now ≡ flat_map hex_byte bytes.now) }
{
    if !are_twice(digits.len(), bytes.len()) {
        return false;
    }
    for i in 0..bytes.len() {
        if !is_pair_of(digits[2 * i], digits[2 * i + 1], bytes[i]) {
            return false;
        }
    }
    true
}

/// Whether a word spells these bytes.
pub fn is_hex_of(word: &[u8], bytes: &[u8]) -> bool
    ensures { IsTrue result ↔ (word.now ≡ hex_text bytes.now) }
{
    match word {
        [b'x', digits @ ..] => are_pairs_of(digits, bytes),
        _ => false,
    }
}

fn hex_value(byte: u8) -> u8
    requires { hex_test byte ≡ true }
    ensures small { result < 16 }
    ensures is { digit_of result ≡ byte }
{
    if byte <= b'9' {
        byte - b'0'
    } else {
        byte - b'a' + 10
    }
}

fn byte_of(high: u8, low: u8) -> u8
    requires high { hex_test high ≡ true }
    requires low { hex_test low ≡ true }
    ensures { hex_byte result ≡ high ∷ (low ∷ []) }
{
    16 * hex_value(high) + hex_value(low)
}

fn pair_bytes(alloc: Global, digits: &[u8]) -> Result<Vec<u8>, NoMemory>
    requires { are_hex_pairs digits.now ≡ true }
    ensures { IfOk result (λ bytes. flat_map hex_byte bytes.items ≡ digits.now) }
{
    let mut bytes = Vec::with_capacity(alloc, digits.len() / 2)?;
    for i in 0..digits.len() / 2 {
        bytes.push(byte_of(digits[2 * i], digits[2 * i + 1]))?;
    }
    Ok(bytes)
}

/// The bytes that a hexadecimal word spells.
pub fn hex_bytes(alloc: Global, word: &[u8]) -> Result<Vec<u8>, NoMemory>
    requires { IsHexWord word.now }
    ensures { IfOk result (λ bytes. hex_text bytes.items ≡ word.now) }
{
    pair_bytes(alloc, &word[1..])
}
