//! Reads the number that a field spells.
ghost use Rattle.std.specs.Prelude.{◌≡◌, ◌<◌, ◌≤◌, ◌^◌, false, length, option_map, true};
ghost use Rattle.csv_tables.specs.Numbers.{greatest_magnitude, number_of as spelled, signed, magnitude_of as spelled_size};

// This many digits spell a number below 10^18, so no step has to test for overflow.
const SHORT: usize = 18;

// The number that one to eighteen digits spell. It is None if a byte isn't a digit, or if the number is above `most`.
#[tactic(auto, using(crate::proofs::NumberFacts::short_steps))]
fn short_value(digits: &[u8], most: u64) -> Option<u64>
    requires some { 0 < length digits.now }
    requires few { length digits.now ≤ 18 }
    ensures { result ≡ spelled_size most digits.now }
{
    let mut size: u64 = 0;
    'digits: for digit in digits {
        if !digit.is_ascii_digit() {
            return None;
        }
        size = size * 10 + (*digit - b'0') as u64;
    }
    if size > most {
        return None;
    }
    Some(size)
}

// The number that one or more digits spell. It is None if a byte isn't a digit, or if the number is above `most`.
fn long_value(digits: &[u8], most: u64) -> Option<u64>
    requires some { 0 < length digits.now }
    requires most { most ≤ 2 ^ 63 }
    ensures { result ≡ spelled_size most digits.now }
{
    let mut size: u64 = 0;
    'digits: for digit in digits {
        if !digit.is_ascii_digit() {
            return None;
        }
        let next = size as u128 * 10 + (*digit - b'0') as u128;
        if next > most as u128 {
            return None;
        }
        size = next as u64;
    }
    Some(size)
}

// The number that digits spell. It is None if there are no bytes, if a byte isn't a digit, or if the number is above `most`.
fn magnitude_of(digits: &[u8], most: u64) -> Option<u64>
    requires { most ≤ 2 ^ 63 }
    ensures { result ≡ spelled_size most digits.now }
{
    if digits.is_empty() {
        return None;
    }
    if digits.len() <= SHORT {
        short_value(digits, most)
    } else {
        long_value(digits, most)
    }
}

// The number that digits without a minus sign spell, in the signed range of 64 bits.
fn at_least_zero(digits: &[u8]) -> Option<i64>
    ensures { result ≡ option_map (signed false) (spelled_size (greatest_magnitude false) digits.now) }
{
    let size = magnitude_of(digits, (1 << 63) - 1)?;
    Some(size as i64)
}

// The number that digits spell after a minus sign, in the signed range of 64 bits.
fn at_most_zero(digits: &[u8]) -> Option<i64>
    ensures { result ≡ option_map (signed true) (spelled_size (greatest_magnitude true) digits.now) }
{
    let size = magnitude_of(digits, 1 << 63)?;
    Some((-(size as i128)) as i64)
}

/// The number that a field spells: an optional sign and then digits, in the signed range of 64 bits.
pub(crate) fn number_of(field: &[u8]) -> Option<i64>
    ensures { result ≡ spelled field.now }
{
    match field {
        [b'-', digits @ ..] => at_most_zero(digits),
        [b'+', digits @ ..] => at_least_zero(digits),
        digits => at_least_zero(digits),
    }
}
