//! Words that are numbers, with a sign or without.
ghost use Rattle.std.specs.Prelude.{◌≡◌, ◌≢◌, ◌+◌, ◌*◌, ◌-◌, ◌<◌, ◌≤◌, ◌&&◌, ◌||◌, ◌==◌, ◌↔◌, ◌∷◌, nat_lt, true, length, codes, decimal, slice_index, FitsSigned, IsTrue};
ghost use Rattle.std.specs.Char.{is_ascii_digit as digit_test};
ghost use Rattle.std.specs.Fmt.{signed_decimal};
ghost use Rattle.std.specs.Int.{w64};
ghost use Rattle.std.specs.List.{list_all};
ghost use Rattle.std.specs.Option.{SomeIff};
ghost use Rattle.std.specs.Str.Parse.{digits_value};
ghost use Rattle.stats_file.specs.Grammar.{is_numeral as numeral_test, IsNumeral, IsSignedNumeral};
ghost use Rattle.stats_words.specs.Words.{Spells};

fn are_digits(bytes: &[u8]) -> bool
    ensures { result ≡ list_all digit_test bytes.now }
{
    bytes.iter().all(|byte| byte.is_ascii_digit())
}

// Whether the word is a numeral that has this first byte and these other bytes.
fn begins_numeral(first: u8, others: &[u8]) -> bool
    ensures { result ≡ (digit_test first && list_all digit_test others.now && (nat_lt 48 first || length others.now == 0)) }
{
    first.is_ascii_digit() && are_digits(others) && (first > b'0' || others.is_empty())
}

/// Whether a word is a numeral: decimal digits without a leading zero, or just 0.
pub fn is_numeral(word: &[u8]) -> bool
    ensures { result ≡ numeral_test word.now }
{
    match word {
        [] => false,
        [first, others @ ..] => begins_numeral(*first, others),
    }
}

// Whether a word may be a numeral, if it consists of digits: it has at least one digit, and no leading zero unless it is just 0.
fn may_begin_numeral(word: &[u8]) -> bool
    ensures { numeral_test word.now ≡ (list_all digit_test word.now && result) }
{
    match word {
        [] => false,
        [first, others @ ..] => *first > b'0' || others.is_empty(),
    }
}

// The value of the digits with one more digit appended, if the byte is a digit and this value is at most `most`.
fn next_value(value: u64, byte: u8, most: u64) -> Option<u64>
    ensures { SomeIff result ((digit_test byte ≡ true) × (10 * value + (byte - 48) ≤ most)) (10 * value + (byte - 48)) }
{
    if !byte.is_ascii_digit() {
        return None;
    }
    let next = 10 * u128::from(value) + u128::from(byte - b'0');
    if next <= u128::from(most) {
        Some(next as u64)
    } else {
        None
    }
}

// The number that a word's digits spell, if the word has only digits and the number is at most `most`.
fn value_within(word: &[u8], most: u64) -> Option<u64>
    ensures { SomeIff result ((list_all digit_test word.now ≡ true) × (digits_value 10 word.now ≤ most)) (digits_value 10 word.now) }
{
    let mut value: u64 = 0;
    for byte in word {
        let Some(next) = next_value(value, *byte, most) else {
            return None;
        };
        value = next;
    }
    Some(value)
}

/// The number that a numeral spells, if it is at most `most`.
pub fn number(word: &[u8], most: u64) -> Option<u64>
    ensures { Spells decimal (λ n. n ≤ most) word.now result }
{
    if !may_begin_numeral(word) {
        return None;
    }
    value_within(word, most)
}

// The negative number that these digits spell after a dash.
fn negative_number(digits: &[u8]) -> Option<i64>
    ensures { Spells signed_decimal (FitsSigned w64) (45 ∷ digits.now) result }
{
    let size = number(digits, 1 << 63)?;
    if size == 0 {
        return None;
    }
    Some(-1 - (size - 1) as i64)
}

// The signed number of 64 bits that a word without a dash spells.
fn number_without_dash(word: &[u8]) -> Option<i64>
    requires { slice_index word.now 0 ≢ 45 }
    ensures { Spells signed_decimal (FitsSigned w64) word.now result }
{
    match number(word, i64::MAX as u64) {
        Some(value) => Some(value as i64),
        None => None,
    }
}

/// The signed number of 64 bits that a word spells. The word is a numeral, or a dash and a numeral other than zero.
pub fn signed_number(word: &[u8]) -> Option<i64>
    ensures { Spells signed_decimal (FitsSigned w64) word.now result }
{
    match word {
        [b'-', digits @ ..] => negative_number(digits),
        _ => number_without_dash(word),
    }
}

/// Whether a word is a numeral, or a dash and a numeral other than zero.
pub fn is_signed_numeral(word: &[u8]) -> bool
    ensures { IsTrue result ↔ IsSignedNumeral word.now }
{
    match word {
        [b'-', digits @ ..] => is_positive_numeral(digits),
        _ => is_numeral(word),
    }
}

// Whether digits are a numeral other than zero.
fn is_positive_numeral(digits: &[u8]) -> bool
    ensures { IsTrue result ↔ (IsNumeral digits.now × (digits.now ≢ codes "0")) }
{
    match digits {
        [b'0'] => false,
        _ => is_numeral(digits),
    }
}
