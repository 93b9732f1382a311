//! The number that a word spells.
ghost use Rattle.std.specs.Prelude.{◌≡◌, ◌<◌, ◌≤◌, ◌^◌, IfSome, IsTrue};
ghost use Rattle.std.specs.Char.{is_ascii_digit};
ghost use Rattle.std.specs.List.{list_all};
ghost use Rattle.std.specs.Option.{SomeIff};
ghost use Rattle.safebound_words.specs.Numbers.{is_number, number_of, number_within as within};

// Whether every character is a digit.
fn are_digits(word: &str) -> bool
    ensures { result ≡ list_all is_ascii_digit word.now }
{
    word.as_bytes().iter().all(|byte| byte.is_ascii_digit())
}

// The number that a word spells in digits, if it fits in 64 bits.
fn spelled_number(word: &str) -> Option<u64>
    ensures { SomeIff result (IsTrue (is_number word.now) × (number_of word.now < 2 ^ 64)) (number_of word.now) }
{
    if !are_digits(word) {
        return None;
    }
    match word.parse::<u64>() {
        Ok(number) => Some(number),
        Err(_) => None,
    }
}

/// The number that a word spells in digits, if it is from `least` to `most`.
pub(crate) fn number_within(least: u64, most: u64, word: &str) -> Option<u64>
    ensures value { result ≡ within least most word.now }
    ensures most { IfSome result (λ number. number ≤ most) }
{
    let number = spelled_number(word)?;
    if least <= number && number <= most {
        Some(number)
    } else {
        None
    }
}
