//! The words of a call as texts, in an array of fixed size: no memory is allocated for them.
ghost use Rattle.std.specs.Prelude.{◌≡◌, ◌<◌, Err, IfOk, false, length, map, Any};
ghost use Rattle.std.specs.Str.{IsUtf8};
ghost use Rattle.safebound_command.specs.declared.words.WordsFault.TheVariants as no_words;

use arrayvec::ArrayVec;
use safebound_words::MOST_WORDS;
use std::str;

/// Why the program isn't run with the words.
#[derive(Clone, Copy, Debug, PartialEq, Eq)]
pub(crate) enum WordsFault {
    /// A word isn't UTF-8.
    NotUtf8,
    /// There are more than `MOST_WORDS` words. No command of the program takes that many.
    TooMany,
}

// Whether each word is UTF-8.
fn are_texts(words: &[&[u8]]) -> bool
    ensures { result ≡ false → Any (λ w. ¬ (IsUtf8 w)) (map (λ w. w.now) words.now) }
{
    'words: for word in words {
        let Ok(_) = str::from_utf8(word) else {
            return false;
        };
    }
    true
}

/// The words as texts.
pub(crate) fn texts_of_words<'a>(
    words: &[&'a [u8]],
) -> Result<ArrayVec<&'a str, MOST_WORDS>, WordsFault>
    ensures same { IfOk result (λ texts. map (λ t. t.now) texts.items ≡ map (λ w. w.now) words.now) }
    ensures not_utf8 { result ≡ Err no_words.NotUtf8 → Any (λ w. ¬ (IsUtf8 w)) (map (λ w. w.now) words.now) }
    ensures too_many { result ≡ Err no_words.TooMany → MOST_WORDS < length words.now }
{
    if words.len() > MOST_WORDS {
        return Err(if are_texts(words) {
            WordsFault::TooMany
        } else {
            WordsFault::NotUtf8
        });
    }
    let mut all = ArrayVec::new();
    'words: for word in words {
        let Ok(text) = str::from_utf8(word) else {
            return Err(WordsFault::NotUtf8);
        };
        all.push(text);
    }
    Ok(all)
}
