//! Splits a text at the first occurrence of a byte.
ghost use Rattle.std.specs.Prelude.{MatchOption};
ghost use Rattle.stats_words.specs.Splits.{IsSplitAt, HasNoByte};

/// The part of `text` before the first `byte`, and the part after it; None if `text` doesn't have this byte.
pub fn split_at_byte(text: &[u8], byte: u8) -> Option<(&[u8], &[u8])>
    ensures { MatchOption result (HasNoByte byte text.now) (λ parts. IsSplitAt byte text.now parts.0.now parts.1.now) }
{
    for i in 0..text.len() {
        if text[i] == byte {
            return Some((&text[..i], &text[i + 1..]));
        }
    }
    None
}
