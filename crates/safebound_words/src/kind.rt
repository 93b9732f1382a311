//! Finds the kind of a word before `--`.
ghost use Rattle.std.specs.Prelude.{◌≡◌};
ghost use Rattle.std.specs.Option.{option_map};
ghost use Rattle.safebound_words.specs.Answer.{kind_of_word as spec_kind, option_kind as spec_option, option_named as option_of, split_value as spec_parts};
ghost use Rattle.safebound_words.specs.Kinds.{kind_seen};
ghost use Rattle.safebound_words.specs.Words.{is_dashed as dashed};

use crate::table::{CommandName, FlagName, OptionName, flag_named, option_named};

/// The kind of a word before `--`.
#[derive(Clone, Copy)]
pub(crate) enum WordKind<'a> {
    /// The word `--`.
    End,
    Positional,
    Flag(FlagName),
    /// An option, whose value is the next word.
    Option(OptionName),
    /// An option and its value.
    Value(OptionName, &'a str),
    /// A word that begins with a dash, but is neither an option nor a flag of the command.
    Unknown,
}

// Whether a word is a dash with at least one more byte after it.
fn is_dashed(word: &str) -> bool
    ensures { result ≡ dashed word.now }
{
    matches!(word.as_bytes(), [b'-', _, ..])
}

// A word up to its first `=`, and what comes after the `=`, if there is one.
fn split_value(word: &str) -> (&str, Option<&str>)
    ensures front { result.0.now ≡ (spec_parts word.now).0 }
    ensures value { option_map (λ v. v.now) result.1 ≡ (spec_parts word.now).1 }
{
    match word.split_once('=') {
        None => (word, None),
        Some((front, value)) => (front, Some(value)),
    }
}

// The kind of a word that begins with a dash and isn't a flag of the command.
fn option_kind(name: CommandName, word: &str) -> WordKind<'_>
    ensures { kind_seen result ≡ spec_option (option_of name (spec_parts word.now).0) (spec_parts word.now).1 }
{
    let (front, value) = split_value(word);
    match option_named(name, front) {
        None => WordKind::Unknown,
        Some(option) => match value {
            None => WordKind::Option(option),
            Some(value) => WordKind::Value(option, value),
        },
    }
}

/// The kind of a word before `--`, in a line of this command.
#[tactic(auto, unfolding(crate::specs::Answer::kind_of_word))]
pub(crate) fn kind_of_word(name: CommandName, word: &str) -> WordKind<'_>
    ensures { kind_seen result ≡ spec_kind name word.now }
{
    if word == "--" {
        return WordKind::End;
    }
    if !is_dashed(word) {
        return WordKind::Positional;
    }
    match flag_named(name, word) {
        None => option_kind(name, word),
        Some(flag) => WordKind::Flag(flag),
    }
}
