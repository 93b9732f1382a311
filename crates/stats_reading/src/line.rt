//! The kinds of lines, and the words of a line.
ghost use Rattle.std.specs.Prelude.{◌≡◌, ◌≢◌, ◌↔◌, ◌++◌, [], ℕ, List, true, false, Some, IsTrue, MatchOption};
ghost use Rattle.stats_reading.specs.Kinds.{front, has_two, is_tested as tested, AreLineParts, CanBe, HasNoLineWords, IsFaultOf, IsNoLine, MayBeLineOf, SplitsInto};

use crate::fault::Fault;
use stats_words::{is_hex_word, is_list_word, is_numeral, is_value_word, split_at_byte};

/// The kind of a line. The line's first word tells it.
#[derive(Clone, Copy, Debug, PartialEq, Eq)]
pub enum LineKind {
    First,
    Table,
    Pair,
    Whole,
    Frequent,
    Rest,
    Cut,
    Node,
    End,
}

/// A line without its line end: its kind, and the words after its fixed first part. In a line with only one word, `second` is empty.
#[derive(Clone, Copy)]
pub struct Line<'a> {
    pub kind: LineKind,
    pub first: &'a [u8],
    pub second: &'a [u8],
}

/// The only kind that a line with this first byte may have.
pub fn kind_of(line: &[u8]) -> Option<LineKind>
    ensures { CanBe line.now result }
{
    match line {
        [b's', ..] => Some(LineKind::First),
        [b't', ..] => Some(LineKind::Table),
        [b'p', ..] => Some(LineKind::Pair),
        [b'w', ..] => Some(LineKind::Whole),
        [b'f', ..] => Some(LineKind::Frequent),
        [b'r', ..] => Some(LineKind::Rest),
        [b'c', ..] => Some(LineKind::Cut),
        [b'n', ..] => Some(LineKind::Node),
        [b'e', ..] => Some(LineKind::End),
        _ => None,
    }
}

const FIRST: &[u8] = b"safebound-stats 1 ";

const TABLE: &[u8] = b"table ";

const PAIR: &[u8] = b"pair ";

const WHOLE: &[u8] = b"whole ";

const FREQUENT: &[u8] = b"frequent ";

const REST: &[u8] = b"rest ";

const CUT: &[u8] = b"cut ";

const NODE: &[u8] = b"node ";

const END: &[u8] = b"end";

// The part of a line after `front`, if the line begins with `front`.
fn after_front<'a>(line: &'a [u8], front: &[u8]) -> Option<&'a [u8]>
    ensures { MatchOption result ((rest : List ℕ) → line.now ≢ front.now ++ rest) (λ rest. line.now ≡ front.now ++ rest.now) }
{
    line.strip_prefix(front)
}

// The part of a line after the fixed first part of this kind, if the line begins with it.
fn after_kind(kind: LineKind, line: &[u8]) -> Option<&[u8]>
    ensures { MatchOption result ((rest : List ℕ) → line.now ≢ front kind ++ rest) (λ rest. line.now ≡ front kind ++ rest.now) }
{
    match kind {
        LineKind::First => after_front(line, FIRST),
        LineKind::Table => after_front(line, TABLE),
        LineKind::Pair => after_front(line, PAIR),
        LineKind::Whole => after_front(line, WHOLE),
        LineKind::Frequent => after_front(line, FREQUENT),
        LineKind::Rest => after_front(line, REST),
        LineKind::Cut => after_front(line, CUT),
        LineKind::Node => after_front(line, NODE),
        LineKind::End => after_front(line, END),
    }
}

// Whether the grammar allows `word` in a line of this kind. Lines of this kind have one word.
fn is_part(kind: LineKind, word: &[u8]) -> bool
    requires { has_two kind ≡ false }
    ensures { IsTrue result ↔ AreLineParts kind word.now [] }
{
    match kind {
        LineKind::First => is_numeral(word),
        LineKind::Cut => is_value_word(word),
        LineKind::End => word.is_empty(),
        _ => is_list_word(word),
    }
}

// Whether the grammar allows the two words in a line of this kind. Lines of this kind have two words.
fn are_parts(kind: LineKind, first: &[u8], second: &[u8]) -> bool
    requires { has_two kind ≡ true }
    ensures { IsTrue result ↔ AreLineParts kind first.now second.now }
{
    match kind {
        LineKind::Table => is_hex_word(first) && is_numeral(second),
        LineKind::Pair => is_hex_word(first) && is_hex_word(second),
        _ => is_value_word(first) && is_list_word(second),
    }
}

fn has_two_words(kind: LineKind) -> bool
    ensures { result ≡ has_two kind }
{
    matches!(kind, LineKind::Table | LineKind::Pair | LineKind::Frequent)
}

fn split_words(kind: LineKind, words: &[u8]) -> Option<(&[u8], &[u8])>
    requires { has_two kind ≡ true }
    ensures { MatchOption result (HasNoLineWords kind words.now) (λ w. SplitsInto kind words.now w.0.now w.1.now) }
{
    match split_at_byte(words, b' ') {
        None => None,
        Some((first, second)) => Some((first, second)),
    }
}

// The words of a line of this kind. `words` is the line after its fixed first part.
fn words_of(kind: LineKind, words: &[u8]) -> Option<(&[u8], &[u8])>
    ensures { MatchOption result (HasNoLineWords kind words.now) (λ w. SplitsInto kind words.now w.0.now w.1.now) }
{
    if has_two_words(kind) {
        split_words(kind, words)
    } else {
        let none: &[u8] = &[];
        Some((words, none))
    }
}

/// Splits a line without its line end into its words, if the grammar may allow the line. The words themselves aren't tested.
pub fn words_in(kind: LineKind, line: &[u8]) -> Option<(&[u8], &[u8])>
    requires { CanBe line.now (Some kind) }
    ensures { MatchOption result (IsNoLine line.now) (λ w. MayBeLineOf kind w.0.now w.1.now line.now) }
{
    let words = after_kind(kind, line)?;
    words_of(kind, words)
}

// Whether the grammar allows `word` in a line of this kind, and `second` is empty. Lines of this kind have one word.
fn is_only_word(kind: LineKind, word: &[u8], second: &[u8]) -> bool
    requires { has_two kind ≡ false }
    ensures { IsTrue result ↔ AreLineParts kind word.now second.now }
{
    second.is_empty() && is_part(kind, word)
}

// Whether the grammar allows the words of a line.
fn are_words(line: Line) -> bool
    ensures { IsTrue result ↔ AreLineParts line.entry.kind line.entry.first.now line.entry.second.now }
{
    if has_two_words(line.kind) {
        are_parts(line.kind, line.first, line.second)
    } else {
        is_only_word(line.kind, line.first, line.second)
    }
}

fn is_tested(kind: LineKind) -> bool
    ensures { result ≡ tested kind }
{
    matches!(
        kind,
        LineKind::First | LineKind::Table | LineKind::Pair | LineKind::End
    )
}

/// Whether the words of a line may be read without breaking the grammar: either lines of this kind aren't tested beforehand, or the grammar allows
/// the words.
pub fn may_be_read(line: Line) -> bool
    ensures { IsTrue result ↔ (tested line.entry.kind ≡ true → AreLineParts line.entry.kind line.entry.first.now line.entry.second.now) }
{
    !is_tested(line.kind) || are_words(line)
}

/// The fault of a line whose words were refused. Words that the grammar doesn't allow are a fault of syntax, not of a rule.
pub fn fault_of(line: Line, fault: Fault) -> Fault
    ensures { IsFaultOf line.entry.kind line.entry.first.now line.entry.second.now fault result }
{
    match fault {
        Fault::Syntax => Fault::Syntax,
        Fault::NoMemory => Fault::NoMemory,
        Fault::Rule => {
            if are_words(line) {
                Fault::Rule
            } else {
                Fault::Syntax
            }
        }
    }
}
