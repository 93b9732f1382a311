//! Reads degree lists, which are written as runs of equal numbers.
ghost use Rattle.std.specs.Prelude.{◌≡◌, ◌≢◌, ◌*◌, ◌^◌, ◌<◌, ◌≤◌, ◌↔◌, ℕ, List, IfOk, IsTrue, codes};
ghost use Rattle.stats_file.specs.Grammar.{AreRunWords, IsListWord, IsNumeral, IsRunWord};
ghost use Rattle.stats_file.specs.Lines.{run_text};
ghost use Rattle.stats_file.specs.Rules.{IsList};
ghost use Rattle.stats_words.specs.Runs.{list_text, RunMayFollow};
ghost use Rattle.stats_words.specs.Splits.{IsSplitAt};
ghost use Rattle.stats_words.specs.Words.{Spells};

use crate::numbers::{is_numeral, number};
use crate::splits::split_at_byte;
use base_io::NoMemory;
use piece_math::{Piece, Pieces};
use std::alloc::Global;

fn are_numerals(value: &[u8], count: &[u8]) -> bool
    ensures { IsTrue result ↔ (IsNumeral value.now × IsNumeral count.now) }
{
    is_numeral(value) && is_numeral(count)
}

fn is_run_word(word: &[u8]) -> bool
    ensures { IsTrue result ↔ IsRunWord word.now }
{
    match split_at_byte(word, b'*') {
        None => false,
        Some((value, count)) => are_numerals(value, count),
    }
}

fn are_run_words(word: &[u8]) -> bool
    ensures { IsTrue result ↔ AreRunWords word.now }
{
    let mut rest = word;
    'runs: while let Some((run, others)) = split_at_byte(rest, b' ') {
        if !is_run_word(run) {
            return false;
        }
        rest = others;
    }
    is_run_word(rest)
}

fn is_dash(word: &[u8]) -> bool
    ensures { IsTrue result ↔ (word.now ≡ codes "-") }
{
    word.len() == 1 && word[0] == b'-'
}

/// Whether a word is a list: a dash, or runs with single blanks between them.
pub fn is_list_word(word: &[u8]) -> bool
    ensures { IsTrue result ↔ IsListWord word.now }
{
    if is_dash(word) {
        return true;
    }
    are_run_words(word)
}

// Whether a run may come next in a list. `below` is the value of the run before it, and `left` is the greatest sum that the run may have.
fn may_follow(value: u64, count: u64, below: u64, left: u64) -> bool
    requires small { value < 2 ^ 32 }
    requires few { count < 2 ^ 32 }
    ensures { IsTrue result ↔ ((0 < value) × (0 < count) × (value < below) × (count * value ≤ left)) }
{
    value > 0 && count > 0 && value < below && count * value <= left
}

// The run with this value and count, if it may come next in a list: its value is below `below`, and its sum is at most `left`.
fn run_of_words(value: &[u8], count: &[u8], below: u64, left: u64) -> Option<Piece>
    requires { left < 2 ^ 32 }
    ensures { (word : List ℕ) → IsSplitAt 42 word value.now count.now → Spells run_text (RunMayFollow below left) word result }
{
    let value = number(value, left)?;
    let count = number(count, left)?;
    if may_follow(value, count, below, left) {
        let value = u128::from(value);
        Some(Piece { value, count })
    } else {
        None
    }
}

// The run that a word spells, if it may come next in a list: its value is below `below`, and its sum is at most `left`.
fn next_run(word: &[u8], below: u64, left: u64) -> Option<Piece>
    requires { left < 2 ^ 32 }
    ensures { Spells run_text (RunMayFollow below left) word.now result }
{
    match split_at_byte(word, b'*') {
        None => None,
        Some((value, count)) => run_of_words(value, count, below, left),
    }
}

fn runs(alloc: Global, word: &[u8], rows: u32) -> Result<Option<Pieces>, NoMemory>
    requires { word.now ≢ codes "-" }
    ensures { IfOk result (λ list. Spells list_text (IsList rows) word.now list) }
{
    let mut list = Pieces::empty(alloc);
    let (mut below, mut left) = (u64::from(rows) + 1, u64::from(rows));
    let mut rest = word;
    'runs: while let Some((first, others)) = split_at_byte(rest, b' ') {
        let Some(run) = next_run(first, below, left) else {
            return Ok(None);
        };
        list.push_run(run.value, run.count)?;
        below = run.value as u64;
        left -= run.count * below;
        rest = others;
    }
    let Some(run) = next_run(rest, below, left) else {
        return Ok(None);
    };
    list.push_run(run.value, run.count)?;
    Ok(Some(list))
}

/// The degree list that a word spells, if its sum is at most `rows`.
pub fn list(alloc: Global, word: &[u8], rows: u32) -> Result<Option<Pieces>, NoMemory>
    ensures { IfOk result (λ list. Spells list_text (IsList rows) word.now list) }
{
    if is_dash(word) {
        return Ok(Some(Pieces::empty(alloc)));
    }
    runs(alloc, word, rows)
}
