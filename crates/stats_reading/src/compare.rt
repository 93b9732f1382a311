//! Comparisons of values and of lists.
ghost use Rattle.std.specs.Prelude.{◌≡◌, ◌<◌, ◌^◌, ◌↔◌, length, sum, IsTrue};
ghost use Rattle.std.specs.Ordering.{nat_cmp};
ghost use Rattle.std.specs.Cmp.Lexicographic.{slice_cmp};
ghost use Rattle.stats_file.specs.declared.types.Datum.TheVariants as datums;
ghost use Rattle.stats_file.specs.Rules.{datum_cmp};

use piece_math::{Piece, Pieces};
use stats_file::Datum;
use std::cmp::Ordering;

fn compare_bytes(a: &[u8], b: &[u8]) -> Ordering
    ensures { result ≡ slice_cmp nat_cmp a.now b.now }
{
    a.cmp(b)
}

fn compare_texts(a: &str, b: &str) -> Ordering
    ensures { result ≡ slice_cmp nat_cmp a.now b.now }
{
    compare_bytes(a.as_bytes(), b.as_bytes())
}

/// The order of values: numbers come before texts.
pub fn compare(a: &Datum, b: &Datum) -> Ordering
    ensures { result ≡ datum_cmp a.now b.now }
{
    match a {
        Datum::Int(a) => match b {
            Datum::Int(b) => a.cmp(b),
            Datum::Text(_) => Ordering::Less,
        },
        Datum::Text(a) => match b {
            Datum::Int(_) => Ordering::Greater,
            Datum::Text(b) => compare_texts(a.as_str(), b.as_str()),
        },
    }
}

fn is_equal(order: Ordering) -> bool
    ensures { IsTrue result ↔ (order ≡ Ordering.Equal) }
{
    matches!(order, Ordering::Equal)
}

// Whether a value is this number.
fn is_number(value: &Datum, number: i64) -> bool
    ensures { IsTrue result ↔ (datums.Int number ≡ value.now) }
{
    match value {
        Datum::Int(own) => number == *own,
        Datum::Text(_) => false,
    }
}

fn same_text(a: &str, b: &str) -> bool
    ensures { IsTrue result ↔ (datums.Text a.now ≡ datums.Text b.now) }
{
    is_equal(compare_texts(a, b))
}

// Whether a value is this text.
fn is_text(value: &Datum, text: &str) -> bool
    ensures { IsTrue result ↔ (datums.Text text.now ≡ value.now) }
{
    match value {
        Datum::Int(_) => false,
        Datum::Text(own) => same_text(text, own.as_str()),
    }
}

/// Whether two values are equal.
pub fn same_value(a: &Datum, b: &Datum) -> bool
    ensures { IsTrue result ↔ (a.now ≡ b.now) }
{
    match a {
        Datum::Int(number) => is_number(b, *number),
        Datum::Text(text) => is_text(b, text.as_str()),
    }
}

/// Whether two lists have the same sum.
pub fn same_total(a: &Pieces, b: &Pieces) -> bool
    requires left { sum a.now < 2 ^ 64 }
    requires right { sum b.now < 2 ^ 64 }
    ensures { IsTrue result ↔ (sum a.now ≡ sum b.now) }
{
    a.total() == b.total()
}

fn same_piece(a: Piece, b: Piece) -> bool
    ensures { IsTrue result ↔ ((a.value ≡ b.value) × (a.count ≡ b.count)) }
{
    a.value == b.value && a.count == b.count
}

fn have_same_length(a: &[Piece], b: &[Piece]) -> bool
    ensures { IsTrue result ↔ (length a.now ≡ length b.now) }
{
    a.len() == b.len()
}

fn same_pieces(a: &[Piece], b: &[Piece]) -> bool
    ensures { IsTrue result ↔ (a.now ≡ b.now) }
{
    if !have_same_length(a, b) {
        return false;
    }
    for i in 0..a.len() {
        if !same_piece(a[i], b[i]) {
            return false;
        }
    }
    true
}

/// Whether two lists are equal.
pub fn same_list(a: &Pieces, b: &Pieces) -> bool
    ensures { IsTrue result ↔ (a.now ≡ b.now) }
{
    same_pieces(a.pieces(), b.pieces())
}
