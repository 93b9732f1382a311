//! Finds the leaf of a value among the cuts of a column. A cut is the value at which a leaf begins.
ghost use Rattle.std.specs.Prelude.{◌≡◌, ◌<◌, ◌≤◌, [], ℕ, List, length, slice_index_or};
ghost use Rattle.csv_tables.specs.Cells.{value_of_cell};
ghost use Rattle.csv_tables.specs.Numbers.{number_in};
ghost use Rattle.csv_tables.specs.Values.{Int, Text};
ghost use Rattle.cond_stats.specs.Columns.{value_le};
ghost use Rattle.cond_stats.specs.Leaves.{last_place};

use csv_tables::{Pool, compare_texts, value_of};
use schema_types::Kind;

/// The text of a cell, or the empty text where the pool has no text of that number.
pub(crate) fn text_at(pool: &Pool, cell: u64) -> &str
    ensures { result.now ≡ slice_index_or pool.now cell [] }
{
    if cell < pool.len() as u64 {
        pool.text(cell as u32)
    } else {
        ""
    }
}

// Whether a cell's value is at most the number that another cell holds. A text is above every number.
fn is_at_most_int(kind: Kind, cell: u64, number: u64) -> bool
    ensures { (texts : List (List ℕ)) → result ≡ value_le (value_of_cell texts kind cell) (Int (number_in number)) }
{
    match kind {
        Kind::Int => value_of(cell) <= value_of(number),
        Kind::Text(_) => false,
    }
}

// Whether a cell's value is at most a text. A number is below every text.
fn is_at_most_text(kind: Kind, pool: &Pool, cell: u64, text: &str) -> bool
    ensures { result ≡ value_le (value_of_cell pool.now kind cell) (Text text.now) }
{
    match kind {
        Kind::Int => true,
        Kind::Text(_) => compare_texts(text_at(pool, cell), text).is_le(),
    }
}

/// The leaf of a number, which is given as its cell. It is the last leaf whose cut is at most the number, or 0 if there is no such cut. There are at
/// most 32 cuts. If the cuts are texts, the leaf is 0.
pub fn leaf_of_int(kind: Kind, cuts: &[u64], number: u64) -> u8
    requires { length cuts.now ≤ 32 }
    ensures { (texts : List (List ℕ)) → result ≡ last_place
        (λ cut. value_le (value_of_cell texts kind cut) (Int (number_in number))) cuts.now }
{
    let mut leaf = 0;
    for (i, cut) in cuts.iter().enumerate() {
        if is_at_most_int(kind, *cut, number) {
            leaf = i as u8;
        }
    }
    leaf
}

/// The leaf of a text: the last leaf whose cut is at most the text, or 0 if there is no such cut. There are at most 32 cuts. If the cuts are numbers,
/// each cut is at most the text.
pub fn leaf_of_text(kind: Kind, pool: &Pool, cuts: &[u64], text: &str) -> u8
    requires { length cuts.now ≤ 32 }
    ensures { result ≡ last_place (λ cut. value_le (value_of_cell pool.now kind cut) (Text text.now)) cuts.now }
{
    let mut leaf = 0;
    for (i, cut) in cuts.iter().enumerate() {
        if is_at_most_text(kind, pool, *cut, text) {
            leaf = i as u8;
        }
    }
    leaf
}
