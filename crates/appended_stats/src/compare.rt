//! Compares values of a statistics file with the cells of new rows.
ghost use Rattle.std.specs.Prelude.{◌≡◌, ◌<◌, ◌≤◌, length};
ghost use Rattle.csv_tables.specs.Cells.{IsCell, value_of_cell};
ghost use Rattle.csv_tables.specs.Values.{value_cmp};
ghost use Rattle.cond_stats.specs.Columns.{value_le};
ghost use Rattle.stats_file_of_query.specs.Data.{value_of};
ghost use Rattle.stats_file_of_query.specs.Standing.{is_value, leaf_of_value};
ghost use Rattle.appended_stats.specs.Grown.{is_frequent};

use csv_tables::{Pool, compare_texts, value_of};
use piece_math::Pieces;
use schema_types::Kind;
use stats_file::{Datum, PairStats};
use std::cmp::Ordering;

// Compares a value with the value of a cell. Numbers are ordered by size, texts by code points, and a number is less than every text.
fn compare(value: &Datum, pool: &Pool, kind: Kind, cell: u64) -> Ordering
    requires { IsCell pool.now kind cell }
    ensures { result ≡ value_cmp (value_of value.now) (value_of_cell pool.now kind cell) }
{
    match (value, kind) {
        (Datum::Int(a), Kind::Int) => a.cmp(&value_of(cell)),
        (Datum::Text(a), Kind::Text(_)) => {
            prove!(cell < pool.len() as u64);
            compare_texts(a.as_str(), pool.text(cell as u32))
        }
        (Datum::Int(_), Kind::Text(_)) => Ordering::Less,
        (Datum::Text(_), Kind::Int) => Ordering::Greater,
    }
}

/// Whether a cell has this value.
pub(crate) fn is_value(value: &Datum, pool: &Pool, kind: Kind, cell: u64) -> bool
    requires { IsCell pool.now kind cell }
    ensures { result ≡ is_value (value_of_cell pool.now kind cell) value.now }
{
    compare(value, pool, kind, cell).is_eq()
}

// Whether a cut is at most the value of a cell.
fn is_at_most(cut: &Datum, pool: &Pool, kind: Kind, cell: u64) -> bool
    requires { IsCell pool.now kind cell }
    ensures { result ≡ value_le (value_of cut.now) (value_of_cell pool.now kind cell) }
{
    compare(cut, pool, kind, cell).is_le()
}

/// Whether the value of a cell is one of the frequent values.
pub(crate) fn is_frequent(frequent: &[(Datum, Pieces)], pool: &Pool, kind: Kind, cell: u64) -> bool
    requires { IsCell pool.now kind cell }
    ensures { result ≡ is_frequent frequent.now (value_of_cell pool.now kind cell) }
{
    frequent
        .iter()
        .any(|found| is_value(&found.0, pool, kind, cell))
}

/// The leaf in which a cell's value lies, by the cuts of a pair.
pub(crate) fn leaf_of_cell(pair: &PairStats, pool: &Pool, kind: Kind, cell: u64) -> u8
    requires cell { IsCell pool.now kind cell }
    requires cuts { length pair.now.cuts ≤ 32 }
    ensures leaf { result ≡ leaf_of_value pair.now (value_of_cell pool.now kind cell) }
    ensures below { result < 32 }
{
    let mut leaf = 0;
    for (i, cut) in pair.cuts.as_slice().iter().enumerate() {
        if is_at_most(cut, pool, kind, cell) {
            leaf = i as u8;
        }
    }
    leaf
}
