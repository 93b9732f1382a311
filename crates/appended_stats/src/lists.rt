//! Adds the lists of the new rows to the lists of the frequent values.
ghost use Rattle.std.specs.Prelude.{◌≡◌, ◌<◌, ◌^◌, All, IfOk, length, map};
ghost use Rattle.std.specs.List.{sum, zip};
ghost use Rattle.csv_tables.specs.Cells.{IsCell, value_of_cell};
ghost use Rattle.cond_stats.specs.Rows.{keys_where};
ghost use Rattle.degree_sequences.specs.ByRank.{rank_sum};
ghost use Rattle.stats_file_of_query.specs.Standing.{is_value};
ghost use Rattle.appended_stats.specs.Grown.{list_with, with_new_rows};

use crate::compare::is_value;
use base_io::{NoMemory, Seq};
use cond_stats::whole_list;
use csv_tables::Pool;
use limits::Accuracy;
use piece_math::Pieces;
use schema_types::Kind;
use stats_file::Datum;
use std::alloc::Global;

/// Adds two lists rank by rank. Each list sums to less than 2^64.
pub(crate) fn sum_by_rank(list: &Pieces, other: &Pieces) -> Result<Pieces, NoMemory>
    requires list { sum list.now < 2 ^ 64 }
    requires other { sum other.now < 2 ^ 64 }
    ensures { IfOk result (λ added. added ≡ rank_sum list.now other.now) }
{
    list.sum(other)
}

// The joined keys of the rows whose cell has this value.
fn keys_with(
    alloc: Global,
    pool: &Pool,
    kind: Kind,
    cells: &[u64],
    joined: &[u64],
    value: &Datum,
) -> Result<Vec<u64>, NoMemory>
    requires cells { All (IsCell pool.now kind) cells.now }
    requires joined { length joined.now ≡ length cells.now }
    ensures { IfOk result (λ keys. keys.items ≡
        keys_where (λ cell. is_value (value_of_cell pool.now kind cell) value.now) (zip cells.now joined.now)) }
{
    let mut keys = Vec::new(alloc);
    for (i, cell) in cells.iter().enumerate() {
        if is_value(value, pool, kind, *cell) {
            keys.push(joined[i])?;
        }
    }
    Ok(keys)
}

// The degree list of the joined keys of the rows whose cell has this value, compressed at this accuracy.
fn list_with(
    alloc: Global,
    pool: &Pool,
    kind: Kind,
    cells: &[u64],
    joined: &[u64],
    value: &Datum,
    accuracy: Accuracy,
) -> Result<Pieces, NoMemory>
    requires cells { All (IsCell pool.now kind) cells.now }
    requires joined { length joined.now ≡ length cells.now }
    requires rows { length cells.now < 2 ^ 32 }
    ensures list { IfOk result (λ list. list ≡
        list_with (value_of_cell pool.now kind) accuracy (zip cells.now joined.now) value.now) }
    ensures small { IfOk result (λ list. sum list < 2 ^ 32) }
{
    let keys = keys_with(alloc, pool, kind, cells, joined, value)?;
    whole_list(alloc, keys.as_slice(), accuracy)
}

/// Adds to each frequent value's list the list of the new rows that have this value.
pub(crate) fn grown_frequent(
    alloc: Global,
    frequent: Seq<(Datum, Pieces)>,
    pool: &Pool,
    kind: Kind,
    cells: &[u64],
    joined: &[u64],
    accuracy: Accuracy,
) -> Result<Seq<(Datum, Pieces)>, NoMemory>
    requires frequent { All (λ found. sum found.1 < 2 ^ 64) frequent }
    requires cells { All (IsCell pool.now kind) cells.now }
    requires joined { length joined.now ≡ length cells.now }
    requires rows { length cells.now < 2 ^ 32 }
    ensures { IfOk result (λ grown. grown ≡
        map (with_new_rows (value_of_cell pool.now kind) accuracy (zip cells.now joined.now)) frequent) }
{
    let mut grown = frequent;
    for i in 0..grown.len() {
        let more = list_with(alloc, pool, kind, cells, joined, &grown.get(i).0, accuracy)?;
        let list = sum_by_rank(&grown.get(i).1, &more)?;
        // A placeholder is here until the value is put back with its new list.
        let (value, _) = grown.replace(i, (Datum::Int(0), Pieces::empty(alloc)));
        let _ = grown.replace(i, (value, list));
    }
    Ok(grown)
}
