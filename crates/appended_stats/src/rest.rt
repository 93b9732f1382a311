//! Makes the list of the new rows whose values aren't frequent. This list is then added to the rest list.
ghost use Rattle.std.specs.Prelude.{◌≡◌, ◌++◌, ◌∷◌, [], ◌<◌, ◌^◌, All, IfOk, OnOk, not, length, map, nat_eq, slice_index_or, slice_set};
ghost use Rattle.std.specs.List.{IsDistinct, filter, zip};
ghost use Rattle.csv_tables.specs.Cells.{IsCell, value_of_cell};
ghost use Rattle.cond_stats.specs.Lists.{greatest, keys_with, maxima};
ghost use Rattle.degree_sequences.specs.Compression.{compressed};
ghost use Rattle.degree_sequences.specs.Degrees.{degree_list, different};
ghost use Rattle.degree_sequences.specs.RunningSums.{capped_at};
ghost use Rattle.appended_stats.specs.Grown.{is_frequent, list_for_any_of, other_values};

use crate::compare::is_frequent;
use base_io::{NoMemory, Seq};
use csv_tables::Pool;
use degree_lists::falling;
use indexmap::IndexSet;
use limits::Accuracy;
use piece_compress::compress_runs;
use piece_math::Pieces;
use schema_types::Kind;
use stats_file::Datum;
use std::alloc::Global;

// The different cells whose values aren't frequent, in the order of the rows that have them first.
fn other_cells(
    alloc: Global,
    pool: &Pool,
    kind: Kind,
    cells: &[u64],
    frequent: &[(Datum, Pieces)],
) -> Result<IndexSet<u64>, NoMemory>
    requires cells { All (IsCell pool.now kind) cells.now }
    ensures { IfOk result (λ others. others.keys ≡
        different (filter (λ cell. not (is_frequent frequent.now (value_of_cell pool.now kind cell))) cells.now)) }
{
    let mut others: IndexSet<u64> = IndexSet::new(alloc);
    for cell in cells {
        if !is_frequent(frequent, pool, kind, *cell) {
            others.insert(*cell)?;
        }
    }
    Ok(others)
}

// `count` groups without keys.
fn empty_groups(alloc: Global, count: usize) -> Result<Seq<Seq<u64>>, NoMemory>
    ensures same_count { IfOk result (λ groups. length groups ≡ count) }
    ensures all_empty { IfOk result (λ groups. All (λ keys. keys ≡ []) groups) }
{
    let mut groups = Seq::new(alloc);
    for i in 0..count {
        prove!(i < count);
        groups.push(Seq::new(alloc))?;
    }
    Ok(groups)
}

// Adds a key to a group.
fn add_key(
    alloc: Global,
    groups: &mut Seq<Seq<u64>>,
    place: usize,
    key: u64,
) -> Result<(), NoMemory>
    requires { place < length groups.old }
    ensures { OnOk result (groups.new ≡ slice_set groups.old place (slice_index_or groups.old place [] ++ key ∷ [])) }
{
    let mut keys = groups.replace(place, Seq::new(alloc));
    keys.push(key)?;
    let _ = groups.replace(place, keys);
    Ok(())
}

// For each cell of `others`, the joined keys of the rows that have this cell.
fn keys_by_cell(
    alloc: Global,
    cells: &[u64],
    joined: &[u64],
    others: &IndexSet<u64>,
) -> Result<Seq<Seq<u64>>, NoMemory>
    requires joined { length joined.now ≡ length cells.now }
    requires different { IsDistinct nat_eq others.now.keys }
    ensures { IfOk result (λ groups. groups ≡ map (λ cell. keys_with cell (zip cells.now joined.now)) others.now.keys) }
{
    let mut groups = empty_groups(alloc, others.len())?;
    for (i, cell) in cells.iter().enumerate() {
        if let Some(place) = others.get_index_of(cell) {
            add_key(alloc, &mut groups, place, joined[i])?;
        }
    }
    Ok(groups)
}

// The rank-wise maximum of the degree lists of the groups, compressed. Its running sums are first capped at the number of keys in the largest group.
fn list_of_groups(
    alloc: Global,
    groups: &[Seq<u64>],
    accuracy: Accuracy,
) -> Result<Pieces, NoMemory>
    requires groups { All (λ keys. length keys < 2 ^ 32) groups.now }
    ensures { IfOk result (λ list. list ≡
        compressed accuracy (capped_at (maxima (map degree_list groups.now)) (greatest (map (λ keys. length keys) groups.now)))) }
{
    let mut maxima = Pieces::empty(alloc);
    let mut most: u64 = 0;
    for keys in groups {
        let degrees = falling(alloc, keys.as_slice())?;
        let degrees = Pieces::from_list(alloc, degrees.as_slice())?;
        maxima = maxima.greater(&degrees)?;
        most = most.max(keys.len() as u64);
    }
    compress_runs(alloc, &maxima.cap(most)?, accuracy)
}

/// One list for all values of the rows, except the frequent values.
pub(crate) fn list_of_others(
    alloc: Global,
    pool: &Pool,
    kind: Kind,
    cells: &[u64],
    joined: &[u64],
    frequent: &[(Datum, Pieces)],
    accuracy: Accuracy,
) -> Result<Pieces, NoMemory>
    requires cells { All (IsCell pool.now kind) cells.now }
    requires joined { length joined.now ≡ length cells.now }
    requires rows { length cells.now < 2 ^ 32 }
    ensures list { IfOk result (λ list. list ≡ list_for_any_of accuracy (zip cells.now joined.now)
        (other_values (value_of_cell pool.now kind) (zip cells.now joined.now) frequent.now)) }
{
    let others = other_cells(alloc, pool, kind, cells, frequent)?;
    let groups = keys_by_cell(alloc, cells, joined, &others)?;
    list_of_groups(alloc, groups.as_slice(), accuracy)
}
