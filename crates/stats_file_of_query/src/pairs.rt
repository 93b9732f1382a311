//! Makes the statistics of a pair of columns, and of all needed pairs of one filter column.
ghost use Rattle.std.specs.Prelude.{◌≡◌, ◌++◌, ◌<◌, ◌^◌, All, IfOk, OnOk, length, map};
ghost use Rattle.std.specs.List.{filter, list_any};
ghost use Rattle.gathered_stats.specs.Filters.{IsColumnIn};
ghost use Rattle.stats_file_of_query.specs.ColumnPairs.{is_pair};
ghost use Rattle.sql_meaning.specs.Databases.{AreCells};
ghost use Rattle.stats_file_of_query.specs.Files.{joined_with};
ghost use Rattle.stats_file_of_query.specs.Pairs.{pair_in_cells};

use crate::column_pairs::ColumnPair;
use crate::data::{cut_values, frequent_values};
use base_io::{NoMemory, Seq};
use column_stats::{ColumnStats, gather_sorted};
use cond_stats::FilterColumn;
use csv_tables::{Cells, Pool};
use limits::Accuracy;
use stats_file::PairStats;
use std::alloc::Global;

/// How many rows a table has, which is below 2^32.
pub(crate) fn row_count(cells: &Cells) -> u32
    ensures { result ≡ cells.now.rows }
{
    cells.rows
}

// The statistics of a joined column by the values of a sorted filter column.
fn pair_stats_of(
    alloc: Global,
    pool: &Pool,
    cells: &Cells,
    sorted: &FilterColumn<'_>,
    filter: u32,
    joined: u32,
    accuracy: Accuracy,
) -> Result<PairStats, NoMemory>
    requires cells { AreCells pool.now cells.now }
    requires sorted { IsColumnIn pool.now cells.now filter sorted.now }
    requires joined { joined < length cells.now.kinds }
    ensures { IfOk result (λ pair. pair ≡ pair_in_cells pool.now cells.now accuracy filter joined) }
{
    let _rows = row_count(cells);
    let kind = *cells.kinds.get(filter as usize);
    let keys = cells.columns.get(joined as usize).as_slice();
    let stats = gather_sorted(alloc, sorted, kind, keys, accuracy)?;
    let frequent = frequent_values(alloc, pool, kind, stats.frequent.as_slice())?;
    let cuts = cut_values(alloc, pool, kind, stats.cuts.as_slice())?;
    let ColumnStats {
        whole,
        rest,
        nodes,
        ..
    } = stats;
    Ok(PairStats {
        filter,
        joined,
        whole,
        frequent,
        rest,
        cuts,
        nodes,
    })
}

/// All statistics of two columns of a table. The filter column is sorted for this one pair.
pub fn pair_of_columns(
    alloc: Global,
    pool: &Pool,
    cells: &Cells,
    filter: u32,
    joined: u32,
    accuracy: Accuracy,
) -> Result<PairStats, NoMemory>
    requires cells { AreCells pool.now cells.now }
    requires filter { filter < length cells.now.kinds }
    requires joined { joined < length cells.now.kinds }
    ensures { IfOk result (λ pair. pair ≡ pair_in_cells pool.now cells.now accuracy filter joined) }
{
    let _rows = row_count(cells);
    let kind = *cells.kinds.get(filter as usize);
    let values = cells.columns.get(filter as usize).as_slice();
    let sorted = FilterColumn::new(alloc, pool, kind, values)?;
    pair_stats_of(alloc, pool, cells, &sorted, filter, joined, accuracy)
}

// Whether `needed` has the pair of these two columns.
fn has_pair(needed: &[ColumnPair], filter: u32, joined: u32) -> bool
    ensures { result ≡ list_any (is_pair filter joined) needed.now }
{
    needed.iter().any(|pair| pair.is_of(filter, joined))
}

// The columns, among the first `count` columns, with which a filter column makes a needed pair.
fn joined_with(
    alloc: Global,
    needed: &[ColumnPair],
    count: u32,
    filter: u32,
) -> Result<Seq<u32>, NoMemory>
    ensures { IfOk result (λ columns. columns ≡ joined_with needed.now count filter) }
{
    let mut columns = Seq::new(alloc);
    for joined in 0..count {
        if has_pair(needed, filter, joined) {
            columns.push(joined)?;
        }
    }
    Ok(columns)
}

// Appends the statistics of each of these joined columns by the values of a filter column. The filter column is sorted once.
fn add_each(
    alloc: Global,
    pool: &Pool,
    cells: &Cells,
    filter: u32,
    joined: &[u32],
    accuracy: Accuracy,
    pairs: &mut Seq<PairStats>,
) -> Result<(), NoMemory>
    requires cells { AreCells pool.now cells.now }
    requires filter { filter < length cells.now.kinds }
    requires joined { All (λ column. column < length cells.now.kinds) joined.now }
    ensures { OnOk result (pairs.new ≡ pairs.old ++ map (pair_in_cells pool.now cells.now accuracy filter) joined.now) }
{
    let _rows = row_count(cells);
    let kind = *cells.kinds.get(filter as usize);
    let sorted = FilterColumn::new(
        alloc,
        pool,
        kind,
        cells.columns.get(filter as usize).as_slice(),
    )?;
    for column in joined {
        pairs.push(pair_stats_of(alloc, pool, cells, &sorted, filter, *column, accuracy)?)?;
    }
    Ok(())
}

/// Appends the statistics, by the values of a filter column, of each joined column with which it makes a needed pair. The joined columns ascend. If
/// there is no such joined column, the filter column isn't sorted.
pub(crate) fn add_pairs(
    alloc: Global,
    pool: &Pool,
    cells: &Cells,
    needed: &[ColumnPair],
    filter: u32,
    accuracy: Accuracy,
    pairs: &mut Seq<PairStats>,
) -> Result<(), NoMemory>
    requires cells { AreCells pool.now cells.now }
    requires filter { filter < length cells.now.kinds }
    requires within_limit { length cells.now.kinds < 2 ^ 32 }
    ensures { OnOk result (pairs.new ≡ pairs.old
        ++ map (pair_in_cells pool.now cells.now accuracy filter) (joined_with needed.now (length cells.now.kinds) filter)) }
{
    let joined = joined_with(alloc, needed, cells.kinds.len() as u32, filter)?;
    if joined.len() == 0 {
        return Ok(());
    }
    add_each(
        alloc,
        pool,
        cells,
        filter,
        joined.as_slice(),
        accuracy,
        pairs,
    )
}
