//! Makes all statistics of a joined column by the values of a filter column, from the cells of a table.
ghost use Rattle.std.specs.Prelude.{◌≡◌, IfOk};
ghost use Rattle.std.specs.List.{sum};
ghost use Rattle.cond_stats.specs.Columns.{cell_le};
ghost use Rattle.column_stats.specs.Pairs.{HasColumn, kind_of_column, rows_of_pair};
ghost use Rattle.column_stats.specs.Promises.{GivesRangeLists, GivesValueLists};
ghost use Rattle.column_stats.specs.Promises.{NodesDominate, RangesDominate, ValuesDominate, WholeDominates};
ghost use Rattle.column_stats.specs.Stats.{IsValid, stats_of};

use base_io::NoMemory;
use column_stats::{ColumnStats, gather_sorted};
use cond_stats::FilterColumn;
use csv_tables::{Cells, Pool};
use limits::Accuracy;
use std::alloc::Global;

// How many rows the table has.
fn row_count(cells: &Cells) -> u32
    ensures { result ≡ cells.now.rows }
{
    cells.rows
}

// The statistics of two columns of a table.
fn statistics_of_columns(
    alloc: Global,
    cells: &Cells,
    pool: &Pool,
    filter: u32,
    joined: u32,
    accuracy: Accuracy,
) -> Result<ColumnStats, NoMemory>
    requires filter { HasColumn pool.now cells.now filter }
    requires joined { HasColumn pool.now cells.now joined }
    ensures { IfOk result (λ stats. stats ≡
        stats_of pool.now (kind_of_column cells.now filter) accuracy (rows_of_pair cells.now filter joined)) }
{
    let _rows = row_count(cells);
    let kind = *cells.kinds.get(filter as usize);
    let keys = cells.columns.get(joined as usize).as_slice();
    let values = cells.columns.get(filter as usize).as_slice();
    let column = FilterColumn::new(alloc, pool, kind, values)?;
    gather_sorted(alloc, &column, kind, keys, accuracy)
}

/// The statistics of a joined column by the values of a filter column (SafeBound, SIGMOD 2023). `filter` and `joined` number the table's columns from
/// 0. `accuracy` says how near compressed lists are to the degrees. The only error is `NoMemory`, and then nothing is kept.
pub fn gather(
    alloc: Global,
    cells: &Cells,
    pool: &Pool,
    filter: u32,
    joined: u32,
    accuracy: Accuracy,
) -> Result<ColumnStats, NoMemory>
    requires filter { HasColumn pool.now cells.now filter }
    requires joined { HasColumn pool.now cells.now joined }

    // each part is what its definition says
    ensures parts { IfOk result (λ stats. stats ≡
        stats_of pool.now (kind_of_column cells.now filter) accuracy (rows_of_pair cells.now filter joined)) }
    ensures valid { IfOk result IsValid }

    // each value and each range has the list that cond_stats makes of the rows
    ensures values { IfOk result (GivesValueLists accuracy (rows_of_pair cells.now filter joined)) }
    ensures ranges { IfOk result (GivesRangeLists (cell_le pool.now (kind_of_column cells.now filter)) accuracy
        (rows_of_pair cells.now filter joined)) }

    // each list dominates the joined keys of its rows
    ensures whole_never_under { IfOk result (WholeDominates (rows_of_pair cells.now filter joined)) }
    ensures whole_total { IfOk result (λ stats. sum stats.whole ≡ cells.now.rows) }
    ensures value_never_under { IfOk result (ValuesDominate (rows_of_pair cells.now filter joined)) }
    ensures node_never_under { IfOk result (NodesDominate (cell_le pool.now (kind_of_column cells.now filter))
        (rows_of_pair cells.now filter joined)) }
    ensures range_never_under { IfOk result (RangesDominate (cell_le pool.now (kind_of_column cells.now filter))
        (rows_of_pair cells.now filter joined)) }
{
    statistics_of_columns(alloc, cells, pool, filter, joined, accuracy)
}
