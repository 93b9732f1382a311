//! Makes the section of a table in a query's file of statistics.
ghost use Rattle.std.specs.Prelude.{◌≡◌, ◌++◌, ◌<◌, ◌≤◌, ◌^◌, IfOk, OnOk, length};
ghost use Rattle.limits.specs.Profile.{most_entries};
ghost use Rattle.join_graph.specs.Conjuncts.{equalities_of, local_of};
ghost use Rattle.stats_file_of_query.specs.Needs.{needed, needed_of_table, table_of};
ghost use Rattle.sql_meaning.specs.Databases.{AreCells, IsDatabaseOf};
ghost use Rattle.sql_meaning.specs.Tables.{cells_of};
ghost use Rattle.stats_file_of_query.specs.Databases.{section_of_cells};
ghost use Rattle.stats_file_of_query.specs.Files.{for_each_pair};
ghost use Rattle.stats_file_of_query.specs.Pairs.{pair_in_cells};

use crate::column_pairs::ColumnPair;
use crate::needs::needs_of;
use crate::pairs::{add_pairs, row_count};
use base_io::{NoMemory, Seq};
use csv_tables::{Cells, Database, Pool};
use join_graph::Parts;
use limits::Accuracy;
use predicate_bounds::read_steps;
use query_types::Query;
use stats_file::{PairStats, TableStats};
use std::alloc::Global;

// Appends the pairs of columns that an entry needs (`needed`).
fn add_needed(
    alloc: Global,
    query: &Query,
    parts: &Parts,
    entry: u8,
    pairs: &mut Seq<ColumnPair>,
) -> Result<(), NoMemory>
    requires entry { entry < length query.now.from }
    requires local { parts.now.local ≡ local_of query.now }
    requires equalities { parts.now.equalities ≡ equalities_of query.now }
    ensures { OnOk result (pairs.new ≡ pairs.old ++ needed query.now entry) }
{
    let steps = read_steps(alloc, query, parts, entry)?;
    let needs = needs_of(alloc, steps.as_slice(), parts.equalities.as_slice(), entry)?;
    needs.add_pairs(pairs)
}

/// The position of an entry's table in the schema.
pub(crate) fn table_of(query: &Query, entry: u8) -> u32
    requires { entry < length query.now.from }
    ensures { result ≡ table_of query.now entry }
{
    query.from.get(usize::from(entry)).table
}

// The pairs that the FROM entries of a table need, entry after entry. A pair may be in the list twice.
fn needed_of_table(
    alloc: Global,
    query: &Query,
    parts: &Parts,
    table: u32,
) -> Result<Seq<ColumnPair>, NoMemory>
    requires within_limit { length query.now.from ≤ most_entries }
    requires local { parts.now.local ≡ local_of query.now }
    requires equalities { parts.now.equalities ≡ equalities_of query.now }
    ensures { IfOk result (λ pairs. pairs ≡ needed_of_table query.now table) }
{
    let mut pairs = Seq::new(alloc);
    for entry in 0..query.from.len() as u8 {
        if table_of(query, entry) == table {
            add_needed(alloc, query, parts, entry, &mut pairs)?;
        }
    }
    Ok(pairs)
}

// The statistics of each needed pair, once. They ascend by the filter column, and for equal filter columns by the joined column.
fn stats_of_pairs(
    alloc: Global,
    pool: &Pool,
    cells: &Cells,
    needed: &[ColumnPair],
    accuracy: Accuracy,
) -> Result<Seq<PairStats>, NoMemory>
    requires cells { AreCells pool.now cells.now }
    requires within_limit { length cells.now.kinds < 2 ^ 32 }
    ensures { IfOk result (λ pairs. pairs ≡ for_each_pair (pair_in_cells pool.now cells.now accuracy) needed.now (length cells.now.kinds)) }
{
    let mut pairs = Seq::new(alloc);
    for filter in 0..cells.kinds.len() as u32 {
        add_pairs(alloc, pool, cells, needed, filter, accuracy, &mut pairs)?;
    }
    Ok(pairs)
}

/// The section of a table: its number of rows, and the statistics of each pair of columns that an entry of this table needs. The statistics are made
/// from the cells of `entry`, which is an entry of the table. `table` is the table's position in the schema.
pub(crate) fn section_of(
    alloc: Global,
    query: &Query,
    parts: &Parts,
    db: &Database,
    table: u32,
    entry: u8,
    accuracy: Accuracy,
) -> Result<TableStats, NoMemory>
    requires database { IsDatabaseOf query.now db.now }
    requires entry { entry < length query.now.from }
    requires within_limit { length (cells_of db.now entry).kinds < 2 ^ 32 }
    requires local { parts.now.local ≡ local_of query.now }
    requires equalities { parts.now.equalities ≡ equalities_of query.now }
    ensures { IfOk result (λ section. section ≡ section_of_cells query.now db.now accuracy table entry) }
{
    let needed = needed_of_table(alloc, query, parts, table)?;
    let slot = *db.slots.get(usize::from(entry));
    let cells = db.cells.get(slot as usize);
    let rows = row_count(cells);
    let pairs = stats_of_pairs(alloc, &db.pool, cells, needed.as_slice(), accuracy)?;
    Ok(TableStats { table, rows, pairs })
}
