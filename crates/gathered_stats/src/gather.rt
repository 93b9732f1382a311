//! Makes the statistics for the bounds of a query: of a joined column, of a FROM entry, and of the whole query.
ghost use Rattle.std.specs.Prelude.{◌≡◌, ◌<◌, All, length, map, replicate, true, IfOk};
ghost use Rattle.join_graph.specs.Conjuncts.{equalities_of, local_of};
ghost use Rattle.level_bounds.specs.Keys.{HaveDifferentCharacters};
ghost use Rattle.query_bounds.specs.Statistics.{HasStatistics};
ghost use Rattle.sql_meaning.specs.Databases.{IsDatabaseOf};
ghost use Rattle.sql_meaning.specs.Tables.{tables_of};
ghost use Rattle.gathered_stats.specs.Asked.{AreGathered, AreStepsOf, IsGathered};
ghost use Rattle.gathered_stats.specs.Filters.{IsReady, HasFilterFor};
ghost use Rattle.gathered_stats.specs.ShownCells.{shown_cells};
ghost use Rattle.gathered_stats.specs.Statistics.{statistics_of};

use crate::columns::asked_columns;
use crate::entry_table::{EntryTable, cells_in_entry, row_count};
use crate::filters::filters_of;
use base_io::{NoMemory, Seq};
use csv_tables::{Cells, Database, Pool};
use join_graph::Parts;
use limits::Accuracy;
use predicate_bounds::{ColumnSteps, EntryStats, QueryStats, Step, read_steps};
use query_types::Query;
use std::alloc::Global;

// The keys of a column that the table doesn't have: 0 for each row.
fn one_key(alloc: Global, cells: &Cells) -> Result<Vec<u64>, NoMemory>
    ensures { IfOk result (λ keys. keys.items ≡ replicate cells.now.rows 0) }
{
    let mut keys = Vec::new(alloc);
    keys.resize(cells.rows as usize, 0)?;
    Ok(keys)
}

// The steps of the entry's own conjuncts, each step with its list for this column. If the table has no such column, all its rows have the same key.
fn gather_column(
    alloc: Global,
    table: &EntryTable<'_>,
    steps: &[Step],
    column: u32,
) -> Result<ColumnSteps, NoMemory>
    requires ready { IsReady table.now }
    requires whole { table.now.shows_all_rows ≡ true }
    requires has_column { All (HasFilterFor table.now.filters) steps.now }
    ensures column { IfOk result (λ gathered. gathered.column ≡ column) }
    ensures steps { IfOk result (AreStepsOf table.now.pool.now (shown_cells table.now) table.now.accuracy steps.now) }
{
    let at = column as usize;
    if at < table.cells.columns.len() {
        let cells = table.cells.columns.get(at);
        return table.list_steps(alloc, cells.as_slice(), column, steps);
    }
    let keys = one_key(alloc, table.cells)?;
    table.list_steps(alloc, keys.as_slice(), column, steps)
}

// Gathers the steps for each of these columns, in their order.
fn gather_columns(
    alloc: Global,
    table: &EntryTable<'_>,
    steps: &[Step],
    columns: &[u32],
) -> Result<EntryStats, NoMemory>
    requires ready { IsReady table.now }
    requires whole { table.now.shows_all_rows ≡ true }
    requires has_column { All (HasFilterFor table.now.filters) steps.now }
    ensures columns { IfOk result (λ stats. map (λ gathered. gathered.column) stats.columns ≡ columns.now) }
    ensures steps { IfOk result (λ stats.
        All (AreStepsOf table.now.pool.now (shown_cells table.now) table.now.accuracy steps.now) stats.columns) }
{
    let mut gathered = Seq::new(alloc);
    for column in columns {
        gathered.push(gather_column(alloc, table, steps, *column)?)?;
    }
    Ok(EntryStats { columns: gathered })
}

// The statistics of an entry, for each of its joined columns. If it has no joined column, they are for one column that its table doesn't have.
fn gather_entry(
    alloc: Global,
    query: &Query,
    parts: &Parts,
    db: &Database,
    entry: u8,
    accuracy: Accuracy,
) -> Result<EntryStats, NoMemory>
    requires local { parts.now.local ≡ local_of query.now }
    requires equalities { parts.now.equalities ≡ equalities_of query.now }
    requires database { IsDatabaseOf query.now db.now }
    requires entry { entry < length query.now.from }
    ensures { IfOk result (IsGathered query.now db.now accuracy entry) }
{
    let steps = read_steps(alloc, query, parts, entry)?;
    let steps = steps.as_slice();
    let cells = cells_in_entry(db, entry);
    let _rows = row_count(cells);
    let table = EntryTable {
        pool: &db.pool,
        cells,
        shows_all_rows: true,
        rows: &[],
        filters: filters_of(alloc, &db.pool, cells, steps)?,
        accuracy,
    };
    let columns = asked_columns(alloc, parts.equalities.as_slice(), entry)?;
    gather_columns(alloc, &table, steps, columns.as_slice())
}

/// No two texts of a pool have the same characters, so two texts are equal exactly if their cells are equal. The function does nothing; proofs need
/// its contract.
pub fn characters_differ(pool: &Pool)
    ensures { HaveDifferentCharacters pool.now }
{
    let _ = pool.len();
}

/// The statistics that the bounds of a query need (SafeBound, SIGMOD 2023). For each FROM entry and each of its joined columns they have the steps
/// of the entry's own conjuncts, each step with its list. `parts` is the result of `split` for the query. `accuracy` is the accuracy of compression:
/// at a larger accuracy the lists are nearer to the degree sequences and have more runs. On `NoMemory` nothing is kept.
pub fn gather_query(
    alloc: Global,
    query: &Query,
    parts: &Parts,
    db: &Database,
    accuracy: Accuracy,
) -> Result<QueryStats, NoMemory>
    requires local { parts.now.local ≡ local_of query.now }
    requires equalities { parts.now.equalities ≡ equalities_of query.now }
    requires database { IsDatabaseOf query.now db.now }
    ensures tells { IfOk result (λ stats. HasStatistics query.now stats (statistics_of (tables_of db.now) accuracy)) }
    ensures gathered { IfOk result (λ stats. AreGathered query.now db.now accuracy (length query.now.from) stats.entries) }
{
    characters_differ(&db.pool);
    let mut entries = Seq::new(alloc);
    for entry in 0..query.from.len() as u8 {
        let stats = gather_entry(alloc, query, parts, db, entry, accuracy)?;
        entries.push(stats)?;
    }
    Ok(QueryStats { entries })
}
