//! Gathers the steps of an entry's own conjuncts over chosen rows of its table, with lists for the joined columns of another entry. Each chosen row
//! is paired with a row of the other entry (`PairedRows`).
ghost use Rattle.std.specs.Prelude.{◌≡◌, ℕ, ◌==◌, ◌<◌, ◌^◌, All, length, map, slice_index, true, false, IfOk, IfSome, OnOk};
ghost use Rattle.std.specs.List.{list_any, range_with_len};
ghost use Rattle.join_graph.specs.Conjuncts.{equalities_of, local_of};
ghost use Rattle.predicate_bounds.specs.declared.steps.Step.{Step};
ghost use Rattle.sql_meaning.specs.Databases.{AreCells, IsDatabaseOf};
ghost use Rattle.sql_meaning.specs.Tables.{cells_of};
ghost use Rattle.cond_stats.specs.Lists.{compressed_degrees};
ghost use Rattle.gathered_stats.specs.Asked.{AreStepsOf, AsksWithin, IsGathered, compared_column};
ghost use Rattle.gathered_stats.specs.PairedRows.{ArePicked, AreGatheredForPaired, AreStepsOfPaired, IsGatheredForPaired, IsPicked, HasColumnFor};
ghost use Rattle.gathered_stats.specs.Columns.{KeysHaveLists, keys_in};
ghost use Rattle.gathered_stats.specs.Filters.{IsFilterOf, IsReady, HasFilterFor};
ghost use Rattle.gathered_stats.specs.ShownCells.{AreRowNumbersOf, cells_at, shown_cells};

use crate::columns::joined_columns;
use crate::entry_table::{EntryTable, cells_in_entry};
use crate::filters::{SortedColumn, compared_column};
use crate::gather::characters_differ;
use crate::wholes::whole_of;
use base_io::{NoMemory, Seq};
use cond_stats::FilterColumn;
use csv_tables::{Cells, Database, Pool};
use join_graph::Parts;
use limits::Accuracy;
use piece_math::Pieces;
use predicate_bounds::{ColumnSteps, EntryStats, Step, read_steps};
use query_types::Query;
use row_buf::{RowBuf, load_cells};
use schema_types::Kind;
use std::alloc::Global;

/// The cells of a filter column in some rows. `column` is its number in the table.
#[derive(Drop)]
pub(crate) struct PickedColumn {
    pub column: u32,
    pub kind: Kind,
    pub cells: RowBuf<u64>,
}

// The cells of a column in these rows.
fn picked(alloc: Global, cells: &[u64], rows: &[u32]) -> Result<RowBuf<u64>, NoMemory>
    requires { All (λ row. row < length cells.now) rows.now }
    ensures { IfOk result (λ keys. keys.items ≡ map (slice_index cells.now) rows.now) }
{
    let mut keys = RowBuf::new(alloc);
    keys.reserve(rows.len() as u64)?;
    load_cells(cells, rows, &mut keys);
    Ok(keys)
}

fn is_picked(columns: &[PickedColumn], column: u32) -> bool
    ensures { result ≡ list_any (λ other. other.column == column) columns.now }
{
    columns.iter().any(|other| other.column == column)
}

// A filter column, with its cells in these rows.
fn pick(
    alloc: Global,
    pool: &Pool,
    cells: &Cells,
    rows: &[u32],
    column: u32,
) -> Result<PickedColumn, NoMemory>
    requires cells { AreCells pool.now cells.now }
    requires exists { column < length cells.now.kinds }
    requires rows { AreRowNumbersOf cells.now rows.now }
    ensures { IfOk result (IsPicked cells.now rows.now column) }
{
    let at = column as usize;
    let kind = *cells.kinds.get(at);
    let at_rows = picked(alloc, cells.columns.get(at).as_slice(), rows)?;
    Ok(PickedColumn {
        column,
        kind,
        cells: at_rows,
    })
}

// Adds the column that a step compares with literals, with its cells in these rows. Nothing is added if the step has no such column, or if it is in
// `columns` already.
fn add_picked(
    alloc: Global,
    pool: &Pool,
    cells: &Cells,
    rows: &[u32],
    step: &Step,
    columns: &mut Seq<PickedColumn>,
) -> Result<(), NoMemory>
    requires cells { AreCells pool.now cells.now }
    requires exists { AsksWithin cells.now step.now }
    requires rows { AreRowNumbersOf cells.now rows.now }
    requires columns { ArePicked cells.now rows.now columns.old }
    ensures columns { OnOk result (ArePicked cells.now rows.now columns.new) }
    ensures has_column { OnOk result (HasColumnFor columns.new step.now) }
    ensures kept { OnOk result ((other : Step) → HasColumnFor columns.old other → HasColumnFor columns.new other) }
{
    let Some(column) = compared_column(step) else {
        return Ok(());
    };
    if is_picked(columns.as_slice(), column) {
        return Ok(());
    }
    columns.push(pick(alloc, pool, cells, rows, column)?)
}

// The columns that steps compare with literals, with their cells in these rows.
fn picked_columns(
    alloc: Global,
    pool: &Pool,
    cells: &Cells,
    rows: &[u32],
    steps: &[Step],
) -> Result<Seq<PickedColumn>, NoMemory>
    requires cells { AreCells pool.now cells.now }
    requires exist { All (AsksWithin cells.now) steps.now }
    requires rows { AreRowNumbersOf cells.now rows.now }
    ensures columns { IfOk result (ArePicked cells.now rows.now) }
    ensures has_column { IfOk result (λ columns. All (HasColumnFor columns) steps.now) }
{
    let mut columns = Seq::new(alloc);
    for step in steps {
        add_picked(alloc, pool, cells, rows, step, &mut columns)?;
    }
    Ok(columns)
}

// The picked columns, each sorted.
fn sorted_columns<'a>(
    alloc: Global,
    pool: &'a Pool,
    cells: &Cells,
    rows: &[u32],
    columns: &'a [PickedColumn],
) -> Result<Seq<SortedColumn<'a>>, NoMemory>
    requires cells { AreCells pool.now cells.now }
    requires rows { AreRowNumbersOf cells.now rows.now }
    requires few { length rows.now < 2 ^ 32 }
    requires columns { ArePicked cells.now rows.now columns.now }
    ensures filters { IfOk result (λ filters. All (IsFilterOf pool.now (cells_at rows.now cells.now)) filters) }
    ensures has_column { IfOk result (λ filters. (step : Step) → HasColumnFor columns.now step → HasFilterFor filters step) }
{
    let mut filters = Seq::new(alloc);
    for one in columns {
        let sorted = FilterColumn::new(alloc, pool, one.kind, one.cells.as_slice())?;
        filters.push(SortedColumn {
            column: one.column,
            sorted,
        })?;
    }
    Ok(filters)
}

/// Rows of an entry's table, each paired with a row of another entry's table: paired rows have the same index in `rows` and in `other_rows`.
/// `other_stats` has the statistics that were gathered over all rows of the other table.
#[derive(Clone, Copy)]
pub struct PairedRows<'a> {
    pub entry: u8,
    pub rows: &'a [u32],
    pub other: u8,
    pub other_rows: &'a [u32],
    pub other_stats: &'a EntryStats,
}

// Whether these are the numbers of all `count` rows of a table, in ascending order.
fn is_each_row(rows: &[u32], count: usize) -> bool
    ensures { result ≡ true → rows.now ≡ range_with_len 0 count }
{
    if rows.len() != count {
        return false;
    }
    'rows: for at in 0..rows.len() {
        if rows[at] as usize != at {
            return false;
        }
    }
    true
}

// Each step with its list, for a joined column of the other entry. If `rows` are all rows of the other entry's table in ascending order, no cell is
// copied. Then `whole`, if it is given, is used as the list of all rows.
fn gather_other(
    alloc: Global,
    table: &EntryTable<'_>,
    steps: &[Step],
    cells: &Cells,
    rows: &[u32],
    column: u32,
    whole: Option<&Pieces>,
) -> Result<ColumnSteps, NoMemory>
    requires ready { IsReady table.now }
    requires has_column { All (HasFilterFor table.now.filters) steps.now }
    requires rows { AreRowNumbersOf cells.now rows.now }
    requires beside { length rows.now ≡ length table.now.rows.now }
    requires at_rows { table.now.shows_all_rows ≡ false }
    requires cells { AreCells table.now.pool.now cells.now }
    requires column { column < length cells.now.kinds }
    requires whole { IfSome whole (λ list. list.now ≡ compressed_degrees table.now.accuracy (keys_in cells.now column)) }
    ensures column { IfOk result (λ gathered. gathered.column ≡ column) }
    ensures steps { IfOk result (AreStepsOfPaired table.now.pool.now (shown_cells table.now) table.now.accuracy cells.now rows.now steps.now) }
{
    let all = cells.columns.get(column as usize).as_slice();
    if is_each_row(rows, all.len()) {
        return match whole {
            Some(whole) => table.list_steps_over(alloc, all, whole, column, steps),
            None => table.list_steps(alloc, all, column, steps),
        };
    }
    let keys = picked(alloc, all, rows)?;
    table.list_steps(alloc, keys.as_slice(), column, steps)
}

// Each step with its list, for each joined column of the other entry.
fn gather_for_other_entry(
    alloc: Global,
    table: &EntryTable<'_>,
    steps: &[Step],
    cells: &Cells,
    rows: &[u32],
    columns: &[u32],
    own_steps: &[Step],
    other_stats: &EntryStats,
) -> Result<EntryStats, NoMemory>
    requires ready { IsReady table.now }
    requires has_column { All (HasFilterFor table.now.filters) steps.now }
    requires rows { AreRowNumbersOf cells.now rows.now }
    requires beside { length rows.now ≡ length table.now.rows.now }
    requires at_rows { table.now.shows_all_rows ≡ false }
    requires cells { AreCells table.now.pool.now cells.now }
    requires columns { All (λ column. column < length cells.now.kinds) columns.now }
    requires lists { (column : ℕ) → column < length cells.now.kinds → KeysHaveLists table.now.pool.now cells.now table.now.accuracy column }
    requires other_stats { All (AreStepsOf table.now.pool.now cells.now table.now.accuracy own_steps.now) other_stats.now.columns }
    ensures { IfOk result (AreGatheredForPaired table.now cells.now rows.now steps.now columns.now) }
{
    let mut gathered = Seq::new(alloc);
    for column in columns {
        let whole = whole_of(own_steps, other_stats, *column);
        gathered.push(gather_other(alloc, table, steps, cells, rows, *column, whole)?)?;
    }
    Ok(EntryStats { columns: gathered })
}

/// Gathers the steps of an entry's own conjuncts over chosen rows of its table. Each chosen row is paired with a row of another entry. For each
/// joined column of the other entry, each step has a list. (SafeBound, SIGMOD 2023: the statistics of a dimension's filters for the columns of a
/// fact table.)
///
/// `parts` is what `split` gives for the query. Only cells of the columns that are asked for are copied. If the other entry's rows are all rows of
/// its table in ascending order, its lists of all rows are taken from `other_stats`, where that has them.
pub fn gather_paired(
    alloc: Global,
    query: &Query,
    parts: &Parts,
    db: &Database,
    beside: &PairedRows<'_>,
    accuracy: Accuracy,
) -> Result<EntryStats, NoMemory>
    requires local { parts.now.local ≡ local_of query.now }
    requires equalities { parts.now.equalities ≡ equalities_of query.now }
    requires database { IsDatabaseOf query.now db.now }
    requires entry { beside.now.entry < length query.now.from }
    requires other { beside.now.other < length query.now.from }
    requires rows { AreRowNumbersOf (cells_of db.now beside.now.entry) beside.now.rows.now }
    requires other_rows { AreRowNumbersOf (cells_of db.now beside.now.other) beside.now.other_rows.now }
    requires as_many { length beside.now.other_rows.now ≡ length beside.now.rows.now }
    requires few { length beside.now.rows.now < 2 ^ 32 }
    requires other_stats { IsGathered query.now db.now accuracy beside.now.other beside.now.other_stats.now }
    ensures { IfOk result (IsGatheredForPaired query.now db.now accuracy beside.now.entry beside.now.rows.now beside.now.other beside.now.other_rows.now) }
{
    characters_differ(&db.pool);
    let steps = read_steps(alloc, query, parts, beside.entry)?;
    let steps = steps.as_slice();
    let cells = cells_in_entry(db, beside.entry);
    let picked = picked_columns(alloc, &db.pool, cells, beside.rows, steps)?;
    let filters = sorted_columns(alloc, &db.pool, cells, beside.rows, picked.as_slice())?;
    let table = EntryTable {
        pool: &db.pool,
        cells,
        shows_all_rows: false,
        rows: beside.rows,
        filters,
        accuracy,
    };
    let columns = joined_columns(alloc, parts.equalities.as_slice(), beside.other)?;
    let own_steps = read_steps(alloc, query, parts, beside.other)?;
    gather_for_other_entry(
        alloc,
        &table,
        steps,
        cells_in_entry(db, beside.other),
        beside.other_rows,
        columns.as_slice(),
        own_steps.as_slice(),
        beside.other_stats,
    )
}
