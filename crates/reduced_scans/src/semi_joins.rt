//! Semi-joins. They keep the rows of a list whose value also occurs on the other side of an equality.
ghost use Rattle.std.specs.Prelude.{◌≡◌, ◌+◌, ◌*◌, ◌<◌, ◌≤◌, ℕ, All, Bool, IfOk, IfSome, List, OnOk, length, slice_index};
ghost use Rattle.std.specs.List.{filter, Contains};
ghost use Rattle.limits.specs.Profile.{most_rows};
ghost use Rattle.berge_tree.specs.declared.edges.Edge.{Edge};
ghost use Rattle.sql_meaning.specs.Databases.{AreTables, IsColumnOf};
ghost use Rattle.sql_meaning.specs.Tables.{cells_of};
ghost use Rattle.join_steps.specs.Columns.{column_cells};
ghost use Rattle.level_bounds.specs.Keys.{cell_at};
ghost use Rattle.reduced_scans.specs.Families.{AreAscending};
ghost use Rattle.join_steps.specs.Lists.{lists_of};
ghost use Rattle.reduced_scans.specs.Lists.{column_of, AreRowLists, JoinsColumns};
ghost use Rattle.reduced_scans.specs.SemiJoins.{is_marked, IsJoinedAt, IsSemiJoin, IsSifted, StaySifted};
ghost use Rattle.reduced_scans.specs.Wiring.{HoldsByKey};

use crate::value_sets::{ValueSet, values_of};
use base_io::{NoMemory, Seq};
use berge_tree::{Edge, Place};
use csv_tables::Database;
use join_steps::cells_of_column;
use query_types::ColumnRef;
use row_buf::RowBuf;
use std::alloc::Global;

// The rows of a list whose cell is in `values`.
fn rows_within(
    alloc: Global,
    cells: &[u64],
    list: &[u32],
    values: &ValueSet,
) -> Result<RowBuf<u32>, NoMemory>
    requires { All (λ row. row < length cells.now) list.now }
    ensures { IfOk result (λ kept. kept.items
        ≡ filter (λ row. is_marked values.now.least values.now.marks.items (slice_index cells.now row)) list.now) }
{
    let mut kept = RowBuf::new(alloc);
    kept.reserve(list.len() as u64)?;
    'rows: for row in list {
        let stays = values.has(cells[*row as usize]);
        if stays {
            kept.push(*row);
        }
    }
    Ok(kept)
}

// The rows of a list that have a partner. `None` if the partners' cells don't lie in a short range.
fn semi_join(
    alloc: Global,
    cells: &[u64],
    list: &[u32],
    partner_cells: &[u64],
    partners: &[u32],
) -> Result<Option<RowBuf<u32>>, NoMemory>
    requires rows { All (λ row. row < length cells.now) list.now }
    requires partners { All (λ row. row < length partner_cells.now) partners.now }
    requires few { length list.now + length partners.now ≤ 2 * most_rows }
    ensures { IfOk result (λ kept. IfSome kept (λ rows.
        IsSemiJoin (slice_index cells.now) (slice_index partner_cells.now) list.now partners.now rows.items)) }
{
    let rows = list.len() as u64 + partners.len() as u64;
    let Some(values) = values_of(alloc, partner_cells, partners, rows)? else {
        return Ok(None);
    };
    let kept = rows_within(alloc, cells, list, &values)?;
    Ok(Some(kept))
}

// The cells of the column on one side of an equality.
fn cells_at<'a>(db: &'a Database, column: Place) -> &'a [u64]
    requires tables { AreTables db.now }
    requires column { IsColumnOf db.now (column_of column) }
    ensures cells { result.now ≡ column_cells db.now (column_of column) }
    ensures rows { length result.now ≡ (cells_of db.now column.entry).rows }
{
    let reference = ColumnRef {
        from: column.entry,
        column: column.column,
    };
    cells_of_column(db, reference)
}

// Replaces the list on one side of an equality by its semi-join with the other side's list, if the other side's values lie in a short range.
fn semi_join_side(
    alloc: Global,
    db: &Database,
    lists: &mut Seq<RowBuf<u32>>,
    side: Place,
    other: Place,
) -> Result<(), NoMemory>
    requires lists { AreRowLists db.now lists.old }
    requires side { IsColumnOf db.now (column_of side) }
    requires other { IsColumnOf db.now (column_of other) }
    ensures lists { OnOk result (AreRowLists db.now lists.new) }
    ensures joined { OnOk result (IsJoinedAt (cell_at db.now) side other (lists_of lists.old) (lists_of lists.new)) }
{
    let list = lists.get(side.entry as usize).as_slice();
    let partners = lists.get(other.entry as usize).as_slice();
    let kept = semi_join(
        alloc,
        cells_at(db, side),
        list,
        cells_at(db, other),
        partners,
    )?;
    if let Some(rows) = kept {
        lists.replace(side.entry as usize, rows);
    }
    Ok(())
}

// Reduces the list of each side of an equality by the list of the other side.
fn semi_join_equality(
    alloc: Global,
    db: &Database,
    lists: &mut Seq<RowBuf<u32>>,
    edge: Edge,
) -> Result<(), NoMemory>
    requires lists { AreRowLists db.now lists.old }
    requires columns { JoinsColumns db.now edge }
    ensures lists { OnOk result (AreRowLists db.now lists.new) }
    ensures stay { OnOk result ((equalities : List Edge) → Contains equalities edge
        → StaySifted (cell_at db.now) equalities (lists_of lists.old) (lists_of lists.new)) }
{
    semi_join_side(alloc, db, lists, edge.left, edge.right)?;
    semi_join_side(alloc, db, lists, edge.right, edge.left)?;
    Ok(())
}

// Reduces along all equalities, from the first to the last.
fn semi_join_forward(
    alloc: Global,
    db: &Database,
    lists: &mut Seq<RowBuf<u32>>,
    equalities: &[Edge],
) -> Result<(), NoMemory>
    requires lists { AreRowLists db.now lists.old }
    requires columns { All (JoinsColumns db.now) equalities.now }
    ensures lists { OnOk result (AreRowLists db.now lists.new) }
    ensures stay { OnOk result (StaySifted (cell_at db.now) equalities.now (lists_of lists.old) (lists_of lists.new)) }
{
    'equalities: for number in 0..equalities.len() {
        semi_join_equality(alloc, db, lists, equalities[number])?;
    }
    Ok(())
}

// Reduces along all equalities, from the last to the first.
fn semi_join_back(
    alloc: Global,
    db: &Database,
    lists: &mut Seq<RowBuf<u32>>,
    equalities: &[Edge],
) -> Result<(), NoMemory>
    requires lists { AreRowLists db.now lists.old }
    requires columns { All (JoinsColumns db.now) equalities.now }
    ensures lists { OnOk result (AreRowLists db.now lists.new) }
    ensures stay { OnOk result (StaySifted (cell_at db.now) equalities.now (lists_of lists.old) (lists_of lists.new)) }
{
    let mut remaining = equalities.len();
    'equalities: while remaining > 0 {
        remaining -= 1;
        semi_join_equality(alloc, db, lists, equalities[remaining])?;
    }
    Ok(())
}

// A copy of each scan's list of rows.
fn copies(alloc: Global, scans: &[RowBuf<u32>]) -> Result<Seq<RowBuf<u32>>, NoMemory>
    ensures { IfOk result (λ lists. lists_of lists ≡ lists_of scans.now) }
{
    let mut lists = Seq::new(alloc);
    'scans: for entry in 0..scans.len() {
        let list = copy(alloc, scans[entry].as_slice())?;
        lists.push(list)?;
    }
    Ok(lists)
}

// A copy of `list` in a new buffer.
fn copy(alloc: Global, list: &[u32]) -> Result<RowBuf<u32>, NoMemory>
    ensures { IfOk result (λ rows. rows.items ≡ list.now) }
{
    let mut rows = RowBuf::new(alloc);
    rows.reserve(list.len() as u64)?;
    rows.extend(list);
    Ok(rows)
}

/// The rows of each scan that remain after semi-joins along all equalities, from the first to the last and back. A semi-join removes rows that have
/// no partner. If the range of the other side's values is too long, it removes no row.
pub(crate) fn semi_join_all(
    alloc: Global,
    db: &Database,
    scans: &[RowBuf<u32>],
    equalities: &[Edge],
) -> Result<Seq<RowBuf<u32>>, NoMemory>
    requires lists { AreRowLists db.now scans.now }
    requires columns { All (JoinsColumns db.now) equalities.now }
    ensures lists { IfOk result (λ lists. AreRowLists db.now lists) }
    ensures sifted { IfOk result (λ lists. (equal : Edge → ℕ → ℕ → Bool)
        → HoldsByKey (lists_of scans.now) equalities.now (cell_at db.now) equal
        → AreAscending (lists_of scans.now)
        → IsSifted (lists_of scans.now) equalities.now equal (lists_of lists)) }
{
    let mut lists = copies(alloc, scans)?;
    semi_join_forward(alloc, db, &mut lists, equalities)?;
    semi_join_back(alloc, db, &mut lists, equalities)?;
    Ok(lists)
}
