//! Makes the degree sequences of joined columns over the rows of their entries.
ghost use Rattle.std.specs.Prelude.{◌≡◌, ◌<◌, ◌≤◌, ℕ, All, IfOk, IsSome, MatchBool, None, OnOk, length, map};
ghost use Rattle.std.specs.List.{sum};
ghost use Rattle.limits.specs.Profile.{most_rows};
ghost use Rattle.cond_stats.specs.Lists.{compressed_degrees};
ghost use Rattle.bound_fold.specs.Lists.{list_of as list_known};
ghost use Rattle.bound_fold.specs.Sets.{HaveLists};
ghost use Rattle.filtered_lists.specs.Standing.{value_in_row};
ghost use Rattle.sql_meaning.specs.Databases.{AreTables, IsColumnOf};
ghost use Rattle.sql_meaning.specs.Tables.{cells_of, tables_of};
ghost use Rattle.table_stats.specs.Columns.{as_first_rows};
ghost use Rattle.join_steps.specs.Lists.{lists_of};
ghost use Rattle.reduced_scans.specs.Lists.{AreRowLists, JoinsColumns, column_of};
ghost use Rattle.planning.specs.ListsSoFar.{IsKnown};

use crate::rows::row_bounds;
use base_io::NoMemory;
use berge_tree::{Edge, Place};
use bound_fold::EntryLists;
use csv_tables::Database;
use degree_lists::falling;
use gathered_stats::characters_differ;
use join_steps::cells_of_column;
use limits::Accuracy;
use piece_compress::compress;
use piece_math::Pieces;
use query_types::ColumnRef;
use row_buf::{RowBuf, load_cells};
use std::alloc::Global;

// The degree sequence of a column over these rows, compressed.
fn column_list(
    alloc: Global,
    db: &Database,
    place: Place,
    rows: &[u32],
    accuracy: Accuracy,
) -> Result<Pieces, NoMemory>
    requires tables { AreTables db.now }
    requires column { IsColumnOf db.now (column_of place) }
    requires rows { All (λ row. row < (cells_of db.now place.entry).rows) rows.now }
    requires few { length rows.now ≤ most_rows }
    ensures exact { IfOk result (λ list. list
        ≡ compressed_degrees accuracy (as_first_rows (map (value_in_row (tables_of db.now) place.entry place.column) rows.now))) }
    ensures sum { IfOk result (λ list. sum list ≡ length rows.now) }
{
    characters_differ(&db.pool);
    let column = ColumnRef {
        from: place.entry,
        column: place.column,
    };
    let mut keys = RowBuf::new(alloc);
    keys.reserve(rows.len() as u64)?;
    load_cells(cells_of_column(db, column), rows, &mut keys);
    let degrees = falling(alloc, keys.as_slice())?;
    compress(alloc, degrees.as_slice(), accuracy)
}

// Adds the degree sequence of a column to `known`, which doesn't have it yet.
fn add_new(
    alloc: Global,
    db: &Database,
    lists: &[RowBuf<u32>],
    place: Place,
    accuracy: Accuracy,
    known: &mut EntryLists,
) -> Result<(), NoMemory>
    requires lists { AreRowLists db.now lists.now }
    requires column { IsColumnOf db.now (column_of place) }
    requires known { IsKnown db.now (lists_of lists.now) accuracy known.old }
    requires new { list_known known.old place.entry place.column ≡ None }
    ensures known { OnOk result (IsKnown db.now (lists_of lists.now) accuracy known.new) }
    ensures there { OnOk result (IsSome (list_known known.new place.entry place.column)) }
    ensures kept { OnOk result ((entry column : ℕ) → IsSome (list_known known.old entry column)
        → IsSome (list_known known.new entry column)) }
{
    let rows = lists[place.entry as usize].as_slice();
    let list = column_list(alloc, db, place, rows, accuracy)?;
    known.add(place.entry, place.column, list)?;
    Ok(())
}

fn is_there(known: &EntryLists, place: Place) -> bool
    ensures { MatchBool result (IsSome (list_known known.now place.entry place.column))
        (list_known known.now place.entry place.column ≡ None) }
{
    known.list(place.entry, place.column).is_some()
}

// Adds the degree sequence of a column to `known`, unless `known` has it.
fn add_list(
    alloc: Global,
    db: &Database,
    lists: &[RowBuf<u32>],
    place: Place,
    accuracy: Accuracy,
    known: &mut EntryLists,
) -> Result<(), NoMemory>
    requires lists { AreRowLists db.now lists.now }
    requires column { IsColumnOf db.now (column_of place) }
    requires known { IsKnown db.now (lists_of lists.now) accuracy known.old }
    ensures known { OnOk result (IsKnown db.now (lists_of lists.now) accuracy known.new) }
    ensures there { OnOk result (IsSome (list_known known.new place.entry place.column)) }
    ensures kept { OnOk result ((entry column : ℕ) → IsSome (list_known known.old entry column)
        → IsSome (list_known known.new entry column)) }
{
    if is_there(known, place) {
        return Ok(());
    }
    add_new(alloc, db, lists, place, accuracy, known)
}

/// The row bound of each entry, and the degree sequence of each column that one of the equalities joins. A column that several equalities join gets
/// one degree sequence.
pub(crate) fn lists_over_rows(
    alloc: Global,
    db: &Database,
    lists: &[RowBuf<u32>],
    equalities: &[Edge],
    accuracy: Accuracy,
) -> Result<EntryLists, NoMemory>
    requires lists { AreRowLists db.now lists.now }
    requires columns { All (JoinsColumns db.now) equalities.now }
    ensures known { IfOk result (IsKnown db.now (lists_of lists.now) accuracy) }
    ensures joined { IfOk result (λ known. All (HaveLists known) equalities.now) }
{
    let mut known = row_bounds(alloc, lists)?;
    'equalities: for number in 0..equalities.len() {
        let edge = equalities[number];
        add_list(alloc, db, lists, edge.left, accuracy, &mut known)?;
        add_list(alloc, db, lists, edge.right, accuracy, &mut known)?;
    }
    Ok(known)
}
