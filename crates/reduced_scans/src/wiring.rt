//! Builds the uses of scanned rows for counted_sets, which removes rows without a match. In the words of counted_sets, each row is an item, and a
//! slot is a value on one side of an equality. A use belongs to a row on one side of an equality. It gives the slot of the row's value on this side,
//! and needs the slot of this value on the other side.
ghost use Rattle.std.specs.Prelude.{◌≡◌, ◌+◌, ◌*◌, ◌^◌, ◌<◌, ◌≤◌, ◌∷◌, ◌++◌, [], ℕ, All, List, OnOk, length};
ghost use Rattle.limits.specs.Profile.{most_conjuncts, most_entries, most_rows};
ghost use Rattle.berge_tree.specs.declared.edges.Edge.{Edge};
ghost use Rattle.counted_sets.specs.declared.uses.Use.{Use};
ghost use Rattle.sql_meaning.specs.Databases.{IsColumnOf};
ghost use Rattle.join_steps.specs.Columns.{column_cells};
ghost use Rattle.level_bounds.specs.Keys.{cell_at};
ghost use Rattle.join_steps.specs.Lists.{list_at, lists_of};
ghost use Rattle.reduced_scans.specs.Lists.{column_of, AreRowLists, JoinsColumns};
ghost use Rattle.reduced_scans.specs.Wiring.{first_item, slot_of, AddsUses, AreUsesOfRows, ValuesBeginWith, IsEqualityAt, IsUseFor};

use crate::equality_values::EqualityValues;
use base_io::NoMemory;
use berge_tree::{Edge, Place};
use counted_sets::Use;
use csv_tables::Database;
use join_steps::cells_of_column;
use query_types::ColumnRef;
use row_buf::RowBuf;

// The slot of the value with number `value_number`, on the left or the right side.
fn slot_of(value_number: u32, on_left: bool) -> u32
    requires { value_number < 2 ^ 31 }
    ensures { result ≡ slot_of value_number on_left }
{
    if on_left {
        2 * value_number
    } else {
        2 * value_number + 1
    }
}

// Adds the use of `item`, whose row has the cell `cell` on one side of an equality.
fn add_use(
    known_values: &mut EqualityValues,
    uses: &mut RowBuf<Use>,
    equality: u32,
    on_left: bool,
    cell: u64,
    item: u32,
) -> Result<(), NoMemory>
    requires few { length known_values.old < 2 ^ 31 }
    requires room { 1 ≤ uses.old.spare }
    ensures begins { OnOk result (ValuesBeginWith known_values.old known_values.new) }
    ensures few { OnOk result (length known_values.new ≤ length known_values.old + 1) }
    ensures added { OnOk result ((u : Use) × (uses.new.items ≡ uses.old.items ++ u ∷ [])
        × IsUseFor known_values.new equality on_left cell item u) }
    ensures spare { OnOk result (uses.new.spare + 1 ≡ uses.old.spare) }
{
    let value_number = known_values.number(equality, cell)?;
    uses.push(Use {
        item,
        gives: slot_of(value_number, on_left),
        needs: slot_of(value_number, !on_left),
    });
    Ok(())
}

// Adds the uses of the rows of a list for one side of an equality. `cells` are the cells of that side's column.
fn add_side(
    known_values: &mut EqualityValues,
    uses: &mut RowBuf<Use>,
    equality: u32,
    on_left: bool,
    cells: &[u64],
    list: &[u32],
    first: u32,
) -> Result<(), NoMemory>
    requires rows { All (λ row. row < length cells.now) list.now }
    requires few { length known_values.old + length list.now < 2 ^ 31 }
    requires items { first + length list.now < 2 ^ 32 }
    ensures { OnOk result (AddsUses equality on_left first cells.now list.now (length list.now)
        known_values.old known_values.new uses.old.items uses.new.items) }
{
    uses.reserve(list.len() as u64)?;
    'rows: for at in 0..list.len() {
        let cell = cells[list[at] as usize];
        add_use(
            known_values,
            uses,
            equality,
            on_left,
            cell,
            first + at as u32,
        )?;
    }
    Ok(())
}

/// The number of the item of an entry's first row. Items are numbered list by list.
pub(crate) fn first_item(scans: &[RowBuf<u32>], entry: usize) -> u32
    requires entry { entry ≤ length scans.now }
    requires few { length scans.now ≤ most_entries }
    requires sizes { (k : ℕ) → length (list_at (lists_of scans.now) k) ≤ most_rows }
    ensures first { result ≡ first_item (lists_of scans.now) entry }
    ensures few { result ≤ most_rows * entry }
{
    let mut first = 0;
    'lists: for k in 0..entry {
        first += scans[k].len() as u32;
    }
    first
}

// Adds the uses of an entry's rows for one side of an equality. `column` is the column on this side.
fn add_column(
    db: &Database,
    scans: &[RowBuf<u32>],
    column: Place,
    equality: u32,
    on_left: bool,
    known_values: &mut EqualityValues,
    uses: &mut RowBuf<Use>,
) -> Result<(), NoMemory>
    requires lists { AreRowLists db.now scans.now }
    requires column { IsColumnOf db.now (column_of column) }
    requires few { length known_values.old + most_rows < 2 ^ 31 }
    ensures { OnOk result (AddsUses equality on_left (first_item (lists_of scans.now) column.entry) (column_cells db.now (column_of column))
        (list_at (lists_of scans.now) column.entry) (length (list_at (lists_of scans.now) column.entry))
        known_values.old known_values.new uses.old.items uses.new.items) }
{
    let list = scans[column.entry as usize].as_slice();
    let reference = ColumnRef {
        from: column.entry,
        column: column.column,
    };
    let cells = cells_of_column(db, reference);
    let first = first_item(scans, column.entry as usize);
    add_side(known_values, uses, equality, on_left, cells, list, first)?;
    Ok(())
}

// Adds the uses of the rows on both sides of an equality.
fn add_equality(
    db: &Database,
    scans: &[RowBuf<u32>],
    edge: Edge,
    equality: u32,
    known_values: &mut EqualityValues,
    uses: &mut RowBuf<Use>,
) -> Result<(), NoMemory>
    requires lists { AreRowLists db.now scans.now }
    requires columns { JoinsColumns db.now edge }
    requires few { length known_values.old + 2 * most_rows < 2 ^ 31 }
    ensures wired { OnOk result ((equalities : List Edge) → IsEqualityAt equalities equality edge
        → AreUsesOfRows (lists_of scans.now) equalities (cell_at db.now) known_values.old equality uses.old.items
        → AreUsesOfRows (lists_of scans.now) equalities (cell_at db.now) known_values.new (equality + 1) uses.new.items) }
    ensures known_values { OnOk result (length known_values.new ≤ length known_values.old + 2 * most_rows) }
    ensures uses { OnOk result (length uses.new.items ≤ length uses.old.items + 2 * most_rows) }
{
    add_column(db, scans, edge.left, equality, true, known_values, uses)?;
    add_column(db, scans, edge.right, equality, false, known_values, uses)?;
    Ok(())
}

/// Adds the uses of all rows for all equalities, in one pass over the two lists of each equality.
pub(crate) fn add_all_uses(
    db: &Database,
    scans: &[RowBuf<u32>],
    equalities: &[Edge],
    known_values: &mut EqualityValues,
    uses: &mut RowBuf<Use>,
) -> Result<(), NoMemory>
    requires lists { AreRowLists db.now scans.now }
    requires columns { All (JoinsColumns db.now) equalities.now }
    requires few { length equalities.now ≤ most_conjuncts }
    requires no_values { known_values.old ≡ [] }
    requires no_uses { uses.old.items ≡ [] }
    ensures wired { OnOk result (AreUsesOfRows (lists_of scans.now) equalities.now (cell_at db.now) known_values.new
        (length equalities.now) uses.new.items) }
    ensures known_values { OnOk result (length known_values.new ≤ 2 * most_rows * length equalities.now) }
    ensures uses { OnOk result (length uses.new.items ≤ 2 * most_rows * length equalities.now) }
{
    'equalities: for number in 0..equalities.len() {
        add_equality(
            db,
            scans,
            equalities[number],
            number as u32,
            known_values,
            uses,
        )?;
    }
    Ok(())
}

/// The number of uses that `add_all_uses` adds for these lists and equalities.
pub(crate) fn count_uses(scans: &[RowBuf<u32>], equalities: &[Edge]) -> u64
    requires entries { All (λ e. (e.left.entry < length scans.now) × (e.right.entry < length scans.now)) equalities.now }
    requires sizes { (k : ℕ) → length (list_at (lists_of scans.now) k) ≤ most_rows }
    requires few { length equalities.now ≤ most_conjuncts }
{
    let mut count = 0;
    'equalities: for edge in equalities {
        count += scans[edge.left.entry as usize].len() + scans[edge.right.entry as usize].len();
    }
    count
}
