//! The values of columns and operands.
ghost use Rattle.std.specs.Prelude.{◌≡◌, ◌<◌, [], length, pos, slice_index, slice_index_or};
ghost use Rattle.csv_tables.specs.Cells.{rows_of_cells, value_of_cell, IsCell};
ghost use Rattle.csv_tables.specs.Values.{Int};
ghost use Rattle.sql_meaning.specs.Conditions.{column_value, operand_value};
ghost use Rattle.query_types.specs.Named.{entries_of_operand};
ghost use Rattle.sql_meaning.specs.Databases.{AreCells, AreTables, HasColumn, HaveRows, IsColumnOf};
ghost use Rattle.sql_meaning.specs.ValueRefs.{value_of_ref};
ghost use Rattle.sql_meaning.specs.Tables.{cells_of, tables_of};

use crate::values::ValueRef;
use csv_tables::{Cells, Database, Pool, value_of};
use query_types::{ColumnRef, Operand};
use schema_types::Kind;

// The value of a cell: a number, or a text of the pool.
fn read_cell<'a>(kind: Kind, pool: &'a Pool, cell: u64) -> ValueRef<'a>
    requires { IsCell pool.now kind cell }
    ensures { value_of_ref result ≡ value_of_cell pool.now kind cell }
{
    match kind {
        Kind::Int => ValueRef::Int(value_of(cell)),
        Kind::Text(_) => {
            prove!(cell < pool.len() as u64);
            ValueRef::Text(pool.text(cell as u32))
        }
    }
}

// The value in a column of a row.
fn value_in<'a>(cells: &Cells, pool: &'a Pool, column: u32, row: u32) -> ValueRef<'a>
    requires cells { AreCells pool.now cells.now }
    requires column { column < length cells.now.kinds }
    requires row { row < cells.now.rows }
    ensures { value_of_ref result ≡ slice_index_or (slice_index_or (rows_of_cells pool.now cells.now) row []) column (Int (pos 0)) }
{
    let kind = cells.kinds.as_slice()[column as usize];
    let cells = cells.columns.as_slice()[column as usize].as_slice();
    read_cell(kind, pool, cells[row as usize])
}

/// The value of a column in its entry's row.
pub fn value_of_column<'a>(column: &ColumnRef, db: &'a Database, rows: &[u32]) -> ValueRef<'a>
    requires tables { AreTables db.now }
    requires column { IsColumnOf db.now column.now }
    requires places { length rows.now ≡ length db.now.slots }
    requires row { slice_index rows.now column.now.from < (cells_of db.now column.now.from).rows }
    ensures { value_of_ref result ≡ column_value (tables_of db.now) (slice_index rows.now) column.now }
{
    let from = column.from as usize;
    let slot = db.slots.as_slice()[from] as usize;
    let row = rows[from];
    value_in(&db.cells.as_slice()[slot], &db.pool, column.column, row)
}

/// The value of an operand, which is a literal or a column in its entry's row.
pub(crate) fn value_of_operand<'a>(
    operand: &'a Operand,
    db: &'a Database,
    rows: &[u32],
) -> ValueRef<'a>
    requires tables { AreTables db.now }
    requires column { HasColumn db.now operand.now }
    requires places { length rows.now ≡ length db.now.slots }
    requires rows { HaveRows db.now rows.now (entries_of_operand operand.now) }
    ensures { value_of_ref result ≡ operand_value (tables_of db.now) (slice_index rows.now) operand.now }
{
    match operand {
        Operand::Column(column) => value_of_column(column, db, rows),
        Operand::Int(number) => ValueRef::Int(*number),
        Operand::Text(text) => ValueRef::Text(text.as_str()),
    }
}
