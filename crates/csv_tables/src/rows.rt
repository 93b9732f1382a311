//! Reads the records of a file into columns of cells.
ghost use Rattle.std.specs.Prelude.{◌≡◌, ◌<◌, ◌≤◌, ◌+◌, ◌^◌, [], nat_le, length, option_map, replicate, slice_index_or, vec_len, IfErr, IfOk, IfSome, IsUtf8, OnOk, Ok};
ghost use Rattle.std.specs.Str.{chars};
ghost use Rattle.limits.specs.Profile.{most_rows};
ghost use Rattle.csv.specs.Records.{fields_of, AllText};
ghost use Rattle.csv_tables.specs.Cells.{value_of_cell, IsCell};
ghost use Rattle.csv_tables.specs.Pools.{PoolBeginsWith};
ghost use Rattle.csv_tables.specs.Records.{unread_records, IsReading};
ghost use Rattle.csv_tables.specs.Refused.{IsRefusalOrNoMemory};
ghost use Rattle.csv_tables.specs.Rows.{row_of_record, rows_of_records, values_of_record};
ghost use Rattle.csv_tables.specs.Values.{value_of_field};
ghost use Rattle.csv_tables.specs.Reads.{add_row, kinds_of, HoldsColumns, HoldsRow};

use crate::TableError;
use crate::cell::cell_of;
use crate::number::number_of;
use crate::pool::Pool;
use crate::records::next_record;
use base_io::{NoMemory, Seq};
use csv::{ByteRecord, Reader};
use limits::MOST_ROWS;
use schema_types::{Column, Kind};
use std::alloc::Global;

// Whether a text has at most `most` characters.
fn has_at_most(text: &str, most: u32) -> bool
    ensures { result ≡ nat_le (length (chars text.now)) most }
{
    text.chars().count() <= most as usize
}

// The cell of a text. The result is None if the text has more than `most` characters.
fn cell_of_text(pool: &mut Pool, most: u32, field: &[u8]) -> Result<Option<u64>, NoMemory>
    requires text { IsUtf8 field.now }
    requires room { length pool.old < 4294967295 }
    ensures value { IfOk result (λ cell. option_map (value_of_cell pool.new (Kind.Text most)) cell
        ≡ value_of_field (Kind.Text most) field.now) }
    ensures cell { IfOk result (λ cell. IfSome cell (IsCell pool.new (Kind.Text most))) }
    ensures begins { PoolBeginsWith pool.old pool.new }
    ensures few { length pool.new ≤ length pool.old + 1 }
{
    let text = unsafe { str::from_utf8_unchecked(field) };
    if !has_at_most(text, most) {
        return Ok(None);
    }
    Ok(Some(pool.intern(text)? as u64))
}

/// The cell of a field's value. The result is None if the field spells no value of this kind.
pub(crate) fn cell_of_field(
    pool: &mut Pool,
    kind: Kind,
    field: &[u8],
) -> Result<Option<u64>, NoMemory>
    requires text { IsUtf8 field.now }
    requires room { length pool.old < 4294967295 }
    ensures value { IfOk result (λ cell. option_map (value_of_cell pool.new kind) cell ≡ value_of_field kind field.now) }
    ensures cell { IfOk result (λ cell. IfSome cell (IsCell pool.new kind)) }
    ensures begins { PoolBeginsWith pool.old pool.new }
    ensures few { length pool.new ≤ length pool.old + 1 }
{
    match kind {
        Kind::Int => match number_of(field) {
            Some(number) => Ok(Some(cell_of(number))),
            None => Ok(None),
        },
        Kind::Text(most) => cell_of_text(pool, most, field),
    }
}

// The field at a place of a record. It is empty if the record has fewer fields.
fn field_of(row: &ByteRecord, place: usize) -> &[u8]
    requires { AllText (fields_of row.now) }
    ensures field { result.now ≡ slice_index_or (fields_of row.now) place [] }
    ensures text { IsUtf8 result.now }
{
    match row.get(place) {
        Some(field) => field,
        None => b"",
    }
}

// Puts the cells of a record's values into `cells`, one for each column.
fn read_row(
    columns: &[Column],
    places: &[usize],
    row: &ByteRecord,
    number: u32,
    pool: &mut Pool,
    cells: &mut Vec<u64>,
) -> Result<(), TableError>
    requires paired { length places.now ≡ length columns.now }
    requires columns { length columns.now ≤ 64 }
    requires text { AllText (fields_of row.now) }
    requires room { length pool.old + 64 < 4294967295 }
    ensures ok { OnOk result
        (HoldsRow (values_of_record number 0 columns.now places.now (fields_of row.now)) pool.new (kinds_of columns.now) cells.new.items) }
    ensures refused { IfErr result (IsRefusalOrNoMemory (values_of_record number 0 columns.now places.now (fields_of row.now))) }
    ensures begins { PoolBeginsWith pool.old pool.new }
    ensures few { length pool.new ≤ length pool.old + length columns.now }
{
    cells.clear();
    'columns: for (at, column) in columns.iter().enumerate() {
        let Some(cell) = cell_of_field(pool, column.kind, field_of(row, places[at]))? else {
            return Err(TableError::Field {
                row: number,
                column: at as u32,
            });
        };
        cells.push(cell)?;
    }
    Ok(())
}

/// Puts one more cell at the end of each column.
pub(crate) fn push_row(columns: &mut Vec<Seq<u64>>, cells: &[u64]) -> Result<(), NoMemory>
    requires { vec_len columns.old ≡ length cells.now }
    ensures { OnOk result (columns.new.items ≡ add_row columns.old.items cells.now) }
{
    'columns: for (at, cell) in cells.iter().enumerate() {
        columns[at].push(*cell)?;
    }
    Ok(())
}

// Checks a record's number and width, and puts the cells of its row into `cells`.
fn read_record(
    columns: &[Column],
    places: &[usize],
    width: usize,
    row: &ByteRecord,
    number: u32,
    pool: &mut Pool,
    cells: &mut Vec<u64>,
) -> Result<(), TableError>
    requires paired { length places.now ≡ length columns.now }
    requires columns { length columns.now ≤ 64 }
    requires text { AllText (fields_of row.now) }
    requires fields { length (fields_of row.now) < 2 ^ 32 }
    requires room { length pool.old + 64 < 4294967295 }
    ensures ok { OnOk result
        (HoldsRow (row_of_record columns.now places.now width number (fields_of row.now)) pool.new (kinds_of columns.now) cells.new.items) }
    ensures refused { IfErr result (IsRefusalOrNoMemory (row_of_record columns.now places.now width number (fields_of row.now))) }
    ensures begins { PoolBeginsWith pool.old pool.new }
    ensures few { number ≤ most_rows → length pool.new ≤ length pool.old + 64 }
    ensures past { most_rows < number → pool.new ≡ pool.old }
    ensures number { OnOk result (number ≤ most_rows) }
{
    if number > MOST_ROWS {
        return Err(TableError::Limit {
            found: MOST_ROWS + 1,
        });
    }
    if row.len() != width {
        return Err(TableError::Width {
            row: number,
            found: row.len() as u32,
        });
    }
    read_row(columns, places, row, number, pool, cells)
}

// `count` columns without cells.
fn empty_columns(alloc: Global, count: usize) -> Result<Vec<Seq<u64>>, NoMemory>
    ensures { IfOk result (λ columns. columns.items ≡ replicate count []) }
{
    let mut columns = Vec::new(alloc);
    'columns: for _column in 0..count {
        columns.push(Seq::new(alloc))?;
    }
    Ok(columns)
}

/// Reads the remaining records into columns, and counts them.
pub(crate) fn read_rows(
    alloc: Global,
    reader: &mut Reader<&[u8]>,
    row: &mut ByteRecord,
    columns: &[Column],
    places: &[usize],
    width: usize,
    pool: &mut Pool,
) -> Result<(Vec<Seq<u64>>, u32), TableError>
    requires reading { IsReading reader.old }
    requires paired { length places.now ≡ length columns.now }
    requires columns { length columns.now ≤ 64 }
    requires room { length pool.old ≤ 4000000000 }
    ensures ok { IfOk result
        (λ found. HoldsColumns (rows_of_records columns.now places.now width 1 (unread_records reader.old)) pool.new
        (kinds_of columns.now) found.0.items found.1) }
    ensures limit { IfOk result (λ found. found.1 ≤ most_rows) }
    ensures refused { IfErr result (IsRefusalOrNoMemory (rows_of_records columns.now places.now width 1 (unread_records reader.old))) }
    ensures begins { PoolBeginsWith pool.old pool.new }
    ensures few { length pool.new ≤ length pool.old + 256000000 }
{
    let mut found = empty_columns(alloc, columns.len())?;
    let mut cells = Vec::new(alloc);
    let mut rows: u32 = 0;
    'rows: while next_record(reader, row)? {
        read_record(columns, places, width, row, rows + 1, pool, &mut cells)?;
        push_row(&mut found, &cells)?;
        rows += 1;
    }
    Ok((found, rows))
}
