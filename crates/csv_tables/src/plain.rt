//! Reads the records of a file without a quotation mark into cells.
ghost use Rattle.std.specs.Prelude.{◌≡◌, ◌<◌, ◌≤◌, ◌+◌, ◌∷◌, [], All, drop, length, List, option_map, replicate, slice_index_or, true, vec_len, IfErr, IfOk, IfSome, IsUtf8, OnOk};
ghost use Rattle.limits.specs.Profile.{most_file, most_rows};
ghost use Rattle.csv.specs.Reading.{strip_bom};
ghost use Rattle.plain_records.specs.Plain.{first_record, plain_records};
ghost use Rattle.csv_tables.specs.Cells.{value_of_cell, IsCell};
ghost use Rattle.csv_tables.specs.Fields.{record_of, text_of, IsAfterLine, IsSpan};
ghost use Rattle.csv_tables.specs.NumberRows.{AreNumbersInOrder};
ghost use Rattle.csv_tables.specs.Pools.{PoolBeginsWith};
ghost use Rattle.csv_tables.specs.Reads.{kinds_of, AddsRow, HoldsColumns, HoldsRow};
ghost use Rattle.csv_tables.specs.Records.{Record};
ghost use Rattle.csv_tables.specs.Refused.{IsRefusalOrNoMemory};
ghost use Rattle.csv_tables.specs.Rows.{row_of_record, rows_of_records, values_of_record};
ghost use Rattle.csv_tables.specs.Values.{value_of_field};

use crate::TableError;
use crate::cell::cell_of;
use crate::fields::{Field, read_fields};
use crate::number_rows::{are_numbers_in_order, read_numbers};
use crate::pool::Pool;
use crate::rows::{cell_of_field, push_row};
use base_io::{NoMemory, Seq};
use limits::MOST_ROWS;
use plain_records::{line_at, skip_line_ends};
use schema_types::{Column, Kind};
use std::alloc::Global;

// The length of the byte order mark at the front, or 0 if there is no mark.
fn byte_order_mark_length(bytes: &[u8]) -> usize
    ensures within { result ≤ length bytes.now }
    ensures rest { drop result bytes.now ≡ strip_bom bytes.now }
{
    if bytes.starts_with(b"\xEF\xBB\xBF") {
        3
    } else {
        0
    }
}

/// The byte offset after the line of the header, which is a file's first record.
pub(crate) fn offset_after_header(bytes: &[u8]) -> usize
    requires { IsUtf8 bytes.now }
    ensures within { result ≤ length bytes.now }
    ensures text { IsUtf8 (drop result bytes.now) }
    ensures records { (header : Record) → (records : List Record)
        → plain_records (strip_bom bytes.now) ≡ header ∷ records → plain_records (drop result bytes.now) ≡ records }
{
    let start = skip_line_ends(bytes, byte_order_mark_length(bytes));
    line_at(bytes, start).next
}

// The cell of a field's value. The result is None if the field spells no value of this kind.
fn cell_of_span(
    pool: &mut Pool,
    kind: Kind,
    bytes: &[u8],
    field: Field,
) -> Result<Option<u64>, NoMemory>
    requires span { IsSpan bytes.now field }
    requires room { length pool.old < 4294967295 }
    ensures value { IfOk result (λ cell. option_map (value_of_cell pool.new kind) cell ≡ value_of_field kind (text_of bytes.now field)) }
    ensures cell { IfOk result (λ cell. IfSome cell (IsCell pool.new kind)) }
    ensures begins { PoolBeginsWith pool.old pool.new }
    ensures few { length pool.new ≤ length pool.old + 1 }
{
    match kind {
        Kind::Int => match field.number {
            Some(number) => Ok(Some(cell_of(number))),
            None => cell_of_field(pool, kind, &bytes[field.start..field.end]),
        },
        Kind::Text(_) => cell_of_field(pool, kind, &bytes[field.start..field.end]),
    }
}

// The cell of the field at index `place`, as in `cell_of_span`. Past the last field an empty field is taken.
fn cell_at(
    pool: &mut Pool,
    kind: Kind,
    bytes: &[u8],
    fields: &[Field],
    place: usize,
) -> Result<Option<u64>, NoMemory>
    requires spans { All (IsSpan bytes.now) fields.now }
    requires room { length pool.old < 4294967295 }
    ensures value { IfOk result (λ cell. option_map (value_of_cell pool.new kind) cell
        ≡ value_of_field kind (slice_index_or (record_of bytes.now fields.now) place [])) }
    ensures cell { IfOk result (λ cell. IfSome cell (IsCell pool.new kind)) }
    ensures begins { PoolBeginsWith pool.old pool.new }
    ensures few { length pool.new ≤ length pool.old + 1 }
{
    if place < fields.len() {
        cell_of_span(pool, kind, bytes, fields[place])
    } else {
        cell_of_field(pool, kind, b"")
    }
}

// Puts the cells of a record's values into `cells`, one for each column.
fn read_values(
    columns: &[Column],
    places: &[usize],
    bytes: &[u8],
    fields: &[Field],
    number: u32,
    pool: &mut Pool,
    cells: &mut Vec<u64>,
) -> Result<(), TableError>
    requires paired { length places.now ≡ length columns.now }
    requires columns { length columns.now ≤ 64 }
    requires spans { All (IsSpan bytes.now) fields.now }
    requires room { length pool.old + 64 < 4294967295 }
    ensures ok { OnOk result
        (HoldsRow (values_of_record number 0 columns.now places.now (record_of bytes.now fields.now)) pool.new (kinds_of columns.now) cells.new.items) }
    ensures refused { IfErr result (IsRefusalOrNoMemory (values_of_record number 0 columns.now places.now (record_of bytes.now fields.now))) }
    ensures begins { PoolBeginsWith pool.old pool.new }
    ensures few { length pool.new ≤ length pool.old + length columns.now }
{
    cells.clear();
    'columns: for (at, column) in columns.iter().enumerate() {
        let Some(cell) = cell_at(pool, column.kind, bytes, fields, places[at])? else {
            return Err(TableError::Field {
                row: number,
                column: at as u32,
            });
        };
        cells.push(cell)?;
    }
    Ok(())
}

// Reads the record that begins at `start`. Puts its cells into `cells`, one for each column, and returns the byte offset after the record.
fn read_record_at(
    columns: &[Column],
    places: &[usize],
    numbers: &[bool],
    bytes: &[u8],
    start: usize,
    number: u32,
    pool: &mut Pool,
    fields: &mut [Field],
    cells: &mut Vec<u64>,
) -> Result<usize, TableError>
    requires paired { length places.now ≡ length columns.now }
    requires columns { length columns.now ≤ 64 }
    requires lengths { length fields.old ≡ length numbers.now }
    requires file { length bytes.now ≤ most_file }
    requires within { start < length bytes.now }
    requires text { IsUtf8 bytes.now }
    requires cut { IsUtf8 (drop start bytes.now) }
    requires room { length pool.old + 64 < 4294967295 }
    ensures ok { IfOk result (λ _. HoldsRow (row_of_record columns.now places.now (length numbers.now) number (first_record (drop start bytes.now)))
        pool.new (kinds_of columns.now) cells.new.items) }
    ensures next { IfOk result (IsAfterLine bytes.now start) }
    ensures refused { IfErr result (IsRefusalOrNoMemory (row_of_record columns.now places.now (length numbers.now) number (first_record (drop start bytes.now)))) }
    ensures begins { PoolBeginsWith pool.old pool.new }
    ensures few { number ≤ most_rows → length pool.new ≤ length pool.old + 64 }
    ensures past { most_rows < number → pool.new ≡ pool.old }
    ensures number { IfOk result (λ _. number ≤ most_rows) }
{
    if number > MOST_ROWS {
        return Err(TableError::Limit {
            found: MOST_ROWS + 1,
        });
    }
    let Some(next) = read_fields(bytes, start, numbers, fields) else {
        return Err(TableError::Width {
            row: number,
            found: line_at(bytes, start).fields as u32,
        });
    };
    read_values(columns, places, bytes, fields, number, pool, cells)?;
    Ok(next)
}

// Reads the record that begins at `start`, adds its row to the columns `found`, and returns the byte offset after the record. A record of numbers
// in the order of the columns goes straight into `values`. Any other record is read field by field.
fn read_row_at(
    columns: &[Column],
    places: &[usize],
    numbers: &[bool],
    is_numeric: bool,
    bytes: &[u8],
    start: usize,
    number: u32,
    pool: &mut Pool,
    fields: &mut [Field],
    values: &mut [u64],
    cells: &mut Vec<u64>,
    found: &mut Vec<Seq<u64>>,
) -> Result<usize, TableError>
    requires paired { length places.now ≡ length columns.now }
    requires columns { length columns.now ≤ 64 }
    requires lengths { length fields.old ≡ length numbers.now }
    requires values { length values.old ≡ length numbers.now }
    requires numeric { is_numeric ≡ true → AreNumbersInOrder columns.now places.now (length numbers.now) }
    requires wide { vec_len found.old ≡ length columns.now }
    requires file { length bytes.now ≤ most_file }
    requires within { start < length bytes.now }
    requires text { IsUtf8 bytes.now }
    requires cut { IsUtf8 (drop start bytes.now) }
    requires room { length pool.old + 64 < 4294967295 }
    ensures ok { IfOk result (λ _. AddsRow (row_of_record columns.now places.now (length numbers.now) number (first_record (drop start bytes.now)))
        pool.new (kinds_of columns.now) found.old.items found.new.items) }
    ensures next { IfOk result (IsAfterLine bytes.now start) }
    ensures refused { IfErr result (IsRefusalOrNoMemory (row_of_record columns.now places.now (length numbers.now) number (first_record (drop start bytes.now)))) }
    ensures begins { PoolBeginsWith pool.old pool.new }
    ensures few { number ≤ most_rows → length pool.new ≤ length pool.old + 64 }
    ensures past { most_rows < number → pool.new ≡ pool.old }
    ensures number { IfOk result (λ _. number ≤ most_rows) }
{
    if is_numeric && number <= MOST_ROWS {
        if let Some(next) = read_numbers(bytes, start, values) {
            push_row(found, values)?;
            return Ok(next);
        }
    }
    let next = read_record_at(
        columns, places, numbers, bytes, start, number, pool, fields, cells,
    )?;
    push_row(found, cells)?;
    Ok(next)
}

// For each field of a record, whether it belongs to a declared column of numbers.
fn numbers_of(
    alloc: Global,
    columns: &[Column],
    places: &[usize],
    width: usize,
) -> Result<Vec<bool>, NoMemory>
    requires { length places.now ≡ length columns.now }
    ensures { IfOk result (λ numbers. length numbers.items ≡ width) }
{
    let mut numbers = vec![in alloc; false; width]?;
    'columns: for (at, column) in columns.iter().enumerate() {
        let place = places[at];
        if place < width {
            numbers[place] = column.kind == Kind::Int;
        }
    }
    Ok(numbers)
}

// `count` fields that aren't read yet.
fn unread_fields(alloc: Global, count: usize) -> Result<Vec<Field>, NoMemory>
    ensures { IfOk result (λ fields. length fields.items ≡ count) }
{
    let fields = vec![in alloc; Field::NONE; count]?;
    Ok(fields)
}

// `count` cells that aren't read yet.
fn unread_cells(alloc: Global, count: usize) -> Result<Vec<u64>, NoMemory>
    ensures { IfOk result (λ cells. length cells.items ≡ count) }
{
    let cells = vec![in alloc; 0u64; count]?;
    Ok(cells)
}

// A column without cells. It has room for `room` cells, if there is enough memory for them.
fn column_with_room(alloc: Global, room: usize) -> Seq<u64>
    ensures { result ≡ [] }
{
    match Vec::with_capacity(alloc, room) {
        Ok(cells) => Seq::from_vec(cells),
        Err(_) => Seq::new(alloc),
    }
}

// `count` columns without cells, each with room for `room` cells, if there is enough memory for them.
fn columns_with_room(alloc: Global, count: usize, room: usize) -> Result<Vec<Seq<u64>>, NoMemory>
    ensures { IfOk result (λ columns. columns.items ≡ replicate count []) }
{
    let mut columns = Vec::new(alloc);
    'columns: for _column in 0..count {
        columns.push(column_with_room(alloc, room))?;
    }
    Ok(columns)
}

/// Reads the records from the byte offset `start` on into columns, and counts the records. At first each column has room for `room` cells.
pub(crate) fn read_plain_rows(
    alloc: Global,
    bytes: &[u8],
    start: usize,
    columns: &[Column],
    places: &[usize],
    width: usize,
    room: usize,
    pool: &mut Pool,
) -> Result<(Vec<Seq<u64>>, u32), TableError>
    requires file { length bytes.now ≤ most_file }
    requires within { start ≤ length bytes.now }
    requires text { IsUtf8 bytes.now }
    requires cut { IsUtf8 (drop start bytes.now) }
    requires paired { length places.now ≡ length columns.now }
    requires columns { length columns.now ≤ 64 }
    requires room { length pool.old ≤ 4000000000 }
    ensures ok { IfOk result
        (λ found. HoldsColumns (rows_of_records columns.now places.now width 1 (plain_records (drop start bytes.now))) pool.new
        (kinds_of columns.now) found.0.items found.1) }
    ensures limit { IfOk result (λ found. found.1 ≤ most_rows) }
    ensures refused { IfErr result (IsRefusalOrNoMemory (rows_of_records columns.now places.now width 1 (plain_records (drop start bytes.now)))) }
    ensures begins { PoolBeginsWith pool.old pool.new }
    ensures few { length pool.new ≤ length pool.old + 256000000 }
{
    let mut found = columns_with_room(alloc, columns.len(), room)?;
    let numbers = numbers_of(alloc, columns, places, width)?;
    let is_numeric = are_numbers_in_order(columns, places, width);
    let mut read = unread_fields(alloc, width)?;
    let fields = read.as_mut_slice();
    let mut read_cells = unread_cells(alloc, width)?;
    let values = read_cells.as_mut_slice();
    let mut cells = Vec::new(alloc);
    let mut rows: u32 = 0;
    let mut at = skip_line_ends(bytes, start);
    'rows: while at < bytes.len() {
        let next = read_row_at(
            columns,
            places,
            &numbers,
            is_numeric,
            bytes,
            at,
            rows + 1,
            pool,
            fields,
            values,
            &mut cells,
            &mut found,
        )?;
        rows += 1;
        at = skip_line_ends(bytes, next);
    }
    Ok((found, rows))
}
