//! Reads a table's cells from its file.
ghost use Rattle.std.specs.Prelude.{◌≡◌, ◌<◌, ◌≤◌, ◌+◌, false, Err, IfErr, IfOk, IfSome, IsUtf8, Ok, OnErr, OnOk, length};
ghost use Rattle.std.specs.Str.{is_utf8};
ghost use Rattle.std.specs.Str.Lossy.{utf8_valid_len};
ghost use Rattle.limits.specs.Profile.{most_file, most_rows};
ghost use Rattle.csv.specs.Reading.{strip_bom};
ghost use Rattle.plain_records.specs.Plain.{has_quote};
ghost use Rattle.schema_types.specs.Validity.{IsValidTable};
ghost use Rattle.csv_tables.specs.Cells.{rows_of_cells, AreCellsOf};
ghost use Rattle.csv_tables.specs.Files.{rows_of_file, rows_under_header};
ghost use Rattle.csv_tables.specs.Pools.{PoolBeginsWith};
ghost use Rattle.csv_tables.specs.Reads.{kinds_of, HoldsColumns};
ghost use Rattle.csv_tables.specs.Records.{records_of};
ghost use Rattle.csv_tables.specs.Refused.{IsRefusalOrNoMemory};

use crate::header::places_of;
use crate::keys::check_keys;
use crate::plain::{offset_after_header, read_plain_rows};
use crate::pool::Pool;
use crate::records::{next_record, open_records};
use crate::rows::read_rows;
use crate::{Cells, TableError};
use base_io::{NoMemory, Seq};
use csv::ByteRecord;
use limits::MOST_ROWS;
use plain_records::scan;
use schema_types::{Column, Kind, Table};
use std::alloc::Global;

// Refuses bytes that aren't UTF-8.
#[tactic(auto, using(crate::proofs::TextFacts::text_steps))]
fn check_text(bytes: &[u8]) -> Result<(), TableError>
    requires { length bytes.now ≤ most_file }
    ensures ok { OnOk result (IsUtf8 bytes.now) }
    ensures other { OnErr result (is_utf8 bytes.now ≡ false) }
    ensures at { IfErr result (λ e. e ≡ TableError.Utf8 (utf8_valid_len bytes.now)) }
{
    match str::from_utf8(bytes) {
        Ok(_) => Ok(()),
        Err(error) => Err(TableError::Utf8 {
            at: error.valid_up_to() as u32,
        }),
    }
}

// The kinds of columns.
fn kinds(alloc: Global, columns: &[Column]) -> Result<Seq<Kind>, NoMemory>
    ensures { IfOk result (λ kinds. kinds ≡ kinds_of columns.now) }
{
    let mut kinds = Vec::new(alloc);
    'columns: for column in columns {
        kinds.push(column.kind)?;
    }
    Ok(Seq::from_vec(kinds))
}

// Files whose header has more fields are read by the crate `csv`, so that little memory is reserved for a hostile header.
const MOST_FIELDS: usize = 4096;

// The number of rows for which columns reserve room. It is `None` if the file has a quotation mark, or if its header has too many fields. A row takes
// at least one byte for each field of the header.
fn room_of(bytes: &[u8], width: usize) -> Option<usize>
    ensures { IfSome result (λ _. has_quote bytes.now ≡ false) }
{
    if width > MOST_FIELDS {
        return None;
    }
    let lines = scan(bytes)?;
    let most = bytes.len() / width.max(1);
    Some(lines.min(most).min(MOST_ROWS as usize))
}

// Reads the records after a file's header. It gives their cells, column by column, and the number of records.
fn read_columns(
    alloc: Global,
    columns: &[Column],
    bytes: &[u8],
    pool: &mut Pool,
) -> Result<(Vec<Seq<u64>>, u32), TableError>
    requires some { 0 < length columns.now }
    requires columns { length columns.now ≤ 64 }
    requires few { length bytes.now ≤ most_file }
    requires text { IsUtf8 bytes.now }
    requires room { length pool.old ≤ 4000000000 }
    ensures ok { IfOk result
        (λ found. HoldsColumns (rows_under_header columns.now (records_of (strip_bom bytes.now))) pool.new
        (kinds_of columns.now) found.0.items found.1) }
    ensures limit { IfOk result (λ found. found.1 ≤ most_rows) }
    ensures refused { IfErr result (IsRefusalOrNoMemory (rows_under_header columns.now (records_of (strip_bom bytes.now)))) }
    ensures begins { PoolBeginsWith pool.old pool.new }
    ensures more { length pool.new ≤ length pool.old + 256000000 }
{
    let mut reader = open_records(alloc, bytes);
    let mut row = ByteRecord::new(alloc);
    // A file without records has no header, so no field names the first column.
    if !next_record(&mut reader, &mut row)? {
        return Err(TableError::Header { column: 0 });
    }
    let width = row.len();
    let places = places_of(alloc, columns, &row)?;
    if let Some(room) = room_of(bytes, width) {
        let start = offset_after_header(bytes);
        return read_plain_rows(alloc, bytes, start, columns, &places, width, room, pool);
    }
    read_rows(alloc, &mut reader, &mut row, columns, &places, width, pool)
}

/// Reads the cells of a table from its file of at most 64 MiB. The crate `csv` says which records the file has,
/// close to RFC 4180. The texts of the file are put into the pool.
///
/// Whatever the result is, the pool still begins with its old texts, in their places.
pub fn read_table(
    alloc: Global,
    table: &Table,
    bytes: &[u8],
    pool: &mut Pool,
) -> Result<Cells, TableError>
    requires valid { IsValidTable table.now }
    requires few { length bytes.now ≤ most_file }
    requires room { length pool.old ≤ 4000000000 }

    // The rows of the cells are the rows of the file. An error is the file's refusal, or NoMemory.
    ensures rows { IfOk result (λ cells. rows_of_file table.now bytes.now ≡ Ok (rows_of_cells pool.new cells)) }
    ensures cells { IfOk result (AreCellsOf table.now pool.new) }
    ensures refused { IfErr result (IsRefusalOrNoMemory (rows_of_file table.now bytes.now)) }

    ensures begins { PoolBeginsWith pool.old pool.new }
    ensures more { length pool.new ≤ length pool.old + 256000000 }
{
    check_text(bytes)?;
    let columns = table.columns.as_slice();
    let (found, rows) = read_columns(alloc, columns, bytes, pool)?;
    check_keys(alloc, table, &found, rows, pool)?;
    Ok(Cells {
        kinds: kinds(alloc, columns)?,
        columns: Seq::from_vec(found),
        rows,
    })
}
