//! Reads the records of a file, one after another.
ghost use Rattle.std.specs.Prelude.{◌≡◌, ◌≤◌, ◌∷◌, [], length, true, false, IfOk, IsUtf8};
ghost use Rattle.limits.specs.Profile.{most_file};
ghost use Rattle.csv.specs.Reading.{strip_bom};
ghost use Rattle.csv.specs.Records.{fields_of, AllText};
ghost use Rattle.csv_tables.specs.Records.{unread_records, records_of, IsReading};

use base_io::NoMemory;
use csv::{ByteRecord, Reader, ReaderBuilder};
use std::alloc::Global;

/// A reader before the file's first record, the header. It skips a byte order mark at the front.
pub(crate) fn open_records<'a>(alloc: Global, bytes: &'a [u8]) -> Reader<&'a [u8]>
    requires text { IsUtf8 bytes.now }
    requires few { length bytes.now ≤ most_file }
    ensures reading { IsReading result }
    ensures all_records { unread_records result ≡ records_of (strip_bom bytes.now) }
{
    ReaderBuilder::new()
        .has_headers(false)
        .flexible(true)
        .from_reader(alloc, bytes)
}

/// Reads the next record into `row`. The result is false if there is no further record.
pub(crate) fn next_record(
    reader: &mut Reader<&[u8]>,
    row: &mut ByteRecord,
) -> Result<bool, NoMemory>
    requires { IsReading reader.old }
    ensures reading { IfOk result (λ found. found ≡ true → IsReading reader.new) }
    ensures more { IfOk result (λ found. found ≡ true → unread_records reader.old ≡ fields_of row.new ∷ unread_records reader.new) }
    ensures text { IfOk result (λ found. found ≡ true → AllText (fields_of row.new)) }
    ensures fields { IfOk result (λ found. found ≡ true → length (fields_of row.new) ≤ 67108865) }
    ensures end { IfOk result (λ found. found ≡ false → unread_records reader.old ≡ []) }
{
    // The reader reads bytes in memory and takes records of any width, so its only error is too little memory.
    let Ok(found) = reader.read_byte_record(row) else {
        return Err(NoMemory);
    };
    Ok(found)
}
