//! Reads records of numbers straight into cells, where the columns have the order of the header.
ghost use Rattle.std.specs.Prelude.{◌≡◌, ◌≤◌, ◌↔◌, drop, length, IsTrue, IsUtf8, MatchOption};
ghost use Rattle.plain_records.specs.Plain.{first_field, first_record};
ghost use Rattle.csv_tables.specs.Fields.{IsFieldAt};
ghost use Rattle.csv_tables.specs.NumberRows.{AreNumbersInOrder, IsRecordOfNumbers, ReadsNumbers};
ghost use Rattle.csv_tables.specs.Numbers.{number_of as spelled};

use crate::cell::cell_of;
use crate::fields::{Field, is_comma, read_number};
use crate::number::number_of;
use schema_types::{Column, Kind};

/// Whether each column is of numbers, and each header field names the column at its index. The header has `width` fields.
pub(crate) fn are_numbers_in_order(columns: &[Column], places: &[usize], width: usize) -> bool
    requires { length places.now ≡ length columns.now }
    ensures { IsTrue result ↔ AreNumbersInOrder columns.now places.now width }
{
    if places.len() != width {
        return false;
    }
    'columns: for (at, column) in columns.iter().enumerate() {
        if places[at] != at {
            return false;
        }
        let Kind::Int = column.kind else {
            return false;
        };
    }
    true
}

// The number that a field spells. `read_number` leaves a field with a plus sign, or with more than eighteen digits, to this function.
#[inline]
fn number_at(bytes: &[u8], start: usize, field: Field) -> Option<i64>
    requires { IsFieldAt bytes.now start field }
    ensures { result ≡ spelled (first_field (drop start bytes.now)) }
{
    match field.number {
        Some(number) => Some(number),
        None => number_of(&bytes[field.start..field.end]),
    }
}

/// Reads the record that begins at `start` into cells, one for each field of the header, and returns the offset after the record. The result is
/// `None` if some field spells no number, or if the record has fewer or more fields than the header.
#[inline]
pub(crate) fn read_numbers(bytes: &[u8], start: usize, cells: &mut [u64]) -> Option<usize>
    requires within { start ≤ length bytes.now }
    requires text { IsUtf8 bytes.now }
    ensures { MatchOption result (¬ IsRecordOfNumbers (length cells.old) (first_record (drop start bytes.now)))
        (ReadsNumbers bytes.now start cells.new) }
{
    let mut at = start;
    let count = cells.len();
    'places: for place in 0..count {
        let field = read_number(bytes, at);
        let Some(number) = number_at(bytes, at, field) else {
            return None;
        };
        cells[place] = cell_of(number);
        if !is_comma(bytes, field.end) {
            return if place + 1 == count {
                Some((field.end + 1).min(bytes.len()))
            } else {
                None
            };
        }
        at = field.end + 1;
    }
    None
}
