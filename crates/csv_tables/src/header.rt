//! Finds the declared columns in a file's header.
ghost use Rattle.std.specs.Prelude.{◌≡◌, ◌<◌, ◌≤◌, Err, IfErr, IfOk, Ok, length};
ghost use Rattle.std.specs.Str.{str_eq_ignore_ascii_case};
ghost use Rattle.csv.specs.Records.{fields_of};
ghost use Rattle.csv_tables.specs.Header.{column_place as named_place, column_places};
ghost use Rattle.csv_tables.specs.Refused.{IsRefusalOrNoMemory};

use crate::TableError;
use csv::ByteRecord;
use schema_types::Column;
use std::alloc::Global;

// Whether a header field equals this name, ignoring ASCII case.
fn is_named(field: &[u8], name: &[u8]) -> bool
    ensures { result ≡ str_eq_ignore_ascii_case field.now name.now }
{
    field.eq_ignore_ascii_case(name)
}

// The place (index) of the field that equals `name`, ignoring ASCII case. It is None if no field equals `name`, or if several fields equal it.
fn place_of(name: &[u8], header: &ByteRecord) -> Option<usize>
    ensures { result ≡ named_place name.now (fields_of header.now) }
{
    let mut found = None;
    'fields: for at in 0..header.len() {
        let Some(field) = header.get(at) else {
            return None;
        };
        if !is_named(field, name) {
            continue;
        }
        if found.is_some() {
            return None;
        }
        found = Some(at);
    }
    found
}

/// The place of each column in the header. The first column that isn't named by exactly one field is refused.
pub(crate) fn places_of(
    alloc: Global,
    columns: &[Column],
    header: &ByteRecord,
) -> Result<Vec<usize>, TableError>
    requires { length columns.now ≤ 64 }
    ensures ok { IfOk result (λ places. column_places 0 columns.now (fields_of header.now) ≡ Ok places.items) }
    ensures lengths { IfOk result (λ places. length places.items ≡ length columns.now) }
    ensures refused { IfErr result (IsRefusalOrNoMemory (column_places 0 columns.now (fields_of header.now))) }
{
    let mut places = Vec::new(alloc);
    'columns: for (number, column) in columns.iter().enumerate() {
        let Some(place) = place_of(column.name.as_str().as_bytes(), header) else {
            return Err(TableError::Header {
                column: number as u32,
            });
        };
        places.push(place)?;
    }
    Ok(places)
}
