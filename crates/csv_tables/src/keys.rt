//! Checks declared keys: finds the first record that repeats the values of a key.
ghost use Rattle.std.specs.Prelude.{◌≡◌, ◌<◌, ◌≤◌, ℕ, All, IfErr, IfOk, Ok, OnOk, Some, false, if◌then◌else◌, length, slice_index, true, unwrap_or};
ghost use Rattle.std.specs.HashMap.{get};
ghost use Rattle.limits.specs.Profile.{most_rows};
ghost use Rattle.schema_types.specs.Validity.{IsValidTable};
ghost use Rattle.csv_tables.specs.Cells.{rows_of_columns, AreColumns};
ghost use Rattle.csv_tables.specs.FirstPlaces.{are_alike, have_same_cells, repeat_from, same_pair, AreFirsts, IsRepeat};
ghost use Rattle.csv_tables.specs.Keys.{rows_with_keys};
ghost use Rattle.csv_tables.specs.Reads.{kinds_of};
ghost use Rattle.csv_tables.specs.Refused.{IsRefusalOrNoMemory};

use crate::TableError;
use crate::pool::Pool;
use crate::types::Repeat;
use base_io::{NoMemory, Seq};
use schema_types::Table;
use std::alloc::Global;
use std::collections::HashMap;

// The row index that `seen` has for `pair`. A new pair is inserted with the index `at`, which is then the result.
fn first_or_insert(
    seen: &mut HashMap<(u32, u64), u32>,
    pair: (u32, u64),
    at: u32,
) -> Result<u32, NoMemory>
    ensures first { IfOk result (λ first. first ≡ unwrap_or (get same_pair seen.old pair) at) }
    ensures kept { IfOk result (λ first. (q : ℕ × ℕ)
        → get same_pair seen.new q ≡ (if same_pair pair q then Some first else get same_pair seen.old q)) }
{
    if let Some(first) = seen.get(&pair) {
        return Ok(*first);
    }
    seen.insert(pair, at)?;
    Ok(at)
}

// `first_places` has a number for each row. The call replaces this number by the index of the first row with the same number and the same cell.
fn number_pairs(alloc: Global, first_places: &mut [u32], cells: &[u64]) -> Result<(), NoMemory>
    requires lengths { length first_places.old ≡ length cells.now }
    requires few { length cells.now ≤ most_rows }
    ensures { OnOk result (AreFirsts (are_alike first_places.old cells.now) first_places.new) }
{
    let mut seen = HashMap::new(alloc);
    'rows: for (at, cell) in cells.iter().enumerate() {
        let pair = (first_places[at], *cell);
        first_places[at] = first_or_insert(&mut seen, pair, at as u32)?;
    }
    Ok(())
}

// Finds the first row that is like an earlier row, and the first row that it is like. Both are given as record numbers, from 1.
fn repeat_in(first_places: &[u32]) -> Option<Repeat>
    requires few { length first_places.now ≤ most_rows }
    requires below { (i : ℕ) → i < length first_places.now → slice_index first_places.now i ≤ i }
    ensures { result ≡ repeat_from 0 first_places.now }
{
    'rows: for (at, first) in first_places.iter().enumerate() {
        if *first as usize != at {
            return Some(Repeat {
                later: at as u32 + 1,
                earlier: *first + 1,
            });
        }
    }
    None
}

// Whether each cell is greater than the cell before it. This test takes no memory.
fn ascends(cells: &[u64]) -> bool
    ensures { result ≡ true → (i j : ℕ) → i < j → j < length cells.now → slice_index cells.now i < slice_index cells.now j }
{
    'cells: for at in 1..cells.len() {
        if cells[at] <= cells[at - 1] {
            return false;
        }
    }
    true
}

// Whether the cells of some column of the key ascend. Then no two rows have the same cells in all columns of the key.
fn has_ascending(key: &[u32], columns: &[Seq<u64>], rows: u32) -> bool
    requires heights { All (λ column. length column ≡ rows) columns.now }
    requires key { All (λ column. column < length columns.now) key.now }
    ensures { result ≡ true → (i j : ℕ) → j < i → i < rows → have_same_cells columns.now key.now i j ≡ false }
{
    'columns: for column in key {
        if ascends(columns[*column as usize].as_slice()) {
            return true;
        }
    }
    false
}

// The first record that repeats the cells of an earlier record in the columns of a key.
fn repeat_of_key(
    alloc: Global,
    key: &[u32],
    columns: &[Seq<u64>],
    rows: u32,
) -> Result<Option<Repeat>, NoMemory>
    requires heights { All (λ column. length column ≡ rows) columns.now }
    requires key { All (λ column. column < length columns.now) key.now }
    requires few { rows ≤ most_rows }
    ensures { IfOk result (IsRepeat columns.now key.now rows) }
{
    // In most files a key's cells ascend from row to row. Then no hash map of seen values is needed.
    if has_ascending(key, columns, rows) {
        return Ok(None);
    }
    let mut first_places = vec![in alloc; 0u32; rows as usize]?;
    'columns: for column in key {
        number_pairs(
            alloc,
            &mut first_places,
            columns[*column as usize].as_slice(),
        )?;
    }
    Ok(repeat_in(&first_places))
}

/// Checks that no two rows have the same values in a key. It refuses the first key, in declared order, that has a repeat.
pub(crate) fn check_keys(
    alloc: Global,
    table: &Table,
    columns: &[Seq<u64>],
    rows: u32,
    pool: &Pool,
) -> Result<(), TableError>
    requires valid { IsValidTable table.now }
    requires columns { AreColumns pool.now rows (kinds_of table.now.columns) columns.now }
    requires few { rows ≤ most_rows }
    ensures ok { let stated = rows_of_columns pool.now (kinds_of table.now.columns) columns.now rows
        in OnOk result (rows_with_keys table.now.keys stated ≡ Ok stated) }
    ensures refused { let stated = rows_of_columns pool.now (kinds_of table.now.columns) columns.now rows
        in IfErr result (IsRefusalOrNoMemory (rows_with_keys table.now.keys stated)) }
{
    // The contract of `len` says that the pool's texts are different, so equal values have equal cells.
    let _count = pool.len();
    'keys: for key in table.keys.as_slice() {
        if let Some(repeat) = repeat_of_key(alloc, key.as_slice(), columns, rows)? {
            return Err(TableError::Key {
                row: repeat.later,
                earlier: repeat.earlier,
            });
        }
    }
    Ok(())
}
