//! The scans of a query, before they are reduced.
ghost use Rattle.std.specs.Prelude.{◌≡◌, ◌<◌, ℕ, IfOk, length, map};
ghost use Rattle.sql_meaning.specs.Answers.{entries_of};
ghost use Rattle.sql_meaning.specs.Databases.{AreTables, IsDatabaseOf};
ghost use Rattle.sql_meaning.specs.Tables.{row_counts, tables_of};
ghost use Rattle.join_steps.specs.Lists.{list_at, lists_of, scan_of};

use base_io::NoMemory;
use csv_tables::Database;
use join_steps::scan_all;
use query_types::Query;
use reserve_plan::row_buffers;
use row_buf::RowBuf;
use std::alloc::Global;

// The number of rows of an entry's table.
fn rows_of_table(db: &Database, entry: u8) -> u32
    requires tables { AreTables db.now }
    requires entry { entry < length db.now.slots }
    ensures { result ≡ row_counts (tables_of db.now) entry }
{
    let slot = db.slots.as_slice()[entry as usize] as usize;
    db.cells.as_slice()[slot].rows
}

// The number of rows of each entry's table, in FROM order.
fn table_sizes(alloc: Global, query: &Query, db: &Database) -> Result<Vec<u64>, NoMemory>
    requires { IsDatabaseOf query.now db.now }
    ensures { IfOk result (λ sizes. sizes.items ≡ map (row_counts (tables_of db.now)) (entries_of query.now)) }
{
    let mut sizes = Vec::new(alloc);
    'entries: for entry in 0..query.from.len() as u8 {
        sizes.push(u64::from(rows_of_table(db, entry)))?;
    }
    Ok(sizes)
}

/// The scan of each FROM entry, in a buffer with room for all rows of the entry's table. `reduce_scans` takes such buffers.
pub fn scan_entries(
    alloc: Global,
    query: &Query,
    db: &Database,
) -> Result<Vec<RowBuf<u32>>, NoMemory>
    requires database { IsDatabaseOf query.now db.now }
    ensures count { IfOk result (λ scans. length scans.items ≡ length query.now.from) }
    ensures scans { IfOk result (λ scans. (entry : ℕ) → entry < length query.now.from
        → list_at (lists_of scans.items) entry ≡ scan_of query.now db.now entry) }
{
    let sizes = table_sizes(alloc, query, db)?;
    let mut scans = row_buffers(alloc, sizes.as_slice())?;
    scan_all(query, db, scans.as_mut_slice());
    Ok(scans)
}
