//! Reads a table from its file.
ghost use Rattle.std.specs.Prelude.{◌≡◌, ◌≤◌, ◌+◌, length, IfOk, string_bytes};
ghost use Rattle.limits.specs.Profile.{most_rows};
ghost use Rattle.csv_tables.specs.Cells.{AreCellsOf, rows_of_cells};
ghost use Rattle.csv_tables.specs.Pools.{PoolBeginsWith};
ghost use Rattle.base_io.specs.Devices.{reading};
ghost use Rattle.outcomes.specs.Reads.{AtFile, Reads, mapped};
ghost use Rattle.schema_types.specs.Validity.{IsValidTable};
ghost use Rattle.table_files.specs.EntryTables.{CanComeFromFile};
ghost use Rattle.table_files.specs.FileNames.{file_name};
ghost use Rattle.table_files.specs.TableFile.{file_rows, rows_in};

use crate::load::load_file;
use base_io::{NoMemory, Seq, Store};
use csv_tables::{Cells, Pool, read_table};
use limits::MOST_FILE;
use outcomes::{Failure, FileId, table_failure};
use schema_types::Table;
use std::alloc::Global;
use std::mem;

// The name of a table's file: the table's name in lower case, and `.csv`.
fn table_file_name(alloc: Global, table: &Table) -> Result<String, NoMemory>
    ensures { IfOk result (λ name. string_bytes name ≡ file_name table.now) }
{
    let mut name = table.name.as_str().to_ascii_lowercase(alloc)?;
    name.push_str(".csv")?;
    Ok(name)
}

/// Reads rows of the table with this number in the schema from the file of this name. The file is read into the memory of `file_memory`, which the
/// next file can use.
pub(crate) fn load_rows<S: Store>(
    alloc: Global,
    store: &mut S,
    number: u32,
    table: &Table,
    name: &str,
    file_memory: &mut Seq<u8>,
    pool: &mut Pool,
) -> Result<Cells, Failure>
    requires valid { IsValidTable table.now }
    requires room { length pool.old ≤ 4000000000 }
    ensures cells { IfOk result (AreCellsOf table.now pool.new) }
    ensures few { IfOk result (λ cells. cells.rows ≤ most_rows) }
    ensures file { IfOk result (λ cells. CanComeFromFile table.now (rows_of_cells pool.new cells)) }
    ensures begins { IfOk result (λ _. PoolBeginsWith pool.old pool.new) }
    ensures more { IfOk result (λ _. length pool.new ≤ length pool.old + 256000000) }
    ensures reads { Reads (reading S.files S.faults S.misses store.old store.new) (rows_in number table.now name.now)
        (AtFile (FileId.Table number))
        (mapped (rows_of_cells pool.new) result) }
{
    let file = FileId::Table(number);
    let memory = mem::replace(file_memory, Seq::new(alloc));
    let bytes = load_file(memory, store, file, name, MOST_FILE)?;
    match read_table(alloc, table, bytes.as_slice(), pool) {
        Ok(cells) => {
            *file_memory = bytes;
            Ok(cells)
        }
        Err(error) => Err(table_failure(number, error)),
    }
}

/// Reads the file of the table with this number in the schema.
pub(crate) fn load_table<S: Store>(
    alloc: Global,
    store: &mut S,
    number: u32,
    table: &Table,
    file_memory: &mut Seq<u8>,
    pool: &mut Pool,
) -> Result<Cells, Failure>
    requires valid { IsValidTable table.now }
    requires room { length pool.old ≤ 4000000000 }
    ensures cells { IfOk result (AreCellsOf table.now pool.new) }
    ensures few { IfOk result (λ cells. cells.rows ≤ most_rows) }
    ensures file { IfOk result (λ cells. CanComeFromFile table.now (rows_of_cells pool.new cells)) }
    ensures begins { IfOk result (λ _. PoolBeginsWith pool.old pool.new) }
    ensures more { IfOk result (λ _. length pool.new ≤ length pool.old + 256000000) }
    ensures reads { Reads (reading S.files S.faults S.misses store.old store.new) (file_rows number table.now)
        (AtFile (FileId.Table number))
        (mapped (rows_of_cells pool.new) result) }
{
    let Ok(name) = table_file_name(alloc, table) else {
        return Err(Failure::NoMemory);
    };
    load_rows(
        alloc,
        store,
        number,
        table,
        name.as_str(),
        file_memory,
        pool,
    )
}
