//! Reads the rows of one table from a file with a given name.
ghost use Rattle.std.specs.Prelude.{◌<◌, ◌≤◌, All, IfOk, IsUtf8, length};
ghost use Rattle.limits.specs.Profile.{most_rows};
ghost use Rattle.base_io.specs.Devices.{reading};
ghost use Rattle.csv_tables.specs.Cells.{AreCellsOf};
ghost use Rattle.csv_tables.specs.Pools.{TextsAreDifferent};
ghost use Rattle.outcomes.specs.Reads.{AtFile, Reads, mapped};
ghost use Rattle.schema_types.specs.Validity.{IsValid};
ghost use Rattle.table_files.specs.EntryTables.{rows_of_read};
ghost use Rattle.table_files.specs.Stage.{table_at};
ghost use Rattle.table_files.specs.TableFile.{rows_in};

use crate::table::load_rows;
use base_io::{Seq, Store};
use csv_tables::{Cells, Pool};
use outcomes::{Failure, FileId};
use schema_types::Schema;
use std::alloc::Global;

/// Rows of one table, as cells over the texts of a pool.
#[derive(Drop)]
pub struct TableRows {
    pub pool: Pool,
    pub cells: Cells,
}

/// Reads rows of the table with this number in the schema from the file of this name. It refuses whatever would be refused in the table's own
/// file. Keys are tested only among these rows.
pub fn read_rows<S: Store>(
    alloc: Global,
    store: &mut S,
    schema: &Schema,
    number: u32,
    name: &str,
) -> Result<TableRows, Failure>
    requires schema { IsValid schema.now }
    requires number { number < length schema.now.tables }
    ensures cells { IfOk result (λ read. AreCellsOf (table_at schema.now number) read.pool read.cells) }
    ensures few_rows { IfOk result (λ read. read.cells.rows ≤ most_rows) }

    // The texts of the pool are UTF-8, and no two are equal.
    ensures texts { IfOk result (λ read. All IsUtf8 read.pool) }
    ensures different { IfOk result (λ read. TextsAreDifferent read.pool) }

    // Over a store that tells its files, the rows are those that `rows_in` gives. If the reading stopped early, the `Failure` says why.
    ensures reads { Reads (reading S.files S.faults S.misses store.old store.new) (rows_in number (table_at schema.now number) name.now)
        (AtFile (FileId.Table number)) (mapped rows_of_read result) }
{
    let mut pool = Pool::new(alloc);
    let table = schema.tables.get(number as usize);
    let mut file_memory = Seq::new(alloc);
    let cells = load_rows(
        alloc,
        store,
        number,
        table,
        name,
        &mut file_memory,
        &mut pool,
    )?;
    // `len` is called only for its contract: the texts of the pool are UTF-8 and all different.
    let _texts = pool.len();
    Ok(TableRows { pool, cells })
}
