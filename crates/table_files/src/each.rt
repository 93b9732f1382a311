//! Reads tables one after another.
ghost use Rattle.std.specs.Prelude.{◌≡◌, ◌≤◌, ◌<◌, [], All, length, IfOk};
ghost use Rattle.limits.specs.Profile.{most_entries, most_rows};
ghost use Rattle.base_io.specs.Devices.{reading};
ghost use Rattle.outcomes.specs.Reads.{Reads, mapped};
ghost use Rattle.schema_types.specs.Validity.{IsValid};
ghost use Rattle.table_files.specs.EntryTables.{AreCellsOfEach, EachCanComeFromFile, rows_of_tables};
ghost use Rattle.table_files.specs.Stage.{IsReached, rows_of_each};

use crate::table::load_table;
use base_io::{NoMemory, Seq, Store};
use csv_tables::{Cells, Pool};
use outcomes::Failure;
use schema_types::Schema;
use std::alloc::Global;

/// Reads the tables with these numbers in the schema, in this order, into one pool. All files are read into the same memory, one after another.
pub(crate) fn read_each<S: Store>(
    alloc: Global,
    store: &mut S,
    schema: &Schema,
    numbers: &[u32],
    pool: &mut Pool,
) -> Result<Seq<Cells>, Failure>
    requires valid { IsValid schema.now }
    requires numbers { All (λ number. number < length schema.now.tables) numbers.now }
    requires few { length numbers.now ≤ most_entries }
    requires empty { pool.old ≡ [] }
    ensures cells { IfOk result (AreCellsOfEach schema.now pool.new numbers.now) }
    ensures few_rows { IfOk result (All (λ cells. cells.rows ≤ most_rows)) }
    ensures files { IfOk result (λ cells. EachCanComeFromFile schema.now numbers.now (rows_of_tables pool.new cells)) }
    ensures reads { Reads (reading S.files S.faults S.misses store.old store.new) (rows_of_each schema.now numbers.now)
        (IsReached schema.now numbers.now) (mapped (rows_of_tables pool.new) result) }
{
    let mut file_memory = Seq::new(alloc);
    let mut found = Seq::new(alloc);
    'numbers: for number in numbers {
        let table = schema.tables.get(*number as usize);
        let cells = load_table(alloc, store, *number, table, &mut file_memory, pool)?;
        let Ok(()) = found.push(cells) else {
            return Err(Failure::NoMemory);
        };
    }
    Ok(found)
}
