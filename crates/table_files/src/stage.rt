//! Reads the tables of a query.
ghost use Rattle.std.specs.Prelude.{◌≡◌, ◌<◌, All, IfOk, IsUtf8, length};
ghost use Rattle.csv_tables.specs.Pools.{TextsAreDifferent};
ghost use Rattle.base_io.specs.Devices.{reading};
ghost use Rattle.outcomes.specs.Reads.{Reads, mapped};
ghost use Rattle.query_types.specs.Validity.{IsQueryOf};
ghost use Rattle.schema_types.specs.Validity.{IsValid};
ghost use Rattle.sql_meaning.specs.Databases.{IsDatabaseOf};
ghost use Rattle.sql_meaning.specs.Tables.{tables_of};
ghost use Rattle.table_files.specs.EntryTables.{CanComeFromFiles, HasCells, entry_rows, tables_in};
ghost use Rattle.table_files.specs.Stage.{IsReached, tables_of_query, tables_stage};

use crate::each::read_each;
use crate::numbers::{slots, table_numbers};
use base_io::Store;
use csv_tables::{Database, Pool};
use outcomes::Failure;
use query_types::Query;
use schema_types::Schema;
use std::alloc::Global;

/// Reads the tables of a query of the schema, each once, in the order in which FROM first names them. Entries
/// of one table share one element of `cells`.
///
/// The reading stops at the first file that is absent, has more than 67,108,864 bytes, or has refused rows. It stops at a failed read too, which
/// the store counts as a fault. It may run out of memory at any point.
pub fn read_tables<S: Store>(
    alloc: Global,
    store: &mut S,
    schema: &Schema,
    query: &Query,
) -> Result<Database, Failure>
    requires schema { IsValid schema.now }
    requires query { IsQueryOf schema.now query.now }

    // The query can be evaluated on the database, which has the cells of each entry's table.
    ensures database { IfOk result (IsDatabaseOf query.now) }
    ensures cells { IfOk result (HasCells schema.now query.now.from) }

    // `cells` has one element for each table of the query.
    ensures once { IfOk result (λ db. length db.cells ≡ length (tables_of_query query.now.from)) }

    // The texts of the pool are UTF-8, and no two are equal.
    ensures texts { IfOk result (λ db. All IsUtf8 db.pool) }
    ensures different { IfOk result (λ db. TextsAreDifferent db.pool) }

    // Each table has the rows of some file, in which columns and keys are as the schema declares.
    ensures files { IfOk result (λ db. CanComeFromFiles schema.now query.now.from (tables_of db)) }

    // The tables made of the entries' rows are those of the database.
    ensures tables { IfOk result (λ db. tables_in (entry_rows db) ≡ tables_of db) }

    // Over a store that tells its files, the entries' rows are those that `tables_stage` gives. If the reading stopped early, the `Failure` says why.
    ensures reads { Reads (reading S.files S.faults S.misses store.old store.new) (tables_stage schema.now query.now.from)
        (IsReached schema.now (tables_of_query query.now.from)) (mapped entry_rows result) }
{
    let from = query.from.as_slice();
    let Ok(numbers) = table_numbers(alloc, from) else {
        return Err(Failure::NoMemory);
    };
    let Ok(slots) = slots(alloc, from, numbers.as_slice()) else {
        return Err(Failure::NoMemory);
    };
    let mut pool = Pool::new(alloc);
    let cells = read_each(alloc, store, schema, numbers.as_slice(), &mut pool)?;
    // `len` is called only for its contract: the texts of the pool are UTF-8 and all different.
    let _texts = pool.len();
    Ok(Database { pool, cells, slots })
}
