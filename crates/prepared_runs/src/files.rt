//! Reads the schema text and the query text from their files.
ghost use Rattle.std.specs.Prelude.{IfOk};
ghost use Rattle.base_io.specs.Devices.{reading};
ghost use Rattle.outcomes.specs.Reads.{AtFile, Reads};
ghost use Rattle.schema_types.specs.Validity.{IsValid};
ghost use Rattle.stats_reading.specs.Names.{HasByteColumns};
ghost use Rattle.query_types.specs.Validity.{IsQueryOf};
ghost use Rattle.prepared_runs.specs.Verdict.{query_stage, schema_stage};

use base_io::{Seq, Store};
use limits::MOST_TEXT;
use outcomes::{Failure, FileId};
use query_types::Query;
use safebound_words::Word;
use schema_types::{Schema, read_schema};
use sql_parse::read_query;
use std::alloc::Global;
use table_files::load_file;

/// Reads the schema in the file of this name.
pub fn load_schema<S: Store>(alloc: Global, store: &mut S, name: &Word) -> Result<Schema, Failure>
    ensures valid { IfOk result IsValid }
    ensures bytes { IfOk result HasByteColumns }
    ensures reads { Reads (reading S.files S.faults S.misses store.old store.new) (schema_stage name.now) (AtFile FileId.Schema) result }
{
    let text = load_file(
        Seq::new(alloc),
        store,
        FileId::Schema,
        name.get(),
        MOST_TEXT,
    )?;
    let schema = read_schema(alloc, text.as_slice())?;
    Ok(schema)
}

/// Reads the query in the file of this name, over a schema.
pub fn load_query<S: Store>(
    alloc: Global,
    store: &mut S,
    name: &Word,
    schema: &Schema,
) -> Result<Query, Failure>
    requires { IsValid schema.now }
    ensures of_schema { IfOk result (IsQueryOf schema.now) }
    ensures reads { Reads (reading S.files S.faults S.misses store.old store.new) (query_stage name.now schema.now)
        (AtFile FileId.Query) result }
{
    let text = load_file(Seq::new(alloc), store, FileId::Query, name.get(), MOST_TEXT)?;
    let query = read_query(alloc, schema, text.as_slice())?;
    Ok(query)
}
