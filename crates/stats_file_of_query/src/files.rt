//! Makes the statistics file of a query.
ghost use Rattle.std.specs.Prelude.{◌≡◌, ◌≤◌, IfOk, length};
ghost use Rattle.limits.specs.Profile.{most_entries};
ghost use Rattle.join_graph.specs.Conjuncts.{equalities_of, local_of};
ghost use Rattle.sql_meaning.specs.Tables.{tables_of};
ghost use Rattle.stats_file.specs.Rules.{KeepsRules};
ghost use Rattle.stats_file_of_query.specs.Databases.{FitsQueryAndTexts, FitsQuery, sections_of_cells};
ghost use Rattle.stats_file_of_query.specs.Files.{file_of_query, first_entry};
ghost use Rattle.stats_file_of_query.specs.Standing.{StandsFor};

use crate::sections::{section_of, table_of};
use base_io::{NoMemory, Seq};
use csv_tables::Database;
use join_graph::{Parts, split};
use limits::Accuracy;
use query_types::Query;
use schema_types::Schema;
use stats_file::{StatsFile, TableStats};
use std::alloc::Global;

// The first FROM entry that is this table, if the query names the table.
fn first_entry(query: &Query, table: u32) -> Option<u8>
    requires { length query.now.from ≤ most_entries }
    ensures { result ≡ first_entry query.now table }
{
    for entry in 0..query.from.len() as u8 {
        if table_of(query, entry) == table {
            return Some(entry);
        }
    }
    None
}

// The sections of the tables that the query names, in the order of the schema.
fn sections_of(
    alloc: Global,
    schema: &Schema,
    query: &Query,
    parts: &Parts,
    db: &Database,
    accuracy: Accuracy,
) -> Result<Seq<TableStats>, NoMemory>
    requires over { FitsQueryAndTexts schema.now query.now db.now }
    requires local { parts.now.local ≡ local_of query.now }
    requires equalities { parts.now.equalities ≡ equalities_of query.now }
    ensures { IfOk result (λ sections. sections ≡ sections_of_cells query.now db.now accuracy (length schema.now.tables)) }
{
    let mut sections = Seq::new(alloc);
    for table in 0..schema.tables.len() as u32 {
        if let Some(entry) = first_entry(query, table) {
            let section = section_of(alloc, query, parts, db, table, entry, accuracy)?;
            sections.push(section)?;
        }
    }
    Ok(sections)
}

/// The statistics that a query's bounds need, made from its tables and compressed at an accuracy (SafeBound, SIGMOD 2023). Each table that the query
/// names has a section, in the schema's order. The section has the number of rows, and all lists of each pair of columns that an entry of this table
/// needs. If memory runs out, nothing is kept.
pub fn stats_of(
    alloc: Global,
    schema: &Schema,
    query: &Query,
    db: &Database,
    accuracy: Accuracy,
) -> Result<StatsFile, NoMemory>
    requires over { FitsQuery schema.now query.now db.now }
    ensures file { IfOk result (λ file. file ≡ file_of_query schema.now query.now (tables_of db.now) accuracy) }
    // the file keeps the rules, so `write_stats` takes it
    ensures rules { IfOk result (KeepsRules schema.now) }
    // no bound that is made from the file is too low
    ensures stands { IfOk result (λ file. StandsFor query.now file (tables_of db.now)) }
{
    // the proof needs the contract of `len`, which states facts about the pool's texts
    let _ = db.pool.len();
    let parts = split(alloc, query)?;
    let tables = sections_of(alloc, schema, query, &parts, db, accuracy)?;
    Ok(StatsFile {
        accuracy: accuracy.value(),
        tables,
    })
}
