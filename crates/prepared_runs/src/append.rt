//! `append`: reads a statistics file and new rows of one of its tables, and makes a statistics file that also counts the new rows.
ghost use Rattle.std.specs.Prelude.{◌≡◌, ◌+◌, ◌<◌, All, IfErr, IfOk, IsOkAnd, Ok, find, length, nat_le, option_map};
ghost use Rattle.std.specs.Str.{str_eq_ignore_ascii_case};
ghost use Rattle.limits.specs.Profile.{most_rows};
ghost use Rattle.base_io.specs.Devices.{reading};
ghost use Rattle.csv_tables.specs.Cells.{AreCellsOf};
ghost use Rattle.outcomes.specs.Reads.{AtFile, Reads, StopsBy, mapped};
ghost use Rattle.schema_types.specs.Validity.{IsValid};
ghost use Rattle.stats_file.specs.Rules.{KeepsRules};
ghost use Rattle.stats_reading.specs.Names.{HasByteColumns};
ghost use Rattle.table_files.specs.EntryTables.{rows_of_read};
ghost use Rattle.table_files.specs.Stage.{table_at};
ghost use Rattle.prepared_runs.specs.Appending.{append_run, grown_stage, is_of_table, rows_run, section_stage, stats_run};
ghost use Rattle.safebound_words.specs.declared.command.SchemaTask.TheVariants as schema_tasks;
ghost use Rattle.prepared_runs.specs.SectionRows.{HasAsMany, section_rows};
ghost use Rattle.prepared_runs.specs.PreparedRun.{appended_from};
ghost use Rattle.prepared_runs.specs.Verdict.{IsSchemaTaskFile};

use crate::stats_files::load_stats;
use appended_stats::append_rows;
use base_io::Store;
use gathered_stats::characters_differ;
use limits::MOST_ROWS;
use outcomes::{Failure, FileId, Refusal, StatsCause};
use safebound_words::{NewRows, Word};
use schema_types::{LimitKind, Schema};
use stats_file::{StatsFile, TableStats};
use std::alloc::Global;
use table_files::{TableRows, read_rows};

/// What `append` has made: the number of the table in the schema, the table's new rows, and the statistics file that also counts them.
#[derive(Drop)]
pub struct PreparedAppend {
    pub table: u32,
    pub rows: TableRows,
    pub file: StatsFile,
}

/// The number of a table in the schema, and how many rows the table's section of a statistics file counts.
#[derive(Clone, Copy)]
pub struct SectionRows {
    pub table: u32,
    pub rows: u32,
}

// Whether two names are equal, apart from letter case.
fn are_alike(one: &str, other: &str) -> bool
    ensures { result ≡ str_eq_ignore_ascii_case one.now other.now }
{
    one.eq_ignore_ascii_case(other)
}

// Whether `section` is the section of the table `name`. Letter case makes no difference.
fn is_named(name: &Word, schema: &Schema, section: &TableStats) -> bool
    requires { section.now.table < length schema.now.tables }
    ensures { result ≡ is_of_table schema.now name.now section.now }
{
    let table = schema.tables.get(section.table as usize);
    are_alike(table.name.as_str(), name.get())
}

// The section of the table `name`, if the file has one. Letter case makes no difference.
fn section_named<'a>(name: &Word, schema: &Schema, stats: &'a StatsFile) -> Option<&'a TableStats>
    requires { KeepsRules schema.now stats.now }
    ensures { option_map (λ section. section.now) result ≡ find (is_of_table schema.now name.now) stats.now.tables }
{
    'sections: for section in stats.tables.as_slice() {
        if is_named(name, schema, section) {
            return Some(section);
        }
    }
    None
}

// The table `name` and the number of rows in its section, or Missing if the file has no section of this table.
fn count_section(name: &Word, schema: &Schema, stats: &StatsFile) -> Result<SectionRows, Refusal>
    requires { KeepsRules schema.now stats.now }
    ensures section_rows { mapped section_rows (section_stage name.now schema.now stats.now) ≡ result }
    ensures there { IfOk result (λ found. found.table < length schema.now.tables) }
    ensures alone { IfOk result (λ found. All (HasAsMany found) stats.now.tables) }
{
    match section_named(name, schema, stats) {
        Some(section) => Ok(SectionRows {
            table: section.table,
            rows: section.rows,
        }),
        None => Err(Refusal::Stats {
            cause: StatsCause::Missing,
            at: 0,
        }),
    }
}

// Whether a table may have `before` rows and `more` further rows.
fn fits_with(before: u32, more: u32) -> bool
    ensures { result ≡ nat_le (before + more) most_rows }
{
    u64::from(before) + u64::from(more) <= u64::from(MOST_ROWS)
}

// Makes the statistics file that also counts a table's new rows. Refuses if the table would then have too many rows.
fn grow(
    alloc: Global,
    schema: &Schema,
    stats: StatsFile,
    found: SectionRows,
    rows: TableRows,
) -> Result<PreparedAppend, Failure>
    requires file { KeepsRules schema.now stats }
    requires alone { All (HasAsMany found) stats.tables }
    requires cells { AreCellsOf (table_at schema.now found.table) rows.pool rows.cells }
    ensures rules { IfOk result (λ made. KeepsRules schema.now made.file) }
    ensures made { IfOk result (λ made. grown_stage schema.now stats found.table found.rows (rows_of_read rows) ≡ Ok (appended_from schema.now made)) }
    ensures refused { IfErr result (StopsBy (grown_stage schema.now stats found.table found.rows (rows_of_read rows))) }
{
    if !fits_with(found.rows, rows.cells.rows) {
        return Err(Failure::Refused(Refusal::Limit {
            which: LimitKind::Rows,
            file: FileId::Table(found.table),
            found: u64::from(MOST_ROWS) + 1,
        }));
    }
    // These two calls are for the proof: their contracts say which texts a pool has, and that the texts differ.
    let _texts = rows.pool.len();
    characters_differ(&rows.pool);
    let file = append_rows(alloc, schema, stats, found.table, &rows.cells, &rows.pool)?;
    Ok(PreparedAppend {
        table: found.table,
        rows,
        file,
    })
}

// Reads the new rows of a table, and makes the statistics file that also counts them.
fn append_read<S: Store>(
    alloc: Global,
    store: &mut S,
    name: &Word,
    schema: &Schema,
    stats: StatsFile,
    found: SectionRows,
) -> Result<PreparedAppend, Failure>
    requires valid { IsValid schema.now }
    requires file { KeepsRules schema.now stats }
    requires there { found.table < length schema.now.tables }
    requires alone { All (HasAsMany found) stats.tables }
    ensures rules { IfOk result (λ made. KeepsRules schema.now made.file) }
    ensures reads { Reads (reading S.files S.faults S.misses store.old store.new) (rows_run name.now schema.now stats found.table found.rows)
        (AtFile (FileId.Table found.table)) (mapped (appended_from schema.now) result) }
{
    let rows = read_rows(alloc, store, schema, found.table, name.get())?;
    grow(alloc, schema, stats, found, rows)
}

// Finds the section of the table, reads the table's new rows, and makes the statistics file that also counts them.
fn append_to<S: Store>(
    alloc: Global,
    store: &mut S,
    append: &NewRows,
    schema: &Schema,
    stats: StatsFile,
) -> Result<PreparedAppend, Failure>
    requires valid { IsValid schema.now }
    requires file { KeepsRules schema.now stats }
    ensures rules { IfOk result (λ made. KeepsRules schema.now made.file) }
    ensures reads { Reads (reading S.files S.faults S.misses store.old store.new) (stats_run append.now schema.now stats)
        (λ files file. IsOkAnd (section_stage append.now.table schema.now stats) (λ section. file ≡ FileId.Table section.table))
        (mapped (appended_from schema.now) result) }
{
    let found = count_section(&append.table, schema, &stats)?;
    append_read(alloc, store, &append.rows_file, schema, stats, found)
}

/// Reads a statistics file and new rows of one of its tables, and makes a statistics file that also counts the new rows. The rows that the
/// table had before aren't read.
pub fn prepare_append<S: Store>(
    alloc: Global,
    store: &mut S,
    append: &NewRows,
    schema: &Schema,
) -> Result<PreparedAppend, Failure>
    requires valid { IsValid schema.now }
    requires bytes { HasByteColumns schema.now }
    ensures rules { IfOk result (λ made. KeepsRules schema.now made.file) }
    ensures reads { Reads (reading S.files S.faults S.misses store.old store.new) (append_run append.now schema.now)
        (IsSchemaTaskFile (schema_tasks.Append append.now) schema.now) (mapped (appended_from schema.now) result) }
{
    let stats = load_stats(alloc, store, &append.stats_file, schema)?;
    append_to(alloc, store, append, schema, stats)
}
