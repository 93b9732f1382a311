//! Reads statistics files, plans queries from them, and makes them from a query's tables.
ghost use Rattle.std.specs.Prelude.{◌≡◌, ◌≤◌, IfErr, IfOk, Ok, length};
ghost use Rattle.limits.specs.Profile.{most_entries};
ghost use Rattle.base_io.specs.Devices.{reading};
ghost use Rattle.stats_file_of_query.specs.Databases.{FitsQuery};
ghost use Rattle.outcomes.specs.Reads.{AtFile, Reads, StopsBy, mapped};
ghost use Rattle.planning.specs.HasBounds.{HasBounds};
ghost use Rattle.query_types.specs.Validity.{IsQueryOf};
ghost use Rattle.schema_types.specs.Validity.{IsValid};
ghost use Rattle.stats_file.specs.Rules.{KeepsRules};
ghost use Rattle.stats_reading.specs.Names.{HasByteColumns};
ghost use Rattle.sql_meaning.specs.Tables.{tables_of};
ghost use Rattle.table_files.specs.EntryTables.{entry_rows, tables_in};
ghost use Rattle.table_files.specs.Stage.{IsReached, tables_of_query};
ghost use Rattle.safebound_words.specs.declared.command.QueryTask.TheVariants as query_tasks;
ghost use Rattle.stats_file_bounds.specs.Bounds.{scan_bounds_of_file, set_bounds_of_file};
ghost use Rattle.safebound_words.specs.Commands.{most_budget_of};
ghost use Rattle.prepared_runs.specs.Shapes.{planned_within};
ghost use Rattle.prepared_runs.specs.StatsFiles.{made_from_file, need_failure, plan_from_file_asked, stats_file_plan_stage, stats_stage, stats_file_of_tables};
ghost use Rattle.prepared_runs.specs.PreparedRun.{IsPlanned, file_from, plan_from};
ghost use Rattle.prepared_runs.specs.Verdict.{query_task_run};

use crate::limit::check_limit;
use crate::shapes::plan_by;
use base_io::{NoMemory, Seq, Store};
use csv_tables::Database;
use limits::{Accuracy, MOST_FILE};
use outcomes::{Failure, FileId, Refusal, StatsCause};
use planning::QueryBounds;
use plans::BushyPlan;
use query_types::Query;
use safebound_words::{PlanTerms, Shape, Word};
use schema_types::Schema;
use stats_file::StatsFile;
use stats_file_bounds::{NeedError, from_file};
use stats_file_of_query::stats_of;
use stats_reading::read_stats;
use std::alloc::Global;
use table_files::{load_file, read_tables};
use tree_rows::tree_memory;

/// A statistics file of a query's tables, and the database from which it was made.
#[derive(Drop)]
pub struct PreparedStatsFile {
    pub query: Query,
    pub db: Database,
    pub file: StatsFile,
}

/// A plan of a query with its shape, the statistics file from which it was made, the limit of memory, if there is one, and the bytes of the plan.
#[derive(Drop)]
pub struct PreparedStatsFilePlan {
    pub query: Query,
    pub file: StatsFile,
    pub shape: Shape,
    pub plan: BushyPlan,
    pub memory: Option<u64>,
    pub bytes: u128,
}

/// Reads the statistics file of this name over a schema.
pub(crate) fn load_stats<S: Store>(
    alloc: Global,
    store: &mut S,
    name: &Word,
    schema: &Schema,
) -> Result<StatsFile, Failure>
    requires valid { IsValid schema.now }
    requires bytes { HasByteColumns schema.now }
    ensures rules { IfOk result (KeepsRules schema.now) }
    ensures reads { Reads (reading S.files S.faults S.misses store.old store.new) (stats_stage name.now schema.now)
        (AtFile FileId.Stats) result }
{
    let text = load_file(Seq::new(alloc), store, FileId::Stats, name.get(), MOST_FILE)?;
    let file = read_stats(alloc, schema, text.as_slice())?;
    Ok(file)
}

// The failure of a run for which the statistics file gives no bounds.
fn failure_of(error: NeedError) -> Failure
    ensures { result ≡ need_failure error }
{
    match error {
        NeedError::Missing { from } => Failure::Refused(Refusal::Stats {
            cause: StatsCause::Missing,
            at: u32::from(from),
        }),
        NeedError::NoMemory => Failure::NoMemory,
    }
}

// Plans a query by the bounds that the statistics file gives. Refuses a plan that takes more bytes than the limit of memory.
fn plan_known(
    alloc: Global,
    query: Query,
    file: StatsFile,
    known: &QueryBounds,
    terms: &PlanTerms,
) -> Result<PreparedStatsFilePlan, Failure>
    requires some { 1 ≤ length query.from }
    requires few { length query.from ≤ most_entries }
    requires known { HasBounds (set_bounds_of_file query file) (scan_bounds_of_file query file) known.now }
    requires budget { terms.now.budget ≤ most_budget_of terms.now.shape }
    ensures plan { IfOk result IsPlanned }
    ensures within { IfOk result (λ made. planned_within terms.now.memory (made_from_file terms.now query file)
        (plan_from_file_asked terms.now query file) ≡ Ok (plan_from made)) }
    ensures refused { IfErr result (StopsBy (planned_within terms.now.memory (made_from_file terms.now query file)
        (plan_from_file_asked terms.now query file))) }
{
    let plan = plan_by(alloc, terms.shape, known, terms.budget)?;
    let bytes = tree_memory(&plan);
    check_limit(terms.memory, bytes)?;
    Ok(PreparedStatsFilePlan {
        query,
        file,
        shape: terms.shape,
        plan,
        memory: terms.memory,
        bytes,
    })
}

// Plans a query from a statistics file, within a budget and a limit of memory. No table is read.
fn plan_from_stats_file(
    alloc: Global,
    schema: &Schema,
    query: Query,
    file: StatsFile,
    terms: &PlanTerms,
) -> Result<PreparedStatsFilePlan, Failure>
    requires query { IsQueryOf schema.now query }
    requires file { KeepsRules schema.now file }
    requires budget { terms.now.budget ≤ most_budget_of terms.now.shape }
    ensures plan { IfOk result IsPlanned }
    ensures planned { IfOk result (λ made. stats_file_plan_stage terms.now query file ≡ Ok (plan_from made)) }
    ensures refused { IfErr result (StopsBy (stats_file_plan_stage terms.now query file)) }
{
    match from_file(alloc, &query, &file) {
        Ok(known) => plan_known(alloc, query, file, &known, terms),
        Err(error) => Err(failure_of(error)),
    }
}

// Makes the statistics file of a query's tables, compressed at an accuracy.
fn stats_file_of_tables(
    alloc: Global,
    schema: &Schema,
    query: Query,
    db: Database,
    accuracy: Accuracy,
) -> Result<PreparedStatsFile, NoMemory>
    requires over { FitsQuery schema.now query db }
    requires tables { tables_in (entry_rows db) ≡ tables_of db }
    ensures rules { IfOk result (λ made_stats. KeepsRules schema.now made_stats.file) }
    ensures made_stats { IfOk result (λ made_stats. file_from schema.now made_stats ≡ stats_file_of_tables schema.now query (entry_rows db) accuracy) }
{
    let file = stats_of(alloc, schema, &query, &db, accuracy)?;
    Ok(PreparedStatsFile { query, db, file })
}

/// Reads the tables of a query, and makes their statistics file.
pub fn prepare_stats_file<S: Store>(
    alloc: Global,
    store: &mut S,
    schema: &Schema,
    query: Query,
    accuracy: Accuracy,
) -> Result<PreparedStatsFile, Failure>
    requires schema { IsValid schema.now }
    requires query { IsQueryOf schema.now query }
    ensures rules { IfOk result (λ made_stats. KeepsRules schema.now made_stats.file) }
    ensures reads { Reads (reading S.files S.faults S.misses store.old store.new) (query_task_run (query_tasks.WriteStats accuracy) schema.now query)
        (IsReached schema.now (tables_of_query query.from)) (mapped (file_from schema.now) result) }
{
    let db = read_tables(alloc, store, schema, &query)?;
    let made_stats = stats_file_of_tables(alloc, schema, query, db, accuracy)?;
    Ok(made_stats)
}

/// Reads a statistics file, and plans a query from it.
pub fn prepare_stats_file_plan<S: Store>(
    alloc: Global,
    store: &mut S,
    schema: &Schema,
    query: Query,
    file: &Word,
    terms: &PlanTerms,
) -> Result<PreparedStatsFilePlan, Failure>
    requires schema { IsValid schema.now }
    requires bytes { HasByteColumns schema.now }
    requires query { IsQueryOf schema.now query }
    requires budget { terms.now.budget ≤ most_budget_of terms.now.shape }
    ensures plan { IfOk result IsPlanned }
    ensures reads { Reads (reading S.files S.faults S.misses store.old store.new) (query_task_run (query_tasks.PlanFromStats file.now terms.now) schema.now query)
        (AtFile FileId.Stats) (mapped plan_from result) }
{
    let stats = load_stats(alloc, store, file, schema)?;
    plan_from_stats_file(alloc, schema, query, stats, terms)
}
