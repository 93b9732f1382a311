//! All steps of a run before it writes: it reads, plans, and takes all memory.
ghost use Rattle.std.specs.Prelude.{◌≡◌, ◌≤◌, IfErr, IfOk, Ok};
ghost use Rattle.base_io.specs.Devices.{reading};
ghost use Rattle.key_carriers.specs.DeclaredKeys.{DeclaredKeysHold};
ghost use Rattle.outcomes.specs.Reads.{Reads, StopsBy, mapped};
ghost use Rattle.query_types.specs.Validity.{IsQueryOf};
ghost use Rattle.schema_types.specs.Validity.{IsValid};
ghost use Rattle.stats_reading.specs.Names.{HasByteColumns};
ghost use Rattle.bushy_join.specs.Trees.{IsTreePlanOf};
ghost use Rattle.sql_meaning.specs.Databases.{IsDatabaseOf};
ghost use Rattle.sql_meaning.specs.Tables.{tables_of};
ghost use Rattle.table_files.specs.EntryTables.{entry_rows, tables_in};
ghost use Rattle.table_files.specs.Stage.{IsReached, tables_of_query};
ghost use Rattle.tree_rows.specs.Memory.{tree_bytes};
ghost use Rattle.safebound_words.specs.InRange.{HasRanges, IsInRange, WorkHasRanges};
ghost use Rattle.safebound_words.specs.declared.command.SchemaTask.TheVariants as schema_tasks;
ghost use Rattle.safebound_words.specs.declared.command.QueryTask.TheVariants as query_tasks;
ghost use Rattle.prepared_runs.specs.Allowed.{shape_cost};
ghost use Rattle.prepared_runs.specs.Limits.{IsWithinLimit};
ghost use Rattle.prepared_runs.specs.PreparedQuery.{AreOverLists, HasRoom, HoldExactly, HoldsBytes, IsPrepared, lists_in, pending_plan, pending_text};
ghost use Rattle.prepared_runs.specs.PreparedRun.{CanBeWritten, outcome_of, planned_outcome};
ghost use Rattle.prepared_runs.specs.Standing.{LoseNoRow};
ghost use Rattle.prepared_runs.specs.Verdict.{IsSchemaTaskFile, IsQueryTaskFile, schema_task_run, plan_stage, query_task_run};

use crate::append::{PreparedAppend, prepare_append};
use crate::files::load_query;
use crate::limit::check_limit;
use crate::scans::{Joins, PlanWithScans, plan_task, prepare_joins};
use crate::stats_files::{
    PreparedStatsFile, PreparedStatsFilePlan, prepare_stats_file, prepare_stats_file_plan,
};
use base_io::{NoMemory, Store};
use csv_tables::Database;
use limits::Accuracy;
use outcomes::Failure;
use plans::BushyPlan;
use query_types::Query;
use safebound_words::{ListSource, OutText, PlanWork, QueryTask, SchemaTask, Shape, Word};
use schema_types::Schema;
use std::alloc::Global;
use table_files::read_tables;
use tree_rows::tree_memory;

/// The steps that remain after the plan text is written. All memory that they need has been taken.
#[derive(Drop)]
pub enum PendingOutput {
    /// The joins are left, and then the rows of the answer are written.
    Rows(Joins),
    /// The joins are left, and then the number of rows of each level or inner node is written.
    Audit(Joins),
    /// Nothing is left after the plan text, as for `plan`.
    Nothing(BushyPlan),
}

/// A query that is ready to be joined: its tables, the source of its bounds, the shape of its plan, and what is left to do, with the plan. `memory`
/// is the limit of memory, if there is one, and `bytes` is how many bytes the plan takes.
#[derive(Drop)]
pub struct PreparedQuery {
    pub query: Query,
    pub db: Database,
    pub source: ListSource,
    pub shape: Shape,
    pub memory: Option<u64>,
    pub bytes: u128,
    pub rest: PendingOutput,
}

// The remaining steps if nothing is joined: only the plan's text is written. No memory is taken.
fn without_joins(planned: PlanWithScans) -> PendingOutput
    ensures { result ≡ PendingOutput.Nothing planned.plan }
{
    PendingOutput::Nothing(planned.plan)
}

// Takes the memory of the remaining steps. `planned` is within the budget and the limit of memory.
fn make_room(
    alloc: Global,
    task: &PlanWork,
    planned: PlanWithScans,
    query: &Query,
    db: &Database,
) -> Result<PendingOutput, NoMemory>
    requires affordable { shape_cost task.now.terms.shape planned.plan ≤ task.now.terms.budget }
    requires within { IsWithinLimit task.now.terms.memory (tree_bytes planned.plan) }
    requires database { IsDatabaseOf query.now db.now }
    requires plan { IsTreePlanOf query.now (tables_of db.now) (lists_in planned.scans query.now (tables_of db.now)) planned.plan }
    requires rows { LoseNoRow query.now (tables_of db.now) (lists_in planned.scans query.now (tables_of db.now)) }
    requires exact { HoldExactly planned.scans planned.plan.scans }
    ensures plan { IfOk result (λ rest. pending_plan rest ≡ planned.plan) }
    ensures room { IfOk result (HasRoom query.now db.now) }
    ensures lists { IfOk result (AreOverLists (lists_in planned.scans query.now (tables_of db.now))) }
    ensures out { IfOk result (λ rest. pending_text rest ≡ task.now.out) }
    ensures bytes { IfOk result (HoldsBytes (tree_bytes planned.plan)) }
{
    match task.out {
        OutText::Rows => Ok(PendingOutput::Rows(prepare_joins(alloc, task, planned, query, db)?)),
        OutText::Audit => Ok(PendingOutput::Audit(prepare_joins(alloc, task, planned, query, db)?)),
        OutText::Nothing => Ok(without_joins(planned)),
    }
}

/// What a run has read, planned and reserved. Only writing is left.
#[derive(Drop)]
pub enum PreparedRun {
    /// A plan over tables, and what is left to do.
    Planned(PreparedQuery),
    /// A statistics file.
    StatsMade(PreparedStatsFile),
    /// A plan from a statistics file.
    PlannedFromStats(PreparedStatsFilePlan),
    /// A statistics file after an append.
    Appended(PreparedAppend),
}

// Plans a query over its database, and takes the memory of the remaining steps. Refuses a plan above the limit of memory.
fn prepare_plan(
    alloc: Global,
    task: &PlanWork,
    schema: &Schema,
    query: Query,
    db: Database,
) -> Result<PreparedQuery, Failure>
    requires database { IsDatabaseOf query db }
    requires tables { tables_in (entry_rows db) ≡ tables_of db }
    requires keys { DeclaredKeysHold schema.now query (tables_of db) }
    requires ranges { IsInRange task.now }
    ensures ready { IfOk result IsPrepared }
    ensures run { IfOk result (λ p. plan_stage task.now schema.now query (entry_rows db) ≡ Ok (planned_outcome p)) }
    ensures refused { IfErr result (StopsBy (plan_stage task.now schema.now query (entry_rows db))) }
{
    let planned = plan_task(alloc, task, schema, &query, &db)?;
    let bytes = tree_memory(&planned.plan);
    check_limit(task.terms.memory, bytes)?;
    let rest = make_room(alloc, task, planned, &query, &db)?;
    Ok(PreparedQuery {
        query,
        db,
        source: task.source,
        shape: task.terms.shape,
        memory: task.terms.memory,
        bytes,
        rest,
    })
}

// Reads the tables of a query, and plans the query over them.
fn prepare_tables<S: Store>(
    alloc: Global,
    store: &mut S,
    task: &PlanWork,
    schema: &Schema,
    query: Query,
) -> Result<PreparedQuery, Failure>
    requires schema { IsValid schema.now }
    requires query { IsQueryOf schema.now query }
    requires ranges { IsInRange task.now }
    ensures ready { IfOk result IsPrepared }
    ensures reads { Reads (reading S.files S.faults S.misses store.old store.new) (query_task_run (query_tasks.Plan task.now) schema.now query)
        (IsReached schema.now (tables_of_query query.from)) (mapped planned_outcome result) }
{
    let db = read_tables(alloc, store, schema, &query)?;
    prepare_plan(alloc, task, schema, query, db)
}

// Reads the files that `work` needs, and does all of the work except writing.
fn prepare_query<S: Store>(
    alloc: Global,
    store: &mut S,
    work: &QueryTask,
    schema: &Schema,
    query: Query,
) -> Result<PreparedRun, Failure>
    requires schema { IsValid schema.now }
    requires bytes { HasByteColumns schema.now }
    requires query { IsQueryOf schema.now query }
    requires ranges { WorkHasRanges work.now }
    ensures ready { IfOk result (CanBeWritten schema.now) }
    ensures reads { Reads (reading S.files S.faults S.misses store.old store.new) (query_task_run work.now schema.now query)
        (IsQueryTaskFile work.now schema.now query) (mapped (outcome_of schema.now) result) }
{
    match work {
        QueryTask::Plan(plan) => {
            let prepared = prepare_tables(alloc, store, plan, schema, query)?;
            Ok(PreparedRun::Planned(prepared))
        }
        QueryTask::WriteStats { accuracy } => {
            let made_stats = prepare_stats_file(
                alloc,
                store,
                schema,
                query,
                Accuracy::of(*accuracy),
            )?;
            Ok(PreparedRun::StatsMade(made_stats))
        }
        QueryTask::PlanFromStats { file, terms } => {
            let made = prepare_stats_file_plan(alloc, store, schema, query, file, terms)?;
            Ok(PreparedRun::PlannedFromStats(made))
        }
    }
}

// Reads a query, and then the files that `work` needs.
fn prepare_work<S: Store>(
    alloc: Global,
    store: &mut S,
    file: &Word,
    work: &QueryTask,
    schema: &Schema,
) -> Result<PreparedRun, Failure>
    requires schema { IsValid schema.now }
    requires bytes { HasByteColumns schema.now }
    requires ranges { WorkHasRanges work.now }
    ensures ready { IfOk result (CanBeWritten schema.now) }
    ensures reads { Reads (reading S.files S.faults S.misses store.old store.new) (schema_task_run (schema_tasks.Query file.now work.now) schema.now)
        (IsSchemaTaskFile (schema_tasks.Query file.now work.now) schema.now) (mapped (outcome_of schema.now) result) }
{
    let query = load_query(alloc, store, file, schema)?;
    prepare_query(alloc, store, work, schema, query)
}

/// Does everything of a command but the writing. For a query, reads the query and then its tables or the statistics file, plans, and takes
/// all memory of the run. For `append`, reads a statistics file and new rows, and makes a statistics file that also counts the new rows.
pub fn prepare_run<S: Store>(
    alloc: Global,
    store: &mut S,
    schema_task: &SchemaTask,
    schema: &Schema,
) -> Result<PreparedRun, Failure>
    requires schema { IsValid schema.now }
    requires bytes { HasByteColumns schema.now }
    requires ranges { HasRanges schema_task.now }
    ensures ready { IfOk result (CanBeWritten schema.now) }
    ensures reads { Reads (reading S.files S.faults S.misses store.old store.new) (schema_task_run schema_task.now schema.now)
        (IsSchemaTaskFile schema_task.now schema.now) (mapped (outcome_of schema.now) result) }
{
    match schema_task {
        SchemaTask::Query { file, work } => prepare_work(alloc, store, file, work, schema),
        SchemaTask::Append(append) => {
            let made = prepare_append(alloc, store, append, schema)?;
            Ok(PreparedRun::Appended(made))
        }
    }
}
