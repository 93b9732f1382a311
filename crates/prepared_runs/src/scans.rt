//! Gets the bounds of a run and the rows to be joined from the run's source (`ListSource`), and takes the memory of the joins.
ghost use Rattle.std.specs.Prelude.{◌≡◌, ◌⊎◌, ◌<◌, ◌≤◌, ℕ, Err, IfErr, IfOk, Ok, length, slice_index};
ghost use Rattle.order_search.specs.declared.refusal.PlanError.TheVariants as error;
ghost use Rattle.reserve_plan.specs.Memory.{buffers_bytes, lists_bytes};
ghost use Rattle.bushy_join.specs.Trees.{IsTreePlanOf};
ghost use Rattle.sql_meaning.specs.Databases.{IsDatabaseOf};
ghost use Rattle.sql_meaning.specs.Tables.{tables_of};
ghost use Rattle.join_steps.specs.Lists.{lists_of, listed_row_count, scans_of};
ghost use Rattle.tree_rows.specs.Memory.{tree_bytes};
ghost use Rattle.planning.specs.HasBounds.{HasBounds};
ghost use Rattle.safebound_words.specs.InRange.{IsInRange};
ghost use Rattle.prepared_runs.specs.Allowed.{MayJoin, shape_cost};
ghost use Rattle.prepared_runs.specs.PreparedQuery.{CanJoin, HoldExactly, room_and_list_bytes, lists_in};
ghost use Rattle.prepared_runs.specs.Sources.{lists_by, scans_by, bounds_and_lists_by};
ghost use Rattle.prepared_runs.specs.Standing.{LoseNoRow};
ghost use Rattle.prepared_runs.specs.Verdict.{plan_asked};

use crate::shapes::{Room, plan_by, reserve_room};
use base_io::NoMemory;
use counted_planning::from_counts;
use csv_tables::Database;
use join_steps::{reserve_scans, scan_all};
use key_bounds::from_keys;
use limits::Accuracy;
use order_search::PlanError;
use planning::{QueryBounds, from_reduced, from_statistics};
use plans::BushyPlan;
use query_types::Query;
use row_buf::RowBuf;
use safebound_words::{ListSource, PlanWork};
use schema_types::Schema;
use std::alloc::Global;

/// The rows that are joined.
#[derive(Drop)]
pub enum Scans {
    /// Each entry's complete scan. The row numbers aren't listed yet.
    Whole,
    /// For each entry a list of row numbers, in file order.
    Listed(Vec<RowBuf<u32>>),
}

// The result of a source: the bounds of all sets of entries and of their scans, and the rows that are joined.
#[derive(Drop)]
struct Given {
    known: QueryBounds,
    scans: Scans,
}

/// A plan, and the rows that it joins.
#[derive(Drop)]
pub struct PlanWithScans {
    pub plan: BushyPlan,
    pub scans: Scans,
}

/// All that the joins of a plan need: a list of rows for each entry, and the plan with the buffers for its joins.
#[derive(Drop)]
pub struct Joins {
    pub lists: Vec<RowBuf<u32>>,
    pub room: Room,
}

// The result of the source for a query over its database. This is the only function whose code depends on the source.
fn given_by(
    alloc: Global,
    source: ListSource,
    accuracy: Accuracy,
    schema: &Schema,
    query: &Query,
    db: &Database,
) -> Result<Given, NoMemory>
    requires database { IsDatabaseOf query.now db.now }
    ensures known { let given = bounds_and_lists_by source schema.now query.now (tables_of db.now) in
        IfOk result (λ made. HasBounds (given.sets accuracy) (given.scans accuracy) made.known) }
    ensures lists { IfOk result (λ made. lists_in made.scans query.now (tables_of db.now)
        ≡ lists_by source query.now (tables_of db.now)) }
    ensures exact { IfOk result (λ made. HoldExactly made.scans (scans_by source query.now (tables_of db.now) accuracy)) }
{
    match source {
        ListSource::Columns => {
            let known = from_statistics(alloc, query, db, accuracy)?;
            Ok(Given {
                known,
                scans: Scans::Whole,
            })
        }
        ListSource::Keyed => {
            let known = from_keys(alloc, schema, query, db, accuracy)?;
            Ok(Given {
                known,
                scans: Scans::Whole,
            })
        }
        ListSource::Reduced => {
            let reduced = from_reduced(alloc, query, db, accuracy)?;
            Ok(Given {
                known: reduced.known,
                scans: Scans::Listed(reduced.lists),
            })
        }
        ListSource::Counted => {
            let counted = from_counts(alloc, query, db)?;
            Ok(Given {
                known: counted.known,
                scans: Scans::Listed(counted.lists),
            })
        }
    }
}

/// Plans a query over its database, as the task asks.
pub fn plan_task(
    alloc: Global,
    task: &PlanWork,
    schema: &Schema,
    query: &Query,
    db: &Database,
) -> Result<PlanWithScans, PlanError>
    requires database { IsDatabaseOf query.now db.now }
    requires ranges { IsInRange task.now }
    ensures planned { IfOk result (λ p. plan_asked task.now schema.now query.now (tables_of db.now) ≡ Ok p.plan) }
    ensures affordable { IfOk result (λ p. shape_cost task.now.terms.shape p.plan ≤ task.now.terms.budget) }
    ensures lists { IfOk result (λ p. lists_in p.scans query.now (tables_of db.now)
        ≡ lists_by task.now.source query.now (tables_of db.now)) }
    ensures exact { IfOk result (λ p. HoldExactly p.scans p.plan.scans) }
    ensures refused { IfErr result (λ e. (e ≡ error.NoMemory) ⊎ (plan_asked task.now schema.now query.now (tables_of db.now) ≡ Err e)) }
{
    let Given { known, scans } = given_by(
        alloc,
        task.source,
        Accuracy::of(task.accuracy),
        schema,
        query,
        db,
    )?;
    let plan = plan_by(alloc, task.terms.shape, &known, task.terms.budget)?;
    Ok(PlanWithScans { plan, scans })
}

// Lists the rows of each entry's scan. Each list is reserved by the plan's bound of the scan.
fn list_scans(
    alloc: Global,
    _task: &PlanWork,
    plan: &BushyPlan,
    query: &Query,
    db: &Database,
) -> Result<Vec<RowBuf<u32>>, NoMemory>
    requires allowed { MayJoin _task.now plan.now }
    requires database { IsDatabaseOf query.now db.now }
    requires count { length plan.now.scans ≡ length query.now.from }
    requires fit { (entry : ℕ) → entry < length query.now.from
        → listed_row_count (scans_of query.now (tables_of db.now)) entry ≤ slice_index plan.now.scans entry }
    ensures lists { IfOk result (λ lists. lists_of lists.items ≡ scans_of query.now (tables_of db.now)) }
    ensures bytes { IfOk result (λ lists. buffers_bytes lists ≡ lists_bytes plan.now.scans) }
{
    let mut lists = reserve_scans(alloc, query, db, plan.scans.as_slice())?;
    scan_all(query, db, lists.as_mut_slice());
    Ok(lists)
}

// The rows of each entry that are joined, as a list. Complete scans are listed here; reduced scans are lists already (`scans`).
fn list_rows(
    alloc: Global,
    task: &PlanWork,
    plan: &BushyPlan,
    scans: Scans,
    query: &Query,
    db: &Database,
) -> Result<Vec<RowBuf<u32>>, NoMemory>
    requires allowed { MayJoin task.now plan.now }
    requires database { IsDatabaseOf query.now db.now }
    requires count { length plan.now.scans ≡ length query.now.from }
    requires fit { (entry : ℕ) → entry < length query.now.from
        → listed_row_count (lists_in scans query.now (tables_of db.now)) entry ≤ slice_index plan.now.scans entry }
    requires exact { HoldExactly scans plan.now.scans }
    ensures lists { IfOk result (λ lists. lists_of lists.items ≡ lists_in scans query.now (tables_of db.now)) }
    ensures bytes { IfOk result (λ lists. buffers_bytes lists ≡ lists_bytes plan.now.scans) }
{
    match scans {
        Scans::Whole => list_scans(alloc, task, plan, query, db),
        Scans::Listed(lists) => Ok(lists),
    }
}

/// Takes all memory that the joins of a plan need, and lists the rows that are joined. The lists and buffers hold exactly the bytes of the
/// plan. The caller must know that the task asks for a join, and that the plan is within the task's budget and limit of memory.
pub fn prepare_joins(
    alloc: Global,
    task: &PlanWork,
    planned: PlanWithScans,
    query: &Query,
    db: &Database,
) -> Result<Joins, NoMemory>
    requires allowed { MayJoin task.now planned.plan }
    requires database { IsDatabaseOf query.now db.now }
    requires plan { IsTreePlanOf query.now (tables_of db.now) (lists_in planned.scans query.now (tables_of db.now)) planned.plan }
    requires rows { LoseNoRow query.now (tables_of db.now) (lists_in planned.scans query.now (tables_of db.now)) }
    requires exact { HoldExactly planned.scans planned.plan.scans }
    ensures plan { IfOk result (λ joins. joins.room.plan ≡ planned.plan) }
    ensures bytes { IfOk result (λ joins. room_and_list_bytes joins ≡ tree_bytes planned.plan) }
    ensures room { IfOk result (CanJoin query.now db.now) }
    ensures lists { IfOk result (λ joins. lists_of joins.lists.items ≡ lists_in planned.scans query.now (tables_of db.now)) }
{
    let PlanWithScans { plan, scans } = planned;
    let lists = list_rows(alloc, task, &plan, scans, query, db)?;
    let room = reserve_room(alloc, task, plan, query, db)?;
    Ok(Joins { lists, room })
}
