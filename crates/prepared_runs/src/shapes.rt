//! The plan of a query in the shape that is asked for (an order, or a join tree), and the memory for the rows that its joins list.
ghost use Rattle.std.specs.Prelude.{◌≡◌, ◌⊎◌, ◌^◌, ◌≤◌, ℕ, List, Err, IfOk, length};
ghost use Rattle.limits.specs.Profile.{most_budget, most_entries};
ghost use Rattle.order_search.specs.declared.refusal.PlanError.TheVariants as error;
ghost use Rattle.sql_meaning.specs.Tables.{tables_of};
ghost use Rattle.bushy_join.specs.Trees.{IsTreePlanOf};
ghost use Rattle.tree_rows.specs.Memory.{tree_rooms_bytes};
ghost use Rattle.prepared_runs.specs.Allowed.{MayJoin};
ghost use Rattle.prepared_runs.specs.PreparedQuery.{IsRoomOver, room_bytes};
ghost use Rattle.prepared_runs.specs.Shapes.{answer_of};
ghost use Rattle.safebound_words.specs.Commands.{most_budget_of};

use base_io::NoMemory;
use bushy_planning::plan_tree_from;
use csv_tables::Database;
use order_search::PlanError;
use planning::{QueryBounds, plan_from};
use plans::{BushyPlan, tree_of_order};
use query_types::Query;
use safebound_words::{PlanWork, Shape};
use std::alloc::Global;
use tree_rows::{BushyReserved, reserve_bushy};

/// A plan, and buffers for the rows that its joins list.
#[derive(Drop)]
pub struct Room {
    pub plan: BushyPlan,
    pub reserved: BushyReserved,
}

// The tree of the best order by the bounds `known`, or why no order is within the budget.
fn order_by(alloc: Global, known: &QueryBounds, budget: u64) -> Result<BushyPlan, PlanError>
    requires some { 1 ≤ length known.now.scans }
    requires few { length known.now.scans ≤ most_entries }
    requires sets { length known.now.sets ≡ 2 ^ length known.now.scans }
    requires budget { budget ≤ most_budget }
    ensures { (result ≡ Err error.NoMemory) ⊎ (result ≡ answer_of Shape.Order known.now.sets known.now.scans budget) }
{
    let order = plan_from(alloc, known, budget)?;
    let plan = tree_of_order(alloc, &order)?;
    Ok(plan)
}

/// The best plan of a shape by the bounds `known`, or why no plan is within the budget. The plan of an order is the tree of this order.
pub fn plan_by(
    alloc: Global,
    shape: Shape,
    known: &QueryBounds,
    budget: u64,
) -> Result<BushyPlan, PlanError>
    requires some { 1 ≤ length known.now.scans }
    requires few { length known.now.scans ≤ most_entries }
    requires sets { length known.now.sets ≡ 2 ^ length known.now.scans }
    requires budget { budget ≤ most_budget_of shape }
    ensures { (result ≡ Err error.NoMemory) ⊎ (result ≡ answer_of shape known.now.sets known.now.scans budget) }
{
    match shape {
        Shape::Order => order_by(alloc, known, budget),
        Shape::Tree => plan_tree_from(alloc, known, budget),
    }
}

/// Takes all memory of the joins of a plan, except for the lists that are joined. The caller must know that memory may be taken for this plan
/// (`MayJoin`).
pub fn reserve_room(
    alloc: Global,
    _task: &PlanWork,
    plan: BushyPlan,
    _query: &Query,
    _db: &Database,
) -> Result<Room, NoMemory>
    requires allowed { MayJoin _task.now plan }
    requires plan { (lists : List (List ℕ)) × IsTreePlanOf _query.now (tables_of _db.now) lists plan }
    ensures plan { IfOk result (λ room. room.plan ≡ plan) }
    ensures bytes { IfOk result (λ room. room_bytes room ≡ tree_rooms_bytes plan) }
    ensures ready { IfOk result (λ room. (lists : List (List ℕ)) → IsTreePlanOf _query.now (tables_of _db.now) lists plan
        → IsRoomOver _query.now (tables_of _db.now) lists room) }
{
    let reserved = reserve_bushy(alloc, &plan)?;
    Ok(Room { plan, reserved })
}
