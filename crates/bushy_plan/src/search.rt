//! Searches for the best join tree.
ghost use Rattle.std.specs.Prelude.{◌≡◌, ◌-◌, ◌≤◌, ◌<◌, ◌^◌, ℕ, List, length, IfErr, IfOk};
ghost use Rattle.std.specs.List.{AllByRecursion};
ghost use Rattle.limits.specs.Profile.{greatest_budget, greatest_entries, most_entries};
ghost use Rattle.order_search.specs.Orders.{cost as left_deep_cost};
ghost use Rattle.plans.specs.LeftDeep.{IsOrder};
ghost use Rattle.plans.specs.TreePlans.{IsTreePlan};
ghost use Rattle.bushy_plan.specs.BestTree.{IsBestPlan, IsLeastCost, AreOfBest};
ghost use Rattle.bushy_plan.specs.Causes.{IsCause};

use crate::joins::push_joins;
use crate::table::least_weights;
use crate::weight::Weighing;
use base_io::{NoMemory, Seq};
use limits::TOP_BOUND;
use order_search::PlanError;
use plans::{BushyPlan, Join};
use std::alloc::Global;

/// The best join tree of n entries, n from 1 to `GREATEST_ENTRIES`, from a bound for each of the 2^n sets. The cost of a tree is the greatest bound
/// of its inner nodes. The best tree has the least cost, and among the trees of that cost the least sum of these bounds. Among the trees with this
/// cost and sum, the first is best. Trees are ordered by the number of the left set at the root, then by the left tree, then by the right tree.
///
/// All bounds and the budget are in rows. A bound of 2^128 - 1 means that number or more. The search fills two arrays of 2^n numbers, in at most 3^n
/// steps each. Only one array is in memory at a time. The first array has the least cost for each set. The second array has each set's least sum,
/// over trees without a bound above the best tree's cost. The left set of a split has the set's first entry, so the search looks at each split once.
///
/// The error is `Budget` or `PastBits` exactly if `IsCause` says so, and `NoMemory` if there is too little memory.
pub fn choose_bushy(
    alloc: Global,
    bounds: &Seq<u128>,
    scans: &Seq<u64>,
    budget: u64,
) -> Result<BushyPlan, PlanError>
    requires not_empty { 1 ≤ length scans.now }
    requires within_limit { length scans.now ≤ greatest_entries }
    requires bounds { length bounds.now ≡ 2 ^ length scans.now }
    requires budget { budget ≤ greatest_budget }

    ensures plan { length scans.now ≤ most_entries → IfOk result (IsTreePlan (length scans.now)) }
    ensures best { IfOk result (IsBestPlan bounds.now (length scans.now)) }
    ensures within { IfOk result (λ plan. plan.cost ≤ budget) }
    ensures joins { IfOk result (λ plan. AllByRecursion (λ join. join.bound ≤ budget) plan.joins) }
    ensures scans { IfOk result (λ plan. plan.scans ≡ scans.now) }
    ensures no_dearer { IfOk result (λ plan. (order : List ℕ) → IsOrder (length scans.now) order
        → plan.cost ≤ left_deep_cost bounds.now order) }
    ensures refused { IfErr result (IsCause bounds.now (length scans.now) budget) }
{
    let count = scans.len() as u8;
    let bounds = bounds.as_slice();
    let least = least_cost(alloc, count, bounds)?;
    if least == TOP_BOUND {
        return Err(PlanError::PastBits);
    }
    if least > budget as u128 {
        return Err(PlanError::Budget { least });
    }
    let joins = best_joins(alloc, count, bounds, least)?;
    let scans = Vec::from_slice(alloc, scans.as_slice())?;
    Ok(BushyPlan {
        joins: Seq::from_vec(joins),
        scans: Seq::from_vec(scans),
        cost: least as u64,
    })
}

// The least cost of a tree. With one entry there is no inner node, and the entry's own bound is the cost.
fn least_cost(alloc: Global, count: u8, bounds: &[u128]) -> Result<u128, NoMemory>
    requires not_empty { 1 ≤ count }
    requires count { count ≤ greatest_entries }
    requires bounds { length bounds.now ≡ 2 ^ count }
    ensures { IfOk result (λ least. IsLeastCost bounds.now count least) }
{
    if count == 1 {
        return Ok(bounds[1]);
    }
    let costs = least_weights(alloc, Weighing::Greatest, bounds)?;
    Ok(costs[bounds.len() - 1])
}

// The joins of the best tree: among the trees of least cost and least sum, the first tree.
fn best_joins(alloc: Global, count: u8, bounds: &[u128], least: u128) -> Result<Vec<Join>, NoMemory>
    requires not_empty { 1 ≤ count }
    requires count { count ≤ greatest_entries }
    requires bounds { length bounds.now ≡ 2 ^ count }
    requires least { IsLeastCost bounds.now count least }
    requires small { least ≤ greatest_budget }
    ensures { IfOk result (λ joins. AreOfBest bounds.now count least joins.items) }
{
    let sums = least_weights(alloc, Weighing::SumIfBoundsAtMost(least), bounds)?;
    let mut joins = Vec::new(alloc);
    let _root = push_joins(
        least,
        count,
        bounds,
        sums.as_slice(),
        bounds.len() - 1,
        &mut joins,
    )?;
    Ok(joins)
}
