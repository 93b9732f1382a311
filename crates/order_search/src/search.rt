//! Searches for the best order: least cost first, then the least sum among the orders of that cost.
ghost use Rattle.std.specs.Prelude.{◌≡◌, ◌≤◌, ◌<◌, ◌^◌, length, IfErr, IfOk};
ghost use Rattle.limits.specs.Profile.{greatest_budget, greatest_entries};
ghost use Rattle.order_search.specs.Causes.{IsCause};
ghost use Rattle.order_search.specs.Orders.{IsBest, IsLeastCost, cost, levels as levels_of};
ghost use Rattle.plans.specs.LeftDeep.{IsOrder, IsPlan};

use crate::PlanError;
use crate::table::least_weights;
use crate::way::first_lightest;
use crate::weight::Weighing;
use base_io::{NoMemory, Seq};
use entry_sets::EntrySet;
use limits::TOP_BOUND;
use plans::Plan;
use std::alloc::Global;

/// The best order of n entries, n from 1 to `GREATEST_ENTRIES`, over a bound for each of the 2^n sets. The cost of an order is the greatest bound of
/// its first k entries, k from 1 to n. The best order has the least cost. Among the orders of this cost it has the least sum of these bounds. Among
/// the orders of this cost and sum it comes first in lexicographic order.
///
/// All bounds and the budget are in rows. A bound of 2^128 - 1 means 2^128 - 1 rows or more. The search fills two arrays of 2^n numbers, one after
/// the other, in n 2^n steps each. Each array has a number for each set of entries that are still to be joined. In the first array, this is the least
/// cost of joining these entries. In the second array, it is the least sum of bounds, over orders without a bound above the best order's cost. The
/// method is from *Access Path Selection in a Relational Database Management System* (Selinger and others, SIGMOD 1979).
///
/// The call returns `Budget` or `PastBits` exactly if `IsCause` says so, and `NoMemory` if there is too little memory.
pub fn choose(
    alloc: Global,
    bounds: &Seq<u128>,
    scans: &Seq<u64>,
    budget: u64,
) -> Result<Plan, PlanError>
    requires not_empty { 1 ≤ length scans.now }
    requires within_limit { length scans.now ≤ greatest_entries }
    requires bounds { length bounds.now ≡ 2 ^ length scans.now }
    requires budget { budget ≤ greatest_budget }

    ensures plan { IfOk result (IsPlan (length scans.now)) }
    ensures best { IfOk result (λ plan. IsBest bounds.now (length scans.now) plan.order) }
    ensures within { IfOk result (λ plan. cost bounds.now plan.order ≤ budget) }
    ensures levels { IfOk result (λ plan. plan.levels ≡ levels_of bounds.now plan.order) }
    ensures scans { IfOk result (λ plan. plan.scans ≡ scans.now) }
    ensures refused { IfErr result (IsCause bounds.now (length scans.now) budget) }
{
    let count = scans.len() as u8;
    let bounds = bounds.as_slice();
    let least = least_cost(alloc, count, bounds)?;
    if least == TOP_BOUND {
        return Err(PlanError::PastBits);
    }
    if least > budget as u128 {
        return Err(PlanError::Budget { least });
    }
    let order = best_order(alloc, count, bounds, least)?;
    let levels = levels_along(alloc, count, bounds, order.as_slice())?;
    let scans = Vec::from_slice(alloc, scans.as_slice())?;
    Ok(Plan {
        order: Seq::from_vec(order),
        scans: Seq::from_vec(scans),
        levels: Seq::from_vec(levels),
    })
}

fn least_cost(alloc: Global, count: u8, bounds: &[u128]) -> Result<u128, NoMemory>
    requires count { count ≤ greatest_entries }
    requires bounds { length bounds.now ≡ 2 ^ count }
    ensures { IfOk result (λ least. IsLeastCost bounds.now count least) }
{
    let costs = least_weights(alloc, Weighing::Greatest, count, bounds)?;
    Ok(costs[bounds.len() - 1])
}

// The best order: among the orders of least cost and least sum, the first in lexicographic order. `least` is the least cost.
fn best_order(alloc: Global, count: u8, bounds: &[u128], least: u128) -> Result<Vec<u8>, NoMemory>
    requires count { count ≤ greatest_entries }
    requires bounds { length bounds.now ≡ 2 ^ count }
    requires least { IsLeastCost bounds.now count least }
    requires small { least ≤ greatest_budget }
    ensures best { IfOk result (λ order. IsBest bounds.now count order.items) }
    ensures cost { IfOk result (λ order. cost bounds.now order.items ≡ least) }
{
    let sums = least_weights(alloc, Weighing::SumIfBoundsAtMost(least), count, bounds)?;
    first_lightest(alloc, least, count, bounds, sums.as_slice())
}

// The bounds of the order's levels: of its first entry, of its first two entries, and so on.
#[tactic(auto, using(crate::proofs::LevelsSoFar::next_within, crate::proofs::LevelsSoFar::next_bound, crate::proofs::LevelsSoFar::next_entry))]
fn levels_along(
    alloc: Global,
    count: u8,
    bounds: &[u128],
    order: &[u8],
) -> Result<Vec<u64>, NoMemory>
    requires count { count ≤ greatest_entries }
    requires bounds { length bounds.now ≡ 2 ^ count }
    requires order { IsOrder count order.now }
    requires small { cost bounds.now order.now < 2 ^ 64 }
    ensures { IfOk result (λ levels. levels.items ≡ levels_of bounds.now order.now) }
{
    let mut levels = Vec::new(alloc);
    let mut placed = EntrySet::empty();
    for entry in order {
        placed = placed.with(*entry);
        levels.push(bounds[placed.bits() as usize] as u64)?;
    }
    Ok(levels)
}
