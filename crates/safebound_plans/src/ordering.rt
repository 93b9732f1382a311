//! The best left-deep order.
ghost use Rattle.std.specs.Prelude.{◌≡◌, ◌≤◌, length, IfErr, IfOk, OnErr};
ghost use Rattle.plans.specs.LeftDeep.{IsPlan};
ghost use Rattle.safebound_plans.specs.Causes.{IsOrderCause};
ghost use Rattle.safebound_plans.specs.Orders.{AreLevels, IsBestOrder};

use crate::widening::{bounds_in_128_bits, empty_scans, entry_count_of};
use limits::GREATEST_BUDGET;
use order_search::{PlanError, choose};
use plans::Plan;
use safebound_lists::Refusal;
use std::alloc::Global;

/// One level of an order: the entry that is joined there, and the bound of all entries up to it, in rows.
#[repr(C)]
#[derive(Clone, Copy, Debug, PartialEq, Eq)]
pub struct Level {
    pub entry: u64,
    pub bound: u64,
}

// Writes the levels of a plan.
fn write_levels(plan: &Plan, into: &mut [Level])
    requires plan { IsPlan (length plan.now.order) plan.now }
    requires room { length plan.now.order ≤ length into.old }
    ensures { AreLevels plan.now.order plan.now.levels into.old into.new }
{
    let order = plan.order.as_slice();
    let levels = plan.levels.as_slice();
    for place in 0..order.len() {
        into[place] = Level {
            entry: u64::from(order[place]),
            bound: levels[place],
        };
    }
}

/// Writes the levels of the best left-deep order by the bounds of all sets, and returns how many levels it wrote.
pub fn order(alloc: Global, bounds: &[u64], budget: u64, into: &mut [Level]) -> Result<u64, Refusal>
    ensures done { IfOk result (IsBestOrder bounds.now budget into.old into.new) }
    ensures refused { IfErr result (IsOrderCause bounds.now budget (length into.old)) }
    ensures kept { OnErr result (into.new ≡ into.old) }
{
    let Some(entries) = entry_count_of(bounds) else {
        return Err(Refusal::Bounds {
            count: bounds.len() as u64,
        });
    };
    if budget > GREATEST_BUDGET {
        return Err(Refusal::GivenBudget { given: budget });
    }
    if into.len() < entries as usize {
        return Err(Refusal::Room {
            needed: u64::from(entries),
        });
    }
    let wide = bounds_in_128_bits(alloc, bounds)?;
    let scans = empty_scans(alloc, entries)?;
    match choose(alloc, &wide, &scans, budget) {
        Ok(plan) => {
            write_levels(&plan, into);
            Ok(u64::from(entries))
        }
        Err(PlanError::Budget { least }) => Err(Refusal::Budget {
            least: least as u64,
        }),
        Err(PlanError::PastBits) => Err(Refusal::PastBits),
        Err(PlanError::NoMemory) => Err(Refusal::NoMemory),
    }
}
