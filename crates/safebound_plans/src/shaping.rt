//! The best join tree.
ghost use Rattle.std.specs.Prelude.{◌≡◌, ◌≤◌, length, map, IfErr, IfOk, OnErr};
ghost use Rattle.safebound_lists.specs.Written.{RoomBeginsWith};
ghost use Rattle.safebound_plans.specs.Causes.{IsTreeCause};
ghost use Rattle.safebound_plans.specs.Trees.{IsBestTree, node_of as node_of_join};

use crate::widening::{bounds_in_128_bits, empty_scans, entry_count_of};
use bushy_plan::choose_bushy;
use limits::GREATEST_BUDGET;
use order_search::PlanError;
use plans::Join;
use safebound_lists::Refusal;
use std::alloc::Global;

/// A node of a join tree: the two nodes that it joins, and its bound in rows.
#[repr(C)]
#[derive(Clone, Copy, Debug, PartialEq, Eq)]
pub struct JoinNode {
    pub left: u64,
    pub right: u64,
    pub bound: u64,
}

fn node_of(join: Join) -> JoinNode
    ensures { result ≡ node_of_join join }
{
    JoinNode {
        left: u64::from(join.left),
        right: u64::from(join.right),
        bound: join.bound,
    }
}

// Writes joins as nodes.
fn write_joins(joins: &[Join], into: &mut [JoinNode])
    requires { length joins.now ≤ length into.old }
    ensures { RoomBeginsWith (map node_of_join joins.now) into.old into.new (length joins.now) }
{
    for (place, join) in joins.iter().enumerate() {
        into[place] = node_of(*join);
    }
}

/// Writes the joins of the best join tree by the bounds of all sets, and returns how many joins it wrote.
pub fn tree(
    alloc: Global,
    bounds: &[u64],
    budget: u64,
    into: &mut [JoinNode],
) -> Result<u64, Refusal>
    ensures done { IfOk result (IsBestTree bounds.now budget into.old into.new) }
    ensures refused { IfErr result (IsTreeCause bounds.now budget (length into.old)) }
    ensures kept { OnErr result (into.new ≡ into.old) }
{
    let Some(entries) = entry_count_of(bounds) else {
        return Err(Refusal::Bounds {
            count: bounds.len() as u64,
        });
    };
    if budget > GREATEST_BUDGET {
        return Err(Refusal::GivenBudget { given: budget });
    }
    if into.len() < entries as usize - 1 {
        return Err(Refusal::Room {
            needed: u64::from(entries - 1),
        });
    }
    let wide = bounds_in_128_bits(alloc, bounds)?;
    let scans = empty_scans(alloc, entries)?;
    match choose_bushy(alloc, &wide, &scans, budget) {
        Ok(plan) => {
            write_joins(plan.joins.as_slice(), into);
            Ok(plan.joins.len() as u64)
        }
        Err(PlanError::Budget { least }) => Err(Refusal::Budget {
            least: least as u64,
        }),
        Err(PlanError::PastBits) => Err(Refusal::PastBits),
        Err(PlanError::NoMemory) => Err(Refusal::NoMemory),
    }
}
