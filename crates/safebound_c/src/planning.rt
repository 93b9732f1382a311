//! The calls for plans.
ghost use Rattle.std.specs.Prelude.{length};
ghost use Rattle.safebound_plans.specs.Causes.{IsOrderCause, IsTreeCause};
ghost use Rattle.safebound_plans.specs.Memory.{IsOrderMemory, IsOrderMemoryCause, IsTreeMemory, IsTreeMemoryCause};
ghost use Rattle.safebound_plans.specs.Orders.{IsBestOrder};
ghost use Rattle.safebound_plans.specs.Trees.{IsBestTree};
ghost use Rattle.safebound_c.specs.Status.{TellsAnswer};

use crate::status::answer_status;
use safebound_plans::{JoinNode, Level, order, order_memory, tree, tree_memory};
use std::alloc::Global;

/// Writes the levels of the best left-deep order by the bounds of all sets.
#[unsafe(no_mangle)]
pub extern "C" fn safebound_order(
    alloc: Global,
    bounds: &[u64],
    budget: u64,
    into: &mut [Level],
    detail: &mut u64,
) -> u32
    ensures exact { TellsAnswer (IsBestOrder bounds.now budget into.old into.new) (IsOrderCause bounds.now budget (length into.old))
        into.old into.new detail.old result detail.new }
{
    answer_status(order(alloc, bounds, budget, into), detail)
}

/// Writes the joins of the best join tree by the bounds of all sets.
#[unsafe(no_mangle)]
pub extern "C" fn safebound_tree(
    alloc: Global,
    bounds: &[u64],
    budget: u64,
    into: &mut [JoinNode],
    detail: &mut u64,
) -> u32
    ensures exact { TellsAnswer (IsBestTree bounds.now budget into.old into.new) (IsTreeCause bounds.now budget (length into.old))
        into.old into.new detail.old result detail.new }
{
    answer_status(tree(alloc, bounds, budget, into), detail)
}

/// How many bytes the buffers of this project's engine take for an order. The buffers are for each entry's list of rows, for the levels, and for
/// the chains (hash tables of rows).
#[unsafe(no_mangle)]
pub extern "C" fn safebound_memory(rows: &[u64], levels: &[Level], detail: &mut u64) -> u32
    ensures exact { TellsAnswer (IsOrderMemory rows.now levels.now) (IsOrderMemoryCause rows.now levels.now)
        levels.now levels.now detail.old result detail.new }
{
    answer_status(order_memory(rows, levels), detail)
}

/// How many bytes the buffers of this project's engine take for a join tree.
#[unsafe(no_mangle)]
pub extern "C" fn safebound_tree_memory(rows: &[u64], joins: &[JoinNode], detail: &mut u64) -> u32
    ensures exact { TellsAnswer (IsTreeMemory rows.now joins.now) (IsTreeMemoryCause rows.now joins.now)
        joins.now joins.now detail.old result detail.new }
{
    answer_status(tree_memory(rows, joins), detail)
}
