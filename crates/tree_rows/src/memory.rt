//! How many bytes a join tree takes. No memory is reserved here.
ghost use Rattle.std.specs.Prelude.{◌≡◌, ℕ, ◌+◌, ◌*◌, ◌^◌, ◌<◌, ◌≤◌, length, map, sum};
ghost use Rattle.std.specs.List.{AllByRecursion};
ghost use Rattle.limits.specs.Profile.{most_entries, most_memory};
ghost use Rattle.reserve_plan.specs.Memory.{row_chain_bytes};
ghost use Rattle.plans.specs.declared.bushy.BushyPlan.{BushyPlan};
ghost use Rattle.plans.specs.Orders.{joins_of_order};
ghost use Rattle.plans.specs.TreePlans.{IsTreePlan};
ghost use Rattle.tree_rows.specs.Memory.{joins_bytes, tree_bytes};
ghost use Rattle.tree_rows.specs.Rooms.{right_bounds_in, BoundsFitBuffers};

use crate::inner::{INNER_NODE_BYTES, PAIR_BYTES};
use crate::leaves::LEAVES_BYTES;
use crate::reserving::{bound_at, greatest_right_bound};
use limits::MOST_ENTRIES;
use plans::{BushyPlan, Join, NO_JOIN, write_joins};
use reserve_plan::{CHAINS_BYTES, lists_memory, row_chain_bytes};
use row_buf::{KEY_BYTES, ROW_NUMBER_BYTES};

// The sum of the bounds of all joins.
fn pairs_total(joins: &[Join]) -> u128
    requires few { length joins.now ≤ most_entries }
    ensures value { result ≡ sum (map (λ join. join.bound) joins.now) }
    ensures small { result < 2 ^ 68 }
{
    let mut total: u128 = 0;
    'joins: for join in joins {
        total += u128::from(join.bound);
    }
    total
}

// The bytes of the chains for the right nodes of all joins. Chains find the rows of a node by their keys.
fn chains_total(scans: &[u64], joins: &[Join]) -> u128
    requires few { length joins.now ≤ most_entries }
    requires nodes { AllByRecursion (λ join. join.right < length scans.now + length joins.now) joins.now }
    ensures value { result ≡ sum (map row_chain_bytes (right_bounds_in scans.now joins.now joins.now)) }
    ensures small { result < 2 ^ 73 }
{
    let mut total: u128 = 0;
    'joins: for join in joins {
        total += row_chain_bytes(bound_at(scans, joins, join.right));
    }
    total
}

/// The bytes of the entries' lists and of the buffers for the joins. `row_buffers` takes the bytes of the lists: one list for each entry, with these
/// sizes. `reserve_bushy` takes the bytes of the buffers. The nodes that the joins name have to exist.
pub fn joins_memory(scans: &[u64], joins: &[Join]) -> u128
    requires few { (length scans.now ≤ most_entries) × (length joins.now ≤ most_entries) }
    requires nodes { AllByRecursion (λ join. join.right < length scans.now + length joins.now) joins.now }
    ensures value { result ≡ joins_bytes scans.now joins.now }
    ensures small { result < 2 ^ 80 }
{
    let inners = INNER_NODE_BYTES as u128 * joins.len() as u128
        + PAIR_BYTES as u128 * pairs_total(joins);
    let chains = CHAINS_BYTES as u128 * joins.len() as u128 + chains_total(scans, joins);
    let row = ROW_NUMBER_BYTES as u128 * scans.len() as u128;
    let keys = KEY_BYTES as u128 * u128::from(greatest_right_bound(scans, joins));
    let leaves = LEAVES_BYTES as u128 * (scans.len() as u128 + joins.len() as u128);
    lists_memory(scans) + inners + chains + row + keys + leaves
}

/// The bytes of a plan.
pub fn tree_memory(plan: &BushyPlan) -> u128
    requires { IsTreePlan (length plan.now.scans) plan.now }
    ensures value { result ≡ tree_bytes plan.now }
    ensures small { result < 2 ^ 80 }
{
    joins_memory(plan.scans.as_slice(), plan.joins.as_slice())
}

/// The bytes of an order, which are those of its join tree. `scans` has the bounds of the entries' scans, and `levels` those of the order's levels.
pub fn order_memory(order: &[u8], scans: &[u64], levels: &[u64]) -> u128
    requires some { 1 ≤ length order.now }
    requires few { length scans.now ≤ most_entries }
    requires all { length order.now ≡ length scans.now }
    requires levels { length levels.now ≡ length order.now }
    requires entries { AllByRecursion (λ entry. entry < length scans.now) order.now }
    ensures value { result ≡ joins_bytes scans.now (joins_of_order (length scans.now) order.now levels.now) }
    ensures small { result < 2 ^ 80 }
{
    let mut joins = [NO_JOIN; MOST_ENTRIES];
    let joins = &mut joins[..order.len() - 1];
    write_joins(scans.len() as u8, order, levels, joins);
    joins_memory(scans, joins)
}

/// A plan whose bounds fit its buffers takes fewer bytes than `most_memory`. The function does nothing.
pub fn trees_fit_memory()
    ensures { (n : ℕ) (plan : BushyPlan) → IsTreePlan n plan → BoundsFitBuffers plan → tree_bytes plan < most_memory }
{}
