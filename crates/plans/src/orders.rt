//! Makes the join tree of an order, and reads an order from its tree.
ghost use Rattle.std.specs.Prelude.{◌≡◌, ℕ, ◌+◌, ◌≤◌, List, length, slice_index, IfOk};
ghost use Rattle.limits.specs.Profile.{most_entries};
ghost use Rattle.plans.specs.LeftDeep.{IsPlan};
ghost use Rattle.plans.specs.Orders.{cost_of as cost_of_tree, first_entry as first_of, joins_of_order, level_node as node_of_level, order_of_tree as order_of, tree_of_order as tree_of, IsOrderTree};

use crate::bushy::{BushyPlan, Join};
use crate::left_deep::Plan;
use base_io::{NoMemory, Seq};
use limits::MOST_ENTRIES;
use std::alloc::Global;

/// A placeholder for a join that isn't written yet.
pub const NO_JOIN: Join = Join {
    left: 0,
    right: 0,
    bound: 0,
};

/// The node of level `k` of an order of `n` entries that begins with `first`, for `k` from 1 on. For level 1 it is the leaf of `first`. For every
/// other level it is the inner node that joins the first `k` entries.
pub fn level_node(n: u8, first: u8, k: u8) -> u8
    requires level { 1 ≤ k }
    requires few { n + k ≤ 255 }
    ensures { (order : List ℕ) → slice_index order 0 ≡ first → result ≡ node_of_level n order k }
{
    if k == 1 { first } else { n + (k - 2) }
}

/// Overwrites `into` with the joins of an order of `n` entries, and the bounds of its levels. Each join has the join before it on the left side, and
/// the next entry of the order on the right side. The first join has the first entry on the left side. Level 1 is no join.
pub fn write_joins(n: u8, order: &[u8], levels: &[u64], into: &mut [Join])
    requires levels { length levels.now ≡ length order.now }
    requires few { n + length order.now ≤ 255 }
    requires room { length into.old + 1 ≡ length order.now }
    ensures { into.new ≡ joins_of_order n order.now levels.now }
{
    'levels: for k in 1..order.len() {
        let left = level_node(n, order[0], k as u8);
        into[k - 1] = Join {
            left,
            right: order[k],
            bound: levels[k],
        };
    }
}

// The greatest bound of the joins, or the bound of the scan if there is only one entry.
fn cost_of(scans: &[u64], joins: &[Join]) -> u64
    requires { 1 ≤ length scans.now }
    ensures { result ≡ cost_of_tree scans.now joins.now }
{
    if joins.len() == 0 {
        return scans[0];
    }
    let mut cost = 0;
    'joins: for join in joins {
        cost = join.bound.max(cost);
    }
    cost
}

/// The join tree of an order, with the bounds of the plan. The bound of level 1 is left out: for the first entry the tree has the bound of its scan.
pub fn tree_of_order(alloc: Global, plan: &Plan) -> Result<BushyPlan, NoMemory>
    requires plan { IsPlan (length plan.now.scans) plan.now }
    requires not_empty { 1 ≤ length plan.now.scans }
    requires few { length plan.now.scans ≤ most_entries }
    ensures { IfOk result (λ tree. tree ≡ tree_of plan.now) }
{
    let scans = plan.scans.as_slice();
    let mut joins = [NO_JOIN; MOST_ENTRIES];
    let joins = &mut joins[..scans.len() - 1];
    write_joins(
        scans.len() as u8,
        plan.order.as_slice(),
        plan.levels.as_slice(),
        joins,
    );
    Ok(BushyPlan {
        joins: Seq::from_vec(joins.to_vec(alloc)?),
        scans: Seq::from_vec(scans.to_vec(alloc)?),
        cost: cost_of(scans, joins),
    })
}

// The first entry of the order whose tree has these joins.
fn first_entry(joins: &[Join]) -> u8
    ensures { result ≡ first_of joins.now }
{
    if joins.len() == 0 { 0 } else { joins[0].left }
}

/// The entry at index `i` of the order whose tree this is.
pub fn entry_in_order(tree: &BushyPlan, i: usize) -> u8
    requires { i ≤ length tree.now.joins }
    ensures { result ≡ slice_index (order_of tree.now).order i }
{
    let joins = tree.joins.as_slice();
    if i > 0 {
        joins[i - 1].right
    } else {
        first_entry(joins)
    }
}

/// The bound of level `i + 1` of the order whose tree this is: of the first entry's scan for level 1, and else of a join.
pub fn level_bound(tree: &BushyPlan, i: usize) -> u64
    requires tree { IsOrderTree (length tree.now.scans) tree.now }
    requires level { i ≤ length tree.now.joins }
    ensures { result ≡ slice_index (order_of tree.now).levels i }
{
    let joins = tree.joins.as_slice();
    if i > 0 {
        joins[i - 1].bound
    } else {
        tree.scans.as_slice()[first_entry(joins) as usize]
    }
}
