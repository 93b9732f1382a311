//! Reads the joins of the first of the lightest trees off the array of least weights, from the root down.
ghost use Rattle.std.specs.Prelude.{◌≡◌, ◌+◌, ◌<◌, ◌≤◌, length, slice_index, IfOk};
ghost use Rattle.limits.specs.Profile.{greatest_budget, greatest_entries, top_bound};
ghost use Rattle.bushy_plan.specs.PlanTrees.{IsTreeOver, PlanTree, inner_count};
ghost use Rattle.bushy_plan.specs.Splits.{IsWithoutFirst, IsFirstLightestSplit, AppendsFirstLightest, HasLeastWeights};

use crate::splits::{first_entry, without_first};
use crate::table::weight_through;
use crate::weight::Weighing;
use base_io::NoMemory;
use plans::Join;

// The right set of a lightest split of `set`. Among the lightest splits, the one whose left set has the least number is taken. `all_but_first` has
// the entries of `set` except its first entry.
fn first_right(
    weight: Weighing,
    bounds: &[u128],
    table: &[u128],
    set: usize,
    all_but_first: usize,
) -> usize
    requires not_empty { 0 < set }
    requires more { 0 < all_but_first }
    requires set { set < length bounds.now }
    requires filled { length table.now ≡ length bounds.now }
    requires table { HasLeastWeights weight bounds.now table.now (length bounds.now) }
    requires all_but_first { IsWithoutFirst set all_but_first }
    ensures { IsFirstLightestSplit weight bounds.now table.now set result }
{
    let mut right = all_but_first;
    'splits: while weight_through(weight, bounds, table, set, right) != table[set] {
        right = (right - 1) & all_but_first;
    }
    right
}

// Appends the joins of the first of the lightest trees over the set, and returns the number of this tree's root. The recursion is as deep as the
// tree, which has at most `greatest_entries` leaves.
pub(crate) fn push_joins(
    most: u128,
    count: u8,
    bounds: &[u128],
    table: &[u128],
    set: usize,
    joins: &mut Vec<Join>,
) -> Result<u8, NoMemory>
    requires count { count ≤ greatest_entries }
    requires small { most ≤ greatest_budget }
    requires not_empty { 0 < set }
    requires set { set < length bounds.now }
    requires filled { length table.now ≡ length bounds.now }
    requires table { HasLeastWeights (Weighing.SumIfBoundsAtMost most) bounds.now table.now (length bounds.now) }
    requires light { slice_index table.now set < top_bound }
    requires numbers { (tree : PlanTree) → IsTreeOver set tree → length joins.old.items + inner_count tree < greatest_entries }
    ensures { IfOk result (λ root. AppendsFirstLightest (Weighing.SumIfBoundsAtMost most) bounds.now count set joins.old.items joins.new.items root) }
{
    let all_but_first = without_first(set);
    if all_but_first == 0 {
        return Ok(first_entry(set));
    }
    let right_set = first_right(
        Weighing::SumIfBoundsAtMost(most),
        bounds,
        table,
        set,
        all_but_first,
    );
    let left = push_joins(most, count, bounds, table, set - right_set, joins)?;
    let right = push_joins(most, count, bounds, table, right_set, joins)?;
    let number = count + joins.len() as u8;
    joins.push(Join {
        left,
        right,
        bound: bounds[set] as u64,
    })?;
    Ok(number)
}
