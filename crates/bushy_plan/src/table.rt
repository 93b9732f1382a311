//! Finds the least weight of a tree over each set of entries. A set is the number whose bits are its entries. The loop goes through sets in the order
//! of their numbers. All subsets of a set have smaller numbers, so their weights are found earlier.
ghost use Rattle.std.specs.Prelude.{◌≡◌, ◌<◌, ◌≤◌, length, IfOk};
ghost use Rattle.bushy_plan.specs.Splits.{IsLeastWeight, HasLeastWeights, weight_through as weight_through_of};

use crate::splits::without_first;
use crate::weight::Weighing;
use base_io::NoMemory;
use std::alloc::Global;

// The least weight of the trees over `set` whose root has the entries of `right` on its right side, and the other entries on its left side.
pub(crate) fn weight_through(
    weight: Weighing,
    bounds: &[u128],
    table: &[u128],
    set: usize,
    right: usize,
) -> u128
    requires not_empty { 0 < right }
    requires part { right < set }
    requires set { set < length bounds.now }
    requires filled { set ≤ length table.now }
    ensures { result ≡ weight_through_of weight bounds.now table.now set right }
{
    weight.combined(bounds[set], table[set - right], table[right])
}

// The least weight of a tree over the set, from the weights of its subsets. The left side of the root has the set's first entry, so `right` goes down
// through all subsets of the other entries.
fn least_weight(weight: Weighing, bounds: &[u128], table: &[u128], set: usize) -> u128
    requires not_empty { 0 < set }
    requires set { set < length bounds.now }
    requires filled { length table.now ≡ set }
    requires table { HasLeastWeights weight bounds.now table.now set }
    ensures { IsLeastWeight weight bounds.now set result }
{
    let all_but_first = without_first(set);
    if all_but_first == 0 {
        return 0;
    }
    let mut least = u128::MAX;
    let mut right = all_but_first;
    'splits: while right > 0 {
        least = least.min(weight_through(weight, bounds, table, set, right));
        right = (right - 1) & all_but_first;
    }
    least
}

// The least weight for each set, at the set's number. The empty set, number 0, has the weight 0.
pub(crate) fn least_weights(
    alloc: Global,
    weight: Weighing,
    bounds: &[u128],
) -> Result<Vec<u128>, NoMemory>
    requires not_empty { 0 < length bounds.now }
    ensures filled { IfOk result (λ table. length table.items ≡ length bounds.now) }
    ensures table { IfOk result (λ table. HasLeastWeights weight bounds.now table.items (length bounds.now)) }
{
    let mut table = Vec::with_capacity(alloc, bounds.len())?;
    table.push(0)?;
    for set in 1..bounds.len() {
        table.push(least_weight(weight, bounds, table.as_slice(), set))?;
    }
    Ok(table)
}
