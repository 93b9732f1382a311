//! Fills an array with the least weight for each set of entries that are still to be joined. weight.rt defines weights. The subsets of a set have
//! smaller numbers than the set, so their weights are found earlier.
ghost use Rattle.std.specs.Prelude.{◌≡◌, ◌-◌, ◌^◌, ◌<◌, ◌≤◌, length, IfOk};
ghost use Rattle.std.specs.Int.{bit_at};
ghost use Rattle.limits.specs.Profile.{greatest_entries};
ghost use Rattle.order_search.specs.Ways.{IsLeastWeight, HasLeastWeights, weight_through as weight_through_of};

use crate::weight::Weighing;
use base_io::NoMemory;
use entry_sets::EntrySet;
use std::alloc::Global;

// The weight of the lightest way through the set `left` that begins with this entry.
#[tactic(auto, using(entry_sets::proofs::Bits::set_without_is_less))]
pub(crate) fn weight_through(
    weight: Weighing,
    bounds: &[u128],
    table: &[u128],
    left: EntrySet,
    entry: u8,
) -> u128
    requires entry { entry < greatest_entries }
    requires has { bit_at left entry ≡ 1 }
    requires left { left < length bounds.now }
    requires table { left ≤ length table.now }
    ensures { result ≡ weight_through_of weight bounds.now table.now (length bounds.now - 1) left entry }
{
    let rest = left.without(entry).bits() as usize;
    weight.combined(bounds[bounds.len() - 1 - rest], table[rest])
}

// The least weight of a way through the set `left`, from the weights of the sets with smaller numbers.
fn least_weight(
    weight: Weighing,
    count: u8,
    bounds: &[u128],
    table: &[u128],
    left: EntrySet,
) -> u128
    requires count { count ≤ greatest_entries }
    requires bounds { length bounds.now ≡ 2 ^ count }
    requires left { left < length bounds.now }
    requires filled { length table.now ≡ left }
    requires table { HasLeastWeights weight bounds.now (length bounds.now - 1) table.now left }
    ensures { IsLeastWeight weight bounds.now (length bounds.now - 1) left result }
{
    if left.bits() == 0 {
        return 0;
    }
    let mut least = u128::MAX;
    for entry in 0..count {
        if left.has(entry) {
            least = least.min(weight_through(weight, bounds, table, left, entry));
        }
    }
    least
}

// The least weight of each set, at the index that is the set's number.
pub(crate) fn least_weights(
    alloc: Global,
    weight: Weighing,
    count: u8,
    bounds: &[u128],
) -> Result<Vec<u128>, NoMemory>
    requires count { count ≤ greatest_entries }
    requires bounds { length bounds.now ≡ 2 ^ count }
    ensures filled { IfOk result (λ table. length table.items ≡ 2 ^ count) }
    ensures table { IfOk result (λ table. HasLeastWeights weight bounds.now (length bounds.now - 1) table.items (2 ^ count)) }
{
    let mut table = Vec::with_capacity(alloc, bounds.len())?;
    for bits in 0..bounds.len() {
        let left = EntrySet::from_bits(bits as u16);
        table.push(least_weight(weight, count, bounds, table.as_slice(), left))?;
    }
    Ok(table)
}
