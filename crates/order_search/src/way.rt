//! Reads the first of the lightest ways off the array of least weights, entry by entry. A way is an order of the entries that are still to be joined.
ghost use Rattle.std.specs.Prelude.{◌≡◌, ◌-◌, ◌^◌, ◌<◌, ◌≤◌, ◌↔◌, ℕ, length, slice_index, IfOk, IsTrue};
ghost use Rattle.limits.specs.Profile.{greatest_entries, top_bound};
ghost use Rattle.order_search.specs.Ways.{BeginsLightest, IsFirstLightest, HasLeastWeights};

use crate::table::weight_through;
use crate::weight::Weighing;
use base_io::NoMemory;
use entry_sets::EntrySet;
use std::alloc::Global;

fn begins_lightest(
    weight: Weighing,
    bounds: &[u128],
    table: &[u128],
    left: EntrySet,
    entry: u8,
) -> bool
    requires entry { entry < greatest_entries }
    requires left { left < length bounds.now }
    requires filled { length table.now ≡ length bounds.now }
    ensures { IsTrue result ↔ BeginsLightest weight bounds.now table.now (length bounds.now - 1) left entry }
{
    left.has(entry)
        && weight_through(weight, bounds, table, left, entry) == table[left.bits() as usize]
}

// The first entry with which a lightest way through the set `left` begins.
fn next_entry(weight: Weighing, count: u8, bounds: &[u128], table: &[u128], left: EntrySet) -> u8
    requires count { count ≤ greatest_entries }
    requires bounds { length bounds.now ≡ 2 ^ count }
    requires not_empty { 0 < left }
    requires left { left < length bounds.now }
    requires filled { length table.now ≡ length bounds.now }
    requires table { HasLeastWeights weight bounds.now (length bounds.now - 1) table.now (length bounds.now) }
    ensures within { result < count }
    ensures begins { BeginsLightest weight bounds.now table.now (length bounds.now - 1) left result }
    ensures first { (earlier : ℕ) → earlier < result → BeginsLightest weight bounds.now table.now (length bounds.now - 1) left earlier → ⊥ }
{
    let mut entry = 0;
    'entries: while !begins_lightest(weight, bounds, table, left, entry) {
        entry += 1;
    }
    entry
}

// The first of the lightest ways through all entries. The weight of the lightest ways must be below TOP_BOUND.
pub(crate) fn first_lightest(
    alloc: Global,
    most: u128,
    count: u8,
    bounds: &[u128],
    table: &[u128],
) -> Result<Vec<u8>, NoMemory>
    requires count { count ≤ greatest_entries }
    requires bounds { length bounds.now ≡ 2 ^ count }
    requires filled { length table.now ≡ length bounds.now }
    requires table { HasLeastWeights (Weighing.SumIfBoundsAtMost most) bounds.now (length bounds.now - 1) table.now (length bounds.now) }
    requires light { slice_index table.now (length bounds.now - 1) < top_bound }
    ensures { IfOk result
        (λ order. IsFirstLightest (Weighing.SumIfBoundsAtMost most) bounds.now (length bounds.now - 1) (length bounds.now - 1) order.items) }
{
    let mut order = Vec::new(alloc);
    let mut left = EntrySet::from_bits((bounds.len() - 1) as u16);
    while left.bits() > 0 {
        let entry = next_entry(
            Weighing::SumIfBoundsAtMost(most),
            count,
            bounds,
            table,
            left,
        );
        order.push(entry)?;
        left = left.without(entry);
    }
    Ok(order)
}
