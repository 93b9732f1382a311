//! Counts how many uses give each slot, and lists the slots whose count is 0. A use belongs to an item; it gives one slot and needs another one.
ghost use Rattle.std.specs.Prelude.{◌≡◌, ◌==◌, ◌+◌, ◌-◌, ◌^◌, ◌<◌, ◌≤◌, ℕ, All, IfOk, length, slice_index, slice_set, true};
ghost use Rattle.counted_sets.specs.UseChains.{AreUseChains};
ghost use Rattle.counted_sets.specs.Counts.{Extends, IsWorkOf, item_at, giver_count};

use crate::chains::UseChains;
use crate::uses::Use;
use base_io::NoMemory;
use row_buf::RowBuf;
use std::alloc::Global;

/// The number of uses that give each slot.
pub(crate) fn count_all(alloc: Global, slots: u32, uses: &[Use]) -> Result<RowBuf<u32>, NoMemory>
    requires slots { All (λ u. u.gives < slots) uses.now }
    requires few { length uses.now < 2 ^ 32 }
    ensures length { IfOk result (λ counts. length counts.items ≡ slots) }
    ensures counts { IfOk result (λ counts. (slot : ℕ) → slot < slots
        → slice_index counts.items slot ≡ giver_count (λ item. true) uses.now slot (length uses.now)) }
{
    let mut counts = RowBuf::new(alloc);
    counts.reserve(slots as u64)?;
    counts.fill(slots as u64, 0);
    'uses: for k in 0..uses.len() {
        let slot = uses[k].gives;
        let count = counts.get(slot) + 1;
        counts.set(slot, count);
    }
    Ok(counts)
}

/// Lists the slots whose count is 0. The list has room for all other slots.
pub(crate) fn slots_of_count_zero(
    alloc: Global,
    counts: &RowBuf<u32>,
) -> Result<RowBuf<u32>, NoMemory>
    requires few { length counts.now.items < 2 ^ 32 }
    ensures { IfOk result (λ work. IsWorkOf counts.now.items work) }
{
    let mut work = RowBuf::new(alloc);
    work.reserve(counts.len())?;
    'slots: for slot in 0..counts.len() as u32 {
        let count = counts.get(slot);
        if count == 0 {
            work.push(slot);
        }
    }
    Ok(work)
}

// Lowers the count of a slot by one, and appends the slot to `work` if its count is now 0.
fn lower_count(slot: u32, counts: &mut RowBuf<u32>, work: &mut RowBuf<u32>)
    requires within { slot < length counts.old.items }
    requires some { 0 < slice_index counts.old.items slot }
    requires listed { IsWorkOf counts.old.items work.old }
    ensures counts { counts.new.items ≡ slice_set counts.old.items slot (slice_index counts.old.items slot - 1) }
    ensures listed { IsWorkOf counts.new.items work.new }
    ensures extends { Extends work.old.items work.new.items }
{
    let left = counts.get(slot) - 1;
    counts.set(slot, left);
    if left == 0 {
        work.push(slot);
    }
}

/// For each use of the item, lowers the count of the slot that the use gives by one.
pub(crate) fn lower_counts(
    uses: &[Use],
    of_item: &UseChains,
    item: u32,
    counts: &mut RowBuf<u32>,
    work: &mut RowBuf<u32>,
)
    requires item { item < length of_item.now.lasts.items }
    requires chains { AreUseChains (item_at uses.now) (length of_item.now.lasts.items) (length uses.now)
        of_item.now.lasts.items of_item.now.befores.items }
    requires slots { All (λ u. u.gives < length counts.old.items) uses.now }
    requires enough { (slot : ℕ) → slot < length counts.old.items
        → giver_count (λ i. i == item) uses.now slot (length uses.now) ≤ slice_index counts.old.items slot }
    requires listed { IsWorkOf counts.old.items work.old }
    ensures length { length counts.new.items ≡ length counts.old.items }
    ensures counts { (slot : ℕ) → slot < length counts.old.items
        → slice_index counts.new.items slot + giver_count (λ i. i == item) uses.now slot (length uses.now) ≡ slice_index counts.old.items slot }
    ensures listed { IsWorkOf counts.new.items work.new }
    ensures extends { Extends work.old.items work.new.items }
{
    let mut at = of_item.last(item);
    'places: while at > 0 {
        let place = at - 1;
        lower_count(uses[place as usize].gives, counts, work);
        at = of_item.before(place);
    }
}
