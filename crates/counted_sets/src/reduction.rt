//! Removes items that need a slot with the count 0, until no such item is left.
ghost use Rattle.std.specs.Prelude.{◌≡◌, ◌^◌, ◌<◌, All, IfOk, false, length, slice_index, slice_set};
ghost use Rattle.counted_sets.specs.UseChains.{AreUseChains};
ghost use Rattle.counted_sets.specs.Counts.{NeedersAreUnmarked, Extends, CountsAreCorrect, IsSafe, item_at, need_at};
ghost use Rattle.counted_sets.specs.Sets.{IsGreatest, IsUseOf, marked};

use crate::chains::{UseChains, chained_by_item, chained_by_need};
use crate::counts::{count_all, lower_counts, slots_of_count_zero};
use crate::uses::Use;
use base_io::NoMemory;
use row_buf::RowBuf;
use std::alloc::Global;

// Removes an item: its mark is cleared, and the counts of the slots that it gives are lowered. An item without a mark was removed before.
fn remove(
    uses: &[Use],
    of_item: &UseChains,
    item: u32,
    marks: &mut RowBuf<bool>,
    counts: &mut RowBuf<u32>,
    work: &mut RowBuf<u32>,
)
    requires item { item < length marks.old.items }
    requires slots { All (λ u. u.gives < length counts.old.items) uses.now }
    requires chains { AreUseChains (item_at uses.now) (length marks.old.items) (length uses.now)
        of_item.now.lasts.items of_item.now.befores.items }
    requires counted { CountsAreCorrect (length marks.old.items) (length counts.old.items) uses.now marks.old.items counts.old.items work.old }
    ensures marks { marks.new.items ≡ slice_set marks.old.items item false }
    ensures counted { CountsAreCorrect (length marks.old.items) (length counts.old.items) uses.now marks.new.items counts.new.items work.new }
    ensures extends { Extends work.old.items work.new.items }
{
    if !marks.get(item) {
        return;
    }
    marks.set(item, false);
    lower_counts(uses, of_item, item, counts, work);
}

// Removes every item that needs `slot`, which no remaining item gives.
fn remove_needing(
    uses: &[Use],
    of_item: &UseChains,
    needing: &UseChains,
    slot: u32,
    marks: &mut RowBuf<bool>,
    counts: &mut RowBuf<u32>,
    work: &mut RowBuf<u32>,
)
    requires slot { slot < length counts.old.items }
    requires none { slice_index counts.old.items slot ≡ 0 }
    requires uses { All (IsUseOf (length marks.old.items) (length counts.old.items)) uses.now }
    requires items { AreUseChains (item_at uses.now) (length marks.old.items) (length uses.now)
        of_item.now.lasts.items of_item.now.befores.items }
    requires needs { AreUseChains (need_at uses.now) (length counts.old.items) (length uses.now)
        needing.now.lasts.items needing.now.befores.items }
    requires counted { CountsAreCorrect (length marks.old.items) (length counts.old.items) uses.now marks.old.items counts.old.items work.old }
    ensures gone { NeedersAreUnmarked uses.now slot marks.new.items }
    ensures safe { IsSafe (length marks.old.items) uses.now marks.old.items marks.new.items }
    ensures counted { CountsAreCorrect (length marks.old.items) (length counts.old.items) uses.now marks.new.items counts.new.items work.new }
    ensures extends { Extends work.old.items work.new.items }
{
    let mut at = needing.last(slot);
    'places: while at > 0 {
        let place = at - 1;
        remove(
            uses,
            of_item,
            uses[place as usize].item,
            marks,
            counts,
            work,
        );
        at = needing.before(place);
    }
}

/// Marks the items that stay. An item is removed if it needs a slot that no remaining item gives; this is repeated until nothing changes.
pub fn reduce(alloc: Global, items: u32, slots: u32, uses: &[Use]) -> Result<RowBuf<bool>, NoMemory>
    requires uses { All (IsUseOf items slots) uses.now }
    requires few { length uses.now < 2 ^ 32 }
    ensures length { IfOk result (λ marks. length marks.items ≡ items) }
    ensures greatest { IfOk result (λ marks. IsGreatest items uses.now (marked marks.items)) }
{
    let of_item = chained_by_item(alloc, items, uses)?;
    let needing = chained_by_need(alloc, slots, uses)?;
    let mut counts = count_all(alloc, slots, uses)?;
    let mut work = slots_of_count_zero(alloc, &counts)?;
    let mut marks = RowBuf::new(alloc);
    marks.reserve(items as u64)?;
    marks.fill(items as u64, true);
    let mut at = 0;
    'work: while (at as u64) < work.len() {
        let slot = work.get(at);
        remove_needing(
            uses,
            &of_item,
            &needing,
            slot,
            &mut marks,
            &mut counts,
            &mut work,
        );
        at += 1;
    }
    Ok(marks)
}
