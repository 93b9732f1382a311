//! Links the uses of each item, or the uses that need each slot, from the last use back to the first.
ghost use Rattle.std.specs.Prelude.{◌≡◌, ◌+◌, ◌^◌, ◌<◌, ◌≤◌, All, IfOk, ℕ, length, slice_index};
ghost use Rattle.counted_sets.specs.UseChains.{AreUseChains};
ghost use Rattle.counted_sets.specs.Counts.{item_at, need_at};

use crate::uses::Use;
use base_io::NoMemory;
use row_buf::RowBuf;
use std::alloc::Global;

/// A key is an item or a slot. `lasts` has for each key the last use with this key. `befores` has for each use the use before it with the same key.
/// In both lists a use is given by its index, counted from 1, and 0 means no use. The chains take 4 bytes for each key and for each use.
#[derive(Drop)]
pub(crate) struct UseChains {
    lasts: RowBuf<u32>,
    befores: RowBuf<u32>,
}

impl UseChains {
    // Empty chains with room for `keys` keys and `places` uses.
    fn new(alloc: Global, keys: u32, places: u64) -> Result<UseChains, NoMemory>
        ensures chains { IfOk result (λ chains. (key_of : ℕ → ℕ) → AreUseChains key_of keys 0 chains.lasts.items chains.befores.items) }
        ensures spare { IfOk result (λ chains. chains.befores.spare ≡ places) }
    {
        let mut lasts = RowBuf::new(alloc);
        lasts.reserve(keys as u64)?;
        lasts.fill(keys as u64, 0);
        let mut befores = RowBuf::new(alloc);
        befores.reserve(places)?;
        Ok(UseChains { lasts, befores })
    }

    // Links one more use with this key.
    fn add(&mut self, key: u32)
        requires key { key < length self.old.lasts.items }
        requires room { 1 ≤ self.old.befores.spare }
        requires few { length self.old.befores.items + 1 < 2 ^ 32 }
        ensures chains { (key_of : ℕ → ℕ) → key_of (length self.old.befores.items) ≡ key
            → AreUseChains key_of (length self.old.lasts.items) (length self.old.befores.items) self.old.lasts.items self.old.befores.items
            → AreUseChains key_of (length self.old.lasts.items) (length self.old.befores.items + 1)
            self.new.lasts.items self.new.befores.items }
        ensures keys { length self.new.lasts.items ≡ length self.old.lasts.items }
        ensures places { length self.new.befores.items ≡ length self.old.befores.items + 1 }
        ensures spare { self.new.befores.spare + 1 ≡ self.old.befores.spare }
    {
        let before = self.lasts.get(key);
        self.befores.push(before);
        self.lasts.set(key, self.befores.len() as u32);
    }

    /// The index of the last use with the key, counted from 1, or 0 if there is no such use.
    pub(crate) fn last(&self, key: u32) -> u32
        requires { key < length self.now.lasts.items }
        ensures { result ≡ slice_index self.now.lasts.items key }
    {
        self.lasts.get(key)
    }

    /// The index of the last use before `place` with the same key, counted from 1, or 0 if there is no such use. `place` is counted from 0.
    pub(crate) fn before(&self, place: u32) -> u32
        requires { place < length self.now.befores.items }
        ensures { result ≡ slice_index self.now.befores.items place }
    {
        self.befores.get(place)
    }
}

/// Chains of the uses of each item.
pub(crate) fn chained_by_item(
    alloc: Global,
    items: u32,
    uses: &[Use],
) -> Result<UseChains, NoMemory>
    requires items { All (λ u. u.item < items) uses.now }
    requires few { length uses.now < 2 ^ 32 }
    ensures { IfOk result (λ chains. AreUseChains (item_at uses.now) items (length uses.now) chains.lasts.items chains.befores.items) }
{
    let mut chains = UseChains::new(alloc, items, uses.len() as u64)?;
    'uses: for k in 0..uses.len() {
        chains.add(uses[k].item);
    }
    Ok(chains)
}

/// Chains of the uses that need each slot.
pub(crate) fn chained_by_need(
    alloc: Global,
    slots: u32,
    uses: &[Use],
) -> Result<UseChains, NoMemory>
    requires slots { All (λ u. u.needs < slots) uses.now }
    requires few { length uses.now < 2 ^ 32 }
    ensures { IfOk result (λ chains. AreUseChains (need_at uses.now) slots (length uses.now) chains.lasts.items chains.befores.items) }
{
    let mut chains = UseChains::new(alloc, slots, uses.len() as u64)?;
    'uses: for k in 0..uses.len() {
        chains.add(uses[k].needs);
    }
    Ok(chains)
}
