//! Finds the greatest consistent set of items, by counts and a worklist.
//!
//! In: the number of items, the number of slots, and uses. Each use belongs to an item; it gives one slot and needs another one. Out: the items that
//! stay. An item is removed if it needs a slot that no remaining item gives. This is repeated until nothing changes. In reduced_scans the items are
//! rows, and a slot is a value on one side of an equality.
//!
//! The contract is `IsGreatest`, which uses `IsConsistent`. Each item is removed at most once, and each slot is put on the worklist at most once. A
//! use is looked at once for its item and once for the slot that it needs. So the time is linear in items, slots and uses. All memory is taken before
//! the first item is removed.
#![tactic(auto)]

mod chains;
mod counts;
mod reduction;
mod uses;

pub use reduction::reduce;
pub use uses::Use;
