//! Sets of FROM entries, each as the bits of a number. An entry's number is its position in FROM, counted from 0, as a `u8`.
//!
//! In contracts `has_entry` is membership, `entries_of_set` lists a set's entries in FROM order, and `set_of` makes the set
//! of a list. `are_within` and `is_only_named` test the entries that a condition names.
#![tactic(auto)]

mod entry_set;
mod laws;

pub use entry_set::EntrySet;
pub use laws::{a_set_has_its_entries, examples};
