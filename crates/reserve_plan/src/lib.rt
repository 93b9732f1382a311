//! Reserves the memory of buffers, and computes beforehand how many bytes they take.
//!
//! In: the greatest number of rows of each list, which is a bound of a plan. Out: empty buffers with room for that many rows. `row_buffers` makes a
//! list of buffers of row numbers, one for each entry, and `empty_chains` makes a hash table by which a join finds rows. Filling them allocates
//! nothing.
//!
//! Contracts use `IsRoomFor` and `IsRoomForKeys` for empty buffers that have room for some rows. `lists_bytes` computes a list's bytes from its
//! numbers of rows, and `buffers_bytes` from its capacities.
#![tactic(auto)]

ghost use Rattle.std.specs.Prelude.{◌≡◌};
ghost use Rattle.reserve_plan.specs.Examples.{six_and_five_rows, six_and_no_keys};

mod memory;
mod reserving;

pub use memory::{CHAINS_BYTES, lists_memory, row_chain_bytes, total};
pub use reserving::{empty_chains, row_buffers};

/// The bytes of small lists of buffers. The call does nothing.
///
/// Lists of 6 and 5 rows take 44 bytes for the rows and 64 for the list of buffers. Chains of 6 rows take 96 bytes, chains of no rows take 4, and
/// the list of both chains takes 192.
pub fn examples()
    ensures rows { six_and_five_rows ≡ 108 }
    ensures keys { six_and_no_keys ≡ 292 }
{}
