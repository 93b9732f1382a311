//! How many bytes buffers take. No function here allocates memory.
ghost use Rattle.std.specs.Prelude.{◌≡◌, ◌^◌, ◌<◌, ◌≤◌, length, sum};
ghost use Rattle.limits.specs.Profile.{most_entries};
ghost use Rattle.reserve_plan.specs.Memory.{lists_bytes, row_chain_bytes};

use link_index::Chains;
use row_buf::{BUFFER_BYTES, KEY_BYTES, ROW_NUMBER_BYTES};
use std::mem::size_of;

/// The bytes of one `Chains` in a list of them, without its buffers.
pub const CHAINS_BYTES: usize = size_of::<Chains>();

/// The sum of at most twelve numbers.
pub fn total(numbers: &[u64]) -> u128
    requires few { length numbers.now ≤ most_entries }
    ensures value { result ≡ sum numbers.now }
    ensures small { result < 2 ^ 68 }
{
    let mut total: u128 = 0;
    for number in numbers {
        total += u128::from(*number);
    }
    total
}

/// The bytes of the hash chains of this many rows.
pub fn row_chain_bytes(rows: u64) -> u128
    ensures value { result ≡ row_chain_bytes rows }
    ensures small { result < 2 ^ 69 }
{
    let rows = u128::from(rows);
    let buckets = rows.max(1);
    KEY_BYTES as u128 * rows + ROW_NUMBER_BYTES as u128 * rows + ROW_NUMBER_BYTES as u128 * buckets
}

/// The bytes of a list of buffers of row numbers, with room for these numbers of rows.
pub fn lists_memory(sizes: &[u64]) -> u128
    requires few { length sizes.now ≤ most_entries }
    ensures value { result ≡ lists_bytes sizes.now }
    ensures small { result < 2 ^ 72 }
{
    BUFFER_BYTES as u128 * sizes.len() as u128 + ROW_NUMBER_BYTES as u128 * total(sizes)
}
