//! Makes the arguments of the searches from the caller's bounds of 64 bits: bounds of 128 bits, and a scan for each entry.
ghost use Rattle.std.specs.Prelude.{◌≡◌, ℕ, length, IfOk, MatchOption};
ghost use Rattle.safebound_plans.specs.Given.{HaveOneForEachSet};
ghost use Rattle.safebound_plans.specs.Bits.{all_in_128_bits, in_128_bits};

use base_io::{NoMemory, Seq};
use limits::{GREATEST_ENTRIES, TOP_BOUND};
use std::alloc::Global;

/// The number n of entries, from 1 to `GREATEST_ENTRIES`, if there are 2^n bounds: one for each set of entries.
pub(crate) fn entry_count_of(bounds: &[u64]) -> Option<u8>
    ensures { MatchOption result ((n : ℕ) → ¬ HaveOneForEachSet bounds.now n) (HaveOneForEachSet bounds.now) }
{
    for n in 1..GREATEST_ENTRIES as u8 + 1 {
        if bounds.len() == 1usize << n {
            return Some(n);
        }
    }
    None
}

// The bound with 128 bits. The greatest number of 64 bits means 2^64 - 1 or more, so it becomes the greatest of 128 bits.
fn in_128_bits(bound: u64) -> u128
    ensures { result ≡ in_128_bits bound }
{
    if bound == u64::MAX {
        TOP_BOUND
    } else {
        u128::from(bound)
    }
}

/// All bounds with 128 bits.
pub(crate) fn bounds_in_128_bits(alloc: Global, bounds: &[u64]) -> Result<Seq<u128>, NoMemory>
    ensures { IfOk result (λ wide. wide ≡ all_in_128_bits bounds.now) }
{
    let mut wide = Vec::with_capacity(alloc, bounds.len())?;
    for bound in bounds {
        wide.push(in_128_bits(*bound))?;
    }
    Ok(Seq::from_vec(wide))
}

/// A scan of no rows for each entry. A search looks only at how many scans there are.
pub(crate) fn empty_scans(alloc: Global, entries: u8) -> Result<Seq<u64>, NoMemory>
    ensures { IfOk result (λ scans. length scans ≡ entries) }
{
    let scans = vec![in alloc; 0u64; entries as usize]?;
    Ok(Seq::from_vec(scans))
}
