//! The bounds of scans.
ghost use Rattle.std.specs.Prelude.{◌≡◌, IfOk, map};
ghost use Rattle.std.specs.List.{range_with_len};
ghost use Rattle.bound_fold.specs.Lists.{bounds_of};

use base_io::{NoMemory, Seq};
use bound_fold::EntryLists;
use std::alloc::Global;

/// The row bound of each of the first `count` entries, in FROM order. An entry's scan has at most as many rows as its row bound (SafeBound, SIGMOD
/// 2023). A row bound that wasn't set is 0.
pub fn scans_of(alloc: Global, lists: &EntryLists, count: u8) -> Result<Seq<u64>, NoMemory>
    ensures { IfOk result (λ scans. scans ≡ map (bounds_of lists.now).rows (range_with_len 0 count)) }
{
    let mut scans = Seq::new(alloc);
    'entries: for entry in 0..count {
        let rows = lists.rows(entry).unwrap_or(0);
        scans.push(rows)?;
    }
    Ok(scans)
}
