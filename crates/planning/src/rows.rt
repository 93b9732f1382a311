//! Makes row bounds of entries: the numbers of rows in their lists.
ghost use Rattle.std.specs.Prelude.{◌≡◌, ◌≤◌, ℕ, IfOk, None, length};
ghost use Rattle.limits.specs.Profile.{most_entries, most_rows};
ghost use Rattle.bound_fold.specs.Lists.{list_of as list_known};
ghost use Rattle.join_steps.specs.Lists.{list_at, lists_of};
ghost use Rattle.planning.specs.ListsSoFar.{HasRows};

use base_io::NoMemory;
use bound_fold::EntryLists;
use row_buf::RowBuf;
use std::alloc::Global;

/// The number of rows in each entry's list, as its row bound. No column has a degree sequence yet.
pub(crate) fn row_bounds(alloc: Global, lists: &[RowBuf<u32>]) -> Result<EntryLists, NoMemory>
    requires few { length lists.now ≤ most_entries }
    requires sizes { (entry : ℕ) → length (list_at (lists_of lists.now) entry) ≤ most_rows }
    ensures rows { IfOk result (HasRows (lists_of lists.now) (length lists.now)) }
    ensures no_lists { IfOk result (λ known. (entry column : ℕ) → list_known known entry column ≡ None) }
{
    let mut known = EntryLists::new(alloc);
    'lists: for entry in 0..lists.len() {
        known.set_rows(entry as u8, lists[entry].len())?;
    }
    Ok(known)
}
