//! The calls for bounds.
ghost use Rattle.std.specs.Prelude.{◌≡◌, ◌⊎◌, ◌^◌, ◌<◌, ◌≤◌, ℕ, List, length, slice_index};
ghost use Rattle.std.specs.List.{AllByRecursion};
ghost use Rattle.entry_sets.specs.Sets.{entries_of_set};
ghost use Rattle.join_graph.specs.Kept.{equalities_within};
ghost use Rattle.tree_bounds.specs.Tables.{ChoicesAreDifferent};
ghost use Rattle.safebound_lists.specs.Written.{RoomBeginsWith};
ghost use Rattle.safebound_bounds.specs.Causes.{IsBoundsCause, AreArgumentsValid, IsSetCause, IsWithinCause};
ghost use Rattle.safebound_bounds.specs.Meaning.{all_bounds, bound_in, edges_of, given_list, known_in, no_bound};
ghost use Rattle.safebound_bounds.specs.Values.{SatisfiesValues, ValuedTables, ValuesFit};
ghost use Rattle.safebound_bounds.specs.Work.{work_of};
ghost use Rattle.safebound_c.specs.Status.{TellsAnswer, ok_status};

use crate::status::answer_status;
use safebound_bounds::{ColumnList, Equality, bounds, bounds_within, set_bound};
use safebound_lists::Run;
use std::alloc::Global;

/// Writes the bounds of all sets of entries, in rows. The bound of a set is written at the index whose bits are the set's entries.
///
/// No bound is too low, if the row bounds and lists fit the tables. Rows may lack values. A choice has one row for each entry of a set. The choices
/// that satisfy the set's equalities are at most as many as the set's bound says, or the bound is 2^64 - 1.
#[unsafe(no_mangle)]
pub extern "C" fn safebound_bounds(
    alloc: Global,
    rows: &[u64],
    equalities: &[Equality],
    lists: &[ColumnList],
    runs: &[Run],
    into: &mut [u64],
    detail: &mut u64,
) -> u32
    ensures exact { TellsAnswer (RoomBeginsWith (all_bounds (known_in rows.now lists.now runs.now (edges_of equalities.now)) (edges_of equalities.now) (length rows.now)) into.old into.new)
        (IsBoundsCause rows.now equalities.now lists.now runs.now (length into.old)) into.old into.new detail.old result detail.new }
    ensures valid { result ≡ ok_status → AreArgumentsValid rows.now equalities.now lists.now runs.now }
    ensures never_under { result ≡ ok_status → (subset : ℕ) → subset < 2 ^ length rows.now
        → (tables : ValuedTables) → ValuesFit rows.now (given_list lists.now runs.now) tables (edges_of equalities.now) subset
        → (choices : List (ℕ → ℕ))
        → AllByRecursion (SatisfiesValues tables (entries_of_set subset) (equalities_within subset (edges_of equalities.now))) choices
        → ChoicesAreDifferent (entries_of_set subset) choices
        → (length choices ≤ slice_index into.new subset) ⊎ (slice_index into.new subset ≡ no_bound) }
{
    answer_status(bounds(alloc, rows, equalities, lists, runs, into), detail)
}

/// Writes the bounds of all sets of entries, if the work for them is within a limit.
#[unsafe(no_mangle)]
pub extern "C" fn safebound_bounds_within(
    alloc: Global,
    rows: &[u64],
    equalities: &[Equality],
    lists: &[ColumnList],
    runs: &[Run],
    limit: u64,
    into: &mut [u64],
    detail: &mut u64,
) -> u32
    ensures exact { TellsAnswer (RoomBeginsWith (all_bounds (known_in rows.now lists.now runs.now (edges_of equalities.now)) (edges_of equalities.now) (length rows.now)) into.old into.new)
        (IsWithinCause rows.now equalities.now lists.now runs.now limit (length into.old)) into.old into.new detail.old result detail.new }
    ensures valid { result ≡ ok_status → AreArgumentsValid rows.now equalities.now lists.now runs.now }
    ensures within { result ≡ ok_status → work_of lists.now (edges_of equalities.now) (length rows.now) ≤ limit }
    ensures never_under { result ≡ ok_status → (subset : ℕ) → subset < 2 ^ length rows.now
        → (tables : ValuedTables) → ValuesFit rows.now (given_list lists.now runs.now) tables (edges_of equalities.now) subset
        → (choices : List (ℕ → ℕ))
        → AllByRecursion (SatisfiesValues tables (entries_of_set subset) (equalities_within subset (edges_of equalities.now))) choices
        → ChoicesAreDifferent (entries_of_set subset) choices
        → (length choices ≤ slice_index into.new subset) ⊎ (slice_index into.new subset ≡ no_bound) }
{
    answer_status(
        bounds_within(alloc, rows, equalities, lists, runs, limit, into),
        detail,
    )
}

/// Writes to `detail` the bound of one set of entries, in rows. No other set is bounded.
#[unsafe(no_mangle)]
pub extern "C" fn safebound_set_bound(
    alloc: Global,
    rows: &[u64],
    equalities: &[Equality],
    lists: &[ColumnList],
    runs: &[Run],
    set: u64,
    detail: &mut u64,
) -> u32
    ensures exact { TellsAnswer (λ bound. bound ≡ bound_in (known_in rows.now lists.now runs.now (edges_of equalities.now)) (edges_of equalities.now) set)
        (IsSetCause rows.now equalities.now lists.now runs.now set) rows.now rows.now detail.old result detail.new }
    ensures valid { result ≡ ok_status → AreArgumentsValid rows.now equalities.now lists.now runs.now }
    ensures there { result ≡ ok_status → set < 2 ^ length rows.now }
    ensures never_under { result ≡ ok_status
        → (tables : ValuedTables) → ValuesFit rows.now (given_list lists.now runs.now) tables (edges_of equalities.now) set
        → (choices : List (ℕ → ℕ))
        → AllByRecursion (SatisfiesValues tables (entries_of_set set) (equalities_within set (edges_of equalities.now))) choices
        → ChoicesAreDifferent (entries_of_set set) choices
        → (length choices ≤ detail.new) ⊎ (detail.new ≡ no_bound) }
{
    answer_status(set_bound(alloc, rows, equalities, lists, runs, set), detail)
}
