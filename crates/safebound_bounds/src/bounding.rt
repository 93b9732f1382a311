//! Computes the bounds of all sets of entries, or the bound of one set.
ghost use Rattle.std.specs.Prelude.{◌≡◌, ◌⊎◌, ◌^◌, ◌<◌, ◌≤◌, ℕ, List, length, map, slice_index, IfErr, IfOk, OnErr, OnOk};
ghost use Rattle.std.specs.List.{AllByRecursion};
ghost use Rattle.entry_sets.specs.Sets.{entries_of_set};
ghost use Rattle.join_graph.specs.Kept.{equalities_within};
ghost use Rattle.tree_bounds.specs.Tables.{ChoicesAreDifferent};
ghost use Rattle.safebound_lists.specs.declared.refusal.Refusal.TheVariants as refusal;
ghost use Rattle.safebound_lists.specs.Written.{RoomBeginsWith};
ghost use Rattle.safebound_bounds.specs.Arguments.{list_at};
ghost use Rattle.set_bounds.specs.AllSets.{bounds_in_sets as told_in_sets};
ghost use Rattle.safebound_bounds.specs.Causes.{IsBoundsCause, AreArgumentsValid, IsSetCause, IsWithinCause};
ghost use Rattle.safebound_bounds.specs.InSets.{CoversRows, known_by};
ghost use Rattle.safebound_bounds.specs.Meaning.{all_bounds, bound_in, edges_of, given_list, known_in, in_64_bits, no_bound};
ghost use Rattle.safebound_bounds.specs.Values.{SatisfiesValues, ValuedTables, ValuesFit};
ghost use Rattle.safebound_bounds.specs.Work.{work_of};

use crate::arguments::{ColumnList, Equality};
use crate::checking::{
    first_invalid_equality, first_invalid_list, first_invalid_row_bound,
    first_invalid_run_of_lists, first_missing,
};
use crate::in_sets::{Given, cover_rows};
use crate::listing::{entry_lists, parts_of};
use crate::work::work;
use base_io::{NoMemory, Seq};
use entry_sets::EntrySet;
use join_graph::Parts;
use limits::{GREATEST_ENTRIES, MOST_CONJUNCTS};
use safebound_lists::{Refusal, Run};
use set_bounds::{EntryListsBySet, bounds_in_sets, bounds_of_sets};
use std::alloc::Global;

// Refuses the first invalid value.
fn check_values(
    rows: &[u64],
    equalities: &[Equality],
    lists: &[ColumnList],
    runs: &[Run],
) -> Result<(), Refusal>
    ensures valid { OnOk result (AreArgumentsValid rows.now equalities.now lists.now runs.now) }
    ensures wrong { (room : ℕ) → IfErr result (IsBoundsCause rows.now equalities.now lists.now runs.now room) }
{
    if rows.is_empty() || rows.len() > GREATEST_ENTRIES {
        return Err(Refusal::Entries {
            count: rows.len() as u64,
        });
    }
    if let Some(place) = first_invalid_row_bound(rows) {
        return Err(Refusal::Rows {
            place: place as u64,
        });
    }
    if equalities.len() > MOST_CONJUNCTS {
        return Err(Refusal::Equalities {
            count: equalities.len() as u64,
        });
    }
    if let Some(place) = first_invalid_equality(rows.len(), equalities) {
        return Err(Refusal::Equality {
            place: place as u64,
        });
    }
    if let Some(place) = first_invalid_list(rows.len(), runs.len(), lists) {
        return Err(Refusal::List {
            place: place as u64,
        });
    }
    if let Some(place) = first_invalid_run_of_lists(lists, runs) {
        return Err(Refusal::Run { place });
    }
    if let Some(place) = first_missing(lists, equalities) {
        return Err(Refusal::MissingList {
            place: place as u64,
        });
    }
    Ok(())
}

// The bounds of all sets, if every list counts at least as many rows as its entry's row bound. Then no row is left out for a missing value, so row
// bounds and lists are the same in every set.
fn bounds_if_lists_cover_rows(
    alloc: Global,
    parts: &Parts,
    given: &Given,
) -> Result<Seq<u128>, NoMemory>
    requires valid { AreArgumentsValid given.now.rows.now given.now.equalities.now given.now.lists.now given.now.runs.now }
    requires edges { parts.now.equalities ≡ edges_of given.now.equalities.now }
    requires full { (i : ℕ) → i < length given.now.lists.now → CoversRows given.now.rows.now given.now.runs.now (list_at given.now.lists.now i) }
    ensures { IfOk result (λ bounds. bounds ≡ told_in_sets (known_by given.now) parts.now.equalities (length given.now.rows.now)) }
{
    let entries = entry_lists(alloc, given.rows, given.lists, given.runs)?;
    bounds_of_sets(alloc, parts, &entries, given.rows.len() as u8)
}

// The bounds of all sets. Rows may lack values.
fn bounds_of_all_sets(alloc: Global, parts: &Parts, given: &Given) -> Result<Seq<u128>, NoMemory>
    requires valid { AreArgumentsValid given.now.rows.now given.now.equalities.now given.now.lists.now given.now.runs.now }
    requires edges { parts.now.equalities ≡ edges_of given.now.equalities.now }
    ensures { IfOk result (λ bounds. bounds ≡ told_in_sets (known_by given.now) parts.now.equalities (length given.now.rows.now)) }
{
    if cover_rows(given.rows, given.lists, given.runs) {
        return bounds_if_lists_cover_rows(alloc, parts, given);
    }
    bounds_in_sets(alloc, parts, given, given.rows.len() as u8)
}

fn in_64_bits(bound: u128) -> u64
    ensures { result ≡ in_64_bits bound }
{
    bound.min(u128::from(u64::MAX)) as u64
}

// Writes bounds as numbers of 64 bits.
fn write_bounds(bounds: &[u128], into: &mut [u64])
    requires { length bounds.now ≤ length into.old }
    ensures { RoomBeginsWith (map in_64_bits bounds.now) into.old into.new (length bounds.now) }
{
    for (set, bound) in bounds.iter().enumerate() {
        into[set] = in_64_bits(*bound);
    }
}

// Writes the bounds of all sets, from valid values.
fn write_all_bounds(
    alloc: Global,
    parts: &Parts,
    given: &Given,
    into: &mut [u64],
) -> Result<u64, Refusal>
    requires valid { AreArgumentsValid given.now.rows.now given.now.equalities.now given.now.lists.now given.now.runs.now }
    requires edges { parts.now.equalities ≡ edges_of given.now.equalities.now }
    requires room { 2 ^ length given.now.rows.now ≤ length into.old }
    ensures done { IfOk result (RoomBeginsWith (all_bounds (known_by given.now) (edges_of given.now.equalities.now) (length given.now.rows.now)) into.old into.new) }
    ensures refused { IfErr result (λ why. why ≡ refusal.NoMemory) }
    ensures kept { OnErr result (into.new ≡ into.old) }
{
    let bounds = bounds_of_all_sets(alloc, parts, given)?;
    write_bounds(bounds.as_slice(), into);
    Ok(bounds.len() as u64)
}

// Refuses invalid values, and a buffer that is too small for the bounds.
fn check_room(
    rows: &[u64],
    equalities: &[Equality],
    lists: &[ColumnList],
    runs: &[Run],
    room: usize,
) -> Result<(), Refusal>
    ensures valid { OnOk result (AreArgumentsValid rows.now equalities.now lists.now runs.now) }
    ensures room { OnOk result (2 ^ length rows.now ≤ room) }
    ensures refused { IfErr result (IsBoundsCause rows.now equalities.now lists.now runs.now room) }
{
    check_values(rows, equalities, lists, runs)?;
    let sets = 1usize << rows.len();
    if room < sets {
        return Err(Refusal::Room {
            needed: sets as u64,
        });
    }
    Ok(())
}

/// Writes the bounds of all sets of entries, in rows. The bound of a set is written at the index whose bits are the set's entries. The result
/// is how many bounds were written. A bound of 2^64 - 1 means 2^64 - 1 or more.
///
/// No bound is too low, if the row bounds and lists fit the tables. A choice has one row for each entry of a set. The choices that satisfy the set's
/// equalities are at most as many as the set's bound says (SafeBound, SIGMOD 2023; Degree Sequence Bound, ICDT 2023). Rows may lack values: a
/// comparison with a missing value isn't true (SQL-92, 8.2).
pub fn bounds(
    alloc: Global,
    rows: &[u64],
    equalities: &[Equality],
    lists: &[ColumnList],
    runs: &[Run],
    into: &mut [u64],
) -> Result<u64, Refusal>
    ensures done { IfOk result (RoomBeginsWith
        (all_bounds (known_in rows.now lists.now runs.now (edges_of equalities.now)) (edges_of equalities.now) (length rows.now)) into.old into.new) }
    ensures never_under { OnOk result ((subset : ℕ) → subset < 2 ^ length rows.now
        → (tables : ValuedTables) → ValuesFit rows.now (given_list lists.now runs.now) tables (edges_of equalities.now) subset
        → (choices : List (ℕ → ℕ))
        → AllByRecursion (SatisfiesValues tables (entries_of_set subset) (equalities_within subset (edges_of equalities.now))) choices
        → ChoicesAreDifferent (entries_of_set subset) choices
        → (length choices ≤ slice_index into.new subset) ⊎ (slice_index into.new subset ≡ no_bound)) }
    ensures valid { OnOk result (AreArgumentsValid rows.now equalities.now lists.now runs.now) }
    ensures refused { IfErr result (IsBoundsCause rows.now equalities.now lists.now runs.now (length into.old)) }
    ensures kept { OnErr result (into.new ≡ into.old) }
{
    check_room(rows, equalities, lists, runs, into.len())?;
    let parts = parts_of(alloc, equalities)?;
    let given = Given {
        rows,
        equalities,
        lists,
        runs,
    };
    write_all_bounds(alloc, &parts, &given, into)
}

// Refuses a call whose work is above the limit.
fn check_work(alloc: Global, parts: &Parts, given: &Given, limit: u64) -> Result<(), Refusal>
    requires valid { AreArgumentsValid given.now.rows.now given.now.equalities.now given.now.lists.now given.now.runs.now }
    requires edges { parts.now.equalities ≡ edges_of given.now.equalities.now }
    ensures within { OnOk result (work_of given.now.lists.now (edges_of given.now.equalities.now) (length given.now.rows.now) ≤ limit) }
    ensures refused { (room : ℕ) → 2 ^ length given.now.rows.now ≤ room
        → IfErr result (IsWithinCause given.now.rows.now given.now.equalities.now given.now.lists.now given.now.runs.now limit room) }
{
    let work = work(alloc, given.lists, parts, given.rows.len() as u8)?;
    if work > u128::from(limit) {
        return Err(Refusal::Work {
            needed: in_64_bits(work),
        });
    }
    Ok(())
}

/// Does what `bounds` does, if the work is within a limit. The work is counted first. If it is above the limit, no set is bounded.
pub fn bounds_within(
    alloc: Global,
    rows: &[u64],
    equalities: &[Equality],
    lists: &[ColumnList],
    runs: &[Run],
    limit: u64,
    into: &mut [u64],
) -> Result<u64, Refusal>
    ensures done { IfOk result (RoomBeginsWith
        (all_bounds (known_in rows.now lists.now runs.now (edges_of equalities.now)) (edges_of equalities.now) (length rows.now)) into.old into.new) }
    ensures never_under { OnOk result ((subset : ℕ) → subset < 2 ^ length rows.now
        → (tables : ValuedTables) → ValuesFit rows.now (given_list lists.now runs.now) tables (edges_of equalities.now) subset
        → (choices : List (ℕ → ℕ))
        → AllByRecursion (SatisfiesValues tables (entries_of_set subset) (equalities_within subset (edges_of equalities.now))) choices
        → ChoicesAreDifferent (entries_of_set subset) choices
        → (length choices ≤ slice_index into.new subset) ⊎ (slice_index into.new subset ≡ no_bound)) }
    ensures valid { OnOk result (AreArgumentsValid rows.now equalities.now lists.now runs.now) }
    ensures within { OnOk result (work_of lists.now (edges_of equalities.now) (length rows.now) ≤ limit) }
    ensures refused { IfErr result (IsWithinCause rows.now equalities.now lists.now runs.now limit (length into.old)) }
    ensures kept { OnErr result (into.new ≡ into.old) }
{
    check_room(rows, equalities, lists, runs, into.len())?;
    let parts = parts_of(alloc, equalities)?;
    let given = Given {
        rows,
        equalities,
        lists,
        runs,
    };
    check_work(alloc, &parts, &given, limit)?;
    write_all_bounds(alloc, &parts, &given, into)
}

/// The bound of one set of entries, in rows: the number that `bounds` writes for this set. No other set is bounded.
pub fn set_bound(
    alloc: Global,
    rows: &[u64],
    equalities: &[Equality],
    lists: &[ColumnList],
    runs: &[Run],
    set: u64,
) -> Result<u64, Refusal>
    ensures done { IfOk result (λ bound. bound ≡ bound_in (known_in rows.now lists.now runs.now (edges_of equalities.now)) (edges_of equalities.now) set) }
    ensures never_under { IfOk result (λ bound.
        (tables : ValuedTables) → ValuesFit rows.now (given_list lists.now runs.now) tables (edges_of equalities.now) set
        → (choices : List (ℕ → ℕ))
        → AllByRecursion (SatisfiesValues tables (entries_of_set set) (equalities_within set (edges_of equalities.now))) choices
        → ChoicesAreDifferent (entries_of_set set) choices
        → (length choices ≤ bound) ⊎ (bound ≡ no_bound)) }
    ensures valid { OnOk result (AreArgumentsValid rows.now equalities.now lists.now runs.now) }
    ensures there { OnOk result (set < 2 ^ length rows.now) }
    ensures refused { IfErr result (IsSetCause rows.now equalities.now lists.now runs.now set) }
{
    check_values(rows, equalities, lists, runs)?;
    if set >= 1u64 << rows.len() {
        return Err(Refusal::Set { given: set });
    }
    let parts = parts_of(alloc, equalities)?;
    let given = Given {
        rows,
        equalities,
        lists,
        runs,
    };
    let bound = given.folded(alloc, &parts, EntrySet::from_bits(set as u16), false)?;
    Ok(in_64_bits(bound))
}
