//! Finds the first invalid value that a caller handed in. No function here allocates memory.
ghost use Rattle.std.specs.Prelude.{◌≡◌, ◌<◌, ◌↔◌, ℕ, find, length, IsTrue, MatchOption};
ghost use Rattle.std.specs.List.{list_any};
ghost use Rattle.safebound_lists.specs.First.{IsFirstWrong};
ghost use Rattle.safebound_bounds.specs.Arguments.{ColumnsHaveLists, AreRunsValidAt, RunsExist, IsEqualityValid, IsListValid, IsListValidAt, IsRowBoundValidAt, IsWrongRun, equality_at, is_list_of_column, list_at, runs_of};

use crate::arguments::{ColumnList, Equality, NO_VALUES};
use berge_tree::Place;
use limits::GREATEST_ROWS;
use safebound_lists::{Run, first_invalid_run};

pub(crate) fn first_invalid_row_bound(rows: &[u64]) -> Option<usize>
    ensures { MatchOption result ((i : ℕ) → i < length rows.now → IsRowBoundValidAt rows.now i)
        (IsFirstWrong (IsRowBoundValidAt rows.now) (length rows.now)) }
{
    for (place, most) in rows.iter().enumerate() {
        if *most > GREATEST_ROWS {
            return Some(place);
        }
    }
    None
}

fn is_equality_valid(entries: usize, equality: Equality) -> bool
    ensures { IsTrue result ↔ IsEqualityValid entries equality }
{
    (equality.left_entry as usize) < entries
        && (equality.right_entry as usize) < entries
        && equality.left_entry != equality.right_entry
}

pub(crate) fn first_invalid_equality(entries: usize, equalities: &[Equality]) -> Option<usize>
    ensures { MatchOption result ((i : ℕ) → i < length equalities.now → IsEqualityValid entries (equality_at equalities.now i))
        (IsFirstWrong (λ i. IsEqualityValid entries (equality_at equalities.now i)) (length equalities.now)) }
{
    for (place, equality) in equalities.iter().enumerate() {
        if !is_equality_valid(entries, *equality) {
            return Some(place);
        }
    }
    None
}

// Whether `lists` has a list of the column.
fn is_listed(lists: &[ColumnList], entry: u32, column: u32) -> bool
    ensures { result ≡ list_any (is_list_of_column entry column) lists.now }
{
    lists
        .iter()
        .any(|list| list.entry == entry && list.column == column)
}

fn runs_exist(runs: usize, list: ColumnList) -> bool
    ensures { IsTrue result ↔ RunsExist runs list }
{
    if list.length == 0 {
        return list.first == NO_VALUES;
    }
    list.first <= runs as u64 && list.length <= runs as u64 - list.first
}

fn is_list_valid(entries: usize, runs: usize, before: &[ColumnList], list: ColumnList) -> bool
    ensures { IsTrue result ↔ IsListValid entries runs before.now list }
{
    if list.entry as usize >= entries || !runs_exist(runs, list) {
        return false;
    }
    !is_listed(before, list.entry, list.column)
}

pub(crate) fn first_invalid_list(entries: usize, runs: usize, lists: &[ColumnList]) -> Option<usize>
    ensures { MatchOption result ((i : ℕ) → i < length lists.now → IsListValidAt entries runs lists.now i)
        (IsFirstWrong (IsListValidAt entries runs lists.now) (length lists.now)) }
{
    for (place, list) in lists.iter().enumerate() {
        if !is_list_valid(entries, runs, &lists[..place], *list) {
            return Some(place);
        }
    }
    None
}

fn is_list_of_column(list: ColumnList, place: Place) -> bool
    ensures { result ≡ is_list_of_column place.entry place.column list }
{
    list.entry == u32::from(place.entry) && list.column == place.column
}

/// The list of a column, if there is one.
pub(crate) fn list_of_column(lists: &[ColumnList], place: Place) -> Option<ColumnList>
    ensures { result ≡ find (is_list_of_column place.entry place.column) lists.now }
{
    for list in lists {
        if is_list_of_column(*list, place) {
            return Some(*list);
        }
    }
    None
}

/// The runs of a list. If no row has a value in the column, there are no runs.
pub(crate) fn own_runs<'a>(runs: &'a [Run], list: ColumnList) -> &'a [Run]
    requires { RunsExist (length runs.now) list }
    ensures { result.now ≡ runs_of runs.now list }
{
    if list.length == 0 {
        return &runs[..0];
    }
    &runs[list.first as usize..(list.first + list.length) as usize]
}

pub(crate) fn first_invalid_run_of_lists(lists: &[ColumnList], runs: &[Run]) -> Option<u64>
    requires { (i : ℕ) → i < length lists.now → RunsExist (length runs.now) (list_at lists.now i) }
    ensures { MatchOption result ((i : ℕ) → i < length lists.now → AreRunsValidAt lists.now runs.now i) (IsWrongRun lists.now runs.now) }
{
    for list in lists {
        let own = own_runs(runs, *list);
        if let Some(place) = first_invalid_run(own) {
            return Some(list.first + place as u64);
        }
    }
    None
}

fn have_lists(lists: &[ColumnList], equality: Equality) -> bool
    ensures { IsTrue result ↔ ColumnsHaveLists lists.now equality }
{
    is_listed(lists, equality.left_entry, equality.left_column)
        && is_listed(lists, equality.right_entry, equality.right_column)
}

pub(crate) fn first_missing(lists: &[ColumnList], equalities: &[Equality]) -> Option<usize>
    ensures { MatchOption result ((i : ℕ) → i < length equalities.now → ColumnsHaveLists lists.now (equality_at equalities.now i))
        (IsFirstWrong (λ i. ColumnsHaveLists lists.now (equality_at equalities.now i)) (length equalities.now)) }
{
    for (place, equality) in equalities.iter().enumerate() {
        if !have_lists(lists, *equality) {
            return Some(place);
        }
    }
    None
}
