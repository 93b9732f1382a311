//! The row bounds and lists of the entries in a set. If an equality of the set names a column, a row without a value in this column joins
//! with no row. So the row isn't counted.
ghost use Rattle.std.specs.Prelude.{◌≡◌, ◌∷◌, [], ◌<◌, ◌≤◌, ℕ, length, true, IfOk};
ghost use Rattle.std.specs.List.{sum};
ghost use Rattle.limits.specs.Profile.{greatest_entries};
ghost use Rattle.join_graph.specs.Kept.{equalities_within};
ghost use Rattle.safebound_lists.specs.Runs.{AreValid, list_of as list_of_runs};
ghost use Rattle.safebound_bounds.specs.Arguments.{AreRunsValidAt, RunsExist, IsListValidAt, list_at, runs_of};
ghost use Rattle.safebound_bounds.specs.InSets.{AreValidAndOfSet, CoversRows, known_by};
ghost use Rattle.safebound_bounds.specs.Meaning.{at_most_with_value as fewer_there, rows_in_set as rows_of_set, joinable_rows as joinable_by, rows_with_value as with_value};

use crate::arguments::{ColumnList, Equality};
use crate::checking::{list_of_column, own_runs};
use crate::listing::entry_lists;
use base_io::{NoMemory, Seq};
use berge_tree::{Edge, Place};
use entry_sets::EntrySet;
use join_graph::{Parts, joins_within};
use safebound_lists::Run;
use set_bounds::{EntryListsBySet, folded_bound};
use std::alloc::Global;

/// The values of a query, as they were handed in.
#[derive(Clone, Copy)]
pub(crate) struct Given<'a> {
    pub rows: &'a [u64],
    pub equalities: &'a [Equality],
    pub lists: &'a [ColumnList],
    pub runs: &'a [Run],
}

// How many rows the runs count.
fn total(runs: &[Run]) -> u64
    requires { AreValid runs.now }
    ensures { result ≡ sum (list_of_runs runs.now) }
{
    let mut total = 0;
    for run in runs {
        total += run.keys * run.degree;
    }
    total
}

// The most rows that may have a value in a column.
fn rows_with_value(lists: &[ColumnList], runs: &[Run], place: Place) -> u64
    requires there { (i : ℕ) → i < length lists.now → RunsExist (length runs.now) (list_at lists.now i) }
    requires valid { (i : ℕ) → i < length lists.now → AreRunsValidAt lists.now runs.now i }
    ensures { result ≡ with_value lists.now runs.now place }
{
    match list_of_column(lists, place) {
        Some(list) => total(own_runs(runs, list)),
        None => 0,
    }
}

// Lowers `rows` to the number of rows with a value in the column at `place`, if this is a column of the entry. Otherwise returns `rows`.
fn at_most_with_value(lists: &[ColumnList], runs: &[Run], entry: u8, place: Place, rows: u64) -> u64
    requires there { (i : ℕ) → i < length lists.now → RunsExist (length runs.now) (list_at lists.now i) }
    requires valid { (i : ℕ) → i < length lists.now → AreRunsValidAt lists.now runs.now i }
    ensures { result ≡ fewer_there lists.now runs.now entry place rows }
{
    if place.entry != entry {
        return rows;
    }
    rows.min(rows_with_value(lists, runs, place))
}

// If both entries of the equality are in the set, applies `at_most_with_value` for both its columns to a row bound of `entry`.
fn joinable_at(
    lists: &[ColumnList],
    runs: &[Run],
    entry: u8,
    subset: EntrySet,
    edge: Edge,
    rows: u64,
) -> u64
    requires there { (i : ℕ) → i < length lists.now → RunsExist (length runs.now) (list_at lists.now i) }
    requires valid { (i : ℕ) → i < length lists.now → AreRunsValidAt lists.now runs.now i }
    ensures { result ≡ joinable_by lists.now runs.now entry (equalities_within subset (edge ∷ [])) rows }
{
    if !joins_within(subset, edge) {
        return rows;
    }
    let left = at_most_with_value(lists, runs, entry, edge.left, rows);
    at_most_with_value(lists, runs, entry, edge.right, left)
}

// The most rows of an entry that the equalities of a set can join.
fn joinable_rows(
    lists: &[ColumnList],
    runs: &[Run],
    entry: u8,
    subset: EntrySet,
    edges: &[Edge],
    most: u64,
) -> u64
    requires there { (i : ℕ) → i < length lists.now → RunsExist (length runs.now) (list_at lists.now i) }
    requires valid { (i : ℕ) → i < length lists.now → AreRunsValidAt lists.now runs.now i }
    ensures { result ≡ joinable_by lists.now runs.now entry (equalities_within subset edges.now) most }
{
    let mut rows = most;
    for edge in edges {
        rows = joinable_at(lists, runs, entry, subset, *edge, rows);
    }
    rows
}

// For each entry, the most rows that the equalities of a set can join.
fn rows_in_set(
    alloc: Global,
    given: &Given,
    edges: &[Edge],
    subset: EntrySet,
) -> Result<Seq<u64>, NoMemory>
    requires few { length given.now.rows.now ≤ greatest_entries }
    requires there { (i : ℕ) → i < length given.now.lists.now → RunsExist (length given.now.runs.now) (list_at given.now.lists.now i) }
    requires valid { (i : ℕ) → i < length given.now.lists.now → AreRunsValidAt given.now.lists.now given.now.runs.now i }
    ensures { IfOk result (λ joinable. joinable ≡ rows_of_set given.now.rows.now given.now.lists.now given.now.runs.now edges.now subset) }
{
    let mut joinable = Seq::new(alloc);
    for entry in 0..given.rows.len() as u8 {
        let most = given.rows[entry as usize];
        joinable.push(joinable_rows(given.lists, given.runs, entry, subset, edges, most))?;
    }
    Ok(joinable)
}

impl EntryListsBySet for Given<'_> {
    ghost known = { known_by };

    ghost is_listed = { AreValidAndOfSet };

    fn folded(
        &self,
        alloc: Global,
        parts: &Parts,
        subset: EntrySet,
        forest: bool,
    ) -> Result<u128, NoMemory> {
        let edges = parts.equalities.as_slice();
        let rows = rows_in_set(alloc, self, edges, subset)?;
        let lists = entry_lists(alloc, rows.as_slice(), self.lists, self.runs)?;
        folded_bound(alloc, parts, &lists, subset, forest)
    }
}

// Whether the sum of the list is at least its entry's row bound.
fn covers_rows(rows: &[u64], runs: &[Run], list: ColumnList) -> bool
    requires entry { list.entry < length rows.now }
    requires there { RunsExist (length runs.now) list }
    requires valid { AreValid (runs_of runs.now list) }
    ensures { result ≡ true → CoversRows rows.now runs.now list }
{
    total(own_runs(runs, list)) >= rows[list.entry as usize]
}

/// Whether the sum of every list is at least its entry's row bound, so that no row lacks a value. Then row bounds and lists are the same in
/// every set.
pub(crate) fn cover_rows(rows: &[u64], lists: &[ColumnList], runs: &[Run]) -> bool
    requires lists { (i : ℕ) → i < length lists.now → IsListValidAt (length rows.now) (length runs.now) lists.now i }
    requires runs { (i : ℕ) → i < length lists.now → AreRunsValidAt lists.now runs.now i }
    ensures { result ≡ true → (i : ℕ) → i < length lists.now → CoversRows rows.now runs.now (list_at lists.now i) }
{
    for list in lists {
        if !covers_rows(rows, runs, *list) {
            return false;
        }
    }
    true
}
