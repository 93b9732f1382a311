//! Takes the row bound of each entry and the list of each joined column from statistics.
ghost use Rattle.std.specs.Prelude.{◌≡◌, ◌≢◌, ◌⊎◌, ◌≤◌, ℕ, [], length, IfOk, OnOk, Some, unwrap_or};
ghost use Rattle.limits.specs.Profile.{most_entries};
ghost use Rattle.join_graph.specs.Conjuncts.{equalities_of};
ghost use Rattle.bound_fold.specs.Lists.{bounds_of, list_of, row_bound_of};
ghost use Rattle.query_types.specs.declared.types.Query.{Query};
ghost use Rattle.filtered_lists.specs.Lists.{ColumnLists, filtered_list};
ghost use Rattle.predicate_bounds.specs.StatsLists.{HasLists};
ghost use Rattle.query_bounds.specs.Adding.{MayAdd};
ghost use Rattle.query_bounds.specs.Bounds.{HoldsKnown, entry_bounds, joined_columns};
ghost use Rattle.query_bounds.specs.Statistics.{HasSomeStatistics, Statistics, HasStatistics};

use base_io::NoMemory;
use berge_tree::Place;
use bound_fold::EntryLists;
use join_graph::Parts;
use predicate_bounds::QueryStats;
use query_types::Query;
use std::alloc::Global;

// The row bound of each FROM entry.
fn with_rows(alloc: Global, query: &Query, stats: &QueryStats) -> Result<EntryLists, NoMemory>
    requires within_limit { length query.now.from ≤ most_entries }
    requires told { HasSomeStatistics query.now stats.now }
    ensures { IfOk result (λ lists. (known : Statistics) → HasStatistics query.now stats.now known
        → HoldsKnown query.now known (length query.now.from) [] lists) }
{
    let mut lists = EntryLists::new(alloc);
    for entry in 0..query.from.len() as u8 {
        let rows = stats.row_bound(alloc, entry)?;
        lists.set_rows(entry, rows)?;
    }
    Ok(lists)
}

// Adds the list of the joined column `place` to `lists`, unless `lists` has it. `place` is an entry and one of its columns.
fn add_list(
    alloc: Global,
    stats: &QueryStats,
    place: Place,
    lists: &mut EntryLists,
) -> Result<(), NoMemory>
    requires { MayAdd stats.now place lists.old }
    ensures set { OnOk result ((query : Query) (known : ColumnLists) → HasLists query stats.now place.entry place.column known
        → list_of lists.new place.entry place.column
        ≡ Some (unwrap_or (list_of lists.old place.entry place.column) (filtered_list known place.entry query.conjuncts))) }
    ensures others { (entry column : ℕ) → ((entry ≢ place.entry) ⊎ (column ≢ place.column))
        → list_of lists.new entry column ≡ list_of lists.old entry column }
    ensures rows { (entry : ℕ) → row_bound_of lists.new entry ≡ row_bound_of lists.old entry }
{
    if lists.list(place.entry, place.column).is_none() {
        let list = stats.bound_list(alloc, place.entry, place.column)?;
        lists.add(place.entry, place.column, list)?;
    }
    Ok(())
}

/// The row bound of each FROM entry, and the list of each column that an equality of the query joins. A column that several equalities join has one
/// list. `parts` is the result of `split` for the query.
pub fn entry_lists(
    alloc: Global,
    query: &Query,
    parts: &Parts,
    stats: &QueryStats,
) -> Result<EntryLists, NoMemory>
    requires within_limit { length query.now.from ≤ most_entries }
    requires equalities { parts.now.equalities ≡ equalities_of query.now }
    requires told { HasSomeStatistics query.now stats.now }
    ensures holds { IfOk result (λ lists. (known : Statistics) → HasStatistics query.now stats.now known
        → HoldsKnown query.now known (length query.now.from) (joined_columns query.now) lists) }
    ensures bounds { IfOk result (λ lists. (known : Statistics) → HasStatistics query.now stats.now known
        → bounds_of lists ≡ entry_bounds query.now known) }
{
    let mut lists = with_rows(alloc, query, stats)?;
    for edge in parts.equalities.as_slice() {
        add_list(alloc, stats, edge.left, &mut lists)?;
        add_list(alloc, stats, edge.right, &mut lists)?;
    }
    Ok(lists)
}
