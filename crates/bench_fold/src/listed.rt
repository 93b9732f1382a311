//! Tests whether an `EntryLists` has the row bounds and lists that the bound of a set needs.
ghost use Rattle.std.specs.Prelude.{◌≡◌, ◌↔◌, true, IsSome, IsTrue, MatchBool};
ghost use Rattle.std.specs.List.{AllByRecursion};
ghost use Rattle.entry_sets.specs.Sets.{entries_of_set, has_entry};
ghost use Rattle.join_graph.specs.Kept.{equalities_within, joins_within};
ghost use Rattle.tree_bounds.specs.Columns.{EachNamedColumn};
ghost use Rattle.bound_fold.specs.Lists.{list_of, row_bound_of};
ghost use Rattle.bound_fold.specs.Sets.{HaveLists, SetHasBounds};

use berge_tree::{Edge, Place};
use bound_fold::EntryLists;
use entry_sets::EntrySet;
use join_graph::{Parts, joins_within};
use limits::GREATEST_ENTRIES;

fn has_rows(lists: &EntryLists, entry: u8) -> bool
    ensures { MatchBool result (IsSome (row_bound_of lists.now entry)) (¬ IsSome (row_bound_of lists.now entry)) }
{
    lists.rows(entry).is_some()
}

// Whether the entry has its row bound, or isn't in the set.
fn may_have_rows(lists: &EntryLists, subset: EntrySet, entry: u8) -> bool
    ensures { MatchBool result (has_entry subset entry ≡ true → IsSome (row_bound_of lists.now entry))
        ((has_entry subset entry ≡ true) × ¬ IsSome (row_bound_of lists.now entry)) }
{
    if subset.has(entry) {
        has_rows(lists, entry)
    } else {
        true
    }
}

fn all_have_rows(lists: &EntryLists, subset: EntrySet) -> bool
    ensures { MatchBool result (AllByRecursion (λ entry. IsSome (row_bound_of lists.now entry)) (entries_of_set subset))
        (¬ AllByRecursion (λ entry. IsSome (row_bound_of lists.now entry)) (entries_of_set subset)) }
{
    for entry in 0..GREATEST_ENTRIES as u8 {
        if !may_have_rows(lists, subset, entry) {
            return false;
        }
    }
    true
}

fn has_list(lists: &EntryLists, place: Place) -> bool
    ensures { MatchBool result (IsSome (list_of lists.now place.entry place.column))
        (¬ IsSome (list_of lists.now place.entry place.column)) }
{
    lists.list(place.entry, place.column).is_some()
}

// Whether both columns of an equality have their lists.
fn has_lists(lists: &EntryLists, edge: Edge) -> bool
    ensures { MatchBool result (HaveLists lists.now edge) (¬ HaveLists lists.now edge) }
{
    if !has_list(lists, edge.left) {
        return false;
    }
    has_list(lists, edge.right)
}

// Whether both columns of an equality have their lists, or the equality joins an entry outside the set.
fn may_have_lists(lists: &EntryLists, subset: EntrySet, edge: Edge) -> bool
    ensures { MatchBool result (joins_within subset edge ≡ true → HaveLists lists.now edge)
        ((joins_within subset edge ≡ true) × ¬ HaveLists lists.now edge) }
{
    if joins_within(subset, edge) {
        has_lists(lists, edge)
    } else {
        true
    }
}

fn all_have_lists(lists: &EntryLists, subset: EntrySet, edges: &[Edge]) -> bool
    ensures { MatchBool result (EachNamedColumn
        (λ entry column. IsSome (list_of lists.now entry column)) (equalities_within subset edges.now))
        (¬ EachNamedColumn (λ entry column. IsSome (list_of lists.now entry column)) (equalities_within subset edges.now)) }
{
    for edge in edges {
        if !may_have_lists(lists, subset, *edge) {
            return false;
        }
    }
    true
}

/// Whether each entry of a set has its row bound, and each column that an equality of the set names has its list. If so, `set_bound` may be called.
/// The test takes no memory.
pub fn has_all_bounds(parts: &Parts, subset: EntrySet, lists: &EntryLists) -> bool
    ensures { IsTrue result ↔ SetHasBounds lists.now parts.now.equalities subset }
{
    if !all_have_rows(lists, subset) {
        return false;
    }
    all_have_lists(lists, subset, parts.equalities.as_slice())
}
