//! Computes the bounds of the entries of a set. Each is the least of the entry's own bound and the bounds that are carried to the entry within the
//! set.
ghost use Rattle.std.specs.Prelude.{◌≡◌, ◌<◌, ◌≤◌, ◌^◌, ℕ, All, IfOk, IsSome, MatchBool, None, OnOk, Some};
ghost use Rattle.std.specs.List.{sum};
ghost use Rattle.bound_fold.specs.Lists.{list_of, row_bound_of};
ghost use Rattle.bound_fold.specs.Sets.{HaveLists};
ghost use Rattle.tree_bounds.specs.Columns.{EachNamedColumn};
ghost use Rattle.key_bounds.specs.InSets.{HaveKeyLists, CarriesLists, CarriesTo, IsPartOf, lowered_rows, is_carried, bounds_with_carried, list_within, lowered_list, rows_within};

use crate::key_lists::KeyLists;
use base_io::NoMemory;
use berge_tree::{Edge, Place};
use bound_fold::EntryLists;
use entry_sets::EntrySet;
use join_graph::{Parts, joins_within};
use key_stats::CarriedBounds;
use piece_math::Pieces;
use set_bounds::{EntryListsBySet, folded_bound};
use std::alloc::Global;

// Whether carried bounds count for an entry in a set: both entries of their equality are in the set, and `entry` is its left entry.
fn is_carried(carried: &CarriedBounds, subset: EntrySet, entry: u8) -> bool
    ensures { result ≡ is_carried subset entry carried.now }
{
    if !joins_within(subset, carried.edge) {
        return false;
    }
    carried.edge.left.entry == entry
}

// The lesser of `rows` and the carried row bound. If the carried bound doesn't count for the entry in the set, the result is `rows`.
fn lesser_rows(rows: u64, one: &CarriedBounds, subset: EntrySet, entry: u8) -> u64
    ensures { result ≡ lowered_rows subset entry one.now rows }
{
    if is_carried(one, subset, entry) {
        return rows.min(one.lists.rows(entry).unwrap_or(0));
    }
    rows
}

// The row bound of an entry in a set. `own` is the entry's row bound without carried bounds.
fn rows_within(carried: &[CarriedBounds], subset: EntrySet, entry: u8, own: u64) -> u64
    ensures { result ≡ rows_within carried.now subset entry own }
{
    let mut rows = own;
    for one in carried {
        rows = lesser_rows(rows, one, subset, entry);
    }
    rows
}

// The list of a column. `lists` must have it.
fn list_at(lists: &EntryLists, place: Place) -> &Pieces
    requires { IsSome (list_of lists.now place.entry place.column) }
    ensures list { list_of lists.now place.entry place.column ≡ Some result.now }
    ensures small { sum result.now < 2 ^ 64 }
{
    match lists.list(place.entry, place.column) {
        Some(list) => list,
        None => unreachable!(),
    }
}

// The list whose running sums are the lesser ones of `list` and of the carried list. If the carried list doesn't count for the entry in the set, the
// result is `list`.
fn narrowed(
    list: Pieces,
    one: &CarriedBounds,
    subset: EntrySet,
    place: Place,
) -> Result<Pieces, NoMemory>
    requires small { sum list < 2 ^ 64 }
    requires carries { CarriesTo place one.now }
    ensures list { IfOk result (λ made. made ≡ lowered_list subset place.entry place.column one.now list) }
    ensures small { IfOk result (λ made. sum made < 2 ^ 64) }
{
    if is_carried(one, subset, place.entry) {
        return list.lesser(list_at(&one.lists, place));
    }
    Ok(list)
}

// The list of a column in a set. `own` is the column's list without carried lists.
fn list_within(
    own: &Pieces,
    carried: &[CarriedBounds],
    subset: EntrySet,
    place: Place,
) -> Result<Pieces, NoMemory>
    requires small { sum own.now < 2 ^ 64 }
    requires carried { All (CarriesTo place) carried.now }
    ensures { IfOk result (λ list. list ≡ list_within carried.now subset place.entry place.column own.now) }
{
    let mut list = own.copy()?;
    for one in carried {
        list = narrowed(list, one, subset, place)?;
    }
    Ok(list)
}

// The row bound of each entry in a set.
fn with_rows(alloc: Global, keys: &KeyLists, subset: EntrySet) -> Result<EntryLists, NoMemory>
    ensures rows { IfOk result (λ made. ((entry : ℕ) → entry < keys.now.count → row_bound_of made entry ≡ Some ((bounds_with_carried keys.now subset).rows entry))
        × ((entry : ℕ) → keys.now.count ≤ entry → row_bound_of made entry ≡ None)) }
    ensures lists { IfOk result (λ made. (entry column : ℕ) → list_of made entry column ≡ None) }
{
    let mut made = EntryLists::new(alloc);
    for entry in 0..keys.count {
        let own = keys.own.rows(entry).unwrap_or(0);
        made.set_rows(
            entry,
            rows_within(keys.carried.as_slice(), subset, entry, own),
        )?;
    }
    Ok(made)
}

// Adds the list of a column in a set to `made`, which doesn't have this list yet.
fn add_new(
    keys: &KeyLists,
    subset: EntrySet,
    place: Place,
    made: &mut EntryLists,
) -> Result<(), NoMemory>
    requires own { IsSome (list_of keys.now.own place.entry place.column) }
    requires entry { place.entry < keys.now.count }
    requires carried { All (CarriesTo place) keys.now.carried }
    requires part { IsPartOf (bounds_with_carried keys.now subset) keys.now.count made.old }
    requires new { list_of made.old place.entry place.column ≡ None }
    ensures part { OnOk result (IsPartOf (bounds_with_carried keys.now subset) keys.now.count made.new) }
    ensures there { OnOk result (IsSome (list_of made.new place.entry place.column)) }
    ensures kept { OnOk result ((entry column : ℕ) → IsSome (list_of made.old entry column) → IsSome (list_of made.new entry column)) }
{
    let own = list_at(&keys.own, place);
    let list = list_within(own, keys.carried.as_slice(), subset, place)?;
    made.add(place.entry, place.column, list)?;
    Ok(())
}

fn is_there(made: &EntryLists, place: Place) -> bool
    ensures { MatchBool result (IsSome (list_of made.now place.entry place.column)) (list_of made.now place.entry place.column ≡ None) }
{
    made.list(place.entry, place.column).is_some()
}

// Adds the list of a column in a set to `made`, unless `made` has this list.
fn add_list(
    keys: &KeyLists,
    subset: EntrySet,
    place: Place,
    made: &mut EntryLists,
) -> Result<(), NoMemory>
    requires own { IsSome (list_of keys.now.own place.entry place.column) }
    requires entry { place.entry < keys.now.count }
    requires carried { All (CarriesTo place) keys.now.carried }
    requires part { IsPartOf (bounds_with_carried keys.now subset) keys.now.count made.old }
    ensures part { OnOk result (IsPartOf (bounds_with_carried keys.now subset) keys.now.count made.new) }
    ensures there { OnOk result (IsSome (list_of made.new place.entry place.column)) }
    ensures kept { OnOk result ((entry column : ℕ) → IsSome (list_of made.old entry column) → IsSome (list_of made.new entry column)) }
{
    if is_there(made, place) {
        return Ok(());
    }
    add_new(keys, subset, place, made)
}

// The row bound of each entry in a set, and the list of each column that one of the equalities names.
fn lists_in(
    alloc: Global,
    keys: &KeyLists,
    equalities: &[Edge],
    subset: EntrySet,
) -> Result<EntryLists, NoMemory>
    requires lists { All (HaveLists keys.now.own) equalities.now }
    requires entries { EachNamedColumn (λ entry column. entry < keys.now.count) equalities.now }
    requires carried { All (CarriesLists equalities.now) keys.now.carried }
    ensures part { IfOk result (IsPartOf (bounds_with_carried keys.now subset) keys.now.count) }
    ensures lists { IfOk result (λ made. All (HaveLists made) equalities.now) }
{
    let mut made = with_rows(alloc, keys, subset)?;
    'equalities: for number in 0..equalities.len() {
        let edge = equalities[number];
        add_list(keys, subset, edge.left, &mut made)?;
        add_list(keys, subset, edge.right, &mut made)?;
    }
    Ok(made)
}

impl EntryListsBySet for KeyLists {
    ghost known = { bounds_with_carried };

    ghost is_listed = { HaveKeyLists };

    fn folded(
        &self,
        alloc: Global,
        parts: &Parts,
        subset: EntrySet,
        forest: bool,
    ) -> Result<u128, NoMemory> {
        let lists = lists_in(alloc, self, parts.equalities.as_slice(), subset)?;
        folded_bound(alloc, parts, &lists, subset, forest)
    }
}
