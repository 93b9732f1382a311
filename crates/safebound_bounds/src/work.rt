//! Counts the work of a call for all bounds, before the call does the work.
ghost use Rattle.std.specs.Prelude.{◌≡◌, ◌+◌, ◌^◌, ◌<◌, ◌≤◌, if◌then◌else◌, ℕ, length, map, slice_index, IfOk};
ghost use Rattle.limits.specs.Profile.{greatest_entries, most_conjuncts};
ghost use Rattle.join_graph.specs.Kept.{joins_within};
ghost use Rattle.safebound_bounds.specs.Work.{runs_joined as runs_of_both, runs_listed as runs_of_list, work_of_set, work_of_turn, work_of};

use crate::arguments::ColumnList;
use crate::checking::list_of_column;
use base_io::{NoMemory, Seq};
use berge_tree::{Edge, Place};
use entry_sets::EntrySet;
use join_graph::{Parts, count_turns, joins_within};
use std::alloc::Global;

fn runs_listed(lists: &[ColumnList], place: Place) -> u64
    ensures { result ≡ runs_of_list lists.now place }
{
    match list_of_column(lists, place) {
        Some(list) => list.length,
        None => 0,
    }
}

fn runs_joined(lists: &[ColumnList], edge: Edge) -> u128
    ensures is { result ≡ runs_of_both lists.now edge }
    ensures few { result < 2 ^ 65 }
{
    u128::from(runs_listed(lists, edge.left)) + u128::from(runs_listed(lists, edge.right))
}

// For each equality, how many runs the lists of its two columns have.
fn runs_of_each(alloc: Global, lists: &[ColumnList], edges: &[Edge]) -> Result<Seq<u128>, NoMemory>
    ensures are { IfOk result (λ each. each ≡ map (runs_of_both lists.now) edges.now) }
    ensures few { IfOk result (λ each. (i : ℕ) → slice_index each i < 2 ^ 65) }
{
    let mut each = Seq::new(alloc);
    for edge in edges {
        each.push(runs_joined(lists, *edge))?;
    }
    Ok(each)
}

// If both entries of the equality are in the set, the work plus the equality's runs. Otherwise the work.
fn with_runs(work: u128, subset: EntrySet, edge: Edge, runs: u128) -> u128
    requires { work + runs < 2 ^ 128 }
    ensures { result ≡ (if joins_within subset edge then work + runs else work) }
{
    if joins_within(subset, edge) {
        work + runs
    } else {
        work
    }
}

fn work_of_turn(lists: &[ColumnList], edges: &[Edge], each: &[u128], subset: EntrySet) -> u128
    requires many { length edges.now ≤ most_conjuncts }
    requires are { each.now ≡ map (runs_of_both lists.now) edges.now }
    requires few { (i : ℕ) → slice_index each.now i < 2 ^ 65 }
    ensures is { result ≡ work_of_turn lists.now edges.now subset }
    ensures few { result ≤ 2 ^ 74 }
{
    let mut work = 1;
    for (place, edge) in edges.iter().enumerate() {
        work = with_runs(work, subset, *edge, each[place]);
    }
    work
}

fn work_of_set(lists: &[ColumnList], parts: &Parts, each: &[u128], subset: EntrySet) -> u128
    requires many { length parts.now.equalities ≤ most_conjuncts }
    requires are { each.now ≡ map (runs_of_both lists.now) parts.now.equalities }
    requires few { (i : ℕ) → slice_index each.now i < 2 ^ 65 }
    ensures is { result ≡ work_of_set lists.now parts.now.equalities subset }
    ensures few { result ≤ 2 ^ 78 }
{
    let turn = work_of_turn(lists, parts.equalities.as_slice(), each, subset);
    u128::from(count_turns(parts, subset)) * turn
}

fn work_of_sets(lists: &[ColumnList], parts: &Parts, each: &[u128], entries: u8) -> u128
    requires entries { entries ≤ greatest_entries }
    requires many { length parts.now.equalities ≤ most_conjuncts }
    requires are { each.now ≡ map (runs_of_both lists.now) parts.now.equalities }
    requires few { (i : ℕ) → slice_index each.now i < 2 ^ 65 }
    ensures { result ≡ work_of lists.now parts.now.equalities entries }
{
    let mut work = 0;
    for bits in 0..1u32 << entries {
        work += work_of_set(lists, parts, each, EntrySet::from_bits(bits as u16));
    }
    work
}

/// The work of all sets of `entries` entries.
pub(crate) fn work(
    alloc: Global,
    lists: &[ColumnList],
    parts: &Parts,
    entries: u8,
) -> Result<u128, NoMemory>
    requires entries { entries ≤ greatest_entries }
    requires many { length parts.now.equalities ≤ most_conjuncts }
    ensures { IfOk result (λ work. work ≡ work_of lists.now parts.now.equalities entries) }
{
    let each = runs_of_each(alloc, lists, parts.equalities.as_slice())?;
    Ok(work_of_sets(lists, parts, each.as_slice(), entries))
}
