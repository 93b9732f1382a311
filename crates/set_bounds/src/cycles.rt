//! Computes the bound of a set whose equalities close a cycle: the least bound over its turns. To fold a turn is to compute its bound from its trees,
//! from the leaves up. Turns are alike if their kept equalities name the same columns and make the same classes. They have the same bound, so only
//! the first of them is folded. If a class has an equality for each pair of its columns, all turns are alike, and only turn 0 is folded.
ghost use Rattle.std.specs.Prelude.{◌≡◌, ◌+◌, ◌-◌, ◌<◌, IfOk};
ghost use Rattle.join_graph.specs.Kept.{equalities_within, kept_of};
ghost use Rattle.bound_fold.specs.Lists.{bounds_of};
ghost use Rattle.bound_fold.specs.Sets.{SetHasBounds};
ghost use Rattle.set_bounds.specs.Alike.{AreOfTurnsBefore, least_in_128_bits};
ghost use Rattle.set_bounds.specs.AllSets.{bound_in_128_bits};

use crate::alike::{are_in_classes, is_like_earlier};
use base_io::{NoMemory, Seq};
use berge_tree::{ColumnClasses, Edge};
use bound_fold::{EntryLists, turn_bound};
use entry_sets::EntrySet;
use join_graph::{Parts, count_turns, joins_within, kept};
use std::alloc::{AllocError, Global};

// The kept equalities of a set in a turn, with their classes.
fn classed_turn(
    alloc: Global,
    parts: &Parts,
    subset: EntrySet,
    turn: u32,
) -> Result<ColumnClasses, NoMemory>
    ensures { IfOk result (λ classed. classed ≡ kept_of subset turn parts.now.equalities) }
{
    let edges = kept(alloc, parts, subset, turn)?;
    ColumnClasses::new(alloc, edges)
}

// The least bound over the turns from 0 to `turn`. `least` is the least bound over the turns before `turn`. A turn that is like an earlier turn isn't
// folded.
fn least_with(
    alloc: Global,
    parts: &Parts,
    lists: &EntryLists,
    subset: EntrySet,
    turn: u32,
    least: u128,
    folded: &mut Vec<ColumnClasses>,
) -> Result<u128, NoMemory>
    requires listed { SetHasBounds lists.now parts.now.equalities subset }
    requires turn { 0 < turn }
    requires least { least ≡ least_in_128_bits (bounds_of lists.now) parts.now.equalities subset (turn - 1) }
    requires folded { AreOfTurnsBefore parts.now.equalities subset turn folded.old.items }
    ensures least { IfOk result (λ n. n ≡ least_in_128_bits (bounds_of lists.now) parts.now.equalities subset turn) }
    ensures folded { IfOk result (λ _. AreOfTurnsBefore parts.now.equalities subset (turn + 1) folded.new.items) }
{
    let classed = classed_turn(alloc, parts, subset, turn)?;
    if is_like_earlier(&classed, folded.as_slice()) {
        return Ok(least);
    }
    let bound = turn_bound(alloc, parts, subset, turn, lists)?;
    folded.push(classed)?;
    Ok(least.min(bound))
}

// The least bound over all turns. Among turns that are alike, only the first is folded. If each equality joins columns of one class of turn 0, all
// turns are alike.
fn least_of_turns(
    alloc: Global,
    parts: &Parts,
    lists: &EntryLists,
    subset: EntrySet,
) -> Result<u128, NoMemory>
    requires listed { SetHasBounds lists.now parts.now.equalities subset }
    ensures { IfOk result (λ n. n ≡ bound_in_128_bits (bounds_of lists.now) parts.now.equalities subset) }
{
    let mut least = turn_bound(alloc, parts, subset, 0, lists)?;
    let first = classed_turn(alloc, parts, subset, 0)?;
    if are_in_classes(&first, parts.equalities.as_slice()) {
        return Ok(least);
    }
    let mut folded = Vec::new(alloc);
    folded.push(first)?;
    for turn in 1..count_turns(parts, subset) {
        least = least_with(alloc, parts, lists, subset, turn, least, &mut folded)?;
    }
    Ok(least)
}

fn equalities_of(alloc: Global, edges: &[Edge], subset: EntrySet) -> Result<Vec<Edge>, AllocError>
    ensures { IfOk result (λ own. own.items ≡ equalities_within subset edges.now) }
{
    let own = edges.iter().copied();
    own.filter(|edge| joins_within(subset, *edge))
        .collect(alloc)
}

// A copy of `parts` that has only the equalities of a set.
fn only_within(alloc: Global, parts: &Parts, subset: EntrySet) -> Result<Parts, NoMemory>
    ensures { IfOk result (λ own. own.equalities ≡ equalities_within subset parts.now.equalities) }
{
    let equalities = equalities_of(alloc, parts.equalities.as_slice(), subset)?;
    Ok(Parts {
        local: Seq::new(alloc),
        equalities: Seq::from_vec(equalities),
        residual: Seq::new(alloc),
    })
}

/// The bound of a set: the least bound over its turns. A turn goes through all equalities that it is given. So this function first leaves out the
/// equalities that aren't within the set.
pub(crate) fn cyclic_bound(
    alloc: Global,
    parts: &Parts,
    lists: &EntryLists,
    subset: EntrySet,
) -> Result<u128, NoMemory>
    requires listed { SetHasBounds lists.now parts.now.equalities subset }
    ensures { IfOk result (λ n. n ≡ bound_in_128_bits (bounds_of lists.now) parts.now.equalities subset) }
{
    let own = only_within(alloc, parts, subset)?;
    let bound = least_of_turns(alloc, &own, lists, subset)?;
    Ok(bound)
}
