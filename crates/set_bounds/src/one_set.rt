//! Computes the bound of a set from the bounds of the sets with smaller numbers.
ghost use Rattle.std.specs.Prelude.{◌≡◌, ◌↔◌, IfOk, true};
ghost use Rattle.berge_tree.specs.Equalities.{ClosesNoCycle};
ghost use Rattle.join_graph.specs.Kept.{equalities_within};
ghost use Rattle.set_bounds.specs.AllSets.{bound_in_128_bits, bounds_below};
ghost use Rattle.set_bounds.specs.Cycles.{AreOnEveryCycle};
ghost use Rattle.set_bounds.specs.Parts.{DependsOnPartsOnly};

use crate::graph::Graph;
use crate::in_sets::EntryListsBySet;
use crate::parts::{consists_of_parts, first_part, is_forest, rest_of};
use base_io::NoMemory;
use entry_sets::EntrySet;
use join_graph::Parts;
use std::alloc::Global;

// The bound of a set whose equalities close no cycle. If the set consists of two parts that no equality joins, the bound is the product of the parts'
// bounds. Otherwise the set is folded: its bound is computed from its trees.
fn forest_bound<K: EntryListsBySet>(
    alloc: Global,
    parts: &Parts,
    lists: &K,
    graph: &Graph,
    subset: EntrySet,
    smaller: &[u128],
) -> Result<u128, NoMemory>
    requires forest { ClosesNoCycle (equalities_within subset parts.now.equalities) }
    requires listed { K.is_listed lists.now parts.now.equalities subset }
    requires depends_on_parts { DependsOnPartsOnly (K.known lists.now) parts.now.equalities }
    requires smaller { smaller.now ≡ bounds_below (K.known lists.now) parts.now.equalities subset }
    ensures { IfOk result (λ n. n ≡ bound_in_128_bits (K.known lists.now subset) parts.now.equalities subset) }
{
    let edges = parts.equalities.as_slice();
    let part = first_part(&graph.neighbours, subset);
    let rest = rest_of(subset, part);
    if consists_of_parts(edges, subset, part, rest) {
        let own = smaller[part.bits() as usize];
        let others = smaller[rest.bits() as usize];
        return Ok(own.saturating_mul(others));
    }
    let bound = lists.folded(alloc, parts, subset, true)?;
    Ok(bound)
}

// Whether the equalities of a set close no cycle. They are looked at only if the set has all entries of `on_every_cycle`.
fn is_forest_within(
    alloc: Global,
    parts: &Parts,
    subset: EntrySet,
    on_every_cycle: EntrySet,
) -> Result<bool, NoMemory>
    requires on_every_cycle { AreOnEveryCycle parts.now.equalities subset on_every_cycle }
    ensures { IfOk result (λ forest. forest ≡ true ↔ ClosesNoCycle (equalities_within subset parts.now.equalities)) }
{
    if !on_every_cycle.is_within(subset) {
        return Ok(true);
    }
    is_forest(alloc, parts, subset)
}

/// The bound of a set, given the bounds of all sets with smaller numbers.
pub(crate) fn next_bound<K: EntryListsBySet>(
    alloc: Global,
    parts: &Parts,
    lists: &K,
    graph: &Graph,
    subset: EntrySet,
    smaller: &[u128],
) -> Result<u128, NoMemory>
    requires on_every_cycle { AreOnEveryCycle parts.now.equalities subset graph.now.on_every_cycle }
    requires listed { K.is_listed lists.now parts.now.equalities subset }
    requires depends_on_parts { DependsOnPartsOnly (K.known lists.now) parts.now.equalities }
    requires smaller { smaller.now ≡ bounds_below (K.known lists.now) parts.now.equalities subset }
    ensures { IfOk result (λ n. n ≡ bound_in_128_bits (K.known lists.now subset) parts.now.equalities subset) }
{
    if is_forest_within(alloc, parts, subset, graph.on_every_cycle)? {
        let bound = forest_bound(alloc, parts, lists, graph, subset, smaller)?;
        return Ok(bound);
    }
    let bound = lists.folded(alloc, parts, subset, false)?;
    Ok(bound)
}
