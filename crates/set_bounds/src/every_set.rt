//! Computes the bound of every set, one set after another. To fold a set is to compute its bound from its trees. If a set's equalities close no cycle
//! and its entries are connected, the set is folded. If they close no cycle and the entries aren't connected, its bound is a product of bounds that
//! were found before. If they close a cycle, its bound is the least over its turns. Turns whose kept equalities name the same columns and make the
//! same classes are folded once.
ghost use Rattle.std.specs.Prelude.{◌≡◌, ◌⊎◌, ◌-◌, ◌^◌, ◌<◌, ◌≤◌, ℕ, List, length, slice_index, IfOk};
ghost use Rattle.std.specs.List.{AllByRecursion};
ghost use Rattle.limits.specs.Profile.{greatest_entries, top_bound};
ghost use Rattle.entry_sets.specs.Sets.{entries_of_set};
ghost use Rattle.join_graph.specs.Kept.{equalities_within};
ghost use Rattle.tree_bounds.specs.Tables.{KeyedTables, ChoicesAreDifferent, Satisfies, SetDominates};
ghost use Rattle.bound_fold.specs.Lists.{bounds_of};
ghost use Rattle.bound_fold.specs.Sets.{SetHasBounds};
ghost use Rattle.set_bounds.specs.AllSets.{bounds_in_sets as spec_bounds_in_sets, bounds_of_sets as spec_bounds_of_sets, first_entries};
ghost use Rattle.set_bounds.specs.Parts.{DependsOnPartsOnly};

use crate::graph::Graph;
use crate::in_sets::EntryListsBySet;
use crate::one_set::next_bound;
use base_io::{NoMemory, Seq};
use bound_fold::EntryLists;
use entry_sets::EntrySet;
use join_graph::Parts;
use std::alloc::Global;

/// The bounds, in rows, of all sets of the first `count` entries, each at the index whose bits are the set's entries. A bound above `u128::MAX` is
/// listed as `u128::MAX`. The empty set has the bound 1. An entry's row bound and lists may differ from set to set. They depend only on the entries
/// of the set that its equalities connect with this entry. Therefore an unconnected set without a cycle isn't folded: its bound is the product of its
/// parts' bounds.
///
/// A set's bound is the least over its turns. In a turn it is the product of the bounds of its trees (SafeBound, SIGMOD 2023; Degree Sequence Bound,
/// ICDT 2023).
pub fn bounds_in_sets<K: EntryListsBySet>(
    alloc: Global,
    parts: &Parts,
    lists: &K,
    count: u8,
) -> Result<Seq<u128>, NoMemory>
    requires within_limit { count ≤ greatest_entries }
    requires listed { (subset : ℕ) → subset < 2 ^ count → K.is_listed lists.now parts.now.equalities subset }
    requires depends_on_parts { DependsOnPartsOnly (K.known lists.now) parts.now.equalities }
    ensures { IfOk result (λ bounds. bounds ≡ spec_bounds_in_sets (K.known lists.now) parts.now.equalities count) }
{
    let sets = 1u32 << count;
    let all = EntrySet::from_bits((sets - 1) as u16);
    let graph = Graph::of(alloc, parts, all)?;
    let mut bounds = Vec::new(alloc);
    for bits in 0..sets {
        let subset = EntrySet::from_bits(bits as u16);
        let bound = next_bound(alloc, parts, lists, &graph, subset, bounds.as_slice())?;
        bounds.push(bound)?;
    }
    Ok(Seq::from_vec(bounds))
}

/// The bounds of all sets, if the entries' row bounds and lists are the same in every set. Suppose that the lists dominate tables. Then no join of a
/// set's tables by all equalities of the set has more rows than the set's bound. A bound of `u128::MAX` promises nothing.
pub fn bounds_of_sets(
    alloc: Global,
    parts: &Parts,
    lists: &EntryLists,
    count: u8,
) -> Result<Seq<u128>, NoMemory>
    requires within_limit { count ≤ greatest_entries }
    requires listed { SetHasBounds lists.now parts.now.equalities (first_entries count) }
    ensures exact { IfOk result (λ bounds. bounds ≡ spec_bounds_of_sets (bounds_of lists.now) parts.now.equalities count) }
    ensures never_under { IfOk result (λ bounds. (subset : ℕ) → subset < 2 ^ count
        → (tables : KeyedTables) → SetDominates (bounds_of lists.now) tables parts.now.equalities subset
        → (choices : List (ℕ → ℕ))
        → AllByRecursion (Satisfies tables (entries_of_set subset) (equalities_within subset parts.now.equalities)) choices
        → ChoicesAreDifferent (entries_of_set subset) choices
        → (length choices ≤ slice_index bounds subset) ⊎ (slice_index bounds subset ≡ top_bound)) }
{
    bounds_in_sets(alloc, parts, lists, count)
}
