//! The row bounds and lists of entries, which may depend on the set in which the entries are joined.
ghost use Rattle.std.specs.Prelude.{◌≡◌, ℕ, List, IfOk, true};
ghost use Rattle.berge_tree.specs.declared.edges.Edge.{Edge};
ghost use Rattle.berge_tree.specs.Equalities.{ClosesNoCycle};
ghost use Rattle.join_graph.specs.Kept.{equalities_within};
ghost use Rattle.tree_bounds.specs.TreeBounds.{EntryBounds};
ghost use Rattle.bound_fold.specs.Lists.{bounds_of};
ghost use Rattle.bound_fold.specs.Sets.{SetHasBounds};
ghost use Rattle.set_bounds.specs.AllSets.{bound_in_128_bits, in_every_set};

use crate::cycles::cyclic_bound;
use base_io::NoMemory;
use bound_fold::{EntryLists, turn_bound};
use entry_sets::EntrySet;
use join_graph::Parts;
use std::alloc::Global;

/// Row bounds and lists of a query's entries in each set of entries: a row bound of each entry, and a list of each joined column.
pub trait EntryListsBySet {
    /// The row bounds and lists in each set.
    ghost known: { Self → ℕ → EntryBounds };

    /// Each entry of the set has a row bound, and each column that an equality of the set names has a list.
    ghost is_listed: { Self → List Edge → ℕ → Type 0 };

    /// The bound of a set by folds of its trees, or `u128::MAX` if the bound is larger. `forest` says that the equalities of the set close no cycle.
    fn folded(
        &self,
        alloc: Global,
        parts: &Parts,
        subset: EntrySet,
        forest: bool,
    ) -> Result<u128, NoMemory>
        requires listed { is_listed self.now parts.now.equalities subset }
        requires forest { forest ≡ true → ClosesNoCycle (equalities_within subset parts.now.equalities) }
        ensures { IfOk result (λ n. n ≡ bound_in_128_bits (known self.now subset) parts.now.equalities subset) };
}

/// The bound of a set by folds of its trees, or `u128::MAX` if the bound is larger. If the equalities of the set close no cycle (`forest`), all turns
/// have the same bound, and only one turn is folded. Otherwise the bound is the least over the turns.
pub fn folded_bound(
    alloc: Global,
    parts: &Parts,
    lists: &EntryLists,
    subset: EntrySet,
    forest: bool,
) -> Result<u128, NoMemory>
    requires listed { SetHasBounds lists.now parts.now.equalities subset }
    requires forest { forest ≡ true → ClosesNoCycle (equalities_within subset parts.now.equalities) }
    ensures { IfOk result (λ n. n ≡ bound_in_128_bits (bounds_of lists.now) parts.now.equalities subset) }
{
    if forest {
        let bound = turn_bound(alloc, parts, subset, 0, lists)?;
        return Ok(bound);
    }
    let bound = cyclic_bound(alloc, parts, lists, subset)?;
    Ok(bound)
}

// `EntryLists` has the same row bounds and lists in every set.
impl EntryListsBySet for EntryLists {
    ghost known = { λ lists. in_every_set (bounds_of lists) };

    ghost is_listed = { SetHasBounds };

    fn folded(
        &self,
        alloc: Global,
        parts: &Parts,
        subset: EntrySet,
        forest: bool,
    ) -> Result<u128, NoMemory> {
        folded_bound(alloc, parts, self, subset, forest)
    }
}
