//! Computes the bound of a set of entries. In each turn the bounds of the turn's trees are multiplied; the least product is the bound.
ghost use Rattle.std.specs.Prelude.{◌≡◌, ◌⊎◌, ◌-◌, ◌^◌, ◌≤◌, ℕ, List, length, map, IfOk};
ghost use Rattle.std.specs.List.{AllByRecursion};
ghost use Rattle.degree_sequences.specs.Saturation.{saturated};
ghost use Rattle.entry_sets.specs.Sets.{entries_of_set};
ghost use Rattle.berge_tree.specs.Boxed.{tree_of};
ghost use Rattle.join_graph.specs.Kept.{equalities_within};
ghost use Rattle.tree_bounds.specs.SetBounds.{bound_of_set, bound_of_turn};
ghost use Rattle.tree_bounds.specs.Tables.{KeyedTables, ChoicesAreDifferent, Satisfies, SetDominates};
ghost use Rattle.tree_bounds.specs.TreeBounds.{bound_of_trees};
ghost use Rattle.bound_fold.specs.Lists.{bounds_of, TreeHasBounds};
ghost use Rattle.bound_fold.specs.Sets.{SetHasBounds};

use crate::lists::EntryLists;
use crate::over_trees::fold;
use base_io::NoMemory;
use berge_tree::{Tree, rooted};
use entry_sets::EntrySet;
use join_graph::{Parts, count_turns, kept};
use std::alloc::Global;

// The product of the bounds of trees.
fn product_of_trees(alloc: Global, trees: &[Tree], lists: &EntryLists) -> Result<u128, NoMemory>
    requires { AllByRecursion (TreeHasBounds lists.now) (map tree_of trees.now) }
    ensures { IfOk result (λ n. n ≡ saturated (bound_of_trees (bounds_of lists.now) (map tree_of trees.now))) }
{
    let mut product: u128 = 1;
    for tree in trees {
        product = product.saturating_mul(fold(alloc, tree, lists)?);
    }
    Ok(product)
}

/// The bound of a set in one turn, or `u128::MAX` if the bound is larger. The bound is the product of the bounds of the trees that the turn's kept
/// equalities make.
pub fn turn_bound(
    alloc: Global,
    parts: &Parts,
    subset: EntrySet,
    turn: u32,
    lists: &EntryLists,
) -> Result<u128, NoMemory>
    requires { SetHasBounds lists.now parts.now.equalities subset }
    ensures { IfOk result (λ n. n ≡ saturated (bound_of_turn (bounds_of lists.now) parts.now.equalities subset turn)) }
{
    let edges = kept(alloc, parts, subset, turn)?;
    let trees = rooted(alloc, edges.as_slice(), subset)?;
    product_of_trees(alloc, trees.as_slice(), lists)
}

/// The bound of a set of entries, or `u128::MAX` if the bound is larger.
///
/// The kept equalities of a turn make trees, and the bound of the turn is the product of the trees' bounds. The least bound of all turns is the bound
/// of the set (SafeBound, SIGMOD 2023). A turn leaves the other equalities out, but these could only reduce the rows. If the lists dominate tables,
/// no join of the set's tables by all its equalities has more rows than this bound.
pub fn set_bound(
    alloc: Global,
    parts: &Parts,
    subset: EntrySet,
    lists: &EntryLists,
) -> Result<u128, NoMemory>
    requires { SetHasBounds lists.now parts.now.equalities subset }
    ensures exact { IfOk result (λ n. n ≡ saturated (bound_of_set (bounds_of lists.now) parts.now.equalities subset)) }
    ensures never_under { IfOk result (λ n. (tables : KeyedTables) → SetDominates (bounds_of lists.now) tables parts.now.equalities subset
        → (choices : List (ℕ → ℕ))
        → AllByRecursion (Satisfies tables (entries_of_set subset) (equalities_within subset parts.now.equalities)) choices
        → ChoicesAreDifferent (entries_of_set subset) choices
        → (length choices ≤ n) ⊎ (n ≡ 2 ^ 128 - 1)) }
{
    let mut least = turn_bound(alloc, parts, subset, 0, lists)?;
    for turn in 1..count_turns(parts, subset) {
        least = least.min(turn_bound(alloc, parts, subset, turn, lists)?);
    }
    Ok(least)
}
