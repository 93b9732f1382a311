//! Computes the bound of a tree by a fold from the leaves up.
ghost use Rattle.std.specs.Prelude.{◌≡◌, ◌⊎◌, ◌-◌, ◌^◌, ◌<◌, ◌≤◌, ◌++◌, ℕ, List, [], length, map, IsSome, IfOk};
ghost use Rattle.std.specs.List.{AllByRecursion, sum};
ghost use Rattle.degree_sequences.specs.Composition.{composed};
ghost use Rattle.degree_sequences.specs.Saturation.{saturated};
ghost use Rattle.piece_math.specs.Children.{lists_of};
ghost use Rattle.berge_tree.specs.Boxed.{classes_of, members_of, tree_of};
ghost use Rattle.berge_tree.specs.Trees.{entries};
ghost use Rattle.tree_bounds.specs.Columns.{EachColumnBelow, EachColumnWithin};
ghost use Rattle.tree_bounds.specs.Saturating.{saturated_class};
ghost use Rattle.tree_bounds.specs.Tables.{KeyedTables, Agrees, ChoicesAreDifferent, TreeDominates};
ghost use Rattle.tree_bounds.specs.TreeBounds.{bound_of_tree, child_lists, class_list};
ghost use Rattle.bound_fold.specs.Lists.{bounds_of, list_of, TreeHasBounds};

use crate::lists::EntryLists;
use base_io::NoMemory;
use berge_tree::{Classes, Members, Tree};
use piece_math::{Child, Pieces, compose, root_total};
use std::alloc::Global;

// Adds a child to `children` for each class below an entry. The child has the entry's list in that class, and the list of the class.
#[cycle(folding)]
fn add_children(
    children: &mut Vec<Child>,
    alloc: Global,
    below: &Classes,
    lists: &EntryLists,
    entry: u8,
) -> Result<(), NoMemory>
    requires { EachColumnBelow (λ e c. IsSome (list_of lists.now e c)) entry (classes_of below.now) }
    ensures { IfOk result (λ _. map lists_of children.new.items
        ≡ map lists_of children.old.items ++ map saturated_class (child_lists (bounds_of lists.now) entry (classes_of below.now))) }
{
    match below {
        Classes::End => Ok(()),
        Classes::And(column, members, rest) => {
            let list = lists.list(entry, *column).unwrap();
            let column = list.copy()?;
            let class = class_list(alloc, members, lists)?;
            children.push(Child { column, class })?;
            add_children(children, alloc, rest, lists, entry)
        }
    }
}

// The list of a class: the rank-wise product of the lists of the entries below it.
#[cycle(folding)]
fn class_list(alloc: Global, members: &Members, lists: &EntryLists) -> Result<Pieces, NoMemory>
    requires { EachColumnWithin (λ e c. IsSome (list_of lists.now e c)) (members_of members.now) }
    ensures { IfOk result (λ list. list ≡ map saturated (class_list (bounds_of lists.now) (members_of members.now))) }
{
    match members {
        Members::One(entry, column, below) => entry_list(alloc, below, lists, *entry, *column),
        Members::And(entry, column, below, rest) => {
            let own = entry_list(alloc, below, lists, *entry, *column)?;
            let others = class_list(alloc, rest, lists)?;
            own.product(&others)
        }
    }
}

// The list of an entry in the class above it, composed with the classes below the entry.
#[cycle(folding)]
fn entry_list(
    alloc: Global,
    below: &Classes,
    lists: &EntryLists,
    entry: u8,
    column: u32,
) -> Result<Pieces, NoMemory>
    requires own { IsSome (list_of lists.now entry column) }
    requires others { EachColumnBelow (λ e c. IsSome (list_of lists.now e c)) entry (classes_of below.now) }
    ensures { IfOk result (λ list. list ≡ map saturated (composed ((bounds_of lists.now).list entry column)
        (child_lists (bounds_of lists.now) entry (classes_of below.now)))) }
{
    let list = lists.list(entry, column).unwrap();
    match below {
        Classes::End => own_list(list),
        Classes::And(_, _, _) => {
            let mut children = Vec::new(alloc);
            add_children(&mut children, alloc, below, lists, entry)?;
            compose(alloc, list, children.as_slice())
        }
    }
}

// The list of an entry that has no class below it. Nothing is composed with this list.
fn own_list(list: &Pieces) -> Result<Pieces, NoMemory>
    requires { sum list.now < 2 ^ 64 }
    ensures { IfOk result (λ own. own ≡ map saturated (composed list.now [])) }
{
    // The contract of this call says that the list is in descending order, and that its numbers are positive.
    let _ = list.pieces();
    list.copy()
}

/// The bound of a tree, or `u128::MAX` if the bound is larger.
///
/// From the leaves up, an entry's list is composed with the lists of the classes below it. The list of a class is the product of the lists of the
/// entries below it (Degree Sequence Bound, ICDT 2023; SafeBound, SIGMOD 2023). If the lists dominate tables, no join of the tables along the tree
/// has more rows than this bound.
pub fn fold(alloc: Global, tree: &Tree, lists: &EntryLists) -> Result<u128, NoMemory>
    requires { TreeHasBounds lists.now (tree_of tree.now) }
    ensures exact { IfOk result (λ n. n ≡ saturated (bound_of_tree (bounds_of lists.now) (tree_of tree.now))) }
    ensures never_under { IfOk result (λ n. (tables : KeyedTables) → TreeDominates (bounds_of lists.now) tables (tree_of tree.now)
        → (choices : List (ℕ → ℕ)) → AllByRecursion (Agrees tables (tree_of tree.now)) choices
        → ChoicesAreDifferent (entries (tree_of tree.now)) choices → (length choices ≤ n) ⊎ (n ≡ 2 ^ 128 - 1)) }
{
    let mut children = Vec::new(alloc);
    add_children(&mut children, alloc, &tree.below, lists, tree.root)?;
    let rows = lists.rows(tree.root).unwrap();
    root_total(alloc, children.as_slice(), rows)
}
