//! Walks along the equalities and makes the trees.
ghost use Rattle.std.specs.Prelude.{◌≡◌, ◌++◌, map, IfOk};
ghost use Rattle.limits.specs.Profile.{greatest_entries};
ghost use Rattle.berge_tree.specs.Boxed.{classes_of, members_of, some_members_of, tree_of};
ghost use Rattle.berge_tree.specs.Equalities.{AreWithin, ClosesNoCycle};
ghost use Rattle.berge_tree.specs.Rooted.{AreAllTreesOf};
ghost use Rattle.entry_sets.specs.Sets.{entries_of_set};
ghost use Rattle.berge_tree.specs.Trees.{entries, entries_below, entries_within};
ghost use Rattle.berge_tree.specs.Walk.{IsNext, tree_of_new_entry, classes_at, is_among, is_column_below, is_other_of_class, members_at, is_in_a_tree, tree_at, classes_below};

use crate::columns::{Column, columns_of, is_same};
use crate::edges::Edge;
use crate::tree::{Classes, Members, Tree};
use base_io::{NoMemory, Seq};
use entry_sets::EntrySet;
use limits::GREATEST_ENTRIES;
use std::alloc::Global;

// The greatest depth of a tree. A tree has no entry twice.
const DEPTH: u8 = GREATEST_ENTRIES as u8;

// Whether the column is a column of the entry, but not the entry's column in the class above.
fn is_column_below(column: Column, entry: u8, above: Option<u32>) -> bool
    ensures { result ≡ is_column_below entry above column }
{
    let is_above = match above {
        Some(above) => above == column.place.column,
        None => false,
    };
    column.place.entry == entry && !is_above
}

// Whether the column is another column in the class of `column_above`.
fn is_other_of_class(column_above: Column, column: Column) -> bool
    ensures { result ≡ is_other_of_class column_above column }
{
    is_same(column_above.class, column.class) && !is_same(column_above.place, column.place)
}

fn next_at(columns: &[Column], from: usize, entry: u8, above: Option<u32>) -> Option<usize>
    ensures { IsNext (is_column_below entry above) columns.now from result }
{
    for i in from..columns.len() {
        if is_column_below(columns[i], entry, above) {
            return Some(i);
        }
    }
    None
}

fn next_other(columns: &[Column], from: usize, column_above: Column) -> Option<usize>
    ensures { IsNext (is_other_of_class column_above) columns.now from result }
{
    for i in from..columns.len() {
        if is_other_of_class(column_above, columns[i]) {
            return Some(i);
        }
    }
    None
}

// The classes below an entry. Only columns that `columns` has at index `from` or later are considered.
#[cycle(walk)]
fn classes_at(
    alloc: Global,
    columns: &[Column],
    from: usize,
    entry: u8,
    above: Option<u32>,
    depth: u8,
) -> Result<Classes, NoMemory>
    ensures { IfOk result (λ classes. classes_of classes ≡ classes_at depth columns.now from entry above) }
{
    let Some(i) = next_at(columns, from, entry, above) else {
        return Ok(Classes::End);
    };
    let column = columns[i];
    let members = members_at(alloc, columns, 0, column, depth)?;
    let rest = classes_at(alloc, columns, i + 1, entry, above, depth)?;
    match members {
        None => Ok(rest),
        Some(members) => {
            let members = Box::new(alloc, members)?;
            let rest = Box::new(alloc, rest)?;
            Ok(Classes::And(column.place.column, members, rest))
        }
    }
}

// The members of the class of `column_above`, each with the classes below it. Only columns that `columns` has at index `from` or later are
// considered. `None` if there is no member.
#[cycle(walk)]
fn members_at(
    alloc: Global,
    columns: &[Column],
    from: usize,
    column_above: Column,
    depth: u8,
) -> Result<Option<Members>, NoMemory>
    ensures { IfOk result (λ members. some_members_of members ≡ members_at depth columns.now from column_above) }
{
    let Some(i) = next_other(columns, from, column_above) else {
        return Ok(None);
    };
    let place = columns[i].place;
    let below = classes_below(alloc, columns, place.entry, Some(place.column), depth)?;
    match members_at(alloc, columns, i + 1, column_above, depth)? {
        None => Ok(Some(Members::One(place.entry, place.column, below))),
        Some(rest) => {
            let rest = Box::new(alloc, rest)?;
            Ok(Some(Members::And(place.entry, place.column, below, rest)))
        }
    }
}

// The classes below an entry, down to at most `depth` levels of entries.
#[cycle(walk)]
fn classes_below(
    alloc: Global,
    columns: &[Column],
    entry: u8,
    above: Option<u32>,
    depth: u8,
) -> Result<Classes, NoMemory>
    ensures { IfOk result (λ classes. classes_of classes ≡ classes_below depth columns.now entry above) }
{
    if depth == 0 {
        return Ok(Classes::End);
    }
    classes_at(alloc, columns, 0, entry, above, depth - 1)
}

// The tree that a walk from an entry makes.
fn tree_from(alloc: Global, columns: &[Column], root: u8) -> Result<Tree, NoMemory>
    ensures { IfOk result (λ tree. tree_of tree ≡ tree_at greatest_entries columns.now root) }
{
    let below = classes_below(alloc, columns, root, None, DEPTH)?;
    Ok(Tree { root, below })
}

// Whether an entry is in these classes, or below them.
#[cycle(standing)]
fn is_below(classes: &Classes, entry: u8) -> bool
    ensures { result ≡ is_among (entries_below (classes_of classes.now)) entry }
{
    match classes {
        Classes::End => false,
        Classes::And(_, members, rest) => {
            if is_within(members, entry) {
                return true;
            }
            is_below(rest, entry)
        }
    }
}

// Whether the entry is one of these members, or is below them.
#[cycle(standing)]
fn is_within(members: &Members, entry: u8) -> bool
    ensures { result ≡ is_among (entries_within (members_of members.now)) entry }
{
    match members {
        Members::One(own, _, below) => {
            if *own == entry {
                return true;
            }
            is_below(below, entry)
        }
        Members::And(own, _, below, rest) => {
            if *own == entry {
                return true;
            }
            if is_below(below, entry) {
                return true;
            }
            is_within(rest, entry)
        }
    }
}

fn has_entry(tree: &Tree, entry: u8) -> bool
    ensures { result ≡ is_among (entries (tree_of tree.now)) entry }
{
    if tree.root == entry {
        return true;
    }
    is_below(&tree.below, entry)
}

fn is_in_a_tree(trees: &[Tree], entry: u8) -> bool
    ensures { result ≡ is_in_a_tree trees.now entry }
{
    for tree in trees {
        if has_entry(tree, entry) {
            return true;
        }
    }
    false
}

// Adds the tree of an entry, unless the entry is in a tree already.
fn add_tree(
    alloc: Global,
    trees: &mut Seq<Tree>,
    columns: &[Column],
    entry: u8,
) -> Result<(), NoMemory>
    ensures { IfOk result (λ _. map tree_of trees.new ≡ map tree_of trees.old ++ tree_of_new_entry columns.now trees.old entry) }
{
    if !is_in_a_tree(trees.as_slice(), entry) {
        let tree = tree_from(alloc, columns, entry)?;
        trees.push(tree)?;
    }
    Ok(())
}

/// The trees of the set, one for each component. Each tree's root is its least entry, and the trees are in the order of their roots.
///
/// The children of an entry are its classes, except the class above it, in the order of the columns' numbers. The children of a class are its
/// entries, except the entry above it, in FROM order.
pub fn rooted(alloc: Global, edges: &[Edge], subset: EntrySet) -> Result<Seq<Tree>, NoMemory>
    requires within { AreWithin (entries_of_set subset) edges.now }
    requires no_cycle { ClosesNoCycle edges.now }
    ensures { IfOk result (λ trees. AreAllTreesOf edges.now (entries_of_set subset) (map tree_of trees)) }
{
    let columns = columns_of(alloc, edges)?;
    let mut trees = Seq::new(alloc);
    for entry in 0..GREATEST_ENTRIES as u8 {
        if subset.has(entry) {
            add_tree(alloc, &mut trees, columns.as_slice(), entry)?;
        }
    }
    Ok(trees)
}
