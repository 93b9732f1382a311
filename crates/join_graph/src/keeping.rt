//! Finds the kept equalities of a set of entries in a turn.
ghost use Rattle.std.specs.Prelude.{◌≡◌, ◌<◌, ◌≤◌, ◌++◌, ◌∷◌, List, take, drop, length, slice_index, IfOk, ℕ};
ghost use Rattle.limits.specs.Profile.{greatest_entries};
ghost use Rattle.berge_tree.specs.declared.edges.Edge.{Edge};
ghost use Rattle.berge_tree.specs.Equalities.{AreWithin, ClosesNoCycle, HasNoCycle, class_of};
ghost use Rattle.entry_sets.specs.Sets.{entries_of_set};
ghost use Rattle.berge_tree.specs.Testing.{merged_components};
ghost use Rattle.join_graph.specs.Kept.{Keeps, equalities_within, joins_within, kept_by_names, kept_of, order_of_turn, turn_count};
ghost use Rattle.join_graph.specs.Names.{HaveEntriesBelow16, HasEntriesBelow16};

use crate::parts::Parts;
use base_io::{NoMemory, Seq};
use berge_tree::Edge;
use entry_sets::EntrySet;
use limits::{GREATEST_ENTRIES, MOST_TURNS};
use std::alloc::Global;

/// Whether an equality joins two entries of a set. The call takes no memory.
pub fn joins_within(subset: EntrySet, edge: Edge) -> bool
    ensures { result ≡ joins_within subset edge }
{
    subset.has(edge.left.entry) && subset.has(edge.right.entry)
}

/// How many equalities join two entries of a set. The call takes no memory.
pub fn count_within(edges: &[Edge], subset: EntrySet) -> usize
    ensures { result ≡ length (equalities_within subset edges.now) }
{
    edges
        .iter()
        .filter(|edge| joins_within(subset, **edge))
        .count()
}

/// How many turns a set has: one for each equality that joins two of its entries, but at least 1 and at most `MOST_TURNS`. The call takes no memory.
pub fn count_turns(parts: &Parts, subset: EntrySet) -> u32
    ensures { result ≡ turn_count subset parts.now.equalities }
{
    let count = count_within(parts.equalities.as_slice(), subset);
    count.min(MOST_TURNS).max(1) as u32
}

// The index in `edges` of the set's equality number `turn`. The set's equalities are those that join two of its entries, numbered from 0. If the set
// has no equality with this number, the result is the length of `edges`.
fn first_of_turn(edges: &[Edge], subset: EntrySet, turn: u32) -> usize
    ensures place { result ≤ length edges.now }
    ensures before { equalities_within subset (take result edges.now) ≡ take turn (equalities_within subset edges.now) }
    ensures from { equalities_within subset (drop result edges.now) ≡ drop turn (equalities_within subset edges.now) }
{
    let mut left = turn;
    for (i, edge) in edges.iter().enumerate() {
        if joins_within(subset, *edge) {
            if left == 0 {
                return i;
            }
            left -= 1;
        }
    }
    edges.len()
}

// The names of components before any equality is kept. A component has the entries that kept equalities connect. At first each entry is a component
// of its own, named by the entry's number.
fn own_components() -> [u8; GREATEST_ENTRIES]
    ensures { (x : ℕ) → x < greatest_entries → slice_index result x ≡ x }
{
    [0, 1, 2, 3, 4, 5, 6, 7, 8, 9, 10, 11, 12, 13, 14, 15]
}

// Joins the components of two entries: the right entry's component takes the name of the left entry's component.
fn merge_components(names: &mut [u8], left: u8, right: u8)
    requires names { length names.old ≡ greatest_entries }
    requires left { left < greatest_entries }
    requires right { right < greatest_entries }
    ensures { (x : ℕ) → x < greatest_entries → slice_index names.new x ≡ merged_components (slice_index names.old) left right x }
{
    let new = names[left as usize];
    let old = names[right as usize];
    for name in names.iter_mut() {
        if *name == old {
            *name = new;
        }
    }
}

// Keeps an equality if its two entries are in different components, and joins these components.
fn consider(edge: Edge, names: &mut [u8], kept: &mut Seq<Edge>) -> Result<(), NoMemory>
    requires names { length names.old ≡ greatest_entries }
    requires edge { HasEntriesBelow16 edge }
    ensures { IfOk result (λ _. (rest : List Edge) → HaveEntriesBelow16 rest
        → kept.new ++ kept_by_names (slice_index names.new) rest ≡ kept.old ++ kept_by_names (slice_index names.old) (edge ∷ rest)) }
{
    if names[edge.left.entry as usize] != names[edge.right.entry as usize] {
        kept.push(edge)?;
        merge_components(names, edge.left.entry, edge.right.entry);
    }
    Ok(())
}

// Goes through equalities, and keeps each equality of the set whose two entries are in different components.
fn consider_all(
    edges: &[Edge],
    subset: EntrySet,
    names: &mut [u8],
    kept: &mut Seq<Edge>,
) -> Result<(), NoMemory>
    requires names { length names.old ≡ greatest_entries }
    ensures { IfOk result (λ _. (rest : List Edge) → HaveEntriesBelow16 rest
        → kept.new ++ kept_by_names (slice_index names.new) rest
        ≡ kept.old ++ kept_by_names (slice_index names.old) (equalities_within subset edges.now ++ rest)) }
{
    for edge in edges {
        if joins_within(subset, *edge) {
            consider(*edge, names, kept)?;
        }
    }
    Ok(())
}

/// The kept equalities of a set of entries in a turn. The turn goes through the equalities that join two entries of the set: first from number
/// `turn` to the last, then from number 0 to `turn` - 1. An equality is kept if the equalities kept so far don't connect its two entries.
///
/// The result may be passed to `rooted` of berge_tree, with the entries of this set.
pub fn kept(
    alloc: Global,
    parts: &Parts,
    subset: EntrySet,
    turn: u32,
) -> Result<Seq<Edge>, NoMemory>
    ensures kept { IfOk result (λ kept. Keeps (order_of_turn subset turn parts.now.equalities) kept) }
    ensures computed { IfOk result (λ kept. kept ≡ kept_of subset turn parts.now.equalities) }
    ensures within { IfOk result (λ kept. AreWithin (entries_of_set subset) kept) }
    ensures entries { IfOk result (λ kept. ClosesNoCycle kept) }
    ensures classes { IfOk result (λ kept. HasNoCycle (class_of kept)) }
{
    let edges = parts.equalities.as_slice();
    let (before, from) = edges.split_at(first_of_turn(edges, subset, turn));
    let mut names = own_components();
    let mut kept = Seq::new(alloc);
    consider_all(from, subset, &mut names, &mut kept)?;
    consider_all(before, subset, &mut names, &mut kept)?;
    Ok(kept)
}
