//! Tests whether the equalities of a set close no cycle, and divides a set into parts that no equality joins.
ghost use Rattle.std.specs.Prelude.{◌≡◌, ◌↔◌, ◌<◌, ◌&&◌, ℕ, true, not, IfOk};
ghost use Rattle.entry_sets.specs.Sets.{has_entry};
ghost use Rattle.berge_tree.specs.Equalities.{ClosesNoCycle};
ghost use Rattle.join_graph.specs.Kept.{equalities_within};
ghost use Rattle.set_bounds.specs.Parts.{ConsistsOfParts, crosses, some_cross};

use base_io::NoMemory;
use berge_tree::Edge;
use entry_sets::EntrySet;
use join_graph::{Parts, count_within, joins_within, kept};
use limits::GREATEST_ENTRIES;
use std::alloc::Global;

// The number of rounds in which the first part grows. Each round adds the neighbours of another entry.
const ROUNDS: u8 = GREATEST_ENTRIES as u8;

/// Whether the equalities of a set close no cycle. They close no cycle exactly if turn 0 keeps all of them.
pub(crate) fn is_forest(alloc: Global, parts: &Parts, subset: EntrySet) -> Result<bool, NoMemory>
    ensures { IfOk result (λ forest. forest ≡ true ↔ ClosesNoCycle (equalities_within subset parts.now.equalities)) }
{
    let edges = kept(alloc, parts, subset, 0)?;
    Ok(edges.len() == count_within(parts.equalities.as_slice(), subset))
}

/// The least entry of a set, with all entries that the set's equalities connect with it. `consists_of_parts` tests this part before it is used.
pub(crate) fn first_part(neighbours: &[EntrySet], subset: EntrySet) -> EntrySet {
    let bits = subset.bits();
    let mut part = bits & bits.wrapping_neg();
    // The entries of the part whose neighbours aren't yet in it.
    let mut reached = part;
    for _ in 0..ROUNDS {
        let Some(next) = neighbours.get(reached.trailing_zeros() as usize) else {
            return EntrySet::from_bits(part);
        };
        let more = next.bits() & bits & !part;
        part |= more;
        reached = (reached & reached.wrapping_sub(1)) | more;
    }
    EntrySet::from_bits(part)
}

/// The entries of a set that are not in a part.
pub(crate) fn rest_of(subset: EntrySet, part: EntrySet) -> EntrySet
    ensures { (entry : ℕ) → has_entry result entry ≡ (has_entry subset entry && not (has_entry part entry)) }
{
    EntrySet::from_bits(subset.bits() & !part.bits())
}

fn crosses(subset: EntrySet, part: EntrySet, edge: Edge) -> bool
    ensures { result ≡ crosses subset part edge }
{
    if !joins_within(subset, edge) {
        return false;
    }
    if part.has(edge.left.entry) {
        !part.has(edge.right.entry)
    } else {
        part.has(edge.right.entry)
    }
}

fn some_cross(edges: &[Edge], subset: EntrySet, part: EntrySet) -> bool
    ensures { result ≡ some_cross subset part edges.now }
{
    for edge in edges {
        if crosses(subset, part, *edge) {
            return true;
        }
    }
    false
}

/// True only if the set consists of the part and the rest, and no equality joins them. Both have smaller numbers than the set.
pub(crate) fn consists_of_parts(
    edges: &[Edge],
    subset: EntrySet,
    part: EntrySet,
    rest: EntrySet,
) -> bool
    requires others { (entry : ℕ) → has_entry rest entry ≡ (has_entry subset entry && not (has_entry part entry)) }
    ensures consists { result ≡ true → ConsistsOfParts edges.now subset part rest }
    ensures part { result ≡ true → part < subset }
    ensures rest { result ≡ true → rest < subset }
{
    if part.bits() >= subset.bits() {
        return false;
    }
    if rest.bits() >= subset.bits() {
        return false;
    }
    if !part.is_within(subset) {
        return false;
    }
    !some_cross(edges, subset, part)
}
