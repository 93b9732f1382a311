//! What is found once of the equalities of a query, and serves for all its sets.
ghost use Rattle.std.specs.Prelude.{◌≡◌, ◌+◌, ◌<◌, ◌||◌, ℕ, IfOk, slice_index};
ghost use Rattle.limits.specs.Profile.{greatest_entries};
ghost use Rattle.entry_sets.specs.Sets.{has_entry};
ghost use Rattle.join_graph.specs.Names.{HasEntriesBelow16};
ghost use Rattle.set_bounds.specs.Cycles.{AreAllOnEveryCycle};
ghost use Rattle.set_bounds.specs.Neighbours.{AreNeighbours, joins};

use crate::parts::is_forest;
use base_io::NoMemory;
use berge_tree::Edge;
use entry_sets::EntrySet;
use join_graph::{Parts, joins_within};
use limits::GREATEST_ENTRIES;
use std::alloc::Global;

const ENTRIES: u8 = GREATEST_ENTRIES as u8;

/// The join graph of a query.
#[derive(Clone, Copy)]
pub(crate) struct Graph {
    /// For each entry the entries with which equalities join it. A part of a set that is found by them is tested before it is used.
    pub neighbours: [EntrySet; GREATEST_ENTRIES],
    /// The entries that are on every cycle. If a set lacks one of them, its equalities close no cycle.
    pub on_every_cycle: EntrySet,
}

// Makes the two entries of an equality neighbours of each other.
fn with_neighbours(
    neighbours: [EntrySet; GREATEST_ENTRIES],
    edge: Edge,
) -> [EntrySet; GREATEST_ENTRIES]
    requires { HasEntriesBelow16 edge }
    ensures { (a b : ℕ) → a < greatest_entries → has_entry (slice_index result a) b ≡ (has_entry (slice_index neighbours a) b || joins a b edge) }
{
    let mut more = neighbours;
    let left = edge.left.entry;
    let right = edge.right.entry;
    more[left as usize] = more[left as usize].with(right);
    more[right as usize] = more[right as usize].with(left);
    more
}

// For each entry the entries with which equalities within `all` join it.
#[tactic(auto, using(join_graph::proofs::Turning::has_entries_below_16))]
fn neighbours_of(edges: &[Edge], all: EntrySet) -> [EntrySet; GREATEST_ENTRIES]
    ensures { AreNeighbours edges.now all result }
{
    let mut neighbours = [EntrySet::empty(); GREATEST_ENTRIES];
    for edge in edges {
        if joins_within(all, *edge) {
            neighbours = with_neighbours(neighbours, *edge);
        }
    }
    neighbours
}

// Adds an entry to `found` if the equalities close no cycle without it. `found` has the lower entries that are on every cycle.
fn with_entry_on_every_cycle(
    alloc: Global,
    parts: &Parts,
    all: EntrySet,
    entry: u8,
    found: EntrySet,
) -> Result<EntrySet, NoMemory>
    requires entry { entry < greatest_entries }
    requires found { AreAllOnEveryCycle parts.now.equalities all entry found }
    ensures { IfOk result (λ more. AreAllOnEveryCycle parts.now.equalities all (entry + 1) more) }
{
    let forest = is_forest(alloc, parts, all.without(entry))?;
    if forest {
        return Ok(found.with(entry));
    }
    Ok(found)
}

// All entries without which the equalities within `all` close no cycle.
fn entries_on_every_cycle(alloc: Global, parts: &Parts, all: EntrySet) -> Result<EntrySet, NoMemory>
    ensures { IfOk result (λ entries. AreAllOnEveryCycle parts.now.equalities all greatest_entries entries) }
{
    let mut found = EntrySet::empty();
    for entry in 0..ENTRIES {
        found = with_entry_on_every_cycle(alloc, parts, all, entry, found)?;
    }
    Ok(found)
}

impl Graph {
    /// The join graph of the equalities of a query, for sets of the entries `all`.
    pub(crate) fn of(alloc: Global, parts: &Parts, all: EntrySet) -> Result<Graph, NoMemory>
        ensures neighbours { IfOk result (λ graph. AreNeighbours parts.now.equalities all graph.neighbours) }
        ensures on_every_cycle { IfOk result (λ graph. AreAllOnEveryCycle parts.now.equalities all greatest_entries graph.on_every_cycle) }
    {
        let on_every_cycle = entries_on_every_cycle(alloc, parts, all)?;
        Ok(Graph {
            neighbours: neighbours_of(parts.equalities.as_slice(), all),
            on_every_cycle,
        })
    }
}
