//! The queries that are measured: equalities of columns in seven shapes, and for each entry a row bound and lists.
ghost use Rattle.std.specs.Prelude.{◌≡◌, ℕ, None, IfOk};
ghost use Rattle.bound_fold.specs.Lists.{list_of};

use base_io::{NoMemory, Seq};
use berge_tree::{Edge, Place};
use bound_fold::EntryLists;
use join_graph::Parts;
use piece_math::{Piece, Pieces};
use std::alloc::Global;

/// The equalities of a query, and the row bounds and lists of its entries.
#[derive(Drop)]
pub struct Query {
    pub parts: Parts,
    pub lists: EntryLists,
}

/// How the entries of a query are joined.
#[derive(Clone, Copy)]
pub enum Shape {
    /// Column 1 of each entry is equal to column 0 of the next one.
    Chain,
    /// Entry 1 is joined with each other entry, by a different column of entry 1 for each of them. In the join tree entry 1 is below entry 0.
    Star,
    /// A star in which the only joined column of entry 0 is also joined with each entry from 3 on.
    JoinedStar,
    /// The first columns of all entries are equal.
    OneClass,
    /// A chain whose last entry is joined with the first one.
    Ring,
    /// The first columns of all entries are equal, and there is an equality for each pair of entries.
    Pairs,
    /// Each pair of entries is joined by columns of its own.
    PairsApart,
}

impl Shape {
    pub fn name(self) -> &'static str {
        match self {
            Shape::Chain => "chain",
            Shape::Star => "star",
            Shape::JoinedStar => "joined_star",
            Shape::OneClass => "one_class",
            Shape::Ring => "ring",
            Shape::Pairs => "pairs",
            Shape::PairsApart => "pairs_apart",
        }
    }

    // The equality that the shape has for two entries, if it has one. `left` comes before `right`.
    fn equality(self, left: u8, right: u8, entries: u8) -> Option<Edge> {
        let is_next = u16::from(left) + 1 == u16::from(right);
        let is_last = left == 0 && u16::from(right) + 1 == u16::from(entries);
        match self {
            Shape::Chain => is_next.then_some(edge(left, 1, right, 0)),
            Shape::Star | Shape::JoinedStar if left == 1 => {
                Some(edge(1, u32::from(right), right, 0))
            }
            Shape::Star => (left == 0 && right == 1).then_some(edge(0, 0, 1, 0)),
            Shape::JoinedStar => is_next.then_some(edge(0, 0, right, 0)),
            Shape::OneClass => (left == 0).then_some(edge(0, 0, right, 0)),
            Shape::Ring if is_last => Some(edge(right, 1, left, 0)),
            Shape::Ring => is_next.then_some(edge(left, 1, right, 0)),
            Shape::Pairs => Some(edge(left, 0, right, 0)),
            Shape::PairsApart => Some(edge(left, u32::from(right), right, u32::from(left))),
        }
    }

    // The equalities for this number of entries, sorted by the later entry and then by the earlier one.
    fn equalities(self, alloc: Global, entries: u8) -> Result<Vec<Edge>, NoMemory> {
        let mut edges = Vec::new(alloc);
        for right in 0..entries {
            for left in 0..right {
                if let Some(edge) = self.equality(left, right, entries) {
                    edges.push(edge)?;
                }
            }
        }
        Ok(edges)
    }
}

fn place(entry: u8, column: u32) -> Place {
    Place { entry, column }
}

/// The equality of two columns. Each column is given by its entry and its number.
pub fn edge(left: u8, left_column: u32, right: u8, right_column: u32) -> Edge {
    Edge {
        left: place(left, left_column),
        right: place(right, right_column),
    }
}

fn parts_of(alloc: Global, edges: &[Edge]) -> Result<Parts, NoMemory> {
    Ok(Parts {
        local: Seq::new(alloc),
        equalities: Seq::from_vec(Vec::from_slice(alloc, edges)?),
        residual: Seq::new(alloc),
    })
}

// The list of these runs. A run is left out if its value is 0 or above the value before, or if its count is 0 or too great.
fn list_of_runs(alloc: Global, runs: &[Piece]) -> Result<Pieces, NoMemory> {
    let mut list = Pieces::empty(alloc);
    let mut last = u128::MAX;
    let mut room = u64::MAX;
    for run in runs {
        if 0 < run.value && run.value <= last && 0 < run.count && run.count <= room {
            list.push_run(run.value, run.count)?;
            last = run.value;
            room -= run.count;
        }
    }
    Ok(list)
}

/// The list of these numbers, without those that are 0 or above the number before.
pub fn list_of_numbers(alloc: Global, numbers: &[u128]) -> Result<Pieces, NoMemory> {
    let mut runs = Vec::new(alloc);
    for value in numbers {
        runs.push(Piece {
            value: *value,
            count: 1,
        })?;
    }
    list_of_runs(alloc, runs.as_slice())
}

// A list of at most `pieces` pieces, each for about the same number of rows. The last value is 1, and the other values are multiples of
// `column` + 1. So the values descend in wider steps if the column's number is larger.
fn list_of_column(alloc: Global, rows: u64, pieces: u32, column: u32) -> Result<Pieces, NoMemory> {
    let mut runs = Vec::new(alloc);
    let mut left = rows;
    for step in (2..=pieces).rev() {
        let value = u64::from(step) * (u64::from(column) + 1);
        let count = (rows / u64::from(pieces)).checked_div(value).unwrap_or(0);
        left = left.saturating_sub(value.saturating_mul(count));
        runs.push(Piece {
            value: u128::from(value),
            count,
        })?;
    }
    runs.push(Piece {
        value: 1,
        count: left,
    })?;
    list_of_runs(alloc, runs.as_slice())
}

// The row bounds of the entries, without any list.
fn with_rows(alloc: Global, rows: &[u64]) -> Result<EntryLists, NoMemory>
    ensures { IfOk result (λ lists. (entry column : ℕ) → list_of lists entry column ≡ None) }
{
    let mut lists = EntryLists::new(alloc);
    let mut entry: u8 = 0;
    for count in rows {
        lists.set_rows(entry, *count)?;
        entry = entry.wrapping_add(1);
    }
    Ok(lists)
}

/// The query of these equalities and row bounds, without lists.
pub fn query_of(alloc: Global, edges: &[Edge], rows: &[u64]) -> Result<Query, NoMemory> {
    Ok(Query {
        parts: parts_of(alloc, edges)?,
        lists: with_rows(alloc, rows)?,
    })
}

/// Adds the list of a column. The list is left out if its sum isn't the entry's row bound, if there is no row bound, or if the column has a list
/// already.
pub fn add_list(
    lists: &mut EntryLists,
    entry: u8,
    column: u32,
    list: Pieces,
) -> Result<(), NoMemory> {
    let Some(rows) = lists.rows(entry) else {
        return Ok(());
    };
    if u128::from(rows) != list.total() || lists.list(entry, column).is_some() {
        return Ok(());
    }
    lists.add(entry, column, list)
}

// Adds lists of both columns of an equality.
fn add_lists(
    alloc: Global,
    lists: &mut EntryLists,
    edge: Edge,
    rows: &[u64],
    pieces: u32,
) -> Result<(), NoMemory> {
    for place in [edge.left, edge.right] {
        let count = rows.get(place.entry as usize).copied().unwrap_or(0);
        let list = list_of_column(alloc, count, pieces, place.column)?;
        add_list(lists, place.entry, place.column, list)?;
    }
    Ok(())
}

/// A query of this shape and this number of entries. The lists of its joined columns have at most `pieces` pieces.
pub fn query_of_shape(
    alloc: Global,
    shape: Shape,
    entries: u8,
    pieces: u32,
) -> Result<Query, NoMemory> {
    let edges = shape.equalities(alloc, entries)?;
    let mut rows = Vec::new(alloc);
    for entry in 0..entries {
        rows.push(1_000_000 + 77_777 * u64::from(entry))?;
    }
    let mut query = query_of(alloc, edges.as_slice(), rows.as_slice())?;
    for edge in edges.as_slice() {
        add_lists(alloc, &mut query.lists, *edge, rows.as_slice(), pieces)?;
    }
    Ok(query)
}
