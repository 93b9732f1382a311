//! Looks up lists in a pair of a statistics file: the list of a value, and the list of a range. A pair has the statistics of a joined column by the
//! values of a filter column.
ghost use Rattle.std.specs.Prelude.{◌≡◌, ◌<◌, ◌≤◌, IfOk, IfSome, length, option_map};
ghost use Rattle.cond_stats.specs.Leaves.{node_size};
ghost use Rattle.predicate_bounds.specs.Steps.{range_of, value_of};
ghost use Rattle.stats_file_of_query.specs.Standing.{leaf_of_value, list_between, list_of_node, list_of_value};

use crate::compare::{is_at_most, is_literal};
use base_io::NoMemory;
use column_stats::place_of_node;
use piece_math::Pieces;
use predicate_bounds::{Literal, Range};
use stats_file::PairStats;
use std::alloc::Global;

/// The list of a value: the value's own list if it is frequent, otherwise the rest list.
pub(crate) fn list_of_literal<'a>(pair: &'a PairStats, literal: &Literal) -> &'a Pieces
    ensures { result.now ≡ list_of_value pair.now (value_of literal.now) }
{
    for frequent in pair.frequent.as_slice() {
        if is_literal(&frequent.0, literal) {
            return &frequent.1;
        }
    }
    &pair.rest
}

// The leaf to which a literal belongs: the last leaf whose cut is at most the literal, or leaf 0.
fn leaf_of(pair: &PairStats, literal: &Literal) -> u8
    requires { length pair.now.cuts ≤ 32 }
    ensures leaf { result ≡ leaf_of_value pair.now (value_of literal.now) }
    ensures below { result < 32 }
{
    let mut leaf = 0;
    for (i, cut) in pair.cuts.as_slice().iter().enumerate() {
        if is_at_most(cut, literal) {
            leaf = i as u8;
        }
    }
    leaf
}

// The leaf to which an end of a range belongs, if the range has this end.
fn end_leaf(pair: &PairStats, end: &Option<Literal>) -> Option<u8>
    requires { length pair.now.cuts ≤ 32 }
    ensures leaf { result ≡ option_map (leaf_of_value pair.now) (option_map value_of end.now) }
    ensures below { IfSome result (λ leaf. leaf < 32) }
{
    match end {
        Some(literal) => Some(leaf_of(pair, literal)),
        None => None,
    }
}

// The list of the smallest node that contains two leaves.
fn list_of_leaves(alloc: Global, pair: &PairStats, low: u8, high: u8) -> Result<Pieces, NoMemory>
    requires { low < 32 }
    ensures { IfOk result (λ list. list ≡ list_of_node pair.now (node_size low high) low) }
{
    let place = usize::from(place_of_node(low, high));
    if place < pair.nodes.len() {
        return pair.nodes.get(place).copy();
    }
    Ok(Pieces::empty(alloc))
}

/// The list of a range: the list of the smallest node that contains the leaves of the range's ends.
pub(crate) fn list_within(
    alloc: Global,
    pair: &PairStats,
    range: &Range,
) -> Result<Pieces, NoMemory>
    requires { length pair.now.cuts ≤ 32 }
    ensures { IfOk result (λ list. list ≡ list_between pair.now (range_of range.now).low (range_of range.now).high) }
{
    let low = end_leaf(pair, &range.low).unwrap_or(0);
    let high = end_leaf(pair, &range.high).unwrap_or(31);
    list_of_leaves(alloc, pair, low, high)
}
