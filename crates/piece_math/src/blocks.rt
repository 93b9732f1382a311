//! Composition: the weights of rows are summed by blocks. An element x of the parent list makes a block of the next x rows.
ghost use Rattle.std.specs.Prelude.{◌≡◌, ◌+◌, ◌*◌, ◌^◌, ◌<◌, ◌≤◌, drop, length, map, IfOk};
ghost use Rattle.std.specs.List.{All, sum};
ghost use Rattle.degree_sequences.specs.Composition.{block_sums, composed};
ghost use Rattle.degree_sequences.specs.Descending.{IsDescending, trimmed};
ghost use Rattle.degree_sequences.specs.RunningSums.{running_sum};
ghost use Rattle.degree_sequences.specs.Runs.{runs};
ghost use Rattle.degree_sequences.specs.Saturation.{saturated};
ghost use Rattle.piece_math.specs.Children.{lists_of, class_runs};
ghost use Rattle.piece_math.specs.Expanded.{ArePieces};
ghost use Rattle.piece_math.specs.PiecePlaces.{rest_from, ahead_of, IsPiecePlace};

use crate::pieces::{Piece, Pieces};
use crate::walk::{PiecePlace, START, ahead, place_after};
use crate::weights::{Child, row_weights};
use base_io::NoMemory;
use std::alloc::Global;

// The sum of the weights of one block, and the position after the block.
#[derive(Clone, Copy)]
struct Block {
    sum: u128,
    next: PiecePlace,
}

// Sums one block of `rows` rows, over as many pieces as it takes.
fn block_from(weights: &[Piece], start: PiecePlace, rows: u128) -> Block
    requires weights { ArePieces weights.now }
    requires start { IsPiecePlace weights.now start }
    ensures sum { result.sum ≡ saturated (running_sum (rest_from weights.now start) rows) }
    ensures rest { rest_from weights.now result.next ≡ drop rows (rest_from weights.now start) }
    ensures next { IsPiecePlace weights.now result.next }
    ensures onward { start.at < length weights.now → (ahead_of weights.now start).count < rows → start.at < result.next.at }
    ensures stays { start.at ≤ result.next.at }
{
    let mut sum: u128 = 0;
    let mut next = start;
    let mut left = rows;
    while left > 0 && next.at < weights.len() {
        let run = ahead(weights, next);
        let count = left.min(u128::from(run.count)) as u64;
        sum = sum.saturating_add(run.value.saturating_mul(u128::from(count)));
        next = place_after(weights, next, count);
        left -= u128::from(count);
    }
    Block { sum, next }
}

// Sums the weights by blocks. Equal blocks that lie within one piece of weights make one piece of the result. A block that crosses the
// end of a piece makes a piece of its own.
fn grouped(parent: &Pieces, weights: &Pieces) -> Result<Pieces, NoMemory>
    ensures descends { IsDescending parent.now }
    ensures positive { All (λ x. 0 < x) parent.now }
    ensures value { IfOk result (λ list. list ≡ map saturated (trimmed (block_sums parent.now weights.now))) }
    ensures few_pieces { IfOk result (λ list. runs list ≤ runs parent.now + 2 * runs weights.now) }
{
    let blocks = parent.pieces();
    let rows = weights.pieces();
    let room = blocks.len().saturating_add(rows.len());
    let room = room.saturating_add(rows.len());
    let mut list = Pieces::with_room(parent.alloc(), room)?;
    let mut at = START;
    let mut row = START;
    while at.at < blocks.len() && row.at < rows.len() {
        let block = ahead(blocks, at);
        let run = ahead(rows, row);
        let whole = u128::from(run.count) / block.value;
        if whole == 0 {
            let mixed = block_from(rows, row, block.value);
            list.put(mixed.sum, 1)?;
            at = place_after(blocks, at, 1);
            row = mixed.next;
        } else {
            let count = (whole as u64).min(block.count);
            list.put(block.value.saturating_mul(run.value), count)?;
            at = place_after(blocks, at, count);
            row = place_after(rows, row, block.value as u64 * count);
        }
    }
    Ok(list)
}

/// The composition. `children` give each row a weight, and the weights are summed by the blocks of `parent`.
pub fn compose(alloc: Global, parent: &Pieces, children: &[Child]) -> Result<Pieces, NoMemory>
    requires columns { All (λ child. sum child.column ≡ sum parent.now) children.now }
    requires small { sum parent.now < 2 ^ 64 }
    ensures value { IfOk result (λ list. list ≡ map saturated (composed parent.now (map lists_of children.now))) }
    ensures few_pieces { IfOk result (λ list. runs list ≤ runs parent.now + 2 * class_runs children.now) }
{
    let rows = parent.total() as u64;
    let weights = row_weights(alloc, children, rows)?;
    grouped(parent, &weights)
}
