//! The product, the sum and the maximum of two lists, rank by rank.
ghost use Rattle.std.specs.Prelude.{◌≡◌, ◌+◌, ◌≤◌, map, IfOk};
ghost use Rattle.degree_sequences.specs.ByRank.{rank_product, rank_sum, rank_maximum};
ghost use Rattle.degree_sequences.specs.Runs.{runs};
ghost use Rattle.degree_sequences.specs.Saturation.{saturated};
ghost use Rattle.piece_math.specs.ByRank.{combined, combined_by_rank};

use crate::pieces::Pieces;
use crate::walk::{PiecePlaces, START, next_stretch};
use base_io::NoMemory;

// How the two numbers of a rank are combined.
#[derive(Clone, Copy)]
enum Combination {
    Product,
    Sum,
    Maximum,
}

impl Combination {
    fn of(self, x: u128, y: u128) -> u128
        ensures { result ≡ saturated (combined self x y) }
    {
        match self {
            Combination::Product => x.saturating_mul(y),
            Combination::Sum => x.saturating_add(y),
            Combination::Maximum => x.max(y),
        }
    }
}

// Walks along both lists together, with one step for each stretch of ranks on which neither list changes.
fn combine(how: Combination, left: &Pieces, right: &Pieces) -> Result<Pieces, NoMemory>
    ensures value { IfOk result (λ list. list ≡ map saturated (combined_by_rank how left.now right.now)) }
    ensures few_pieces { IfOk result (λ list. runs list ≤ runs left.now + runs right.now) }
{
    let a = left.pieces();
    let b = right.pieces();
    let mut list = Pieces::with_room(left.alloc(), a.len().saturating_add(b.len()))?;
    let mut places = PiecePlaces {
        left: START,
        right: START,
    };
    while places.left.at < a.len() || places.right.at < b.len() {
        let stretch = next_stretch(a, b, places);
        list.put(how.of(stretch.left, stretch.right), stretch.count)?;
        places = stretch.next;
    }
    Ok(list)
}

impl Pieces {
    /// The product of the two numbers of each rank. The result is as long as the shorter list.
    pub fn product(&self, other: &Pieces) -> Result<Pieces, NoMemory>
        ensures value { IfOk result (λ list. list ≡ map saturated (rank_product self.now other.now)) }
        ensures few_pieces { IfOk result (λ list. runs list ≤ runs self.now + runs other.now) }
    {
        combine(Combination::Product, self, other)
    }

    /// The sum of the two numbers of each rank, where a list is 0 past its end.
    pub fn sum(&self, other: &Pieces) -> Result<Pieces, NoMemory>
        ensures value { IfOk result (λ list. list ≡ map saturated (rank_sum self.now other.now)) }
        ensures few_pieces { IfOk result (λ list. runs list ≤ runs self.now + runs other.now) }
    {
        combine(Combination::Sum, self, other)
    }

    /// The larger of the two numbers of each rank, where a list is 0 past its end.
    pub fn greater(&self, other: &Pieces) -> Result<Pieces, NoMemory>
        ensures value { IfOk result (λ list. list ≡ map saturated (rank_maximum self.now other.now)) }
        ensures few_pieces { IfOk result (λ list. runs list ≤ runs self.now + runs other.now) }
    {
        combine(Combination::Maximum, self, other)
    }
}
