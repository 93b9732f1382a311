//! The type `Pieces`: how a list is made, filled and read.
ghost use Rattle.std.specs.Prelude.{◌≡◌, ◌+◌, ◌^◌, ◌<◌, ◌≤◌, [], ◌++◌, replicate, length, IfOk, OnOk, OnErr};
ghost use Rattle.std.specs.List.{All, sum};
ghost use Rattle.degree_sequences.specs.Descending.{IsDescending};
ghost use Rattle.degree_sequences.specs.Runs.{runs};
ghost use Rattle.degree_sequences.specs.Saturation.{saturated};
ghost use Rattle.piece_math.specs.Expanded.{expanded, ArePieces, IsAppended};

use base_io::NoMemory;
use std::alloc::Global;
use std::marker::Model;

/// Equal elements of a list, one after another.
#[derive(Clone, Copy, Debug, Default, PartialEq, Eq)]
pub struct Piece {
    pub value: u128,
    pub count: u64,
}

/// A list of positive numbers in descending order. It is kept as pieces with strictly descending values. Contracts speak of the list itself.
#[derive(Debug, Drop)]
pub struct Pieces {
    parts: Vec<Piece>,
}

impl Model for Pieces {
    ghost use Rattle.std.specs.Prelude.{ℕ, List};
    ghost use Rattle.piece_math.specs.Expanded.{expanded, ArePieces};

    ghost Value = { List ℕ };

    ghost view = { λ p. expanded p.parts.items };

    ghost invariant = { λ p. ArePieces p.parts.items };
}

impl Pieces {
    /// The empty list. It takes no memory.
    pub fn empty(alloc: Global) -> Pieces
        ensures { result ≡ [] }
    {
        Pieces {
            parts: Vec::new(alloc),
        }
    }

    // The empty list, with room for this many pieces.
    pub(crate) fn with_room(alloc: Global, pieces: usize) -> Result<Pieces, NoMemory>
        ensures { IfOk result (λ list. list ≡ []) }
    {
        Ok(Pieces {
            parts: Vec::with_capacity(alloc, pieces)?,
        })
    }

    /// The pieces, which stand for the list. There is one for each run of equal elements.
    pub fn pieces(&self) -> &[Piece]
        ensures stands_for { self.now ≡ expanded result.now }
        ensures whole { ArePieces result.now }
        ensures one_per_run { length result.now ≡ runs self.now }
        ensures list_falls { IsDescending self.now }
        ensures positive { All (λ x. 0 < x) self.now }
    {
        self.parts.as_slice()
    }

    /// Appends `count` elements of a value that is at most each element so far. On `NoMemory` the list is unchanged.
    pub fn push_run(&mut self, value: u128, count: u64) -> Result<(), NoMemory>
        requires value { 0 < value }
        requires descends { All (λ x. value ≤ x) self.old }
        requires count { 0 < count }
        requires room { length self.old + count < 2 ^ 64 }
        ensures ok { OnOk result (self.new ≡ self.old ++ replicate count value) }
        ensures err { OnErr result (self.new ≡ self.old) }
    {
        let len = self.parts.len();
        if len > 0 && self.parts.as_slice()[len - 1].value == value {
            let last = self.parts.as_slice()[len - 1];
            self.parts.truncate(len - 1);
            self.parts.push_reserved(Piece {
                value,
                count: last.count + count,
            });
        } else {
            self.parts.push(Piece { value, count })?;
        }
        Ok(())
    }

    // Appends `count` elements of a value, unless the value is 0.
    pub(crate) fn put(&mut self, value: u128, count: u64) -> Result<(), NoMemory>
        requires descends { 0 < value → 0 < count → All (λ x. value ≤ x) self.old }
        requires room { 0 < value → 0 < count → length self.old + count < 2 ^ 64 }
        ensures { OnOk result (IsAppended self.old self.new value count) }
    {
        if value > 0 && count > 0 {
            self.push_run(value, count)?;
        }
        Ok(())
    }

    // The allocator of the list.
    pub(crate) fn alloc(&self) -> Global {
        *self.parts.allocator()
    }

    /// A copy of the list.
    pub fn copy(&self) -> Result<Pieces, NoMemory>
        ensures { IfOk result (λ copy. copy ≡ self.now) }
    {
        let parts = Vec::from_slice(*self.parts.allocator(), self.parts.as_slice())?;
        Ok(Pieces { parts })
    }

    /// The sum of the list, or `u128::MAX` if the sum is larger.
    #[tactic(auto, using(crate::proofs::Expansion::sum_at_piece))]
    pub fn total(&self) -> u128
        ensures { result ≡ saturated (sum self.now) }
    {
        let mut total: u128 = 0;
        for piece in self.parts.as_slice() {
            let sum = piece.value.saturating_mul(u128::from(piece.count));
            total = total.saturating_add(sum);
        }
        total
    }
}
