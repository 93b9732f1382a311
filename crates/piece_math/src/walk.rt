//! Walks along pieces: how many equal elements follow a position (`PiecePlace`), and the position after them.
ghost use Rattle.std.specs.Prelude.{◌≡◌, ◌+◌, ◌<◌, ◌≤◌, ◌⊎◌, drop, length};
ghost use Rattle.piece_math.specs.Expanded.{ArePieces};
ghost use Rattle.piece_math.specs.PiecePlaces.{rest_from, ahead_of, IsPiecePlace, IsStretch};

use crate::pieces::Piece;

/// A position in a list of pieces: the number of a piece, and how many of its elements are passed.
#[derive(Clone, Copy)]
pub struct PiecePlace {
    pub at: usize,
    pub used: u64,
}

/// A position in each of two lists.
#[derive(Clone, Copy)]
pub struct PiecePlaces {
    pub left: PiecePlace,
    pub right: PiecePlace,
}

/// The next ranks on which neither list changes: their number, the element of each list there, and the positions after them.
#[derive(Clone, Copy)]
pub struct Stretch {
    pub left: u128,
    pub right: u128,
    pub count: u64,
    pub next: PiecePlaces,
}

/// The start of any list.
pub const START: PiecePlace = PiecePlace { at: 0, used: 0 };

/// The equal elements from a position on, within its piece. At the end of the list they are zeros.
pub fn ahead(pieces: &[Piece], place: PiecePlace) -> Piece
    requires { IsPiecePlace pieces.now place }
    ensures { result ≡ ahead_of pieces.now place }
{
    if place.at < pieces.len() {
        let piece = pieces[place.at];
        Piece {
            value: piece.value,
            count: piece.count - place.used,
        }
    } else {
        Piece {
            value: 0,
            count: u64::MAX,
        }
    }
}

/// The position after `count` of the equal elements that `ahead` gives.
pub fn place_after(pieces: &[Piece], place: PiecePlace, count: u64) -> PiecePlace
    requires pieces { ArePieces pieces.now }
    requires place { IsPiecePlace pieces.now place }
    requires count { count ≤ (ahead_of pieces.now place).count }
    ensures rest { rest_from pieces.now result ≡ drop count (rest_from pieces.now place) }
    ensures place { IsPiecePlace pieces.now result }
    ensures stays { place.at ≤ result.at }
    ensures ends { place.at < length pieces.now → count ≡ (ahead_of pieces.now place).count → result.at ≡ place.at + 1 }
    ensures within { place.at < length pieces.now → count < (ahead_of pieces.now place).count
        → result ≡ record { at = place.at; used = place.used + count } }
{
    if place.at >= pieces.len() {
        return place;
    }
    let used = place.used + count;
    if used < pieces[place.at].count {
        PiecePlace { at: place.at, used }
    } else {
        PiecePlace {
            at: place.at + 1,
            used: 0,
        }
    }
}

/// The next stretch of a walk along two lists, from positions that aren't both at the end.
pub fn next_stretch(a: &[Piece], b: &[Piece], places: PiecePlaces) -> Stretch
    requires a { ArePieces a.now }
    requires b { ArePieces b.now }
    requires left { IsPiecePlace a.now places.left }
    requires right { IsPiecePlace b.now places.right }
    requires more { (places.left.at < length a.now) ⊎ (places.right.at < length b.now) }
    ensures { IsStretch a.now b.now places result }
{
    let left = ahead(a, places.left);
    let right = ahead(b, places.right);
    let count = left.count.min(right.count);
    let next = PiecePlaces {
        left: place_after(a, places.left, count),
        right: place_after(b, places.right, count),
    };
    Stretch {
        left: left.value,
        right: right.value,
        count,
        next,
    }
}
