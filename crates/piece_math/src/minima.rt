//! Lists whose running sums are minima: the lesser of two lists, and a list whose running sums are capped at a number.
ghost use Rattle.std.specs.Prelude.{◌≡◌, ◌+◌, ◌*◌, ◌^◌, ◌<◌, ◌≤◌, IfOk};
ghost use Rattle.std.specs.List.{sum};
ghost use Rattle.degree_sequences.specs.RunningSums.{lesser, capped_at};
ghost use Rattle.degree_sequences.specs.Runs.{runs};
ghost use Rattle.piece_math.specs.Lines.{IsBend};

use crate::pieces::{Piece, Pieces};
use crate::walk::{PiecePlaces, START, next_stretch};
use base_io::NoMemory;

// A line: the running sums of a list along equal elements. It begins at `sum` and rises by `step` at each rank.
#[derive(Clone, Copy)]
struct Line {
    sum: u128,
    step: u128,
}

// The steps by which the lower of two lines rises: before they cross, at the crossing, and after it.
#[derive(Clone, Copy)]
struct Bend {
    before: Piece,
    between: Piece,
    after: Piece,
}

// The lower of two lines, if `low` doesn't begin above `high`. If `low` is steeper, the lines may cross once, within one rank.
fn crossing(low: Line, high: Line, count: u64) -> Bend
    requires { low.sum ≤ high.sum }
    ensures { IsBend low high count result }
{
    let none = Piece { value: 0, count: 0 };
    let straight = Bend {
        before: Piece {
            value: low.step,
            count,
        },
        between: none,
        after: none,
    };
    if low.step <= high.step {
        return straight;
    }
    let apart = high.sum - low.sum;
    let closing = low.step - high.step;
    let whole = apart / closing;
    if whole >= u128::from(count) {
        return straight;
    }
    let before = whole as u64;
    Bend {
        before: Piece {
            value: low.step,
            count: before,
        },
        between: Piece {
            value: high.step + apart % closing,
            count: 1,
        },
        after: Piece {
            value: high.step,
            count: count - before - 1,
        },
    }
}

// The lower of two lines, whichever of them begins below the other.
fn lower_line(left: Line, right: Line, count: u64) -> Bend
    ensures { IsBend left right count result }
{
    if left.sum <= right.sum {
        crossing(left, right, count)
    } else {
        crossing(right, left, count)
    }
}

impl Pieces {
    /// The list whose running sum at each rank is the lesser of the two lists' running sums.
    pub fn lesser(&self, other: &Pieces) -> Result<Pieces, NoMemory>
        requires own_total { sum self.now < 2 ^ 128 }
        requires other_total { sum other.now < 2 ^ 128 }
        ensures value { IfOk result (λ list. list ≡ lesser self.now other.now) }
        ensures few_pieces { IfOk result (λ list. runs list ≤ 3 * (runs self.now + runs other.now)) }
    {
        let a = self.pieces();
        let b = other.pieces();
        let mut list = Pieces::empty(self.alloc());
        let mut places = PiecePlaces {
            left: START,
            right: START,
        };
        let mut left_sum: u128 = 0;
        let mut right_sum: u128 = 0;
        while places.left.at < a.len() || places.right.at < b.len() {
            let stretch = next_stretch(a, b, places);
            let left = Line {
                sum: left_sum,
                step: stretch.left,
            };
            let right = Line {
                sum: right_sum,
                step: stretch.right,
            };
            let lower = lower_line(left, right, stretch.count);
            list.put(lower.before.value, lower.before.count)?;
            list.put(lower.between.value, lower.between.count)?;
            list.put(lower.after.value, lower.after.count)?;
            left_sum += stretch.left * u128::from(stretch.count);
            right_sum += stretch.right * u128::from(stretch.count);
            places = stretch.next;
        }
        Ok(list)
    }

    /// The list whose running sum at each rank is the lesser of this list's running sum and `n`.
    pub fn cap(&self, n: u64) -> Result<Pieces, NoMemory>
        ensures value { IfOk result (λ list. list ≡ capped_at self.now n) }
        ensures few_pieces { IfOk result (λ list. runs list ≤ runs self.now + 1) }
    {
        let mut list = Pieces::empty(self.alloc());
        let mut left = u128::from(n);
        for piece in self.pieces() {
            let whole = left / piece.value;
            if whole < u128::from(piece.count) {
                list.put(piece.value, whole as u64)?;
                list.put(left % piece.value, 1)?;
                return Ok(list);
            }
            list.put(piece.value, piece.count)?;
            left -= piece.value * u128::from(piece.count);
        }
        Ok(list)
    }
}
