//! Lists written as runs into a caller's room.
ghost use Rattle.std.specs.Prelude.{◌≡◌, ◌<◌, ◌^◌, length, IfErr, IfOk, OnErr};
ghost use Rattle.std.specs.List.{AllByRecursion};
ghost use Rattle.degree_sequences.specs.Runs.{runs};
ghost use Rattle.safebound_lists.specs.Written.{IsWritten, IsRoomRefusal};

use crate::refusal::Refusal;
use crate::runs::Run;
use piece_math::Pieces;

/// Writes a list as runs, and returns how many runs it wrote.
pub(crate) fn write_runs(list: &Pieces, into: &mut [Run]) -> Result<u64, Refusal>
    requires { AllByRecursion (λ x. x < 2 ^ 64) list.now }
    ensures done { IfOk result (IsWritten list.now into.old into.new) }
    ensures refused { IfErr result (IsRoomRefusal (runs list.now) (length into.old)) }
    ensures kept { OnErr result (into.new ≡ into.old) }
{
    let pieces = list.pieces();
    if into.len() < pieces.len() {
        return Err(Refusal::Room {
            needed: pieces.len() as u64,
        });
    }
    for (place, piece) in pieces.iter().enumerate() {
        into[place] = Run {
            degree: piece.value as u64,
            keys: piece.count,
        };
    }
    Ok(pieces.len() as u64)
}
