//! The lesser and the greater of two lists.
ghost use Rattle.std.specs.Prelude.{◌≡◌, length, IfErr, IfOk, OnErr, OnOk};
ghost use Rattle.degree_sequences.specs.ByRank.{rank_maximum};
ghost use Rattle.degree_sequences.specs.RunningSums.{lesser};
ghost use Rattle.safebound_lists.specs.Causes.{IsGreaterCause, IsLesserCause};
ghost use Rattle.safebound_lists.specs.Runs.{AreBothValid, MayTakeGreater, list_of};
ghost use Rattle.safebound_lists.specs.Written.{IsWritten};

use crate::refusal::Refusal;
use crate::runs::{Run, first_invalid_run, pieces_of};
use crate::written::write_runs;
use limits::GREATEST_ROWS;
use std::alloc::Global;

/// From lists that dominate the rows of two conditions, writes a list that dominates the rows that satisfy both. Each running sum of the new list
/// is the lesser of the two lists' running sums.
pub fn lesser_of(
    alloc: Global,
    runs: &[Run],
    others: &[Run],
    into: &mut [Run],
) -> Result<u64, Refusal>
    ensures done { IfOk result (IsWritten (lesser (list_of runs.now) (list_of others.now)) into.old into.new) }
    ensures valid { OnOk result (AreBothValid runs.now others.now) }
    ensures refused { IfErr result (IsLesserCause runs.now others.now (length into.old)) }
    ensures kept { OnErr result (into.new ≡ into.old) }
{
    if let Some(place) = first_invalid_run(runs) {
        return Err(Refusal::Run {
            place: place as u64,
        });
    }
    if let Some(place) = first_invalid_run(others) {
        return Err(Refusal::OtherRun {
            place: place as u64,
        });
    }
    let list = pieces_of(alloc, runs)?;
    let other = pieces_of(alloc, others)?;
    let both = list.lesser(&other)?;
    write_runs(&both, into)
}

/// Writes a list that dominates the rows of each of two values, from the list of each value. The new list has the greater degree at each rank.
pub fn greater_of(
    alloc: Global,
    runs: &[Run],
    others: &[Run],
    into: &mut [Run],
) -> Result<u64, Refusal>
    ensures done { IfOk result (IsWritten (rank_maximum (list_of runs.now) (list_of others.now)) into.old into.new) }
    ensures valid { OnOk result (MayTakeGreater runs.now others.now) }
    ensures refused { IfErr result (IsGreaterCause runs.now others.now (length into.old)) }
    ensures kept { OnErr result (into.new ≡ into.old) }
{
    if let Some(place) = first_invalid_run(runs) {
        return Err(Refusal::Run {
            place: place as u64,
        });
    }
    if let Some(place) = first_invalid_run(others) {
        return Err(Refusal::OtherRun {
            place: place as u64,
        });
    }
    let list = pieces_of(alloc, runs)?;
    let other = pieces_of(alloc, others)?;
    let both = list.greater(&other)?;
    let sum = both.total();
    if sum > u128::from(GREATEST_ROWS) {
        return Err(Refusal::Sum { sum: sum as u64 });
    }
    write_runs(&both, into)
}
