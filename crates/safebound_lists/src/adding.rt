//! The rank-wise sum of two lists.
ghost use Rattle.std.specs.Prelude.{◌≡◌, length, IfErr, IfOk, OnErr, OnOk};
ghost use Rattle.degree_sequences.specs.ByRank.{rank_sum};
ghost use Rattle.safebound_lists.specs.Causes.{IsAppendCause};
ghost use Rattle.safebound_lists.specs.Runs.{MayBeAdded, list_of};
ghost use Rattle.safebound_lists.specs.Written.{IsWritten};

use crate::refusal::Refusal;
use crate::runs::{Run, first_invalid_run, pieces_of};
use crate::written::write_runs;
use limits::GREATEST_ROWS;
use std::alloc::Global;

/// Writes the list of a column that got new rows. It is the rank-wise sum of the column's list and the list of the new rows.
pub fn append(alloc: Global, runs: &[Run], others: &[Run], into: &mut [Run]) -> Result<u64, Refusal>
    ensures done { IfOk result (IsWritten (rank_sum (list_of runs.now) (list_of others.now)) into.old into.new) }
    ensures valid { OnOk result (MayBeAdded runs.now others.now) }
    ensures refused { IfErr result (IsAppendCause runs.now others.now (length into.old)) }
    ensures kept { OnErr result (into.new ≡ into.old) }
{
    if let Some(place) = first_invalid_run(runs) {
        return Err(Refusal::Run {
            place: place as u64,
        });
    }
    if let Some(place) = first_invalid_run(others) {
        return Err(Refusal::OtherRun {
            place: place as u64,
        });
    }
    let list = pieces_of(alloc, runs)?;
    let other = pieces_of(alloc, others)?;
    let sum = list.total() + other.total();
    if sum > u128::from(GREATEST_ROWS) {
        return Err(Refusal::Sum { sum: sum as u64 });
    }
    let both = list.sum(&other)?;
    write_runs(&both, into)
}
