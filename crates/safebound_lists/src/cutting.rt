//! A list that is cut at a number of rows.
ghost use Rattle.std.specs.Prelude.{◌≡◌, length, IfErr, IfOk, OnErr, OnOk};
ghost use Rattle.degree_sequences.specs.RunningSums.{capped_at};
ghost use Rattle.safebound_lists.specs.Causes.{IsCutCause};
ghost use Rattle.safebound_lists.specs.Runs.{AreValid, list_of};
ghost use Rattle.safebound_lists.specs.Written.{IsWritten};

use crate::refusal::Refusal;
use crate::runs::{Run, first_invalid_run, pieces_of};
use crate::written::write_runs;
use std::alloc::Global;

/// Writes the list, cut at a number of rows: no running sum is above `rows`. If the list dominates some keys, and there are at most
/// `rows` of them, the cut list dominates them too.
pub fn cut(alloc: Global, runs: &[Run], rows: u64, into: &mut [Run]) -> Result<u64, Refusal>
    ensures done { IfOk result (IsWritten (capped_at (list_of runs.now) rows) into.old into.new) }
    ensures valid { OnOk result (AreValid runs.now) }
    ensures refused { IfErr result (IsCutCause runs.now rows (length into.old)) }
    ensures kept { OnErr result (into.new ≡ into.old) }
{
    if let Some(place) = first_invalid_run(runs) {
        return Err(Refusal::Run {
            place: place as u64,
        });
    }
    let list = pieces_of(alloc, runs)?;
    let few = list.cap(rows)?;
    write_runs(&few, into)
}
