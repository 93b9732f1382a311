//! Compresses a list into few runs.
ghost use Rattle.std.specs.Prelude.{◌≡◌, length, IfErr, IfOk, OnErr, OnOk};
ghost use Rattle.degree_sequences.specs.Compression.{compressed};
ghost use Rattle.safebound_lists.specs.Causes.{IsCompressCause};
ghost use Rattle.safebound_lists.specs.Runs.{MayBeCompressed, list_of};
ghost use Rattle.safebound_lists.specs.Written.{IsWritten};

use crate::refusal::Refusal;
use crate::runs::{Run, first_invalid_run, pieces_of};
use crate::written::write_runs;
use limits::{Accuracy, MOST_ACCURACY};
use piece_compress::compress_runs;
use std::alloc::Global;

/// Writes the compressed list, at an accuracy from 1 to 64. The compressed list has the same sum and few runs, and dominates what the list dominates.
pub fn compress(
    alloc: Global,
    runs: &[Run],
    accuracy: u64,
    into: &mut [Run],
) -> Result<u64, Refusal>
    ensures done { IfOk result (IsWritten (compressed accuracy (list_of runs.now)) into.old into.new) }
    ensures valid { OnOk result (MayBeCompressed runs.now accuracy) }
    ensures refused { IfErr result (IsCompressCause runs.now accuracy (length into.old)) }
    ensures kept { OnErr result (into.new ≡ into.old) }
{
    if accuracy == 0 || accuracy > u64::from(MOST_ACCURACY) {
        return Err(Refusal::Accuracy { given: accuracy });
    }
    if let Some(place) = first_invalid_run(runs) {
        return Err(Refusal::Run {
            place: place as u64,
        });
    }
    let list = pieces_of(alloc, runs)?;
    let few = compress_runs(alloc, &list, Accuracy::of(accuracy as u8))?;
    write_runs(&few, into)
}
