//! Counts a column's keys: the degree sequence of the column, as runs.
ghost use Rattle.std.specs.Prelude.{◌≡◌, ◌≤◌, length, IfErr, IfOk, OnErr, OnOk};
ghost use Rattle.limits.specs.Profile.{greatest_rows};
ghost use Rattle.degree_sequences.specs.Degrees.{degree_list};
ghost use Rattle.safebound_lists.specs.Causes.{IsDegreesCause};
ghost use Rattle.safebound_lists.specs.Written.{IsWritten};

use crate::refusal::Refusal;
use crate::runs::Run;
use crate::written::write_runs;
use base_io::NoMemory;
use degree_lists::falling;
use limits::GREATEST_ROWS;
use piece_math::Pieces;
use std::alloc::Global;

/// Writes the degree sequence of a column at the front of `into`, as runs whose degrees strictly decrease. It returns how many runs it
/// wrote. `keys` has the key of each row. The call is refused if there are more than 2^48 keys, if memory runs out, or if `into` is too
/// small. A refused call leaves `into` as it was.
pub fn degrees(alloc: Global, keys: &[u64], into: &mut [Run]) -> Result<u64, Refusal>
    ensures done { IfOk result (IsWritten (degree_list keys.now) into.old into.new) }
    ensures few { OnOk result (length keys.now ≤ greatest_rows) }
    ensures refused { IfErr result (IsDegreesCause keys.now (length into.old)) }
    ensures kept { OnErr result (into.new ≡ into.old) }
{
    if keys.len() as u64 > GREATEST_ROWS {
        return Err(Refusal::Keys {
            count: keys.len() as u64,
        });
    }
    let degrees = falling(alloc, keys)?;
    let list = Pieces::from_list(alloc, degrees.as_slice())?;
    write_runs(&list, into)
}
