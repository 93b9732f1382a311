//! The calls for lists.
ghost use Rattle.std.specs.Prelude.{◌≡◌, ◌≤◌, length};
ghost use Rattle.limits.specs.Profile.{greatest_rows};
ghost use Rattle.degree_sequences.specs.ByRank.{rank_maximum, rank_sum};
ghost use Rattle.degree_sequences.specs.Compression.{compressed};
ghost use Rattle.degree_sequences.specs.Degrees.{degree_list};
ghost use Rattle.degree_sequences.specs.RunningSums.{capped_at, lesser};
ghost use Rattle.safebound_lists.specs.Causes.{IsAppendCause, IsCompressCause, IsCutCause, IsDegreesCause, IsGreaterCause, IsLesserCause};
ghost use Rattle.safebound_lists.specs.Runs.{AreBothValid, AreValid, MayBeAdded, MayBeCompressed, MayTakeGreater, list_of};
ghost use Rattle.safebound_lists.specs.Written.{IsWritten};
ghost use Rattle.safebound_c.specs.Status.{TellsAnswer, ok_status};

use crate::status::answer_status;
use safebound_lists::{Run, append, compress, cut, degrees, greater_of, lesser_of};
use std::alloc::Global;

/// Writes the degree sequence of a column's keys, as runs in descending order of degrees.
#[unsafe(no_mangle)]
pub extern "C" fn safebound_degrees(
    alloc: Global,
    keys: &[u64],
    into: &mut [Run],
    detail: &mut u64,
) -> u32
    ensures exact { TellsAnswer (IsWritten (degree_list keys.now) into.old into.new) (IsDegreesCause keys.now (length into.old))
        into.old into.new detail.old result detail.new }
    ensures few { result ≡ ok_status → length keys.now ≤ greatest_rows }
{
    answer_status(degrees(alloc, keys, into), detail)
}

/// Compresses a list at an accuracy, and writes the compressed list. It has few runs, and dominates what the list dominates.
#[unsafe(no_mangle)]
pub extern "C" fn safebound_compress(
    alloc: Global,
    runs: &[Run],
    accuracy: u64,
    into: &mut [Run],
    detail: &mut u64,
) -> u32
    ensures exact { TellsAnswer (IsWritten (compressed accuracy (list_of runs.now)) into.old into.new)
        (IsCompressCause runs.now accuracy (length into.old)) into.old into.new detail.old result detail.new }
    ensures valid { result ≡ ok_status → MayBeCompressed runs.now accuracy }
{
    answer_status(compress(alloc, runs, accuracy, into), detail)
}

/// Writes the rank-wise sum of two lists. If one list dominates old rows and the other appended rows, the sum dominates all these rows together.
#[unsafe(no_mangle)]
pub extern "C" fn safebound_append(
    alloc: Global,
    runs: &[Run],
    others: &[Run],
    into: &mut [Run],
    detail: &mut u64,
) -> u32
    ensures exact { TellsAnswer (IsWritten (rank_sum (list_of runs.now) (list_of others.now)) into.old into.new)
        (IsAppendCause runs.now others.now (length into.old)) into.old into.new detail.old result detail.new }
    ensures valid { result ≡ ok_status → MayBeAdded runs.now others.now }
{
    answer_status(append(alloc, runs, others, into), detail)
}

/// Writes the list in which each running sum is the lesser of the two lists' running sums. Let one list dominate the rows of one condition, and the
/// other those of another. Then the result dominates the rows that satisfy both conditions.
#[unsafe(no_mangle)]
pub extern "C" fn safebound_lesser(
    alloc: Global,
    runs: &[Run],
    others: &[Run],
    into: &mut [Run],
    detail: &mut u64,
) -> u32
    ensures exact { TellsAnswer (IsWritten (lesser (list_of runs.now) (list_of others.now)) into.old into.new)
        (IsLesserCause runs.now others.now (length into.old)) into.old into.new detail.old result detail.new }
    ensures valid { result ≡ ok_status → AreBothValid runs.now others.now }
{
    answer_status(lesser_of(alloc, runs, others, into), detail)
}

/// Writes the greater of two lists, rank by rank. The result dominates what the first list dominates, and also what the second list dominates.
/// For example, from the lists of two values it makes one that serves for either value.
#[unsafe(no_mangle)]
pub extern "C" fn safebound_greater(
    alloc: Global,
    runs: &[Run],
    others: &[Run],
    into: &mut [Run],
    detail: &mut u64,
) -> u32
    ensures exact { TellsAnswer (IsWritten (rank_maximum (list_of runs.now) (list_of others.now)) into.old into.new)
        (IsGreaterCause runs.now others.now (length into.old)) into.old into.new detail.old result detail.new }
    ensures valid { result ≡ ok_status → MayTakeGreater runs.now others.now }
{
    answer_status(greater_of(alloc, runs, others, into), detail)
}

/// Writes the list, cut so that it sums to at most `rows`. If the list dominates some rows, and there are at most `rows` of them, the cut list
/// dominates them too.
#[unsafe(no_mangle)]
pub extern "C" fn safebound_cut(
    alloc: Global,
    runs: &[Run],
    rows: u64,
    into: &mut [Run],
    detail: &mut u64,
) -> u32
    ensures exact { TellsAnswer (IsWritten (capped_at (list_of runs.now) rows) into.old into.new)
        (IsCutCause runs.now rows (length into.old)) into.old into.new detail.old result detail.new }
    ensures valid { result ≡ ok_status → AreValid runs.now }
{
    answer_status(cut(alloc, runs, rows, into), detail)
}
