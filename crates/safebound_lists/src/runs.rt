//! Lists as runs, and whether the runs are valid.
ghost use Rattle.std.specs.Prelude.{◌≡◌, ◌<◌, ◌≤◌, length, IfOk, MatchOption};
ghost use Rattle.std.specs.List.{sum};
ghost use Rattle.limits.specs.Profile.{greatest_rows};
ghost use Rattle.safebound_lists.specs.First.{IsFirstWrong};
ghost use Rattle.safebound_lists.specs.Runs.{AreValid, IsValidAt, list_of};

use base_io::NoMemory;
use limits::GREATEST_ROWS;
use piece_math::Pieces;
use std::alloc::Global;

/// `keys` different keys, each of which is in `degree` rows.
#[repr(C)]
#[derive(Clone, Copy, Debug, PartialEq, Eq)]
pub struct Run {
    pub degree: u64,
    pub keys: u64,
}

/// The index of the first invalid run, if there is one.
pub fn first_invalid_run(runs: &[Run]) -> Option<usize>
    ensures { MatchOption result (AreValid runs.now) (λ place. IsFirstWrong (IsValidAt runs.now) (length runs.now) place) }
{
    let mut least = u64::MAX;
    let mut remaining = GREATEST_ROWS;
    for (place, run) in runs.iter().enumerate() {
        if run.degree == 0
            || run.keys == 0
            || run.degree > least
            || run.keys > remaining / run.degree
        {
            return Some(place);
        }
        remaining -= run.degree * run.keys;
        least = run.degree;
    }
    None
}

/// The list that valid runs stand for.
pub fn pieces_of(alloc: Global, runs: &[Run]) -> Result<Pieces, NoMemory>
    requires { AreValid runs.now }
    ensures pieces { IfOk result (λ pieces. pieces ≡ list_of runs.now) }
    ensures small { IfOk result (λ pieces. sum pieces ≤ greatest_rows) }
{
    let mut pieces = Pieces::empty(alloc);
    for run in runs {
        pieces.push_run(u128::from(run.degree), run.keys)?;
    }
    Ok(pieces)
}
