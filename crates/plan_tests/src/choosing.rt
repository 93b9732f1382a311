//! Why a test got no tree, and how many sets a number of entries has.
ghost use Rattle.std.specs.Prelude.{◌≡◌, ◌^◌, ◌≤◌};
ghost use Rattle.limits.specs.Profile.{most_entries};

use order_search::PlanError;
use std::alloc::{AllocError, AllocFailed};

#[derive(Debug, Drop)]
pub enum Fail {
    // The test's input breaks a condition of the choice, or memory ran out.
    InputOrMemory,
    NoTree(PlanError),
}

impl From<AllocError> for Fail {
    fn from(_: AllocError) -> Self {
        Fail::InputOrMemory
    }
}

impl<T: Drop> From<AllocFailed<T>> for Fail {
    fn from(_: AllocFailed<T>) -> Self {
        Fail::InputOrMemory
    }
}

impl From<PlanError> for Fail {
    fn from(error: PlanError) -> Self {
        Fail::NoTree(error)
    }
}

pub fn number_of_sets(count: usize) -> usize
    requires { count ≤ most_entries }
    ensures { result ≡ 2 ^ count }
{
    1 << count
}
