//! Why no plan is chosen.
ghost use Rattle.std.specs.Prelude.{◌≡◌};
ghost use Rattle.order_search.specs.declared.refusal.PlanError.TheVariants as error;

use base_io::NoMemory;
use std::alloc::AllocError;

/// Why there is no plan.
#[derive(Clone, Copy, Debug, PartialEq, Eq)]
pub enum PlanError {
    /// The least cost of a plan, in rows, is above the budget and at most 2^128 - 2.
    Budget { least: u128 },
    /// The least cost is above 2^128 - 2. A bound of 2^128 - 1 means 2^128 - 1 rows or more.
    PastBits,
    /// Memory ran out.
    NoMemory,
}

impl From<NoMemory> for PlanError {
    ghost from_gives = { λ _ e. e ≡ error.NoMemory };

    fn from(_: NoMemory) -> Self {
        PlanError::NoMemory
    }
}

impl From<AllocError> for PlanError {
    ghost from_gives = { λ _ e. e ≡ error.NoMemory };

    fn from(_: AllocError) -> Self {
        PlanError::NoMemory
    }
}
