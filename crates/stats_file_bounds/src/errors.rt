//! The reasons why a file gives no bounds for a query.
ghost use Rattle.std.specs.Prelude.{◌≡◌};
ghost use Rattle.stats_file_bounds.specs.declared.errors.NeedError.TheVariants as error;

use base_io::NoMemory;
use std::alloc::AllocFailed;

/// Why a file gives no bounds for a query.
#[derive(Clone, Copy, Debug, PartialEq, Eq)]
pub enum NeedError {
    /// The file lacks a section or a pair that this FROM entry needs. Entries before it lack nothing.
    Missing { from: u8 },
    /// Memory ran out.
    NoMemory,
}

impl From<NoMemory> for NeedError {
    ghost from_gives = { λ _ e. e ≡ error.NoMemory };

    fn from(_: NoMemory) -> Self {
        NeedError::NoMemory
    }
}

impl<T: Drop> From<AllocFailed<T>> for NeedError {
    ghost from_gives = { λ _ e. e ≡ error.NoMemory };

    fn from(_: AllocFailed<T>) -> Self {
        NeedError::NoMemory
    }
}
