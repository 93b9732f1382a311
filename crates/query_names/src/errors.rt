//! Why a query text isn't accepted.
ghost use Rattle.std.specs.Prelude.{◌≡◌};
ghost use Rattle.query_names.specs.declared.errors.QueryError.TheVariants as error;

use base_io::NoMemory;
use schema_types::LimitKind;
use std::alloc::{AllocError, AllocFailed};

/// Why a query text isn't accepted. `at` is an offset in the text, in bytes from 0.
#[derive(Clone, Copy, Debug, PartialEq, Eq)]
pub enum QueryError {
    /// The text breaks the grammar at this offset.
    Syntax { at: u32 },
    /// The name at this offset is unknown or ambiguous.
    Name { at: u32 },
    /// The operand at this offset is compared with an operand of the other kind (a number with a text).
    Kind { at: u32 },
    /// The limit `which` is exceeded. `found` is the number above the limit, or 2^64 - 1 if that number is larger.
    Limit { which: LimitKind, found: u64 },
    NoMemory,
}

impl From<NoMemory> for QueryError {
    ghost from_gives = { λ _ e. e ≡ error.NoMemory };

    fn from(_: NoMemory) -> Self {
        QueryError::NoMemory
    }
}

impl From<AllocError> for QueryError {
    ghost from_gives = { λ _ e. e ≡ error.NoMemory };

    fn from(_: AllocError) -> Self {
        QueryError::NoMemory
    }
}

impl<T: Drop> From<AllocFailed<T>> for QueryError {
    ghost from_gives = { λ _ e. e ≡ error.NoMemory };

    fn from(_: AllocFailed<T>) -> Self {
        QueryError::NoMemory
    }
}
