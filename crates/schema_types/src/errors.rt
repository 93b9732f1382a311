//! Why a schema text gave no schema.
ghost use Rattle.std.specs.Prelude.{◌≡◌};
ghost use Rattle.schema_types.specs.declared.errors.SchemaError.TheVariants as error;

use base_io::NoMemory;
use std::alloc::{AllocError, AllocFailed};

/// The limit that an input exceeds.
#[derive(Clone, Copy, Debug, PartialEq, Eq)]
pub enum LimitKind {
    FileBytes,
    Tables,
    Columns,
    TextLength,
    Nesting,
    FromEntries,
    InValues,
    Conjuncts,
    Outputs,
    Rows,
}

/// Why no schema was read. `at` is an offset in the text, in bytes from 0.
#[derive(Clone, Copy, Debug, PartialEq, Eq)]
pub enum SchemaError {
    /// The text doesn't follow the grammar. Its first error is at this offset.
    Syntax { at: u32 },
    /// A rule on names is broken at this offset.
    Name { at: u32 },
    /// The column whose name begins at this offset may be null.
    Nullable { at: u32 },
    /// The limit `which` is exceeded. `found` is the number above the limit, or 2^64 - 1 if that number is larger.
    Limit { which: LimitKind, found: u64 },
    NoMemory,
}

impl From<NoMemory> for SchemaError {
    ghost from_gives = { λ _ e. e ≡ error.NoMemory };

    fn from(_: NoMemory) -> Self {
        SchemaError::NoMemory
    }
}

impl From<AllocError> for SchemaError {
    ghost from_gives = { λ _ e. e ≡ error.NoMemory };

    fn from(_: AllocError) -> Self {
        SchemaError::NoMemory
    }
}

impl<T: Drop> From<AllocFailed<T>> for SchemaError {
    ghost from_gives = { λ _ e. e ≡ error.NoMemory };

    fn from(_: AllocFailed<T>) -> Self {
        SchemaError::NoMemory
    }
}
