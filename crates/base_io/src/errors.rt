//! Why a call did not do its work.
ghost use Rattle.std.specs.Prelude.{◌≡◌};
ghost use Rattle.base_io.specs.declared.errors.ReadError.TheVariants as read;

use std::alloc::{AllocError, AllocFailed};

/// There was too little memory.
#[derive(Clone, Copy, Debug, PartialEq, Eq)]
pub struct NoMemory;

/// A write failed, and the sink has counted a fault.
#[derive(Clone, Copy, Debug, PartialEq, Eq)]
pub struct Failed;

/// Why a store gave nothing.
#[derive(Clone, Copy, Debug, PartialEq, Eq)]
pub enum StoreError {
    /// The store tells its files, and the name is not among them.
    Missing,
    /// The read failed, and the store has counted a fault.
    Failed,
}

/// Why a whole file was not read.
#[derive(Clone, Copy, Debug, PartialEq, Eq)]
pub enum ReadError {
    /// The store tells its files, and the name is not among them.
    Missing,
    /// A read failed, and the store has counted a fault.
    Fault,
    /// The file has more bytes than the caller's limit.
    TooLong { limit: u32 },
    /// There was too little memory.
    NoMemory,
}

impl From<AllocError> for NoMemory {
    fn from(_: AllocError) -> Self {
        NoMemory
    }
}

impl<T: Drop> From<AllocFailed<T>> for NoMemory {
    fn from(_: AllocFailed<T>) -> Self {
        NoMemory
    }
}

impl From<AllocError> for ReadError {
    ghost from_gives = { λ _ e. e ≡ read.NoMemory };

    fn from(_: AllocError) -> Self {
        ReadError::NoMemory
    }
}

impl From<NoMemory> for ReadError {
    ghost from_gives = { λ _ e. e ≡ read.NoMemory };

    fn from(_: NoMemory) -> Self {
        ReadError::NoMemory
    }
}
