//! Why nothing was measured.
use base_io::NoMemory;
use outcomes::Failure;
use schema_types::SchemaError;
use sql_parse::QueryError;
use std::alloc::AllocError;
use std::io;

/// Nothing was measured.
#[derive(Clone, Copy)]
pub(crate) struct Failed;

impl From<NoMemory> for Failed {
    fn from(_: NoMemory) -> Self {
        Failed
    }
}

impl From<AllocError> for Failed {
    fn from(_: AllocError) -> Self {
        Failed
    }
}

impl From<SchemaError> for Failed {
    fn from(_: SchemaError) -> Self {
        Failed
    }
}

impl From<QueryError> for Failed {
    fn from(_: QueryError) -> Self {
        Failed
    }
}

impl From<Failure> for Failed {
    fn from(_: Failure) -> Self {
        Failed
    }
}

impl From<io::Error> for Failed {
    fn from(_: io::Error) -> Self {
        Failed
    }
}

impl From<Failed> for io::Error {
    fn from(_: Failed) -> Self {
        io::Error::from(io::ErrorKind::Other)
    }
}
