//! The files and the streams of a run.

/// A file that a run reads. `Table` has the number of the table in the schema.
#[derive(Clone, Copy, Debug, PartialEq, Eq)]
pub enum FileId {
    Schema,
    Query,
    Table(u32),
    Stats,
}

/// A stream that a run writes.
#[derive(Clone, Copy, Debug, PartialEq, Eq)]
pub enum SinkId {
    Out,
    Notes,
}
