//! What is read from table files, and why a file is refused.
ghost use Rattle.std.specs.Prelude.{◌≡◌};
ghost use Rattle.csv_tables.specs.declared.types.TableError.TheVariants as error;

use crate::pool::Pool;
use base_io::{NoMemory, Seq};
use schema_types::Kind;
use std::alloc::AllocFailed;

/// A table's cells, column by column, each column with one cell for each of `rows` records. A cell of a number is its 64 bits in two's complement. A
/// cell of a text is its number in the pool.
#[derive(Debug, Drop)]
pub struct Cells {
    pub kinds: Seq<Kind>,
    pub columns: Seq<Seq<u64>>,
    pub rows: u32,
}

/// The tables of a query: their texts, their cells, and for each FROM entry the index of its
/// table in `cells`.
#[derive(Drop)]
pub struct Database {
    pub pool: Pool,
    pub cells: Seq<Cells>,
    pub slots: Seq<u32>,
}

/// Why no cells were read. Records are numbered from 0, the header; columns are declared columns,
/// numbered from 0.
#[derive(Clone, Copy, Debug, PartialEq, Eq)]
pub enum TableError {
    /// The file isn't UTF-8. Its longest UTF-8 prefix has `at` bytes.
    Utf8 { at: u32 },
    /// No header field names this column, or more than one does.
    Header { column: u32 },
    /// Record `row` has `found` fields, and the header has another number of fields.
    Width { row: u32, found: u32 },
    /// The field of this column in record `row` is outside the column's type.
    Field { row: u32, column: u32 },
    /// Record `row` has the values of the record `earlier` in the columns of a key.
    Key { row: u32, earlier: u32 },
    /// More than 4,000,000 records follow the header. The reader stopped at record `found`.
    Limit { found: u32 },
    /// There was too little memory.
    NoMemory,
}

/// Two records with the same values in the columns of a key, by their numbers. The records after the header are numbered from 1.
#[derive(Clone, Copy, Debug, PartialEq, Eq)]
pub(crate) struct Repeat {
    pub later: u32,
    pub earlier: u32,
}

impl From<NoMemory> for TableError {
    ghost from_gives = { λ _ e. e ≡ error.NoMemory };

    fn from(_: NoMemory) -> Self {
        TableError::NoMemory
    }
}

impl<T: Drop> From<AllocFailed<T>> for TableError {
    ghost from_gives = { λ _ e. e ≡ error.NoMemory };

    fn from(_: AllocFailed<T>) -> Self {
        TableError::NoMemory
    }
}
