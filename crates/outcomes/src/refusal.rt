//! Why the words and the files are refused.
ghost use Rattle.std.specs.Prelude.{◌≡◌};
ghost use Rattle.outcomes.specs.Statuses.{code_of_refusal};

use crate::FileId;
use schema_types::LimitKind;

/// What is wrong with a schema text at some offset.
#[derive(Clone, Copy, Debug, PartialEq, Eq)]
pub enum SchemaCause {
    Syntax,
    Name,
    Nullable,
}

/// What is wrong with a query text at some offset.
#[derive(Clone, Copy, Debug, PartialEq, Eq)]
pub enum QueryCause {
    Syntax,
    Name,
    Kind,
}

/// What is wrong with a table's file. Records are numbered from 0; record 0 is the header. Columns are those of the
/// schema, numbered from 0.
#[derive(Clone, Copy, Debug, PartialEq, Eq)]
pub enum TableCause {
    Utf8 { at: u32 },
    Header { column: u32 },
    Width { row: u32, found: u32 },
    Field { row: u32, column: u32 },
    Key { row: u32, earlier: u32 },
}

/// What is wrong with a file of statistics. `Syntax`: a line isn't in the grammar. `Rule`: a line breaks a rule on values. `Missing`: something
/// that a FROM entry needs is missing.
#[derive(Clone, Copy, Debug, PartialEq, Eq)]
pub enum StatsCause {
    Syntax,
    Rule,
    Missing,
}

/// A refusal, which follows only from the words and the files. `at` is an offset in bytes, from 0, except in `Stats`.
#[derive(Clone, Copy, Debug, PartialEq, Eq)]
pub enum Refusal {
    /// The words are no command of the program.
    Usage,
    /// The file isn't there.
    Missing {
        file: FileId,
    },
    /// The schema text is refused at this offset.
    Schema {
        cause: SchemaCause,
        at: u32,
    },
    /// The query text is refused at this offset.
    Query {
        cause: QueryCause,
        at: u32,
    },
    /// The file of the table with this number in the schema is refused.
    Table {
        table: u32,
        cause: TableCause,
    },
    /// The file of statistics is refused. `at` is the line, counted from 1. If something is missing, `at` is the FROM entry, counted from 0.
    Stats {
        cause: StatsCause,
        at: u32,
    },
    /// The file has more of something than the limit allows. `found` is how many it has.
    Limit {
        which: LimitKind,
        file: FileId,
        found: u64,
    },
    /// The least cost of an order, in rows, is above the budget.
    Budget {
        least: u128,
    },
    /// The plan's buffers take this many bytes, which is more than the limit of memory.
    MemoryLimit {
        bytes: u128,
    },
    /// The least cost of an order is 2^128 - 1 or more.
    PastBits,
}

impl Refusal {
    /// The exit status of a process that ends with this refusal. An absent file has the exit status of a failed read.
    pub(crate) fn code(&self) -> u8
        ensures { result ≡ code_of_refusal self.now }
    {
        match self {
            Refusal::Usage => 2,
            Refusal::Missing { .. } => 3,
            Refusal::Schema { .. } => 4,
            Refusal::Query { .. } => 5,
            Refusal::Table { .. } => 6,
            Refusal::Limit { .. } => 7,
            Refusal::Budget { .. } => 8,
            Refusal::PastBits => 9,
            Refusal::Stats { .. } => 14,
            Refusal::MemoryLimit { .. } => 16,
        }
    }
}
