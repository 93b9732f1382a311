//! Why a reading stops early.
ghost use Rattle.std.specs.Prelude.{◌≡◌};
ghost use Rattle.outcomes.specs.Errors.{plan_failure, query_failure, schema_failure, stats_failure, table_failure as failure_of};
ghost use Rattle.outcomes.specs.declared.failure.Failure.TheVariants as failure;

use crate::{FileId, QueryCause, Refusal, SchemaCause, StatsCause, TableCause};
use base_io::NoMemory;
use csv_tables::TableError;
use order_search::PlanError;
use schema_types::{LimitKind, SchemaError};
use sql_parse::QueryError;
use stats_file::StatsError;
use std::alloc::AllocFailed;

/// Why a reading stopped.
#[derive(Clone, Copy, Debug, PartialEq, Eq)]
pub enum Failure {
    /// The words or the files are refused.
    Refused(Refusal),
    /// A read of this file failed, and the store has counted a fault.
    Fault { file: FileId },
    /// Memory ran out.
    NoMemory,
}

impl From<Refusal> for Failure {
    ghost from_gives = { λ r e. e ≡ failure.Refused r };

    fn from(refusal: Refusal) -> Self {
        Failure::Refused(refusal)
    }
}

impl From<NoMemory> for Failure {
    ghost from_gives = { λ _ e. e ≡ failure.NoMemory };

    fn from(_: NoMemory) -> Self {
        Failure::NoMemory
    }
}

impl<T: Drop> From<AllocFailed<T>> for Failure {
    ghost from_gives = { λ _ e. e ≡ failure.NoMemory };

    fn from(_: AllocFailed<T>) -> Self {
        Failure::NoMemory
    }
}

impl From<SchemaError> for Failure {
    ghost from_gives = { λ error e. e ≡ schema_failure error };

    fn from(error: SchemaError) -> Self {
        let refusal = match error {
            SchemaError::Syntax { at } => Refusal::Schema {
                cause: SchemaCause::Syntax,
                at,
            },
            SchemaError::Name { at } => Refusal::Schema {
                cause: SchemaCause::Name,
                at,
            },
            SchemaError::Nullable { at } => Refusal::Schema {
                cause: SchemaCause::Nullable,
                at,
            },
            SchemaError::Limit { which, found } => Refusal::Limit {
                which,
                file: FileId::Schema,
                found,
            },
            SchemaError::NoMemory => return Failure::NoMemory,
        };
        Failure::Refused(refusal)
    }
}

impl From<QueryError> for Failure {
    ghost from_gives = { λ error e. e ≡ query_failure error };

    fn from(error: QueryError) -> Self {
        let refusal = match error {
            QueryError::Syntax { at } => Refusal::Query {
                cause: QueryCause::Syntax,
                at,
            },
            QueryError::Name { at } => Refusal::Query {
                cause: QueryCause::Name,
                at,
            },
            QueryError::Kind { at } => Refusal::Query {
                cause: QueryCause::Kind,
                at,
            },
            QueryError::Limit { which, found } => Refusal::Limit {
                which,
                file: FileId::Query,
                found,
            },
            QueryError::NoMemory => return Failure::NoMemory,
        };
        Failure::Refused(refusal)
    }
}

impl From<PlanError> for Failure {
    ghost from_gives = { λ error e. e ≡ plan_failure error };

    fn from(error: PlanError) -> Self {
        let refusal = match error {
            PlanError::Budget { least } => Refusal::Budget { least },
            PlanError::PastBits => Refusal::PastBits,
            PlanError::NoMemory => return Failure::NoMemory,
        };
        Failure::Refused(refusal)
    }
}

impl From<StatsError> for Failure {
    ghost from_gives = { λ error e. e ≡ stats_failure error };

    fn from(error: StatsError) -> Self {
        let refusal = match error {
            StatsError::Syntax { line } => Refusal::Stats {
                cause: StatsCause::Syntax,
                at: line,
            },
            StatsError::Rule { line } => Refusal::Stats {
                cause: StatsCause::Rule,
                at: line,
            },
            StatsError::NoMemory => return Failure::NoMemory,
        };
        Failure::Refused(refusal)
    }
}

/// The failure of a step that reads a table's file, from the reader's error. `table` is the table's number in the schema.
pub fn table_failure(table: u32, error: TableError) -> Failure
    ensures { result ≡ failure_of table error }
{
    let cause = match error {
        TableError::Utf8 { at } => TableCause::Utf8 { at },
        TableError::Header { column } => TableCause::Header { column },
        TableError::Width { row, found } => TableCause::Width { row, found },
        TableError::Field { row, column } => TableCause::Field { row, column },
        TableError::Key { row, earlier } => TableCause::Key { row, earlier },
        TableError::Limit { found } => {
            return Failure::Refused(Refusal::Limit {
                which: LimitKind::Rows,
                file: FileId::Table(table),
                found: found as u64,
            });
        }
        TableError::NoMemory => return Failure::NoMemory,
    };
    Failure::Refused(Refusal::Table { table, cause })
}
