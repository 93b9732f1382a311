//! The reduction that is measured.
ghost use Rattle.std.specs.Prelude.{◌<◌};
ghost use Rattle.sql_meaning.specs.Databases.{IsDatabaseOf};

use crate::failed::Failed;
use base_io::NoMemory;
use csv_tables::Database;
use join_graph::split;
use planning::scan_entries;
use query_types::Query;
use reduced_scans::reduce_scans;
use row_buf::RowBuf;
use std::alloc::Global;
use std::rt::Clock;
use std::time::Instant;

/// How long scans and reduction took, in nanoseconds, how many rows stay, and the sum of their row numbers.
#[derive(Clone, Copy)]
pub(crate) struct Reduced {
    pub nanos: u128,
    pub rows: u64,
    pub sum: u64,
}

fn reduce_query(alloc: Global, query: &Query, db: &Database) -> Result<Vec<RowBuf<u32>>, NoMemory>
    requires database { IsDatabaseOf query.now db.now }
{
    let parts = split(alloc, query)?;
    let scans = scan_entries(alloc, query, db)?;
    reduce_scans(alloc, query, parts.equalities.as_slice(), db, &scans)
}

fn summed(nanos: u128, lists: &[RowBuf<u32>]) -> Reduced {
    let mut rows: u64 = 0;
    let mut sum: u64 = 0;
    for list in lists {
        rows = rows.wrapping_add(list.len());
        for row in list.as_slice() {
            sum = sum.wrapping_add(u64::from(*row));
        }
    }
    Reduced { nanos, rows, sum }
}

/// Scans the tables of a query and reduces the scans once, and takes the time of both.
pub(crate) fn timed_reduction(
    rt: &impl Clock,
    alloc: Global,
    query: &Query,
    db: &Database,
) -> Result<Reduced, Failed>
    requires database { IsDatabaseOf query.now db.now }
{
    let start = Instant::now(rt)?;
    let lists = reduce_query(alloc, query, db)?;
    let nanos = start.elapsed(rt)?.as_nanos();
    Ok(summed(nanos, &lists))
}
