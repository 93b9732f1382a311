//! Makes the bounds of a query's sets and scans from statistics of its tables, or from lists of their rows.
ghost use Rattle.std.specs.Prelude.{◌≡◌, ◌≤◌, IfOk, length};
ghost use Rattle.limits.specs.Profile.{most_entries};
ghost use Rattle.join_graph.specs.Conjuncts.{equalities_of};
ghost use Rattle.sql_meaning.specs.Databases.{IsDatabaseOf};
ghost use Rattle.sql_meaning.specs.Tables.{tables_of};
ghost use Rattle.join_steps.specs.Lists.{list_sizes, lists_of};
ghost use Rattle.reduced_scans.specs.Lists.{AreRowLists};
ghost use Rattle.query_bounds.specs.Bounds.{entry_bounds, scan_bounds, set_bounds};
ghost use Rattle.query_bounds.specs.Statistics.{HasSomeStatistics, Statistics, HasStatistics};
ghost use Rattle.planning.specs.Bounds.{scan_bounds_of, set_bounds_of};
ghost use Rattle.planning.specs.HasBounds.{HasBounds};
ghost use Rattle.planning.specs.ListedBounds.{set_bounds_over};
ghost use Rattle.planning.specs.Standing.{JoinedHaveLists};

use crate::known::{QueryBounds, bounds_from};
use crate::lists::lists_over_rows;
use base_io::NoMemory;
use csv_tables::Database;
use gathered_stats::gather_query;
use join_graph::{Parts, split};
use limits::Accuracy;
use predicate_bounds::QueryStats;
use query_bounds::{entry_lists, scans_of};
use query_types::Query;
use row_buf::RowBuf;
use std::alloc::Global;

/// The bounds from given statistics of a query's entries. A scan's bound is the row bound of its entry. `parts` is the result of `split`.
pub fn from_given_statistics(
    alloc: Global,
    query: &Query,
    parts: &Parts,
    stats: &QueryStats,
) -> Result<QueryBounds, NoMemory>
    requires few { length query.now.from ≤ most_entries }
    requires equalities { parts.now.equalities ≡ equalities_of query.now }
    requires told { HasSomeStatistics query.now stats.now }
    ensures gives { IfOk result (λ made. (known : Statistics) → HasStatistics query.now stats.now known
        → HasBounds (set_bounds query.now known) (scan_bounds query.now known) made) }
    ensures lists { IfOk result (λ made. (known : Statistics) → HasStatistics query.now stats.now known
        → JoinedHaveLists query.now (entry_bounds query.now known)) }
{
    let lists = entry_lists(alloc, query, parts, stats)?;
    let scans = scans_of(alloc, &lists, query.from.len() as u8)?;
    let known = bounds_from(alloc, parts, &lists, scans)?;
    Ok(known)
}

/// The bounds from statistics of the query's tables, which are gathered once. A scan's bound is the row bound of its entry.
///
/// `accuracy` is the accuracy of compressed degree sequences (SafeBound, SIGMOD 2023).
#[tactic(auto, using(crate::proofs::Giving::tells_some_statistics))]
pub fn from_statistics(
    alloc: Global,
    query: &Query,
    db: &Database,
    accuracy: Accuracy,
) -> Result<QueryBounds, NoMemory>
    requires database { IsDatabaseOf query.now db.now }
    ensures { IfOk result (HasBounds (set_bounds_of query.now (tables_of db.now) accuracy) (scan_bounds_of query.now (tables_of db.now) accuracy)) }
{
    let parts = split(alloc, query)?;
    let stats = gather_query(alloc, query, &parts, db, accuracy)?;
    from_given_statistics(alloc, query, &parts, &stats)
}

/// The bounds from lists of rows of the query's tables, one list for each entry. A scan's bound is the number of rows of its list. `parts` is the
/// result of `split`.
///
/// `accuracy` is the accuracy of compressed degree sequences (SafeBound, SIGMOD 2023).
pub fn from_rows(
    alloc: Global,
    query: &Query,
    parts: &Parts,
    db: &Database,
    rows: &[RowBuf<u32>],
    accuracy: Accuracy,
) -> Result<QueryBounds, NoMemory>
    requires equalities { parts.now.equalities ≡ equalities_of query.now }
    requires database { IsDatabaseOf query.now db.now }
    requires rows { AreRowLists db.now rows.now }
    ensures { IfOk result (HasBounds (set_bounds_over query.now (tables_of db.now) (lists_of rows.now) accuracy)
        (list_sizes query.now (lists_of rows.now))) }
{
    let lists = lists_over_rows(alloc, db, rows, parts.equalities.as_slice(), accuracy)?;
    let scans = scans_of(alloc, &lists, query.from.len() as u8)?;
    let known = bounds_from(alloc, parts, &lists, scans)?;
    Ok(known)
}
