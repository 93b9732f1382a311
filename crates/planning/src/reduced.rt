//! Makes the bounds of a query's sets and scans from its reduced scans.
ghost use Rattle.std.specs.Prelude.{◌≡◌, IfOk, length, vec_capacity};
ghost use Rattle.join_graph.specs.Conjuncts.{equalities_of};
ghost use Rattle.sql_meaning.specs.Databases.{IsDatabaseOf};
ghost use Rattle.sql_meaning.specs.Tables.{tables_of};
ghost use Rattle.join_steps.specs.Lists.{list_sizes, lists_of};
ghost use Rattle.reduced_scans.specs.Lists.{AreRowLists, HaveNoSpare};
ghost use Rattle.reduced_scans.specs.Rounds.{reduced_of};
ghost use Rattle.planning.specs.HasBounds.{HasBounds};
ghost use Rattle.planning.specs.ListedBounds.{set_bounds_over};

use crate::known::QueryBounds;
use crate::scans::scan_entries;
use crate::sources::from_rows;
use base_io::NoMemory;
use berge_tree::Edge;
use csv_tables::Database;
use join_graph::split;
use limits::Accuracy;
use query_types::Query;
use reduced_scans::reduce_scans;
use row_buf::RowBuf;
use std::alloc::Global;

/// The bounds from the reduced scans of a query, and these scans: for each FROM entry the numbers of its reduced rows, in file order.
#[derive(Drop)]
pub struct Reduced {
    pub known: QueryBounds,
    pub lists: Vec<RowBuf<u32>>,
}

/// The reduced scans of a query. The memory of the whole scans is freed.
pub fn reduced_lists(
    alloc: Global,
    query: &Query,
    equalities: &[Edge],
    db: &Database,
) -> Result<Vec<RowBuf<u32>>, NoMemory>
    requires equalities { equalities.now ≡ equalities_of query.now }
    requires database { IsDatabaseOf query.now db.now }
    ensures reduced { IfOk result (λ lists. lists_of lists.items ≡ reduced_of query.now (tables_of db.now)) }
    ensures lists { IfOk result (λ lists. AreRowLists db.now lists.items) }
    ensures no_spare { IfOk result (λ lists. HaveNoSpare lists.items) }
    ensures capacity { IfOk result (λ lists. vec_capacity lists ≡ length query.now.from) }
{
    let scans = scan_entries(alloc, query, db)?;
    reduce_scans(alloc, query, equalities, db, &scans)
}

/// The bounds from the reduced scans of the query, together with these scans. A scan's bound is the number of rows in the reduced scan.
///
/// A row of a scan is kept if it has a match for each equality that joins its entry with another one. A match is a row of the other entry that has
/// the same value and is also kept (semi-join reduction, Bernstein and Goodman 1981). Sorting columns and bounding all sets take further time. Apart
/// from that, time and memory are linear in each entry's rows times the equalities that join it. All memory except the result's is freed, and the
/// result's lists have room only for their own rows.
///
/// `accuracy` is the accuracy of compressed lists (SafeBound, SIGMOD 2023).
pub fn from_reduced(
    alloc: Global,
    query: &Query,
    db: &Database,
    accuracy: Accuracy,
) -> Result<Reduced, NoMemory>
    requires database { IsDatabaseOf query.now db.now }
    ensures gives { IfOk result (λ made.
        HasBounds (set_bounds_over query.now (tables_of db.now) (reduced_of query.now (tables_of db.now)) accuracy)
        (list_sizes query.now (reduced_of query.now (tables_of db.now))) made.known) }
    ensures lists { IfOk result (λ made. lists_of made.lists.items ≡ reduced_of query.now (tables_of db.now)) }
    ensures no_spare { IfOk result (λ made. HaveNoSpare made.lists.items) }
    ensures capacity { IfOk result (λ made. vec_capacity made.lists ≡ length query.now.from) }
{
    let parts = split(alloc, query)?;
    let lists = reduced_lists(alloc, query, parts.equalities.as_slice(), db)?;
    let known = from_rows(alloc, query, &parts, db, &lists, accuracy)?;
    Ok(Reduced { known, lists })
}
