//! Makes the bounds that are carried along the references of a schema, from a query's tables. Such a bound counts only the rows of an entry that
//! refer to rows which pass another entry's own conjuncts.
ghost use Rattle.std.specs.Prelude.{◌≡◌, All, IfOk, Some, length};
ghost use Rattle.bound_fold.specs.Lists.{list_of, row_bound_of};
ghost use Rattle.join_graph.specs.Conjuncts.{equalities_of, local_of};
ghost use Rattle.predicate_bounds.specs.StatsLists.{columns_of, list_in_stats, row_bound_in_stats};
ghost use Rattle.sql_meaning.specs.Databases.{IsDatabaseOf};
ghost use Rattle.sql_meaning.specs.Tables.{tables_of};
ghost use Rattle.gathered_stats.specs.Asked.{AreGathered};
ghost use Rattle.key_stats.specs.Carrying.{HaveCarriedBounds, HasCarriedBounds};
ghost use Rattle.key_bounds.specs.Carrying.{ListsSumToRows, IsEqualityEitherWay};

use base_io::{NoMemory, Seq};
use berge_tree::Edge;
use bound_fold::EntryLists;
use csv_tables::Database;
use gathered_stats::{PairedRows, characters_differ, gather_paired};
use join_graph::Parts;
use key_carriers::widened_rows;
use key_stats::CarriedBounds;
use limits::Accuracy;
use predicate_bounds::QueryStats;
use query_types::Query;
use std::alloc::Global;

// The row bound and the lists of the first entry of `stats`. In the result they are the row bound and the lists of `entry`.
fn first_lists(alloc: Global, stats: &QueryStats, entry: u8) -> Result<EntryLists, NoMemory>
    requires { ListsSumToRows stats.now }
    ensures rows { IfOk result (λ made. row_bound_of made entry ≡ Some (row_bound_in_stats stats.now 0)) }
    ensures lists { IfOk result (λ made. All (λ joined. list_of made entry joined.column ≡ Some (list_in_stats stats.now 0 joined.column)) (columns_of stats.now 0)) }
{
    let mut made = EntryLists::new(alloc);
    let rows = stats.row_bound(alloc, 0)?;
    made.set_rows(entry, rows)?;
    let first = stats.entries.get(0);
    for joined in first.columns.as_slice() {
        let list = stats.bound_list(alloc, 0, joined.column)?;
        made.add(entry, joined.column, list)?;
    }
    Ok(made)
}

// The bounds that are carried along an equality. They bound the rows of the widened table that pass the right entry's own conjuncts.
fn carried_over(
    alloc: Global,
    query: &Query,
    parts: &Parts,
    db: &Database,
    own: &QueryStats,
    edge: Edge,
    accuracy: Accuracy,
) -> Result<CarriedBounds, NoMemory>
    requires local { parts.now.local ≡ local_of query.now }
    requires equalities { parts.now.equalities ≡ equalities_of query.now }
    requires database { IsDatabaseOf query.now db.now }
    requires own { AreGathered query.now db.now accuracy (length query.now.from) own.now.entries }
    requires joined { IsEqualityEitherWay query.now edge }
    ensures edge { IfOk result (λ made. made.edge ≡ edge) }
    ensures tells { IfOk result (HasCarriedBounds query.now (tables_of db.now) accuracy) }
{
    characters_differ(&db.pool);
    let widened = widened_rows(alloc, db, edge)?;
    let rows = widened.rows.as_slice();
    let others = widened.others.as_slice();
    let beside = PairedRows {
        entry: edge.right.entry,
        rows: others,
        other: edge.left.entry,
        other_rows: rows,
        other_stats: own.entries.get(usize::from(edge.left.entry)),
    };
    let gathered = gather_paired(alloc, query, parts, db, &beside, accuracy)?;
    let entries = Seq::one(alloc, gathered)?;
    let stats = QueryStats { entries };
    let lists = first_lists(alloc, &stats, edge.left.entry)?;
    Ok(CarriedBounds { edge, lists })
}

/// The bounds that are carried along each of `edges`. These are equalities of the query, some with their sides exchanged. `parts` is the result of
/// `split`, and `own` is the result of `gather_query`.
pub(crate) fn carried_along(
    alloc: Global,
    query: &Query,
    parts: &Parts,
    db: &Database,
    own: &QueryStats,
    edges: &[Edge],
    accuracy: Accuracy,
) -> Result<Seq<CarriedBounds>, NoMemory>
    requires local { parts.now.local ≡ local_of query.now }
    requires equalities { parts.now.equalities ≡ equalities_of query.now }
    requires database { IsDatabaseOf query.now db.now }
    requires own { AreGathered query.now db.now accuracy (length query.now.from) own.now.entries }
    requires joined { All (IsEqualityEitherWay query.now) edges.now }
    ensures { IfOk result (HaveCarriedBounds query.now (tables_of db.now) accuracy edges.now) }
{
    let mut carried = Seq::new(alloc);
    'edges: for number in 0..edges.len() {
        let one = carried_over(alloc, query, parts, db, own, edges[number], accuracy)?;
        carried.push(one)?;
    }
    Ok(carried)
}
