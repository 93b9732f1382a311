//! Makes bounds of all sets of a query's entries from statistics of its tables and from carried conjuncts.
ghost use Rattle.std.specs.Prelude.{◌<◌, ◌≤◌, ◌≡◌, ℕ, IfOk, length};
ghost use Rattle.limits.specs.Profile.{most_entries};
ghost use Rattle.schema_types.specs.declared.types.Schema.{Schema as SchemaText};
ghost use Rattle.join_graph.specs.Conjuncts.{equalities_of};
ghost use Rattle.tree_bounds.specs.Columns.{EachNamedColumn};
ghost use Rattle.sql_meaning.specs.Databases.{IsDatabaseOf};
ghost use Rattle.sql_meaning.specs.Tables.{Tables, tables_of};
ghost use Rattle.planning.specs.Bounds.{scan_bounds_of};
ghost use Rattle.planning.specs.HasBounds.{HasBounds};
ghost use Rattle.key_bounds.specs.Bounds.{set_bounds_by_keys};
ghost use Rattle.key_bounds.specs.TableStats.{AreStatsOfSomeTables, AreStatsByKeys};

use crate::carrying::carried_along;
use crate::key_lists::KeyLists;
use base_io::{NoMemory, Seq};
use csv_tables::Database;
use gathered_stats::gather_query;
use join_graph::{Parts, split};
use key_carriers::carrying_equalities;
use key_stats::CarriedBounds;
use limits::Accuracy;
use planning::{QueryBounds, bounds_from};
use predicate_bounds::QueryStats;
use query_bounds::{entry_lists, scans_of};
use query_types::Query;
use schema_types::Schema;
use std::alloc::Global;

/// Makes the bounds of all sets from statistics of the query's entries, and from bounds that are carried along the references of a schema. A scan's
/// bound is its entry's row bound without carried conjuncts. `parts` is the result of `split` for the query.
pub fn from_carried(
    alloc: Global,
    query: &Query,
    parts: &Parts,
    stats: &QueryStats,
    carried: Seq<CarriedBounds>,
) -> Result<QueryBounds, NoMemory>
    requires few { length query.now.from ≤ most_entries }
    requires equalities { parts.now.equalities ≡ equalities_of query.now }
    requires named { EachNamedColumn (λ entry column. entry < length query.now.from) (equalities_of query.now) }
    requires told { AreStatsOfSomeTables query.now stats.now carried }
    ensures { IfOk result (λ known. (schema : SchemaText) (tables : Tables) (accuracy : ℕ)
        → AreStatsByKeys schema query.now tables accuracy stats.now carried
        → HasBounds (set_bounds_by_keys schema query.now tables accuracy) (scan_bounds_of query.now tables accuracy) known) }
{
    let own = entry_lists(alloc, query, parts, stats)?;
    let count = query.from.len() as u8;
    let scans = scans_of(alloc, &own, count)?;
    let keys = KeyLists {
        count,
        own,
        carried,
    };
    let known = bounds_from(alloc, parts, &keys, scans)?;
    Ok(known)
}

/// Makes the bounds of all sets from statistics of the query's tables, which are gathered once. Own conjuncts are carried along the references to
/// keys that the schema declares (SafeBound, SIGMOD 2023). A scan's bound is its entry's row bound without carried conjuncts.
///
/// Each row of a referring entry is looked up once, and no row is copied. Sorting columns and bounding all sets take further time. Otherwise time and
/// memory are linear in the number of rows times the number of references and joined columns.
///
/// `accuracy` is the accuracy of the compressed lists.
pub fn from_keys(
    alloc: Global,
    schema: &Schema,
    query: &Query,
    db: &Database,
    accuracy: Accuracy,
) -> Result<QueryBounds, NoMemory>
    requires database { IsDatabaseOf query.now db.now }
    ensures { IfOk result (HasBounds (set_bounds_by_keys schema.now query.now (tables_of db.now) accuracy)
        (scan_bounds_of query.now (tables_of db.now) accuracy)) }
{
    let parts = split(alloc, query)?;
    let stats = gather_query(alloc, query, &parts, db, accuracy)?;
    let edges = carrying_equalities(alloc, schema, query, &parts)?;
    let carried = carried_along(alloc, query, &parts, db, &stats, edges.as_slice(), accuracy)?;
    from_carried(alloc, query, &parts, &stats, carried)
}
