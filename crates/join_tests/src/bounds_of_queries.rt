//! Bounds of a query's scans and sets, from its database.
ghost use Rattle.std.specs.Prelude.{◌≡◌, ◌⊎◌, ◌<◌, ◌≤◌, ◌^◌, ℕ, List, length, slice_index, IfOk};
ghost use Rattle.limits.specs.Profile.{top_bound};
ghost use Rattle.entry_sets.specs.Sets.{entries_of_set};
ghost use Rattle.sql_meaning.specs.Databases.{IsDatabaseOf};
ghost use Rattle.sql_meaning.specs.Tables.{tables_of};
ghost use Rattle.level_bounds.specs.Orders.{IsOrderOfSet};
ghost use Rattle.level_bounds.specs.Scans.{level_over_entries, query_scan};
ghost use Rattle.planning.specs.Bounds.{scan_bounds_of, set_bounds_of};

use base_io::{NoMemory, Seq};
use csv_tables::Database;
use gathered_stats::{characters_differ, gather_query};
use join_graph::split;
use limits::Accuracy;
use planning::from_statistics;
use query_bounds::{entry_lists, scans_of};
use query_types::Query;
use std::alloc::Global;

/// The bound of each entry's scan, in rows and in FROM order. No scan has more rows than its bound.
///
/// `accuracy` is the accuracy of compressed lists (SafeBound, SIGMOD 2023).
#[tactic(auto, using(planning::proofs::Giving::tells_some_statistics))]
pub fn scan_bounds(
    alloc: Global,
    query: &Query,
    db: &Database,
    accuracy: Accuracy,
) -> Result<Seq<u64>, NoMemory>
    requires database { IsDatabaseOf query.now db.now }
    ensures exact { IfOk result (λ scans. scans ≡ scan_bounds_of query.now (tables_of db.now) accuracy) }
    ensures never_under { IfOk result (λ scans. (entry : ℕ) → entry < length query.now.from
        → length (query_scan query.now (tables_of db.now) entry) ≤ slice_index scans entry) }
{
    characters_differ(&db.pool);
    let parts = split(alloc, query)?;
    let stats = gather_query(alloc, query, &parts, db, accuracy)?;
    let lists = entry_lists(alloc, query, &parts, &stats)?;
    let scans = scans_of(alloc, &lists, query.from.len() as u8)?;
    Ok(scans)
}

/// The bound of each set of entries, in rows. A set's index is the number whose bits are the set's entries. A larger bound than `u128::MAX` is given
/// as `u128::MAX`. The empty set has the bound 1. If a set's bound is below `u128::MAX`, no level over exactly its entries has more rows, in whatever
/// order they are joined.
///
/// `accuracy` is the accuracy of compressed lists (SafeBound, SIGMOD 2023).
pub fn subset_bounds(
    alloc: Global,
    query: &Query,
    db: &Database,
    accuracy: Accuracy,
) -> Result<Seq<u128>, NoMemory>
    requires database { IsDatabaseOf query.now db.now }
    ensures exact { IfOk result (λ bounds. bounds ≡ set_bounds_of query.now (tables_of db.now) accuracy) }
    ensures count { IfOk result (λ bounds. length bounds ≡ 2 ^ length query.now.from) }
    ensures of_nothing { IfOk result (λ bounds. slice_index bounds 0 ≡ 1) }
    ensures never_under { IfOk result (λ bounds. (subset : ℕ) (order : List ℕ)
        → subset < 2 ^ length query.now.from → IsOrderOfSet (entries_of_set subset) order
        → (length (level_over_entries query.now (tables_of db.now) order) ≤ slice_index bounds subset)
        ⊎ (slice_index bounds subset ≡ top_bound)) }
{
    characters_differ(&db.pool);
    let known = from_statistics(alloc, query, db, accuracy)?;
    Ok(known.sets)
}
