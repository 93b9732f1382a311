//! Makes the bounds of a query from a statistics file.
ghost use Rattle.std.specs.Prelude.{◌≡◌, ◌<◌, ◌≤◌, ◌^◌, IfErr, IfOk, None, length};
ghost use Rattle.limits.specs.Profile.{most_entries};
ghost use Rattle.stats_file_bounds.specs.Bounds.{scan_bounds_of_file, set_bounds_of_file};
ghost use Rattle.stats_file_bounds.specs.Entries.{KeepsRulesOfSome, IsNeedCause};
ghost use Rattle.stats_file_bounds.specs.Found.{first_missing};
ghost use Rattle.planning.specs.HasBounds.{HasBounds};
ghost use Rattle.query_types.specs.Named.{NamesItsEntries};

use crate::errors::NeedError;
use crate::stats::query_stats;
use join_graph::split;
use planning::{QueryBounds, from_given_statistics};
use query_types::Query;
use stats_file::StatsFile;
use std::alloc::Global;

/// The bounds of all sets of a query's entries and of its scans, from a statistics file (SafeBound, SIGMOD 2023). No table is read.
///
/// `Missing` names the first entry for which the file lacks something. It is returned before any bound is made. `NoMemory` is returned if memory runs
/// out.
pub fn from_file(alloc: Global, query: &Query, file: &StatsFile) -> Result<QueryBounds, NeedError>
    requires file { KeepsRulesOfSome file.now }
    requires few { length query.now.from ≤ most_entries }
    requires conjuncts { length query.now.conjuncts < 2 ^ 32 }
    requires own { NamesItsEntries query.now }
    ensures gives { IfOk result (HasBounds (set_bounds_of_file query.now file.now) (scan_bounds_of_file query.now file.now)) }
    ensures all_there { IfOk result (λ known. first_missing query.now file.now ≡ None) }
    ensures missing { IfErr result (IsNeedCause query.now file.now) }
{
    let parts = split(alloc, query)?;
    let stats = query_stats(alloc, query, &parts, file)?;
    let known = from_given_statistics(alloc, query, &parts, &stats)?;
    Ok(known)
}
