//! Makes the statistics that a file gives for a query.
ghost use Rattle.std.specs.Prelude.{◌≡◌, ◌<◌, ◌≤◌, IfErr, IfOk, None, false, length};
ghost use Rattle.limits.specs.Profile.{most_entries};
ghost use Rattle.join_graph.specs.Conjuncts.{equalities_of, local_of};
ghost use Rattle.query_bounds.specs.Statistics.{HasStatistics};
ghost use Rattle.query_types.specs.Named.{NamesItsEntries};
ghost use Rattle.stats_file_of_query.specs.Needs.{table_of};
ghost use Rattle.stats_file_bounds.specs.Entries.{IsEntryCause, KeepsRulesOfSome, IsNeedCause, HasStatsFromFile};
ghost use Rattle.stats_file_bounds.specs.FileStatistics.{stats_file_statistics};
ghost use Rattle.stats_file_bounds.specs.Found.{first_missing, is_missing};

use crate::entry::list_columns;
use crate::errors::NeedError;
use crate::find::{has_each_pair, section_of};
use base_io::Seq;
use gathered_stats::asked_columns;
use join_graph::Parts;
use predicate_bounds::{EntryStats, QueryStats, read_steps};
use query_types::Query;
use stats_file::StatsFile;
use stats_file_of_query::needs_of;
use std::alloc::Global;

// The position of an entry's table in the schema.
fn table_of(query: &Query, entry: u8) -> u32
    requires { entry < length query.now.from }
    ensures { result ≡ table_of query.now entry }
{
    query.from.get(usize::from(entry)).table
}

// The statistics that a file gives for an entry, if the file lacks nothing that the entry needs.
fn entry_stats(
    alloc: Global,
    query: &Query,
    parts: &Parts,
    file: &StatsFile,
    entry: u8,
) -> Result<EntryStats, NeedError>
    requires file { KeepsRulesOfSome file.now }
    requires entry { entry < length query.now.from }
    requires local { parts.now.local ≡ local_of query.now }
    requires equalities { parts.now.equalities ≡ equalities_of query.now }
    ensures told { IfOk result (HasStatsFromFile query.now file.now entry) }
    ensures there { IfOk result (λ stats. is_missing query.now file.now entry ≡ false) }
    ensures missing { IfErr result (IsEntryCause query.now file.now entry) }
{
    let Some(section) = section_of(file, table_of(query, entry)) else {
        return Err(NeedError::Missing { from: entry });
    };
    let steps = read_steps(alloc, query, parts, entry)?;
    let needs = needs_of(alloc, steps.as_slice(), parts.equalities.as_slice(), entry)?;
    let mut pairs = Seq::new(alloc);
    needs.add_pairs(&mut pairs)?;
    if !has_each_pair(section, pairs.as_slice()) {
        return Err(NeedError::Missing { from: entry });
    }
    let columns = asked_columns(alloc, parts.equalities.as_slice(), entry)?;
    let stats = list_columns(alloc, section, &needs, steps.as_slice(), columns.as_slice())?;
    Ok(stats)
}

/// The statistics that the bounds of a query need, from a file that keeps the rules (SafeBound, SIGMOD 2023). `parts` is the result of `split` for
/// the query. No table is read. The time depends only on the lengths of the file and of the query.
///
/// `Missing` is returned exactly if the file lacks a section or a pair that an entry needs. It names the first such entry. `NoMemory` is returned if
/// memory runs out.
pub fn query_stats(
    alloc: Global,
    query: &Query,
    parts: &Parts,
    file: &StatsFile,
) -> Result<QueryStats, NeedError>
    requires file { KeepsRulesOfSome file.now }
    requires few { length query.now.from ≤ most_entries }
    requires own { NamesItsEntries query.now }
    requires local { parts.now.local ≡ local_of query.now }
    requires equalities { parts.now.equalities ≡ equalities_of query.now }
    ensures tells { IfOk result (λ stats. HasStatistics query.now stats (stats_file_statistics query.now file.now)) }
    ensures none_missing { IfOk result (λ stats. first_missing query.now file.now ≡ None) }
    ensures missing { IfErr result (IsNeedCause query.now file.now) }
{
    let mut entries = Seq::new(alloc);
    for entry in 0..query.from.len() as u8 {
        entries.push(entry_stats(alloc, query, parts, file, entry)?)?;
    }
    Ok(QueryStats { entries })
}
