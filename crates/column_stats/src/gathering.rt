//! Makes all statistics of a filter column for a joined column, with one sort of the filter column.
ghost use Rattle.std.specs.Prelude.{◌≡◌, ◌^◌, ◌<◌, IfOk, length};
ghost use Rattle.std.specs.List.{zip};
ghost use Rattle.column_stats.specs.Stats.{stats_of};

use crate::parts::{frequent_lists, node_lists};
use crate::stats::ColumnStats;
use base_io::{NoMemory, Seq};
use cond_stats::{FilterColumn, whole_list};
use limits::Accuracy;
use schema_types::Kind;
use std::alloc::Global;

/// The statistics of a filter column that is sorted already; `joined` has the joined key of each row. Whoever makes statistics for several
/// joined columns sorts the filter column once. `accuracy` says how near compressed lists are to the degrees.
pub fn gather_sorted(
    alloc: Global,
    column: &FilterColumn<'_>,
    kind: Kind,
    joined: &[u64],
    accuracy: Accuracy,
) -> Result<ColumnStats, NoMemory>
    requires kind { kind ≡ column.now.kind }
    requires joined { length joined.now ≡ length column.now.cells }
    requires rows { length joined.now < 2 ^ 32 }
    ensures { IfOk result (λ stats. stats ≡
        stats_of column.now.texts column.now.kind accuracy (zip column.now.cells joined.now)) }
{
    let rows = joined.len() as u32;
    let whole = whole_list(alloc, joined, accuracy)?;
    let frequent = frequent_lists(alloc, column, joined, accuracy)?;
    let rest = column.rest(joined, accuracy)?;
    let cuts = Vec::from_slice(alloc, column.cuts())?;
    let nodes = node_lists(alloc, column, joined, accuracy)?;
    Ok(ColumnStats {
        kind,
        rows,
        whole,
        frequent,
        rest,
        cuts: Seq::from_vec(cuts),
        nodes,
    })
}
