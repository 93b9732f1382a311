//! Makes the pair after new rows of its table. A pair has the statistics of one filter column and one joined column.
ghost use Rattle.std.specs.Prelude.{◌≡◌, IfOk};
ghost use Rattle.sql_meaning.specs.Databases.{AreCells};
ghost use Rattle.appended_stats.specs.Cells.{grown_by_cells, pair_by_cells};
ghost use Rattle.appended_stats.specs.Conditions.{MayGrow};

use crate::lists::{grown_frequent, sum_by_rank};
use crate::nodes::{leaves, lists_of_nodes, sums_by_rank};
use crate::rest::list_of_others;
use base_io::NoMemory;
use cond_stats::whole_list;
use csv_tables::{Cells, Pool};
use limits::Accuracy;
use stats_file::PairStats;
use stats_file_of_query::pair_of_columns;
use std::alloc::Global;

// The pair after the append, if its table had rows before.
fn grown_pair(
    alloc: Global,
    pair: PairStats,
    pool: &Pool,
    cells: &Cells,
    accuracy: Accuracy,
) -> Result<PairStats, NoMemory>
    requires cells { AreCells pool.now cells.now }
    requires pair { MayGrow cells.now 1 pair }
    ensures { IfOk result (λ grown. grown ≡ grown_by_cells pool.now cells.now accuracy pair) }
{
    let kind = *cells.kinds.get(pair.filter as usize);
    let values = cells.columns.get(pair.filter as usize).as_slice();
    let keys = cells.columns.get(pair.joined as usize).as_slice();
    let whole = sum_by_rank(&pair.whole, &whole_list(alloc, keys, accuracy)?)?;
    let others = list_of_others(
        alloc,
        pool,
        kind,
        values,
        keys,
        pair.frequent.as_slice(),
        accuracy,
    )?;
    let rest = sum_by_rank(&pair.rest, &others)?;
    let leaves = leaves(alloc, &pair, pool, kind, values)?;
    let more = lists_of_nodes(alloc, leaves.as_slice(), keys, accuracy)?;
    let nodes = sums_by_rank(alloc, pair.nodes.as_slice(), more.as_slice())?;
    let PairStats {
        filter,
        joined,
        frequent,
        cuts,
        ..
    } = pair;
    let frequent = grown_frequent(alloc, frequent, pool, kind, values, keys, accuracy)?;
    Ok(PairStats {
        filter,
        joined,
        whole,
        frequent,
        rest,
        cuts,
        nodes,
    })
}

/// The pair after the append, if its table had `before` rows. If `before` is 0, the pair is made from the new rows alone.
pub(crate) fn pair_after(
    alloc: Global,
    pair: PairStats,
    before: u32,
    pool: &Pool,
    cells: &Cells,
    accuracy: Accuracy,
) -> Result<PairStats, NoMemory>
    requires cells { AreCells pool.now cells.now }
    requires pair { MayGrow cells.now before pair }
    ensures { IfOk result (λ after. after ≡ pair_by_cells pool.now cells.now accuracy before pair) }
{
    if before == 0 {
        return pair_of_columns(alloc, pool, cells, pair.filter, pair.joined, accuracy);
    }
    grown_pair(alloc, pair, pool, cells, accuracy)
}
