//! Makes the nodes' lists for the new rows, with the old cuts. Then adds these lists to the old lists.
ghost use Rattle.std.specs.Prelude.{◌≡◌, ◌++◌, ◌<◌, ◌≤◌, ◌^◌, All, IfOk, OnOk, length, map};
ghost use Rattle.std.specs.List.{sum, zip};
ghost use Rattle.csv_tables.specs.Cells.{IsCell, value_of_cell};
ghost use Rattle.cond_stats.specs.Leaves.{IsNodeSize, in_node};
ghost use Rattle.cond_stats.specs.Rows.{keys_where};
ghost use Rattle.stats_file_of_query.specs.Standing.{leaf_of_value};
ghost use Rattle.appended_stats.specs.Grown.{lists_of_nodes, lists_of_size, rank_sums};

use crate::compare::leaf_of_cell;
use crate::lists::sum_by_rank;
use base_io::{NoMemory, Seq};
use cond_stats::whole_list;
use csv_tables::Pool;
use limits::Accuracy;
use piece_math::Pieces;
use schema_types::Kind;
use stats_file::PairStats;
use std::alloc::Global;

/// The leaf in which each cell's value lies, by the cuts of a pair.
pub(crate) fn leaves(
    alloc: Global,
    pair: &PairStats,
    pool: &Pool,
    kind: Kind,
    cells: &[u64],
) -> Result<Vec<u8>, NoMemory>
    requires cells { All (IsCell pool.now kind) cells.now }
    requires cuts { length pair.now.cuts ≤ 32 }
    ensures { IfOk result (λ leaves. leaves.items ≡
        map (λ cell. leaf_of_value pair.now (value_of_cell pool.now kind cell)) cells.now) }
{
    let mut leaves = Vec::with_capacity(alloc, cells.len())?;
    for cell in cells {
        leaves.push(leaf_of_cell(pair, pool, kind, *cell))?;
    }
    Ok(leaves)
}

// The joined keys of the rows whose leaf lies in the node of `size` leaves that contains `leaf`.
fn keys_in_node(
    alloc: Global,
    leaves: &[u8],
    joined: &[u64],
    size: u8,
    leaf: u8,
) -> Result<Vec<u64>, NoMemory>
    requires joined { length joined.now ≡ length leaves.now }
    requires size { 0 < size }
    ensures { IfOk result (λ keys. keys.items ≡ keys_where (in_node size leaf) (zip leaves.now joined.now)) }
{
    let node = leaf / size;
    let mut keys = Vec::new(alloc);
    for (i, other) in leaves.iter().enumerate() {
        if *other / size == node {
            keys.push(joined[i])?;
        }
    }
    Ok(keys)
}

// Appends to `nodes` the list of each node of `size` leaves.
fn add_size(
    alloc: Global,
    leaves: &[u8],
    joined: &[u64],
    size: u8,
    accuracy: Accuracy,
    nodes: &mut Seq<Pieces>,
) -> Result<(), NoMemory>
    requires joined { length joined.now ≡ length leaves.now }
    requires rows { length leaves.now < 2 ^ 32 }
    requires size { IsNodeSize size }
    ensures { OnOk result (nodes.new ≡ nodes.old ++ lists_of_size (λ leaf. leaf) accuracy (zip leaves.now joined.now) size) }
{
    for i in 0..32 / size {
        let keys = keys_in_node(alloc, leaves, joined, size, size * i)?;
        nodes.push(whole_list(alloc, keys.as_slice(), accuracy)?)?;
    }
    Ok(())
}

/// The lists of all nodes, from the leaf of each row.
pub(crate) fn lists_of_nodes(
    alloc: Global,
    leaves: &[u8],
    joined: &[u64],
    accuracy: Accuracy,
) -> Result<Seq<Pieces>, NoMemory>
    requires joined { length joined.now ≡ length leaves.now }
    requires rows { length leaves.now < 2 ^ 32 }
    ensures { IfOk result (λ nodes. nodes ≡ lists_of_nodes (λ leaf. leaf) accuracy (zip leaves.now joined.now)) }
{
    let mut nodes = Seq::new(alloc);
    for size in [1, 2, 4, 8, 16, 32] {
        add_size(alloc, leaves, joined, size, accuracy, &mut nodes)?;
    }
    Ok(nodes)
}

/// Adds each of `lists`, rank by rank, to the list at the same index in `others`.
pub(crate) fn sums_by_rank(
    alloc: Global,
    lists: &[Pieces],
    others: &[Pieces],
) -> Result<Seq<Pieces>, NoMemory>
    requires same_count { length others.now ≡ length lists.now }
    requires lists { All (λ list. sum list < 2 ^ 64) lists.now }
    requires others { All (λ list. sum list < 2 ^ 64) others.now }
    ensures { IfOk result (λ sums. sums ≡ rank_sums lists.now others.now) }
{
    let mut sums = Seq::new(alloc);
    for (i, list) in lists.iter().enumerate() {
        sums.push(sum_by_rank(list, &others[i])?)?;
    }
    Ok(sums)
}
