//! Makes the lists of all frequent values and of all nodes, with calls of `FilterColumn`.
ghost use Rattle.std.specs.Prelude.{◌≡◌, ◌++◌, length, IfOk, OnOk};
ghost use Rattle.std.specs.List.{zip};
ghost use Rattle.cond_stats.specs.Columns.{cell_le};
ghost use Rattle.cond_stats.specs.Leaves.{IsNodeSize};
ghost use Rattle.column_stats.specs.Nodes.{lists_of_size, node_lists};
ghost use Rattle.column_stats.specs.Stats.{frequent_lists};

use crate::stats::FrequentList;
use base_io::{NoMemory, Seq};
use cond_stats::FilterColumn;
use limits::Accuracy;
use piece_math::Pieces;
use std::alloc::Global;

/// Each frequent value with the list of its rows.
pub(crate) fn frequent_lists(
    alloc: Global,
    column: &FilterColumn<'_>,
    joined: &[u64],
    accuracy: Accuracy,
) -> Result<Seq<FrequentList>, NoMemory>
    requires joined { length joined.now ≡ length column.now.cells }
    ensures { IfOk result (λ lists. lists ≡ frequent_lists accuracy (zip column.now.cells joined.now)) }
{
    let values = column.frequent()?;
    let mut lists = Seq::new(alloc);
    for value in values.as_slice() {
        let list = column.list_of_value(joined, Some(*value), accuracy)?;
        lists.push(FrequentList { cell: *value, list })?;
    }
    Ok(lists)
}

// Appends the lists of the nodes of one size.
fn add_nodes(
    column: &FilterColumn<'_>,
    joined: &[u64],
    size: u8,
    accuracy: Accuracy,
    nodes: &mut Seq<Pieces>,
) -> Result<(), NoMemory>
    requires joined { length joined.now ≡ length column.now.cells }
    requires size { IsNodeSize size }
    ensures { OnOk result (nodes.new ≡ nodes.old ++
        lists_of_size (cell_le column.now.texts column.now.kind) accuracy (zip column.now.cells joined.now) size) }
{
    for i in 0..32 / size {
        let list = column.list_of_node(joined, size, size * i, accuracy)?;
        nodes.push(list)?;
    }
    Ok(())
}

/// The lists of all nodes. Without rows there are no nodes.
pub(crate) fn node_lists(
    alloc: Global,
    column: &FilterColumn<'_>,
    joined: &[u64],
    accuracy: Accuracy,
) -> Result<Seq<Pieces>, NoMemory>
    requires joined { length joined.now ≡ length column.now.cells }
    ensures { IfOk result (λ lists. lists ≡
        node_lists (cell_le column.now.texts column.now.kind) accuracy (zip column.now.cells joined.now)) }
{
    let mut nodes = Seq::new(alloc);
    if joined.is_empty() {
        return Ok(nodes);
    }
    for size in [1, 2, 4, 8, 16, 32] {
        add_nodes(column, joined, size, accuracy, &mut nodes)?;
    }
    Ok(nodes)
}
