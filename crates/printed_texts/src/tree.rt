//! Writes the plan text of a join tree. No function here allocates memory.
ghost use Rattle.std.specs.Prelude.{◌<◌, ◌+◌, ◌^◌, length};
ghost use Rattle.base_io.specs.Devices.{growth};
ghost use Rattle.base_io.specs.Writes.{WroteBuffered, Wrote};
ghost use Rattle.plans.specs.TreePlans.{IsTreePlan};
ghost use Rattle.printed_texts.specs.TreePlans.{node_bound, node_line, node_lines, tree_lines};

use crate::plan::write_scans;
use base_io::{Buffer, Failed, Sink};
use plans::{BushyPlan, Join};
use query_types::Source;

const NODE: &[u8] = b"node ";

const SPACE: &[u8] = b" ";

const LINE_END: &[u8] = b"\n";

/// Writes the start of an inner node's line, without a line end: the node's number, the numbers of its left and right child, and its bound in rows.
pub fn put_node_bound<N: Sink>(
    k: u64,
    join: Join,
    buffer: &mut Buffer,
    sink: &mut N,
) -> Result<(), Failed>
    ensures { WroteBuffered (growth N.taken N.faults sink.old sink.new) buffer.old buffer.new (node_bound k join) result }
{
    let (mut own, mut digits) = (itoa::Buffer::new(), itoa::Buffer::new());
    let (mut left, mut right) = (itoa::Buffer::new(), itoa::Buffer::new());
    let own = own.format(k).as_bytes();
    let left = left.format(join.left).as_bytes();
    let right = right.format(join.right).as_bytes();
    let bound = digits.format(join.bound).as_bytes();
    buffer.put_parts(sink, &[NODE, own, SPACE, left, SPACE, right, SPACE, bound])
}

fn write_node<N: Sink>(k: u64, join: Join, buffer: &mut Buffer, sink: &mut N) -> Result<(), Failed>
    ensures { WroteBuffered (growth N.taken N.faults sink.old sink.new) buffer.old buffer.new (node_line k join) result }
{
    put_node_bound(k, join, buffer, sink)?;
    buffer.put(sink, LINE_END)
}

// Writes a line for each inner node. The first node has the number `first`.
fn write_nodes<N: Sink>(
    first: u64,
    joins: &[Join],
    buffer: &mut Buffer,
    sink: &mut N,
) -> Result<(), Failed>
    requires few { first + length joins.now < 2 ^ 64 }
    ensures { WroteBuffered (growth N.taken N.faults sink.old sink.new) buffer.old buffer.new (node_lines first joins.now) result }
{
    'nodes: for i in 0..joins.len() {
        write_node(first + i as u64, joins[i], buffer, sink)?;
    }
    Ok(())
}

/// Writes the plan text of a join tree: first a line for each entry's scan, in FROM order, and then a line for each inner node, in the order of
/// the nodes' numbers. Each line ends with a bound in rows.
pub fn write_tree<N: Sink>(plan: &BushyPlan, sources: &[Source], sink: &mut N) -> Result<(), Failed>
    requires { IsTreePlan (length sources.now) plan.now }
    ensures { Wrote (growth N.taken N.faults sink.old sink.new) (tree_lines sources.now plan.now) result }
{
    let mut buffer = Buffer::new();
    write_scans(sources, plan.scans.as_slice(), &mut buffer, sink)?;
    let first = sources.len() as u64;
    write_nodes(first, plan.joins.as_slice(), &mut buffer, sink)?;
    buffer.flush(sink)
}
