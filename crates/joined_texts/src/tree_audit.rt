//! Writes the audit text of a join tree.
ghost use Rattle.std.specs.Prelude.{◌≡◌, ◌≤◌, ◌+◌, length};
ghost use Rattle.base_io.specs.Devices.{growth};
ghost use Rattle.base_io.specs.Writes.{WroteBuffered, Wrote};
ghost use Rattle.plans.specs.TreePlans.{IsTreePlan};
ghost use Rattle.printed_texts.specs.TreePlans.{node_audit, node_audits, tree_audits};
ghost use Rattle.joined_texts.specs.Printed.{node_counts};

use crate::audit::put_row_count;
use base_io::{Buffer, Failed, Sink};
use plans::{BushyPlan, Join};
use printed_texts::put_node_bound;
use tree_rows::BushyResult;

fn put_node<N: Sink>(
    k: u64,
    join: Join,
    rows: u32,
    buffer: &mut Buffer,
    sink: &mut N,
) -> Result<(), Failed>
    ensures { WroteBuffered (growth N.taken N.faults sink.old sink.new) buffer.old buffer.new (node_audit k join rows) result }
{
    put_node_bound(k, join, buffer, sink)?;
    put_row_count(rows, buffer, sink)
}

// Writes a line for each inner node. The first inner node has the number `first`.
fn put_nodes<N: Sink>(
    done: &BushyResult,
    first: u8,
    joins: &[Join],
    buffer: &mut Buffer,
    sink: &mut N,
) -> Result<(), Failed>
    requires nodes { length done.now.nodes ≡ first + length joins.now }
    requires few { first + length joins.now ≤ 255 }
    ensures { WroteBuffered (growth N.taken N.faults sink.old sink.new) buffer.old buffer.new
        (node_audits first joins.now (node_counts first done.now.nodes)) result }
{
    'nodes: for i in 0..joins.len() {
        let node = first + i as u8;
        put_node(node as u64, joins[i], done.len(node), buffer, sink)?;
    }
    Ok(())
}

/// Writes the audit text of a join tree, which has a line for each inner node, in the order of their numbers. The line has the node's
/// number, the nodes that it joins, its bound, and the number of its rows. For one entry the text is empty. If the sink
/// fails, this returns `Failed`, and the sink has a prefix of the text.
pub fn write_tree_audit<N: Sink>(
    done: &BushyResult,
    plan: &BushyPlan,
    sink: &mut N,
) -> Result<(), Failed>
    requires plan { IsTreePlan (length plan.now.scans) plan.now }
    requires nodes { length done.now.nodes ≡ length plan.now.scans + length plan.now.joins }
    ensures { Wrote (growth N.taken N.faults sink.old sink.new) (tree_audits plan.now (node_counts (length plan.now.scans) done.now.nodes)) result }
{
    let mut buffer = Buffer::new();
    let first = plan.scans.len() as u8;
    put_nodes(done, first, plan.joins.as_slice(), &mut buffer, sink)?;
    buffer.flush(sink)
}
