//! Writes the audit text of an order.
ghost use Rattle.std.specs.Prelude.{◌≡◌, ◌≤◌, ◌<◌, ◌+◌, ◌*◌, length};
ghost use Rattle.limits.specs.Profile.{most_entries};
ghost use Rattle.base_io.specs.Devices.{growth};
ghost use Rattle.base_io.specs.Writes.{WroteBuffered, Wrote};
ghost use Rattle.plans.specs.Orders.{level_node as node_along, order_of_tree, IsOrderTree};
ghost use Rattle.printed_texts.specs.Plans.{audit_line, audit_lines, level_audits, rows_and_line_end};
ghost use Rattle.sql_meaning.specs.Databases.{IsDatabaseOf};
ghost use Rattle.joined_texts.specs.Printed.{constants_of, level_counts, rows_of_level};
ghost use Rattle.sql_meaning.specs.Tables.{tables_of};

use base_io::{Buffer, Failed, Sink};
use csv_tables::Database;
use join_steps::constants_hold;
use limits::MOST_ENTRIES;
use plans::{BushyPlan, entry_in_order, level_bound, level_node};
use printed_texts::{alias_at, put_level_bound};
use query_types::{Query, Source};
use tree_rows::BushyResult;

const SPACE: &[u8] = b" ";

const LINE_END: &[u8] = b"\n";

/// Writes the number of rows of a level or a node after its bound, and ends the line.
pub(crate) fn put_row_count<N: Sink>(
    rows: u32,
    buffer: &mut Buffer,
    sink: &mut N,
) -> Result<(), Failed>
    ensures { WroteBuffered (growth N.taken N.faults sink.old sink.new) buffer.old buffer.new (rows_and_line_end rows) result }
{
    let mut digits = itoa::Buffer::new();
    let rows = digits.format(rows).as_bytes();
    buffer.put_parts(sink, &[SPACE, rows, LINE_END])
}

fn put_level<N: Sink>(
    k: u64,
    alias: &str,
    bound: u64,
    rows: u32,
    buffer: &mut Buffer,
    sink: &mut N,
) -> Result<(), Failed>
    ensures { WroteBuffered (growth N.taken N.faults sink.old sink.new) buffer.old buffer.new (audit_line k alias.now bound rows) result }
{
    put_level_bound(k, alias, bound, buffer, sink)?;
    put_row_count(rows, buffer, sink)
}

// The node of level `k` in the tree of an order.
fn node_of_level(plan: &BushyPlan, k: u8) -> u8
    requires plan { IsOrderTree (length plan.now.scans) plan.now }
    requires few { length plan.now.scans ≤ most_entries }
    requires level { (1 ≤ k) × (k ≤ length plan.now.scans) }
    ensures node { let order = (order_of_tree plan.now).order in result ≡ node_along (length order) order k }
    ensures there { result + 1 < 2 * length plan.now.scans }
{
    let n = plan.scans.len() as u8;
    level_node(n, entry_in_order(plan, 0), k)
}

// How many rows level `k` has, in the order whose tree was joined: the number of rows of its node. But level 1 has no rows if `constants` is false;
// its leaf keeps its list.
fn level_row_count(done: &BushyResult, plan: &BushyPlan, k: u8, constants: bool) -> u32
    requires plan { IsOrderTree (length plan.now.scans) plan.now }
    requires few { length plan.now.scans ≤ most_entries }
    requires level { (1 ≤ k) × (k ≤ length plan.now.scans) }
    requires nodes { length done.now.nodes + 1 ≡ 2 * length plan.now.scans }
    ensures { result ≡ length (rows_of_level constants (order_of_tree plan.now).order done.now.nodes k) }
{
    if k == 1 && !constants {
        return 0;
    }
    done.len(node_of_level(plan, k))
}

// Writes a line for each level, in the order of the levels. `constants` says whether all conjuncts that name no entry (such as 1 = 1) hold.
fn put_levels<N: Sink>(
    done: &BushyResult,
    plan: &BushyPlan,
    constants: bool,
    sources: &[Source],
    buffer: &mut Buffer,
    sink: &mut N,
) -> Result<(), Failed>
    requires plan { IsOrderTree (length sources.now) plan.now }
    requires few { length sources.now ≤ most_entries }
    requires nodes { length done.now.nodes + 1 ≡ 2 * length sources.now }
    ensures { let order = order_of_tree plan.now in WroteBuffered (growth N.taken N.faults sink.old sink.new) buffer.old buffer.new
        (level_audits 1 sources.now order.order order.levels (level_counts constants order.order done.now.nodes)) result }
{
    'levels: for i in 0..sources.len() {
        let alias = alias_at(sources, entry_in_order(plan, i));
        let rows = level_row_count(done, plan, i as u8 + 1, constants);
        let bound = level_bound(plan, i);
        put_level(i as u64 + 1, alias, bound, rows, buffer, sink)?;
    }
    Ok(())
}

/// Writes the audit text of an order whose tree was joined. The text has a line for each level of the order. The line has the level's number (counted
/// from 1), its entry's name in the query, its bound, and the number of its rows. If the sink fails, this returns `Failed`, and the sink has a prefix
/// of the text.
pub fn write_audit<N: Sink>(
    done: &BushyResult,
    plan: &BushyPlan,
    query: &Query,
    db: &Database,
    sink: &mut N,
) -> Result<(), Failed>
    requires database { IsDatabaseOf query.now db.now }
    requires plan { IsOrderTree (length query.now.from) plan.now }
    requires nodes { length done.now.nodes + 1 ≡ 2 * length query.now.from }
    ensures { let order = order_of_tree plan.now in Wrote (growth N.taken N.faults sink.old sink.new)
        (audit_lines query.now.from order (level_counts (constants_of query.now (tables_of db.now)) order.order done.now.nodes)) result }
{
    let mut buffer = Buffer::new();
    let sources = query.from.as_slice();
    let rows = [0; MOST_ENTRIES];
    let constants = constants_hold(query, db, &rows[..sources.len()]);
    put_levels(done, plan, constants, sources, &mut buffer, sink)?;
    buffer.flush(sink)
}
