//! Writes the plan text of an order. No function here allocates memory.
ghost use Rattle.std.specs.Prelude.{◌≡◌, ◌<◌, ◌+◌, length, slice_get};
ghost use Rattle.base_io.specs.Devices.{growth};
ghost use Rattle.base_io.specs.Writes.{WroteBuffered, Wrote};
ghost use Rattle.plans.specs.Orders.{order_of_tree, IsOrderTree};
ghost use Rattle.printed_texts.specs.Plans.{alias_of, level_text, level_line, level_lines, plan_lines, scan_line, scan_lines};

use base_io::{Buffer, Failed, Sink};
use plans::{BushyPlan, entry_in_order, level_bound};
use query_types::Source;

const SCAN: &[u8] = b"scan ";

const LEVEL: &[u8] = b"level ";

const SPACE: &[u8] = b" ";

const LINE_END: &[u8] = b"\n";

fn write_scan<N: Sink>(
    alias: &str,
    bound: u64,
    buffer: &mut Buffer,
    sink: &mut N,
) -> Result<(), Failed>
    ensures { WroteBuffered (growth N.taken N.faults sink.old sink.new) buffer.old buffer.new (scan_line alias.now bound) result }
{
    let mut digits = itoa::Buffer::new();
    let bound = digits.format(bound).as_bytes();
    buffer.put_parts(sink, &[SCAN, alias.as_bytes(), SPACE, bound, LINE_END])
}

/// Writes a line for each entry's scan.
pub(crate) fn write_scans<N: Sink>(
    sources: &[Source],
    bounds: &[u64],
    buffer: &mut Buffer,
    sink: &mut N,
) -> Result<(), Failed>
    requires { length bounds.now ≡ length sources.now }
    ensures { WroteBuffered (growth N.taken N.faults sink.old sink.new) buffer.old buffer.new (scan_lines sources.now bounds.now) result }
{
    'scans: for (i, source) in sources.iter().enumerate() {
        write_scan(source.alias.as_str(), bounds[i], buffer, sink)?;
    }
    Ok(())
}

/// Writes the start of a level's line, without a line end: the level's number, the alias of its entry, and its bound in rows.
pub fn put_level_bound<N: Sink>(
    k: u64,
    alias: &str,
    bound: u64,
    buffer: &mut Buffer,
    sink: &mut N,
) -> Result<(), Failed>
    ensures { WroteBuffered (growth N.taken N.faults sink.old sink.new) buffer.old buffer.new (level_text k alias.now bound) result }
{
    let (mut level_digits, mut digits) = (itoa::Buffer::new(), itoa::Buffer::new());
    let level_digits = level_digits.format(k).as_bytes();
    let bound = digits.format(bound).as_bytes();
    buffer.put_parts(
        sink,
        &[LEVEL, level_digits, SPACE, alias.as_bytes(), SPACE, bound],
    )
}

fn write_level<N: Sink>(
    k: u64,
    alias: &str,
    bound: u64,
    buffer: &mut Buffer,
    sink: &mut N,
) -> Result<(), Failed>
    ensures { WroteBuffered (growth N.taken N.faults sink.old sink.new) buffer.old buffer.new (level_line k alias.now bound) result }
{
    put_level_bound(k, alias, bound, buffer, sink)?;
    buffer.put(sink, LINE_END)
}

/// The alias of the FROM entry with this number.
pub fn alias_at(sources: &[Source], entry: u8) -> &str
    requires { entry < length sources.now }
    ensures { result.now ≡ alias_of (slice_get sources.now entry) }
{
    sources[entry as usize].alias.as_str()
}

// Writes a line for each level of the order whose tree this is.
fn write_levels<N: Sink>(
    plan: &BushyPlan,
    sources: &[Source],
    buffer: &mut Buffer,
    sink: &mut N,
) -> Result<(), Failed>
    requires { IsOrderTree (length sources.now) plan.now }
    ensures { let order = order_of_tree plan.now in WroteBuffered (growth N.taken N.faults sink.old sink.new) buffer.old buffer.new
        (level_lines 1 sources.now order.order order.levels) result }
{
    'levels: for i in 0..sources.len() {
        let alias = alias_at(sources, entry_in_order(plan, i));
        write_level(i as u64 + 1, alias, level_bound(plan, i), buffer, sink)?;
    }
    Ok(())
}

/// Writes the plan text of an order, which is read from its tree: a line for each entry's scan in FROM order, and then a line for each level along
/// the order. Each line ends with a bound in rows.
pub fn write_plan<N: Sink>(plan: &BushyPlan, sources: &[Source], sink: &mut N) -> Result<(), Failed>
    requires { IsOrderTree (length sources.now) plan.now }
    ensures { Wrote (growth N.taken N.faults sink.old sink.new) (plan_lines sources.now (order_of_tree plan.now)) result }
{
    let mut buffer = Buffer::new();
    write_scans(sources, plan.scans.as_slice(), &mut buffer, sink)?;
    write_levels(plan, sources, &mut buffer, sink)?;
    buffer.flush(sink)
}
