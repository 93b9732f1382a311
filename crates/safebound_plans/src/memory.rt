//! How many bytes the buffers of this project's engine take for a plan. The engine joins at most `MOST_ENTRIES` entries; the library
//! also plans queries of more entries.
ghost use Rattle.std.specs.Prelude.{◌≡◌, ℕ, ◌+◌, ◌^◌, ◌<◌, ◌≤◌, length, map, IfErr, IfOk, MatchOption};
ghost use Rattle.limits.specs.Profile.{most_entries};
ghost use Rattle.safebound_lists.specs.declared.refusal.Refusal.TheVariants as refusal;
ghost use Rattle.safebound_lists.specs.First.{IsFirstWrong};
ghost use Rattle.safebound_plans.specs.Memory.{join_of, small_order_bytes, small_tree_bytes, IsJoinValidAt, IsLevelValidAt, IsOrderMemory, IsOrderMemoryCause, IsTreeMemory, IsTreeMemoryCause};
ghost use Rattle.safebound_plans.specs.Orders.{bounds_in, entries_in};

use crate::ordering::Level;
use crate::shaping::JoinNode;
use limits::MOST_ENTRIES;
use plans::Join;
use safebound_lists::Refusal;
use tree_rows::joins_memory;

// The index of the first level whose entry doesn't exist.
fn first_invalid_level(levels: &[Level], entries: u64) -> Option<u64>
    ensures { MatchOption result ((place : ℕ) → place < length levels.now → IsLevelValidAt entries levels.now place)
        (IsFirstWrong (IsLevelValidAt entries levels.now) (length levels.now)) }
{
    for place in 0..levels.len() {
        if levels[place].entry >= entries {
            return Some(place as u64);
        }
    }
    None
}

// The index of the first join that names a node that isn't before it.
fn first_invalid_join(joins: &[JoinNode], entries: u64) -> Option<u64>
    requires few { entries + length joins.now ≤ 2 ^ 32 }
    ensures { MatchOption result ((place : ℕ) → place < length joins.now → IsJoinValidAt entries joins.now place)
        (IsFirstWrong (IsJoinValidAt entries joins.now) (length joins.now)) }
{
    for place in 0..joins.len() {
        let own = entries + place as u64;
        if joins[place].left >= own || joins[place].right >= own {
            return Some(place as u64);
        }
    }
    None
}

// Writes the entries of levels.
fn write_entries(levels: &[Level], into: &mut [u8])
    requires valid { (place : ℕ) → place < length levels.now → IsLevelValidAt most_entries levels.now place }
    requires room { length into.old ≡ length levels.now }
    ensures { into.new ≡ entries_in levels.now }
{
    for place in 0..levels.len() {
        into[place] = levels[place].entry as u8;
    }
}

// Writes the bounds of levels.
fn write_bounds(levels: &[Level], into: &mut [u64])
    requires { length into.old ≡ length levels.now }
    ensures { into.new ≡ bounds_in levels.now }
{
    for place in 0..levels.len() {
        into[place] = levels[place].bound;
    }
}

// Writes nodes as joins.
fn write_joins(nodes: &[JoinNode], into: &mut [Join])
    requires valid { (place : ℕ) → place < length nodes.now → IsJoinValidAt most_entries nodes.now place }
    requires few { length nodes.now ≤ most_entries }
    requires room { length into.old ≡ length nodes.now }
    ensures { into.new ≡ map join_of nodes.now }
{
    for place in 0..nodes.len() {
        let node = nodes[place];
        into[place] = Join {
            left: node.left as u8,
            right: node.right as u8,
            bound: node.bound,
        };
    }
}

// The number `bytes` in 64 bits, if it fits.
fn in_64_bits(bytes: u128) -> Result<u64, Refusal>
    ensures done { IfOk result (λ told. told ≡ bytes) }
    ensures refused { IfErr result (λ e. (e ≡ refusal.PastBits) × (2 ^ 64 ≤ bytes)) }
{
    if bytes > u64::MAX as u128 {
        return Err(Refusal::PastBits);
    }
    Ok(bytes as u64)
}

/// How many bytes the engine's buffers take for an order. `rows[e]` is the greatest number of rows that the list of entry e may have. An order is a
/// join tree whose right nodes are entries; it takes the bytes that `tree_memory` gives for this tree.
pub fn order_memory(rows: &[u64], levels: &[Level]) -> Result<u64, Refusal>
    ensures done { IfOk result (IsOrderMemory rows.now levels.now) }
    ensures refused { IfErr result (IsOrderMemoryCause rows.now levels.now) }
{
    let count = rows.len();
    if count == 0 || count > MOST_ENTRIES {
        return Err(Refusal::Entries {
            count: count as u64,
        });
    }
    if levels.len() != count {
        return Err(Refusal::Levels {
            count: levels.len() as u64,
        });
    }
    if let Some(place) = first_invalid_level(levels, count as u64) {
        return Err(Refusal::Level { place });
    }
    let mut order = [0u8; MOST_ENTRIES];
    let mut bounds = [0u64; MOST_ENTRIES];
    let order = &mut order[..count];
    let bounds = &mut bounds[..count];
    write_entries(levels, order);
    write_bounds(levels, bounds);
    in_64_bits(tree_rows::order_memory(order, rows, bounds))
}

/// How many bytes the engine's buffers take for the join tree with these joins. `rows[e]` is the greatest number of rows that the list of entry e may
/// have.
pub fn tree_memory(rows: &[u64], joins: &[JoinNode]) -> Result<u64, Refusal>
    ensures done { IfOk result (IsTreeMemory rows.now joins.now) }
    ensures refused { IfErr result (IsTreeMemoryCause rows.now joins.now) }
{
    let count = rows.len();
    if count == 0 || count > MOST_ENTRIES {
        return Err(Refusal::Entries {
            count: count as u64,
        });
    }
    if joins.len() + 1 != count {
        return Err(Refusal::Joins {
            count: joins.len() as u64,
        });
    }
    if let Some(place) = first_invalid_join(joins, count as u64) {
        return Err(Refusal::Join { place });
    }
    let mut nodes = [Join {
        left: 0,
        right: 0,
        bound: 0,
    }; MOST_ENTRIES];
    let nodes = &mut nodes[..joins.len()];
    write_joins(joins, nodes);
    in_64_bits(joins_memory(rows, nodes))
}

/// The bytes of two small plans, as examples of both formulas. The function does nothing; its contract has the examples.
///
/// Each plan joins two entries, of 6 and 5 rows, to at most 12 rows. The order begins with the entry of 5 rows, so its tree has the entry of 6 rows
/// on the right. The other tree has the entry of 5 rows on the right. This other tree takes 44 bytes for the entries' lists, and 96 for pairs, which
/// are the join's rows. It takes 80 bytes for chains, by which rows are looked up, 8 for row numbers and 40 for keys. The lists of these buffers take
/// 64 bytes for the entries' lists, 40 for inner nodes and 96 for chains. The entries below each node take 39 bytes.
pub fn small_plans()
    ensures order { small_order_bytes ≡ 531 }
    ensures tree { small_tree_bytes ≡ 507 }
{}
