//! Measures the proved code of bushy_join; bench/joins.rs measures plain Rust for the same work.
//!
//! The program joins pairs of tables. For each pair it writes how many rows the join has, and a checksum of their row numbers. Without an argument
//! the tables are small. With an argument, say `time`, they have up to 1,000,000 rows. The program then also writes to standard error the nanoseconds
//! of the fastest of three executions.
#![tactic(auto)]

ghost use Rattle.std.specs.Prelude.{◌≡◌, ◌*◌, ◌<◌, ◌≤◌, [], ◌∷◌, length};
ghost use Rattle.std.specs.List.{AllZip};
ghost use Rattle.reserve_plan.specs.Rooms.{IsRoomFor};
ghost use Rattle.tree_rows.specs.Nodes.{node_at};
ghost use Rattle.tree_rows.specs.Rooms.{HasTreeRooms};
ghost use Rattle.bench_joins.specs.Tables.{IsJoinOfTwo};

mod tables;

use base_io::NoMemory;
use bushy_join::execute_bushy;
use csv_tables::Database;
use join_steps::scan_all;
use plans::BushyPlan;
use query_types::{Op, Query};
use reserve_plan::row_buffers;
use row_buf::RowBuf;
use std::alloc::Global;
use std::rt::Clock;
use std::time::Instant;
use std::{env, io};
use tables::{Sizes, database, plan, query};
use tree_rows::{BushyReserved, BushyResult, reserve_bushy};

// The node that joins the tables. The tables themselves are nodes 0 and 1.
const ROOT: u8 = 2;

const ROUNDS: u32 = 3;

fn out_of_memory(_: NoMemory) -> io::Error {
    io::Error::from(io::ErrorKind::OutOfMemory)
}

// The time of an execution in nanoseconds, the number of rows of the join, and a checksum of their row numbers.
#[derive(Clone, Copy)]
struct Joined {
    nanos: u128,
    rows: u32,
    sum: u64,
}

fn counted_and_summed(done: &BushyResult) -> Joined
    requires nodes { length done.now.nodes ≡ 3 }
    requires entries { (node_at done.now.nodes ROOT).entries ≡ 0 ∷ 1 ∷ [] }
{
    let rows = done.len(ROOT);
    let mut sum: u64 = 0;
    for i in 0..rows {
        let mut choice = [0, 0];
        done.rows_of(ROOT, i, &mut choice);
        sum = sum.wrapping_add(u64::from(choice[0]) ^ u64::from(choice[1]));
    }
    Joined {
        nanos: u128::MAX,
        rows,
        sum,
    }
}

// Times the scans and their join. The memory for them was reserved before.
fn execution(
    rt: &impl Clock,
    mut lists: Vec<RowBuf<u32>>,
    reserved: BushyReserved,
    plan: &BushyPlan,
    query: &Query,
    db: &Database,
) -> io::Result<Joined>
    requires join { IsJoinOfTwo plan.now query.now db.now }
    requires lists { AllZip IsRoomFor plan.now.scans lists.items }
    requires rooms { HasTreeRooms plan.now reserved }
{
    let start = Instant::now(rt)?;
    scan_all(query, db, lists.as_mut_slice());
    let done = execute_bushy(reserved, lists, plan, query, db);
    let nanos = start.elapsed(rt)?.as_nanos();
    let Joined { rows, sum, .. } = counted_and_summed(&done);
    Ok(Joined { nanos, rows, sum })
}

fn timed_execution(
    rt: &impl Clock,
    alloc: Global,
    plan: &BushyPlan,
    query: &Query,
    db: &Database,
) -> io::Result<Joined>
    requires { IsJoinOfTwo plan.now query.now db.now }
{
    let lists = row_buffers(alloc, plan.scans.as_slice()).map_err(out_of_memory)?;
    let reserved = reserve_bushy(alloc, plan).map_err(out_of_memory)?;
    execution(rt, lists, reserved, plan, query, db)
}

// The fastest of `rounds` executions.
fn fastest_of(
    rt: &impl Clock,
    alloc: Global,
    sizes: Sizes,
    comparison: Option<Op>,
    rounds: u32,
) -> io::Result<Joined>
    requires some { 0 < sizes.repeats }
    requires left { sizes.left ≤ 4000000 }
    requires right { sizes.right ≤ 4000000 }
    requires joined { sizes.repeats * sizes.left ≤ 20000000 }
{
    let db = database(alloc, sizes).map_err(out_of_memory)?;
    let query = query(alloc, comparison).map_err(out_of_memory)?;
    let plan = plan(alloc, sizes).map_err(out_of_memory)?;
    let mut least = timed_execution(rt, alloc, &plan, &query, &db)?;
    for _ in 1..rounds {
        let next = timed_execution(rt, alloc, &plan, &query, &db)?;
        if next.nanos < least.nanos {
            least = next;
        }
    }
    Ok(least)
}

// A name, the numbers of rows of the left and the right table, how often the right table has each key, and the operator that compares values, if any.
#[derive(Clone, Copy)]
struct Case<'a>(&'a str, u32, u32, u32, Option<Op>);

const SMALL: [Case<'static>; 3] = [
    Case("equal", 10, 10, 2, None),
    Case("different", 10, 10, 2, Some(Op::Ne)),
    Case("both", 2_000, 2_000, 100, Some(Op::Eq)),
];

const LARGE: [Case<'static>; 8] = [
    Case("orders", 50_000, 200_000, 4, None),
    Case("items", 200_000, 400_000, 2, None),
    Case("products", 400_000, 20_000, 1, None),
    Case("unique", 1_000_000, 1_000_000, 1, None),
    Case("heavy", 10_000, 10_000, 1_000, None),
    Case("unique-tested", 1_000_000, 1_000_000, 1, Some(Op::Ne)),
    Case("heavy-tested", 10_000, 10_000, 1_000, Some(Op::Ne)),
    Case("heavy-both", 10_000, 10_000, 1_000, Some(Op::Eq)),
];

// Measures a case. If the tables or the join have more rows than a plan may have, the case is refused.
fn fastest_of_case(
    rt: &impl Clock,
    alloc: Global,
    case: Case<'_>,
    rounds: u32,
) -> io::Result<Joined> {
    let Case(_, left, right, repeats, comparison) = case;
    let most = u64::from(repeats) * u64::from(left);
    if repeats == 0 || left > 4_000_000 || right > 4_000_000 || most > 20_000_000 {
        return Err(io::Error::from(io::ErrorKind::InvalidInput));
    }
    fastest_of(
        rt,
        alloc,
        Sizes {
            left,
            right,
            repeats,
        },
        comparison,
        rounds,
    )
}

fn show(rt: &HostRuntime, case: Case<'_>, rounds: u32) -> io::Result<()> {
    let name = case.0;
    let Joined { nanos, rows, sum } = fastest_of_case(rt, rt.alloc(), case, rounds)?;
    println!(rt; "{name} {rows} {sum}")?;
    if rounds > 1 {
        eprintln!(rt; "{nanos}")?;
    }
    Ok(())
}

fn show_all(rt: &HostRuntime, cases: &[Case<'_>], rounds: u32) -> io::Result<()> {
    for case in cases {
        show(rt, *case, rounds)?;
    }
    Ok(())
}

fn main(rt: HostRuntime) -> io::Result<()> {
    if env::args(&rt)?.count() <= 1 {
        return show_all(&rt, &SMALL, 1);
    }
    show_all(&rt, &LARGE, ROUNDS)
}
