//! Measures the proved code of order_search and bushy_plan; bench/orders.rs and bench/bushy.rs measure plain Rust for the same work.
//!
//! The program chooses orders of twelve entries for three kinds of bounds, then join trees for these bounds, and writes what it chose. With an
//! argument it also writes to standard error the nanoseconds of each choice: the least of 50 choices of an order, and of 10 choices of a tree.
#![tactic(auto)]

ghost use Rattle.std.specs.Prelude.{◌≡◌, ◌<◌, length, replicate, vec_len, IfOk};

mod orders;
mod trees;

use base_io::Seq;
use std::alloc::{AllocError, Global};
use std::time::Instant;
use std::{env, io};

// Whether an order or a join tree is chosen.
#[derive(Clone, Copy)]
enum PlanKind {
    Order,
    Tree,
}

impl PlanKind {
    // How many times the choice is made when it is timed.
    fn rounds(self) -> u32 {
        match self {
            PlanKind::Order => 50,
            PlanKind::Tree => 10,
        }
    }
}

// A bound for each subset of twelve entries.
fn bounds_of(alloc: Global, step: u64, limit: u64) -> Result<Vec<u128>, AllocError>
    requires { 0 < limit }
    ensures { IfOk result (λ bounds. vec_len bounds ≡ 4096) }
{
    let mut bounds = Vec::new(alloc);
    for set in 0..4096u64 {
        bounds.push((set.wrapping_mul(step) % limit) as u128)?;
    }
    Ok(bounds)
}

// Makes the choice once, and drops the answer.
fn choose_once(
    alloc: Global,
    wanted: PlanKind,
    bounds: &Seq<u128>,
    scans: &Seq<u64>,
) -> io::Result<()>
    requires scans { scans.now ≡ replicate 12 1000 }
    requires bounds { length bounds.now ≡ 4096 }
{
    match wanted {
        PlanKind::Order => {
            let _plan = orders::chosen(alloc, bounds, scans)?;
        }
        PlanKind::Tree => {
            let _plan = trees::chosen(alloc, bounds, scans)?;
        }
    }
    Ok(())
}

// The least time of a choice, in nanoseconds.
fn measure(
    rt: &HostRuntime,
    wanted: PlanKind,
    bounds: &Seq<u128>,
    scans: &Seq<u64>,
) -> io::Result<u128>
    requires scans { scans.now ≡ replicate 12 1000 }
    requires bounds { length bounds.now ≡ 4096 }
{
    let mut least = u128::MAX;
    for _ in 0..wanted.rounds() {
        let start = Instant::now(rt)?;
        choose_once(rt.alloc(), wanted, bounds, scans)?;
        least = least.min(start.elapsed(rt)?.as_nanos());
    }
    Ok(least)
}

// Writes the choice for each kind of bounds, and its time if `is_timed`.
fn write_choices(
    rt: &HostRuntime,
    wanted: PlanKind,
    scans: &Seq<u64>,
    is_timed: bool,
) -> io::Result<()>
    requires { scans.now ≡ replicate 12 1000 }
{
    for (name, step, limit) in [
        ("equal", 0, 1),
        ("ascending", 1, 1_000_000),
        ("mixed", 2_654_435_761, 1_000_003),
    ] {
        let bounds = Seq::from_vec(bounds_of(rt.alloc(), step, limit)?);
        match wanted {
            PlanKind::Order => orders::write(rt, name, &bounds, scans)?,
            PlanKind::Tree => trees::write(rt, name, &bounds, scans)?,
        }
        if is_timed {
            let nanoseconds = measure(rt, wanted, &bounds, scans)?;
            eprintln!(rt; "{nanoseconds}")?;
        }
    }
    Ok(())
}

fn main(rt: HostRuntime) -> io::Result<()> {
    let is_timed = env::args(&rt)?.count() > 1;
    let alloc = rt.alloc();
    let scans = Seq::from_vec(vec![in alloc; 1000; 12]?);
    write_choices(&rt, PlanKind::Order, &scans, is_timed)?;
    write_choices(&rt, PlanKind::Tree, &scans, is_timed)
}
