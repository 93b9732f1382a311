//! The best join tree over given bounds.
ghost use Rattle.std.specs.Prelude.{◌≡◌, length, replicate};

use base_io::Seq;
use bushy_plan::choose_bushy;
use order_search::PlanError;
use plans::BushyPlan;
use std::alloc::Global;
use std::io;

fn tree_error(error: PlanError) -> io::Error {
    match error {
        PlanError::NoMemory => io::Error::from(io::ErrorKind::OutOfMemory),
        _ => io::Error::from(io::ErrorKind::InvalidInput),
    }
}

/// The best join tree within a budget of 4,000,000 rows.
pub fn chosen(alloc: Global, bounds: &Seq<u128>, scans: &Seq<u64>) -> io::Result<BushyPlan>
    requires scans { scans.now ≡ replicate 12 1000 }
    requires bounds { length bounds.now ≡ 4096 }
{
    choose_bushy(alloc, bounds, scans, 4_000_000).map_err(tree_error)
}

/// Writes a name, the cost of the best join tree and its joins.
pub fn write(rt: &HostRuntime, name: &str, bounds: &Seq<u128>, scans: &Seq<u64>) -> io::Result<()>
    requires scans { scans.now ≡ replicate 12 1000 }
    requires bounds { length bounds.now ≡ 4096 }
{
    let plan = chosen(rt.alloc(), bounds, scans)?;
    write_plan(rt, name, &plan)
}

fn write_plan(rt: &HostRuntime, name: &str, plan: &BushyPlan) -> io::Result<()> {
    let cost = plan.cost;
    print!(rt; "{name} {cost}")?;
    for join in plan.joins.as_slice() {
        let (left, right, bound) = (join.left, join.right, join.bound);
        print!(rt; " {left} {right} {bound}")?;
    }
    println!(rt; "")
}
