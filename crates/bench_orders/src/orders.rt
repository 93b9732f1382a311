//! The best order over given bounds.
ghost use Rattle.std.specs.Prelude.{◌≡◌, length, replicate};

use base_io::Seq;
use order_search::{PlanError, choose};
use plans::Plan;
use std::alloc::Global;
use std::io;

fn order_error(error: PlanError) -> io::Error {
    match error {
        PlanError::NoMemory => io::Error::from(io::ErrorKind::OutOfMemory),
        _ => io::Error::from(io::ErrorKind::InvalidInput),
    }
}

/// The best order within a budget of 20,000,000 rows.
pub fn chosen(alloc: Global, bounds: &Seq<u128>, scans: &Seq<u64>) -> io::Result<Plan>
    requires scans { scans.now ≡ replicate 12 1000 }
    requires bounds { length bounds.now ≡ 4096 }
{
    choose(alloc, bounds, scans, 20_000_000).map_err(order_error)
}

/// Writes a name, the best order and the bounds of its levels.
pub fn write(rt: &HostRuntime, name: &str, bounds: &Seq<u128>, scans: &Seq<u64>) -> io::Result<()>
    requires scans { scans.now ≡ replicate 12 1000 }
    requires bounds { length bounds.now ≡ 4096 }
{
    let plan = chosen(rt.alloc(), bounds, scans)?;
    write_plan(rt, name, &plan)
}

fn write_plan(rt: &HostRuntime, name: &str, plan: &Plan) -> io::Result<()> {
    let order = plan.order.as_slice();
    let levels = plan.levels.as_slice();
    println!(rt; "{name} {order:?} {levels:?}")
}
