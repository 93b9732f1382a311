//! Reserves the buffers of a small plan, while tools/memory-bytes counts the requests for memory.
//!
//! The plan is an order of two entries. With the word `take-trees` the program reserves the buffers of its join tree. With another word of the same
//! length it reserves nothing. So the requests that only the run with `take-trees` makes are those of the reservation. Each run prints how many bytes
//! the plan takes, as an order and as a tree.
#![tactic(auto)]

ghost use Rattle.std.specs.Prelude.{IfOk, length};
ghost use Rattle.plans.specs.TreePlans.{IsTreePlan};
ghost use Rattle.tree_rows.specs.Rooms.{BoundsFitBuffers};

use base_io::{NoMemory, Seq};
use plans::{BushyPlan, Join};
use reserve_plan::row_buffers;
use std::alloc::Global;
use std::{env, io};
use tree_rows::{order_memory, reserve_bushy, tree_memory};

const JOIN: Join = Join {
    left: 1,
    right: 0,
    bound: 12,
};

fn out_of_memory(_: NoMemory) -> io::Error {
    io::Error::from(io::ErrorKind::OutOfMemory)
}

// The two entries, joined as a tree.
fn tree_of_two(alloc: Global) -> Result<BushyPlan, NoMemory>
    ensures plan { IfOk result (λ plan. IsTreePlan (length plan.scans) plan) }
    ensures small { IfOk result BoundsFitBuffers }
{
    let mut joins = Seq::new(alloc);
    joins.push(JOIN)?;
    let mut scans = Seq::new(alloc);
    scans.push(6)?;
    scans.push(5)?;
    Ok(BushyPlan {
        joins,
        scans,
        cost: 12,
    })
}

// How many lists and chains were reserved for the tree.
fn reserved_tree(alloc: Global, plan: &BushyPlan) -> Result<usize, NoMemory>
    requires plan { IsTreePlan (length plan.now.scans) plan.now }
    requires small { BoundsFitBuffers plan.now }
{
    let lists = row_buffers(alloc, plan.scans.as_slice())?;
    let reserved = reserve_bushy(alloc, plan)?;
    Ok(lists.len().saturating_add(reserved.chains.len()))
}

fn is_asked(rt: &HostRuntime, word: &str) -> io::Result<bool> {
    Ok(env::args(rt)?.any(|other| other.as_str() == word))
}

// Prints the bytes of the plan, and reserves its buffers if that is asked for.
fn print_plan(rt: &HostRuntime, plan: &BushyPlan) -> io::Result<()>
    requires plan { IsTreePlan (length plan.now.scans) plan.now }
    requires small { BoundsFitBuffers plan.now }
{
    let order = order_memory(&[1, 0], &[6, 5], &[5, 12]);
    println!(rt; "order {order}")?;
    println!(rt; "trees {}", tree_memory(plan))?;
    let count = if is_asked(rt, "take-trees")? {
        reserved_tree(rt.alloc(), plan)
    } else {
        Ok(0)
    };
    match count {
        Ok(count) => println!(rt; "reserved {count}")?,
        Err(_) => println!(rt; "no memory")?,
    }
    Ok(())
}

fn main(rt: HostRuntime) -> io::Result<()> {
    match tree_of_two(rt.alloc()) {
        Ok(plan) => print_plan(&rt, &plan),
        Err(error) => Err(out_of_memory(error)),
    }
}
