//! Measures the proved code of reduced_scans; bench/reduce.rs measures plain Rust for the same work.
//!
//! The program reduces the scans of two queries. The first is a chain of three tables, in which one row in a hundred stays. The second is a cycle of
//! two tables, in which one row after another is dropped. For each query the program writes how many rows stay and the sum of their row numbers.
//! Without an argument the tables are small. With an argument, say `time`, the chain has three tables of 1,000,000 rows. The cycle has 250,000
//! rows in all, then 500,000, then 1,000,000. The program then also writes to standard error the nanoseconds of scans and reduction together: the
//! least of three rounds.
#![tactic(auto)]

ghost use Rattle.std.specs.Prelude.{◌≤◌};

mod failed;
mod reducing;
mod tables;

use base_io::MemStore;
use failed::Failed;
use limits::{MOST_CONJUNCTS, MOST_TEXT};
use reducing::{Reduced, timed_reduction};
use schema_types::read_schema;
use sql_parse::read_query;
use std::alloc::Global;
use std::rt::Clock;
use std::{env, io};
use table_files::read_tables;
use tables::{CHAIN, CYCLE, SCHEMA, chain, cycle};

const ROUNDS: u32 = 3;

// The fastest of `rounds` reductions of a query's scans.
fn fastest_of(
    rt: &impl Clock,
    alloc: Global,
    text: &str,
    store: &mut MemStore,
    rounds: u32,
) -> Result<Reduced, Failed> {
    if SCHEMA.len() > MOST_TEXT as usize || text.len() > MOST_TEXT as usize {
        return Err(Failed);
    }
    let schema = read_schema(alloc, SCHEMA.as_bytes())?;
    let query = read_query(alloc, &schema, text.as_bytes())?;
    let db = read_tables(alloc, store, &schema, &query)?;
    if query.conjuncts.len() > MOST_CONJUNCTS {
        return Err(Failed);
    }
    let mut least = timed_reduction(rt, alloc, &query, &db)?;
    for _ in 1..rounds {
        let next = timed_reduction(rt, alloc, &query, &db)?;
        if next.nanos < least.nanos {
            least = next;
        }
    }
    Ok(least)
}

fn show(rt: &HostRuntime, name: &str, least: Reduced, rounds: u32) -> io::Result<()> {
    println!(rt; "{name} {} {}", least.rows, least.sum)?;
    if rounds > 1 {
        eprintln!(rt; "{}", least.nanos)?;
    }
    Ok(())
}

fn show_chain(rt: &HostRuntime, name: &str, rows: u32, rounds: u32) -> io::Result<()>
    requires { rows ≤ 1000000 }
{
    let alloc = rt.alloc();
    let mut store = chain(alloc, rows)?;
    let least = fastest_of(rt, alloc, CHAIN, &mut store, rounds)?;
    show(rt, name, least, rounds)
}

fn show_cycle(rt: &HostRuntime, name: &str, rows: u32, rounds: u32) -> io::Result<()>
    requires { rows ≤ 1000000 }
{
    let alloc = rt.alloc();
    let mut store = cycle(alloc, rows)?;
    let least = fastest_of(rt, alloc, CYCLE, &mut store, rounds)?;
    show(rt, name, least, rounds)
}

fn main(rt: HostRuntime) -> io::Result<()> {
    if env::args(&rt)?.count() <= 1 {
        show_chain(&rt, "chain", 1_000, 1)?;
        show_cycle(&rt, "half", 10, 1)?;
        return show_cycle(&rt, "whole", 20, 1);
    }
    show_chain(&rt, "chain", 1_000_000, ROUNDS)?;
    show_cycle(&rt, "quarter", 125_000, ROUNDS)?;
    show_cycle(&rt, "half", 250_000, ROUNDS)?;
    show_cycle(&rt, "whole", 500_000, ROUNDS)
}
