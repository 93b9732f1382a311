//! Measures the proved code of bound_fold and set_bounds; bench/fold.rs measures plain Rust for the same work.
//!
//! Without an argument the program writes the bounds of two small queries. With one argument, say `time`, it writes a line for each measure. The line
//! has the query's shape, the number of entries, the number of pieces of each list, the number of trees that are folded, the bound, and the
//! nanoseconds of the fastest computation. With two arguments, say `time sets`, the program measures the bounds of all sets of twelve entries. It
//! writes a line for each shape: the shape, the sum of the bounds, and the nanoseconds.
#![tactic(auto)]

mod listed;
mod queries;
mod timing;

use base_io::NoMemory;
use entry_sets::EntrySet;
use join_graph::count_turns;
use queries::{Query, Shape, add_list, edge, list_of_numbers, query_of, query_of_shape};
use std::alloc::Global;
use std::{env, io};
use timing::{Timing, fastest_bound, fastest_bounds_of_sets, out_of_memory};

const ROUNDS: u32 = 20;

const ROUNDS_OF_SETS: u32 = 3;

// Adds the list of an entry's column, which has these numbers.
fn add_numbers(
    alloc: Global,
    query: &mut Query,
    entry: u8,
    column: u32,
    numbers: &[u128],
) -> Result<(), NoMemory> {
    let list = list_of_numbers(alloc, numbers)?;
    add_list(&mut query.lists, entry, column, list)
}

// The query with the equalities R.X = S.X and S.Y = T.Y.
fn path(alloc: Global) -> Result<Query, NoMemory> {
    let edges = [edge(0, 0, 1, 0), edge(1, 1, 2, 0)];
    let mut query = query_of(alloc, &edges, &[3, 6, 5])?;
    add_numbers(alloc, &mut query, 0, 0, &[2, 1])?;
    add_numbers(alloc, &mut query, 1, 0, &[3, 3])?;
    add_numbers(alloc, &mut query, 1, 1, &[2, 2, 2])?;
    add_numbers(alloc, &mut query, 2, 0, &[4, 1])?;
    Ok(query)
}

// Three entries of two columns. Each column is equal to a column of another entry.
fn triangle(alloc: Global) -> Result<Query, NoMemory> {
    let edges = [edge(0, 0, 1, 0), edge(1, 1, 2, 0), edge(2, 1, 0, 1)];
    let mut query = query_of(alloc, &edges, &[3, 3, 3])?;
    for entry in 0..3 {
        add_numbers(alloc, &mut query, entry, 0, &[2, 1])?;
        add_numbers(alloc, &mut query, entry, 1, &[2, 1])?;
    }
    Ok(query)
}

fn show(rt: &HostRuntime, name: &str, query: &Query) -> io::Result<()> {
    let Timing { bound, .. } = fastest_bound(rt, rt.alloc(), query, set_of_first_entries(3), 1)?;
    println!(rt; "{name} {bound}")
}

fn show_small(rt: &HostRuntime) -> io::Result<()> {
    let path = path(rt.alloc()).map_err(out_of_memory)?;
    show(rt, "path", &path)?;
    let triangle = triangle(rt.alloc()).map_err(out_of_memory)?;
    show(rt, "triangle", &triangle)
}

// The set of the first `entries` entries.
fn set_of_first_entries(entries: u8) -> EntrySet {
    let bits = u16::MAX
        .checked_shr(16 - u32::from(entries.min(16)))
        .unwrap_or(0);
    EntrySet::from_bits(bits)
}

fn write_timing(
    rt: &HostRuntime,
    shape: Shape,
    entries: u8,
    pieces: u32,
    trees: u32,
    timing: Timing,
) -> io::Result<()> {
    let name = shape.name();
    let Timing { bound, nanos } = timing;
    println!(rt; "{name} {entries} {pieces} {trees} {bound} {nanos}")
}

fn time(rt: &HostRuntime, shape: Shape, entries: u8, pieces: u32) -> io::Result<()> {
    let query = query_of_shape(rt.alloc(), shape, entries, pieces).map_err(out_of_memory)?;
    let subset = set_of_first_entries(entries);
    let timing = fastest_bound(rt, rt.alloc(), &query, subset, ROUNDS)?;
    let trees = count_turns(&query.parts, subset);
    write_timing(rt, shape, entries, pieces, trees, timing)
}

fn time_sizes(rt: &HostRuntime, shape: Shape) -> io::Result<()> {
    for (entries, pieces) in [(12, 16), (12, 32), (3, 64), (6, 64), (12, 64)] {
        time(rt, shape, entries, pieces)?;
    }
    Ok(())
}

fn time_shapes(rt: &HostRuntime) -> io::Result<()> {
    for shape in [Shape::Chain, Shape::Star, Shape::OneClass] {
        time_sizes(rt, shape)?;
    }
    Ok(())
}

fn time_sets_of(rt: &HostRuntime, shape: Shape) -> io::Result<()> {
    let query = query_of_shape(rt.alloc(), shape, 12, 23).map_err(out_of_memory)?;
    let Timing { bound, nanos } = fastest_bounds_of_sets(rt, rt.alloc(), &query, ROUNDS_OF_SETS)?;
    let name = shape.name();
    println!(rt; "{name} {bound} {nanos}")
}

fn time_sets(rt: &HostRuntime) -> io::Result<()> {
    for shape in [
        Shape::Chain,
        Shape::Star,
        Shape::JoinedStar,
        Shape::OneClass,
        Shape::Ring,
        Shape::Pairs,
        Shape::PairsApart,
    ] {
        time_sets_of(rt, shape)?;
    }
    Ok(())
}

fn main(rt: HostRuntime) -> io::Result<()> {
    let words = env::args(&rt)?.count();
    if words <= 1 {
        return show_small(&rt);
    }
    if words > 2 {
        return time_sets(&rt);
    }
    time_shapes(&rt)
}
