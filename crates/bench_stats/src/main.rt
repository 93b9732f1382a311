//! Measures the proved code of column_stats and cond_stats; bench/stats.rs measures plain Rust for the same work.
//!
//! The program makes all lists of a pair of columns at once, and then the lists of one value and of one range on demand. After each of the two parts
//! it writes how many runs the lists have. Without an argument the columns have 100 rows. With an argument, say `time`, they have 1,000,000 rows. The
//! program then also writes to standard error the nanoseconds of each part: the least of three rounds.
#![tactic(auto)]

ghost use Rattle.std.specs.Prelude.{◌≡◌, ◌<◌, ◌^◌, length, IfOk};
ghost use Rattle.column_stats.specs.Pairs.{HasColumn};

mod columns;

use base_io::NoMemory;
use column_stats::ColumnStats;
use columns::{FilterKind, Pair, pair_of, texts};
use cond_stats::FilterColumn;
use csv_tables::{Cells, Pool};
use limits::Accuracy;
use pair_tables::{are_cells, gather, table_of_pair};
use piece_math::Pieces;
use schema_types::Kind;
use std::alloc::Global;
use std::time::Instant;
use std::{env, io};

const ROUNDS: u32 = 3;

fn out_of_memory(_: NoMemory) -> io::Error {
    io::Error::from(io::ErrorKind::OutOfMemory)
}

// How many runs a list has.
fn run_count_of_list(list: &Pieces) -> u64 {
    list.pieces().len() as u64
}

// How many runs all lists have.
fn run_count_of_all_lists(stats: &ColumnStats) -> u64 {
    let mut all = run_count_of_list(&stats.whole).wrapping_add(run_count_of_list(&stats.rest));
    for frequent in stats.frequent.as_slice() {
        all = all.wrapping_add(run_count_of_list(&frequent.list));
    }
    for node in stats.nodes.as_slice() {
        all = all.wrapping_add(run_count_of_list(node));
    }
    all
}

// A column of a kind, sorted. The error is `NoMemory` also for a cell that isn't of this kind, and for more than 4,000,000 cells.
fn sorted_column<'a>(
    alloc: Global,
    pool: &'a Pool,
    kind: Kind,
    cells: &'a [u64],
) -> Result<FilterColumn<'a>, NoMemory>
    ensures { IfOk result (λ column. (column.cells ≡ cells.now) × (length cells.now < 2 ^ 32)) }
{
    if cells.len() > 4_000_000 || !are_cells(pool, kind, cells) {
        return Err(NoMemory);
    }
    FilterColumn::new(alloc, pool, kind, cells)
}

// How many runs two lists have together: the list of the middle row's value, and the list of the range from leaf 8 to leaf 15.
fn on_demand(alloc: Global, pool: &Pool, kind: Kind, pair: &Pair) -> Result<u64, NoMemory> {
    let cells = pair.filter.as_slice();
    let joined = pair.joined.as_slice();
    if cells.len() != joined.len() {
        return Err(NoMemory);
    }
    let column = sorted_column(alloc, pool, kind, cells)?;
    let value = column.list_of_value(joined, cells.get(cells.len() / 2).copied(), Accuracy::of(1))?;
    let range = column.list_of_range(joined, Some(8), Some(15), Accuracy::of(1))?;
    Ok(run_count_of_list(&value).wrapping_add(run_count_of_list(&range)))
}

// How many rows the columns have, how often each part is measured, and whether times are written.
#[derive(Clone, Copy)]
struct Settings {
    is_timed: bool,
    rounds: u32,
    rows: u32,
}

fn report(
    rt: &HostRuntime,
    settings: Settings,
    name: &str,
    part: &str,
    runs: u64,
    nanos: u128,
) -> io::Result<()> {
    println!(rt; "{name}{part} {runs}")?;
    if settings.is_timed {
        eprintln!(rt; "{nanos}")?;
    }
    Ok(())
}

fn measure_gather(
    rt: &HostRuntime,
    settings: Settings,
    name: &str,
    pool: &Pool,
    cells: &Cells,
) -> io::Result<()>
    requires filter { HasColumn pool.now cells.now 0 }
    requires joined { HasColumn pool.now cells.now 1 }
{
    let mut least = u128::MAX;
    let mut runs = 0;
    for _ in 0..settings.rounds {
        let start = Instant::now(rt)?;
        let stats = gather(rt.alloc(), cells, pool, 0, 1, Accuracy::of(1)).map_err(out_of_memory)?;
        least = least.min(start.elapsed(rt)?.as_nanos());
        runs = run_count_of_all_lists(&stats);
    }
    report(rt, settings, name, "-gather", runs, least)
}

fn measure_demand(
    rt: &HostRuntime,
    settings: Settings,
    name: &str,
    pool: &Pool,
    kind: Kind,
    pair: &Pair,
) -> io::Result<()> {
    let mut least = u128::MAX;
    let mut runs = 0;
    for _ in 0..settings.rounds {
        let start = Instant::now(rt)?;
        runs = on_demand(rt.alloc(), pool, kind, pair).map_err(out_of_memory)?;
        least = least.min(start.elapsed(rt)?.as_nanos());
    }
    report(rt, settings, name, "-demand", runs, least)
}

fn measure_pair(
    rt: &HostRuntime,
    settings: Settings,
    pool: &Pool,
    filter: FilterKind,
) -> io::Result<()> {
    let kind = match filter {
        FilterKind::Ten | FilterKind::Different => Kind::Int,
        FilterKind::Texts => Kind::Text(8),
    };
    let pair = pair_of(rt.alloc(), filter, settings.rows).map_err(out_of_memory)?;
    let cells = table_of_pair(
        rt.alloc(),
        pool,
        kind,
        pair.filter.as_slice(),
        pair.joined.as_slice(),
    )
    .map_err(out_of_memory)?;
    measure_gather(rt, settings, filter.name(), pool, &cells)?;
    measure_demand(rt, settings, filter.name(), pool, kind, &pair)
}

fn main(rt: HostRuntime) -> io::Result<()> {
    let settings = if env::args(&rt)?.count() > 1 {
        Settings {
            is_timed: true,
            rounds: ROUNDS,
            rows: 1_000_000,
        }
    } else {
        Settings {
            is_timed: false,
            rounds: 1,
            rows: 100,
        }
    };
    let pool = texts(rt.alloc()).map_err(out_of_memory)?;
    for filter in [FilterKind::Ten, FilterKind::Different, FilterKind::Texts] {
        measure_pair(&rt, settings, &pool, filter)?;
    }
    Ok(())
}
