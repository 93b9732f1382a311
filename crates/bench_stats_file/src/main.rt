//! Measures the proved code of stats_reading; bench/stats_file.rs measures plain Rust for the same work.
//!
//! Without an argument the program reads a small file and writes nothing. With an argument, say `time`, it reads a file of nearly the greatest
//! length. Then it writes how many bytes and pairs the file has, and the milliseconds of the fastest `read_stats`.
#![tactic(auto)]

ghost use Rattle.std.specs.Prelude.{◌≤◌, length, IfOk};
ghost use Rattle.limits.specs.Profile.{most_file};
ghost use Rattle.schema_types.specs.Validity.{IsValid};

mod texts;

use limits::{MOST_FILE, MOST_TEXT};
use schema_types::{Schema, SchemaError, read_schema};
use stats_file::{StatsError, StatsFile};
use stats_reading::read_stats;
use std::alloc::Global;
use std::rt::Clock;
use std::time::Instant;
use std::{env, io};
use texts::{file_text, schema_text};

const ROUNDS: u32 = 5;

// What was read, and how long it took.
#[derive(Clone, Copy)]
struct Measure {
    bytes: usize,
    pairs: usize,
    nanos: u128,
}

fn invalid_data() -> io::Error {
    io::Error::from(io::ErrorKind::InvalidData)
}

fn stats_error(_: StatsError) -> io::Error {
    invalid_data()
}

fn schema_error(_: SchemaError) -> io::Error {
    invalid_data()
}

fn pairs_of(file: &StatsFile) -> usize {
    let mut pairs: usize = 0;
    for table in file.tables.as_slice() {
        pairs = pairs.wrapping_add(table.pairs.len());
    }
    pairs
}

fn read_once(rt: &impl Clock, alloc: Global, schema: &Schema, bytes: &[u8]) -> io::Result<Measure>
    requires valid { IsValid schema.now }
    requires few { length bytes.now ≤ most_file }
{
    let start = Instant::now(rt)?;
    let file = read_stats(alloc, schema, bytes).map_err(stats_error)?;
    let nanos = start.elapsed(rt)?.as_nanos();
    Ok(Measure {
        bytes: bytes.len(),
        pairs: pairs_of(&file),
        nanos,
    })
}

// Reads a file `rounds` times, and gives the least time. A file of more than `MOST_FILE` bytes is refused.
fn read_often(
    rt: &impl Clock,
    alloc: Global,
    schema: &Schema,
    bytes: &[u8],
    rounds: u32,
) -> io::Result<Measure>
    requires valid { IsValid schema.now }
{
    if bytes.len() > MOST_FILE as usize {
        return Err(invalid_data());
    }
    let mut least = read_once(rt, alloc, schema, bytes)?;
    for _ in 1..rounds {
        let measure = read_once(rt, alloc, schema, bytes)?;
        least.nanos = least.nanos.min(measure.nanos);
    }
    Ok(least)
}

fn schema_of(alloc: Global) -> io::Result<Schema>
    ensures { IfOk result IsValid }
{
    let text = schema_text(alloc)?;
    if text.len() > MOST_TEXT as usize {
        return Err(invalid_data());
    }
    let schema = read_schema(alloc, text.as_bytes()).map_err(schema_error)?;
    Ok(schema)
}

fn read_file(rt: &impl Clock, alloc: Global, bytes: usize, rounds: u32) -> io::Result<Measure> {
    let schema = schema_of(alloc)?;
    let file = file_text(alloc, bytes)?;
    read_often(rt, alloc, &schema, file.as_bytes(), rounds)
}

fn write_times(rt: &HostRuntime) -> io::Result<()> {
    let Measure {
        bytes,
        pairs,
        nanos,
    } = read_file(rt, rt.alloc(), MOST_FILE as usize, ROUNDS)?;
    let millis = nanos / 1_000_000;
    println!(rt; "{bytes} {pairs} {millis}")
}

fn main(rt: HostRuntime) -> io::Result<()> {
    if env::args(&rt)?.count() > 1 {
        return write_times(&rt);
    }
    read_file(&rt, rt.alloc(), 20_000, 1)?;
    Ok(())
}
