//! Measures the proved code of degree_lists; bench/degree_lists.rs measures plain Rust for the same work.
//!
//! Without an argument the program makes each call over 100 keys and writes nothing. With an argument, say `time`, it writes a line for each kind of
//! keys. A line has the kind, the number of keys, the length of the result, and the nanoseconds of the fastest call.
#![tactic(auto)]

mod keys;

use base_io::NoMemory;
use degree_lists::falling;
use keys::{Kind, keys_of};
use std::alloc::Global;
use std::rt::Clock;
use std::time::Instant;
use std::{env, io};

const KEY_COUNT: u32 = 4_000_000;

const ROUNDS: u32 = 3;

// The length of the list that a call returned, and the time of the fastest call.
#[derive(Clone, Copy)]
struct Measure {
    len: usize,
    nanos: u128,
}

fn out_of_memory(_: NoMemory) -> io::Error {
    io::Error::from(io::ErrorKind::OutOfMemory)
}

fn fastest_call(rt: &impl Clock, alloc: Global, keys: &[u64], rounds: u32) -> io::Result<Measure> {
    let mut measure = Measure {
        len: 0,
        nanos: u128::MAX,
    };
    for _ in 0..rounds {
        let start = Instant::now(rt)?;
        let list = falling(alloc, keys).map_err(out_of_memory)?;
        let nanos = start.elapsed(rt)?.as_nanos();
        measure = Measure {
            len: list.len(),
            nanos: measure.nanos.min(nanos),
        };
    }
    Ok(measure)
}

fn measure_kind(rt: &HostRuntime, kind: Kind, count: u32, rounds: u32) -> io::Result<Measure> {
    let keys = keys_of(rt.alloc(), kind, count)?;
    fastest_call(rt, rt.alloc(), keys.as_slice(), rounds)
}

fn write_time(rt: &HostRuntime, kind: Kind) -> io::Result<()> {
    let (name, count) = (kind.name(), KEY_COUNT);
    let Measure { len, nanos } = measure_kind(rt, kind, count, ROUNDS)?;
    println!(rt; "{name} {count} {len} {nanos}")
}

fn main(rt: HostRuntime) -> io::Result<()> {
    let is_timed = env::args(&rt)?.count() > 1;
    for kind in [Kind::Different, Kind::Equal, Kind::Skewed] {
        if is_timed {
            write_time(&rt, kind)?;
        } else {
            measure_kind(&rt, kind, 100, 1)?;
        }
    }
    Ok(())
}
