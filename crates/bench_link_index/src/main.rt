//! Measures the proved code of link_index; bench/link_index.rs measures plain Rust for the same work.
//!
//! Without an argument the program makes the calls over 1,000 keys, and writes a checksum of their results. With an argument it makes them over
//! 4,000,000 keys. Then it also writes to standard error the nanoseconds that `load`, `first` and `after` took for all keys. Each number is the least
//! of five rounds.
#![tactic(auto)]

ghost use Rattle.std.specs.Prelude.{◌≡◌, ◌<◌, ◌≤◌, length, vec_len, IfOk};

use base_io::NoMemory;
use link_index::Chains;
use std::alloc::{AllocError, Global};
use std::rt::Clock;
use std::time::Instant;
use std::{env, io};

const ROUNDS: u32 = 5;

// The least time of each kind of call, in nanoseconds, and sums of what the calls returned.
#[derive(Clone, Copy)]
struct Round {
    load: u128,
    first: u128,
    after: u128,
    first_sum: u64,
    after_sum: u64,
}

impl Round {
    fn with_least_times(self, other: Round) -> Round {
        Round {
            load: self.load.min(other.load),
            first: self.first.min(other.first),
            after: self.after.min(other.after),
            first_sum: other.first_sum,
            after_sum: other.after_sum,
        }
    }
}

fn out_of_memory(_: NoMemory) -> io::Error {
    io::Error::from(io::ErrorKind::OutOfMemory)
}

fn multiples(alloc: Global, count: u64, step: u64) -> Result<Vec<u64>, AllocError>
    ensures { IfOk result (λ keys. vec_len keys ≡ count) }
{
    let mut keys = Vec::new(alloc);
    for i in 0..count {
        keys.push(i.wrapping_mul(step))?;
    }
    Ok(keys)
}

fn find_each(chains: &Chains, keys: &[u64]) -> u64 {
    let mut sum: u64 = 0;
    for key in keys {
        if let Some(place) = chains.first(*key) {
            sum = sum.wrapping_add(place as u64);
        }
    }
    sum
}

fn follow_each(chains: &Chains, keys: &[u64]) -> u64
    requires keys { chains.now.keys ≡ keys.now }
    requires few { length keys.now ≤ 4000000 }
{
    let mut sum: u64 = 0;
    for (place, key) in keys.iter().enumerate() {
        if let Some(next) = chains.after(place as u32, *key) {
            sum = sum.wrapping_add(next as u64);
        }
    }
    sum
}

fn timed_round(rt: &impl Clock, chains: &mut Chains, keys: &[u64]) -> io::Result<Round>
    requires few { length keys.now ≤ 4000000 }
    requires room { length keys.now ≤ chains.old.room }
    requires bucket { 1 ≤ chains.old.buckets }
    ensures room { chains.new.room ≡ chains.old.room }
    ensures buckets { chains.new.buckets ≡ chains.old.buckets }
{
    let start = Instant::now(rt)?;
    chains.load(keys);
    let load = start.elapsed(rt)?.as_nanos();
    let start = Instant::now(rt)?;
    let first_sum = find_each(chains, keys);
    let first = start.elapsed(rt)?.as_nanos();
    let start = Instant::now(rt)?;
    let after_sum = follow_each(chains, keys);
    let after = start.elapsed(rt)?.as_nanos();
    Ok(Round {
        load,
        first,
        after,
        first_sum,
        after_sum,
    })
}

fn measure(rt: &impl Clock, alloc: Global, count: u64, step: u64) -> io::Result<Round>
    requires some { 1 ≤ count }
    requires few { count ≤ 4000000 }
{
    let keys = multiples(alloc, count, step)?;
    let keys = keys.as_slice();
    let mut chains = Chains::with_room(alloc, count, count).map_err(out_of_memory)?;
    let mut least = timed_round(rt, &mut chains, keys)?;
    for _ in 1..ROUNDS {
        least = least.with_least_times(timed_round(rt, &mut chains, keys)?);
    }
    Ok(least)
}

fn write_round(rt: &HostRuntime, name: &str, round: Round, is_timed: bool) -> io::Result<()> {
    println!(rt; "{name} {} {}", round.first_sum, round.after_sum)?;
    if is_timed {
        eprintln!(rt;
            "load {} first {} after {}",
            round.load, round.first, round.after
        )?;
    }
    Ok(())
}

fn main(rt: HostRuntime) -> io::Result<()> {
    let is_timed = env::args(&rt)?.count() > 1;
    let count: u64 = if is_timed { 4_000_000 } else { 1_000 };
    for (name, step) in [("ascending", 1), ("multiples", 65_536), ("equal", 0)] {
        let round = measure(&rt, rt.alloc(), count, step)?;
        write_round(&rt, name, round, is_timed)?;
    }
    Ok(())
}
