//! Measures how long the bounds of a query take. Each call computes the bounds a number of times and keeps the least time.
ghost use Rattle.bound_fold.specs.Sets.{SetHasBounds};
ghost use Rattle.set_bounds.specs.AllSets.{first_entries};

use crate::listed::has_all_bounds;
use crate::queries::Query;
use base_io::NoMemory;
use bound_fold::set_bound;
use entry_sets::EntrySet;
use set_bounds::bounds_of_sets;
use std::alloc::Global;
use std::io;
use std::rt::Clock;
use std::time::Instant;

/// The bound of a set of entries, or the sum of the bounds of all sets, and how many nanoseconds the computation took.
#[derive(Clone, Copy)]
pub struct Timing {
    pub bound: u128,
    pub nanos: u128,
}

impl Timing {
    fn none() -> Timing {
        Timing {
            bound: 0,
            nanos: u128::MAX,
        }
    }

    // The bound of the later timing, with the lesser of the two times.
    fn with_least_time(self, later: Timing) -> Timing {
        Timing {
            bound: later.bound,
            nanos: self.nanos.min(later.nanos),
        }
    }
}

pub fn out_of_memory(_: NoMemory) -> io::Error {
    io::Error::from(io::ErrorKind::OutOfMemory)
}

fn missing_bound_error() -> io::Error {
    io::Error::from(io::ErrorKind::InvalidInput)
}

fn bound_once(rt: &impl Clock, alloc: Global, query: &Query, subset: EntrySet) -> io::Result<Timing>
    requires { SetHasBounds query.now.lists query.now.parts.equalities subset }
{
    let start = Instant::now(rt)?;
    let bound = set_bound(alloc, &query.parts, subset, &query.lists).map_err(out_of_memory)?;
    let nanos = start.elapsed(rt)?.as_nanos();
    Ok(Timing { bound, nanos })
}

/// The bound of a set of entries, with the least time of `rounds` rounds. The error is `InvalidInput` if an entry has no row bound or a joined column
/// has no list, and `OutOfMemory` if memory runs out.
pub fn fastest_bound(
    rt: &impl Clock,
    alloc: Global,
    query: &Query,
    subset: EntrySet,
    rounds: u32,
) -> io::Result<Timing> {
    if !has_all_bounds(&query.parts, subset, &query.lists) {
        return Err(missing_bound_error());
    }
    let mut least = Timing::none();
    for _ in 0..rounds {
        least = least.with_least_time(bound_once(rt, alloc, query, subset)?);
    }
    Ok(least)
}

fn sum_of(bounds: &[u128]) -> u128 {
    let mut sum: u128 = 0;
    for bound in bounds {
        sum = sum.wrapping_add(*bound);
    }
    sum
}

fn sets_once(rt: &impl Clock, alloc: Global, query: &Query) -> io::Result<Timing>
    requires { SetHasBounds query.now.lists query.now.parts.equalities (first_entries 12) }
{
    let start = Instant::now(rt)?;
    let bounds = bounds_of_sets(alloc, &query.parts, &query.lists, 12).map_err(out_of_memory)?;
    let nanos = start.elapsed(rt)?.as_nanos();
    let bound = sum_of(bounds.as_slice());
    Ok(Timing { bound, nanos })
}

/// Bounds all sets of a query's first twelve entries. The result is the sum of these bounds, modulo 2^128, and the least time of `rounds` rounds. The
/// summing isn't timed. The errors are the same as in `fastest_bound`.
pub fn fastest_bounds_of_sets(
    rt: &impl Clock,
    alloc: Global,
    query: &Query,
    rounds: u32,
) -> io::Result<Timing> {
    let all = EntrySet::from_bits(0xfff);
    if !has_all_bounds(&query.parts, all, &query.lists) {
        return Err(missing_bound_error());
    }
    let mut least = Timing::none();
    for _ in 0..rounds {
        least = least.with_least_time(sets_once(rt, alloc, query)?);
    }
    Ok(least)
}
