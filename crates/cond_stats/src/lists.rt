//! Makes the compressed degree lists of rows that are given by their row numbers (`places`).
ghost use Rattle.std.specs.Prelude.{◌≡◌, ◌+◌, ◌<◌, ◌≤◌, ◌==◌, ◌^◌, false, length, map, All, Contains, IfOk, MatchOption, slice_range};
ghost use Rattle.std.specs.List.{list_any};
ghost use Rattle.degree_sequences.specs.Compression.{compressed};
ghost use Rattle.degree_sequences.specs.RunningSums.{capped_at};
ghost use Rattle.cond_stats.specs.Lists.{compressed_degrees, maxima, greatest};
ghost use Rattle.cond_stats.specs.Runs.{value_of_run};
ghost use Rattle.cond_stats.specs.Sorted.{keys_at, LiesWithin, degrees_of_run};

use crate::groups::ValueRun;
use crate::rest::{cap_sum, raise_maxima};
use crate::whole::whole_list;
use base_io::{NoMemory, Seq};
use degree_lists::falling;
use limits::Accuracy;
use piece_compress::compress;
use piece_math::Pieces;
use std::alloc::Global;

/// The compressed degree list of the joined keys of the rows with these row numbers.
pub(crate) fn list_at(
    alloc: Global,
    row_keys: &[u64],
    places: &[u32],
    accuracy: Accuracy,
) -> Result<Pieces, NoMemory>
    requires places { All (λ place. place < length row_keys.now) places.now }
    requires rows { length places.now < 2 ^ 32 }
    ensures { IfOk result (λ list. list ≡ compressed_degrees accuracy (keys_at row_keys.now places.now)) }
{
    let keys = keys_at(alloc, row_keys, places)?;
    whole_list(alloc, keys.as_slice(), accuracy)
}

/// The row numbers from index `from` on, and before index `to`.
pub(crate) fn places_between(places: &[u32], from: u32, to: u32) -> &[u32]
    requires order { from ≤ to }
    requires within { to ≤ length places.now }
    ensures { result.now ≡ slice_range places.now from to }
{
    &places[from as usize..to as usize]
}

// The joined keys of the rows with these row numbers.
fn keys_at(alloc: Global, row_keys: &[u64], places: &[u32]) -> Result<Vec<u64>, NoMemory>
    requires { All (λ place. place < length row_keys.now) places.now }
    ensures { IfOk result (λ keys. keys.items ≡ keys_at row_keys.now places.now) }
{
    let mut keys = Vec::with_capacity(alloc, places.len())?;
    for place in places {
        keys.push(row_keys[*place as usize])?;
    }
    Ok(keys)
}

// The degree list of the joined keys of a run: of the rows of one value.
fn degrees_of(
    alloc: Global,
    row_keys: &[u64],
    places: &[u32],
    run: ValueRun,
) -> Result<Seq<u64>, NoMemory>
    requires places { All (λ place. place < length row_keys.now) places.now }
    requires run { LiesWithin (length places.now) run }
    ensures { IfOk result (λ degrees. degrees ≡ degrees_of_run row_keys.now places.now run) }
{
    let start = run.start as usize;
    let keys = keys_at(alloc, row_keys, &places[start..start + run.count as usize])?;
    falling(alloc, keys.as_slice())
}

/// The rest list of these runs: the rank-wise maximum of their degree lists, compressed. Before it is compressed, its sum is capped at the number
/// of rows of the longest run.
pub(crate) fn rest_list(
    alloc: Global,
    row_keys: &[u64],
    places: &[u32],
    runs: &[ValueRun],
    accuracy: Accuracy,
) -> Result<Pieces, NoMemory>
    requires places { All (λ place. place < length row_keys.now) places.now }
    requires runs { All (LiesWithin (length places.now)) runs.now }
    requires rows { length places.now < 2 ^ 32 }
    ensures { IfOk result (λ list. list ≡ compressed accuracy (capped_at (maxima (map (degrees_of_run row_keys.now places.now) runs.now))
        (greatest (map (λ run. run.count) runs.now)))) }
{
    let mut maxima = Vec::new(alloc);
    let mut most: u32 = 0;
    for run in runs {
        let degrees = degrees_of(alloc, row_keys, places, *run)?;
        raise_maxima(&mut maxima, degrees.as_slice())?;
        most = most.max(run.count);
    }
    let list = cap_sum(alloc, maxima.as_slice(), u64::from(most))?;
    compress(alloc, list.as_slice(), accuracy)
}

/// The run whose value has this cell, if there is one.
pub(crate) fn run_of_cell(cells: &[u64], runs: &[ValueRun], cell: u64) -> Option<ValueRun>
    requires { All (λ run. run.first < length cells.now) runs.now }
    ensures { MatchOption result (list_any (λ value. value == cell) (map (value_of_run cells.now) runs.now) ≡ false)
        (λ run. Contains runs.now run × (value_of_run cells.now run ≡ cell)) }
{
    for run in runs {
        if cells[run.first as usize] == cell {
            return Some(*run);
        }
    }
    None
}

/// The cell of each run's value.
pub(crate) fn values_of(
    alloc: Global,
    cells: &[u64],
    runs: &[ValueRun],
) -> Result<Vec<u64>, NoMemory>
    requires { All (λ run. run.first < length cells.now) runs.now }
    ensures { IfOk result (λ values. values.items ≡ map (value_of_run cells.now) runs.now) }
{
    let mut values = Vec::with_capacity(alloc, runs.len())?;
    for run in runs {
        values.push(cells[run.first as usize])?;
    }
    Ok(values)
}
