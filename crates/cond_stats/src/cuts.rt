//! The cuts of a column, and where its leaves begin among the sorted rows.
ghost use Rattle.std.specs.Prelude.{◌≡◌, ℕ, ◌<◌, ◌≤◌, ◌^◌, Bool, List, length, All, IfOk};
ghost use Rattle.cond_stats.specs.Leaves.{cuts as cuts_of_column};
ghost use Rattle.cond_stats.specs.Order.{AreInValueOrder};
ghost use Rattle.cond_stats.specs.Runs.{AreInRuns, AreRunsOfNumbers, AreStarts, IsLeafStart};

use crate::groups::ValueRun;
use base_io::NoMemory;
use std::alloc::Global;

/// The cells at which the leaves begin. `places` are the column's row numbers, sorted by value.
pub(crate) fn cuts_of(alloc: Global, cells: &[u64], places: &[u32]) -> Result<Vec<u64>, NoMemory>
    requires places { All (λ place. place < length cells.now) places.now }
    requires rows { length places.now < 2 ^ 32 }
    ensures { IfOk result (λ cuts. (at_most : ℕ → ℕ → Bool) (numbers : List ℕ)
        → AreInValueOrder at_most cells.now numbers places.now → cuts.items ≡ cuts_of_column at_most cells.now) }
{
    let mut cuts = Vec::new(alloc);
    if places.is_empty() {
        return Ok(cuts);
    }
    for i in 0..32 {
        let place = places[places.len() * i / 32];
        cuts.push(cells[place as usize])?;
    }
    Ok(cuts)
}

/// For each leaf from 0 to 32, how many rows have a lower leaf. `runs` are the runs of the rows, the least value first.
pub(crate) fn leaf_starts(alloc: Global, runs: &[ValueRun], rows: u32) -> Result<Vec<u32>, NoMemory>
    ensures { IfOk result (λ starts. (at_most : ℕ → ℕ → Bool) (column places : List ℕ) → length column ≡ rows → AreInRuns at_most column places runs.now
        → AreStarts at_most column places starts.items) }
{
    let mut starts = Vec::new(alloc);
    for leaf in 0..33 {
        starts.push(leaf_start(runs, rows, leaf))?;
    }
    Ok(starts)
}

// How many rows have a leaf below `leaf`: the rows before the run of this leaf's cut. For 32, the end of the last leaf, these are all rows.
fn leaf_start(runs: &[ValueRun], rows: u32, leaf: u32) -> u32
    requires leaf { leaf ≤ 32 }
    ensures { (numbers places : List ℕ) → length numbers ≡ rows → AreRunsOfNumbers numbers places runs.now → IsLeafStart numbers leaf result }
{
    if leaf == 32 {
        return rows;
    }
    let cut = (u64::from(rows) * u64::from(leaf) / 32) as u32;
    let below = runs.partition_point(|run| run.start <= cut);
    if below == 0 {
        return 0;
    }
    runs[below - 1].start
}
