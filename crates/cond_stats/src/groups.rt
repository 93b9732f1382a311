//! Runs of rows with equal values, and their order by frequency.
ghost use Rattle.std.specs.Prelude.{◌≡◌, ℕ, ◌<◌, ◌^◌, Bool, List, length, IfOk};
ghost use Rattle.std.specs.List.Sorted.{IsNonDecreasing};
ghost use Rattle.cond_stats.specs.Runs.{AreRunsByFrequency, AreInRuns, AreRunsOfNumbers, ends_run};

use base_io::NoMemory;
use std::alloc::Global;

/// A run: the rows of one value. `first` is the row number of the earliest of these rows. Among the rows sorted by value, the run begins at index
/// `start` and has `count` rows.
#[derive(Clone, Copy, Debug, PartialEq, Eq)]
pub(crate) struct ValueRun {
    pub first: u32,
    pub start: u32,
    pub count: u32,
}

/// Sorts runs by frequency, the most frequent value first. If two values are equally frequent, the value that occurs first comes first.
pub(crate) fn by_frequency(runs: Vec<ValueRun>) -> Vec<ValueRun>
    ensures { (at_most : ℕ → ℕ → Bool) (column places : List ℕ) → length column < 2 ^ 32 → AreInRuns at_most column places runs.items
        → AreRunsByFrequency column places result.items }
{
    let mut groups = runs;
    groups.sort_unstable_by_key(|group| (u32::MAX - group.count, group.first));
    groups
}

/// The runs of equal numbers, the least number first.
pub(crate) fn runs_of(
    alloc: Global,
    numbers: &[u64],
    places: &[u32],
) -> Result<Vec<ValueRun>, NoMemory>
    requires lengths { length numbers.now ≡ length places.now }
    requires rows { length places.now < 2 ^ 32 }
    requires ascend { IsNonDecreasing numbers.now }
    ensures { IfOk result (λ runs. AreRunsOfNumbers numbers.now places.now runs.items) }
{
    let mut runs = Vec::new(alloc);
    let mut start: usize = 0;
    for (i, number) in numbers.iter().enumerate() {
        if ends_run(numbers, i, *number) {
            runs.push(ValueRun {
                first: places[start],
                start: start as u32,
                count: (i + 1 - start) as u32,
            })?;
            start = i + 1;
        }
    }
    Ok(runs)
}

// Whether the number at index `i` is the last of its run.
fn ends_run(numbers: &[u64], i: usize, number: u64) -> bool
    requires { i < length numbers.now }
    ensures { result ≡ ends_run numbers.now i number }
{
    i + 1 == numbers.len() || numbers[i + 1] != number
}
