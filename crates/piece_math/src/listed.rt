//! Makes pieces of a descending list. Equal elements are neighbours, so the loop goes from run to run.
ghost use Rattle.std.specs.Prelude.{◌≡◌, ◌+◌, ◌<◌, ◌≤◌, length, slice_index, IfOk};
ghost use Rattle.std.specs.List.{All, AllWithin};
ghost use Rattle.degree_sequences.specs.Descending.{IsDescending};

use crate::pieces::Pieces;
use base_io::NoMemory;
use std::alloc::Global;

// How many elements, from `start` on, are equal to the element at `start`. In a descending list equal elements are neighbours.
fn run_length(list: &[u64], start: usize) -> usize
    requires descends { IsDescending list.now }
    requires start { start < length list.now }
    ensures some { 0 < result }
    ensures within { start + result ≤ length list.now }
    ensures equal { AllWithin (λ x. x ≡ slice_index list.now start) list.now start (start + result) }
{
    let first = list[start];
    list[start..].partition_point(|next| *next == first)
}

impl Pieces {
    /// The given list, as pieces. The end of each run is found by binary search, so the time grows with the number of runs, hardly with the length.
    pub fn from_list(alloc: Global, list: &[u64]) -> Result<Pieces, NoMemory>
        requires descends { IsDescending list.now }
        requires positive { All (λ x. 0 < x) list.now }
        ensures { IfOk result (λ pieces. pieces ≡ list.now) }
    {
        let mut pieces = Pieces::empty(alloc);
        let mut start = 0;
        'runs: while start < list.len() {
            let count = run_length(list, start);
            pieces.push_run(u128::from(list[start]), count as u64)?;
            start += count;
        }
        Ok(pieces)
    }
}
