//! Steps of the rest list: the rank-wise maximum of lists, and a list whose sum is capped.
ghost use Rattle.std.specs.Prelude.{◌≡◌, ◌<◌, ◌≤◌, max, [], ◌∷◌, ◌++◌, length, slice_index, slice_set, IfOk, OnOk};
ghost use Rattle.degree_sequences.specs.ByRank.{rank_maximum};
ghost use Rattle.degree_sequences.specs.Descending.{IsDescending};
ghost use Rattle.degree_sequences.specs.RunningSums.{capped_at};

use base_io::NoMemory;
use std::alloc::Global;

/// Makes `maxima` the rank-wise maximum of itself and `degrees`.
pub(crate) fn raise_maxima(maxima: &mut Vec<u64>, degrees: &[u64]) -> Result<(), NoMemory>
    ensures { OnOk result (maxima.new.items ≡ rank_maximum maxima.old.items degrees.now) }
{
    for (i, degree) in degrees.iter().enumerate() {
        raise_maximum_at(maxima, i, *degree)?;
    }
    Ok(())
}

// Raises the element at one rank to this degree, where the element is less. Past the last rank the degree is appended.
fn raise_maximum_at(maxima: &mut Vec<u64>, i: usize, degree: u64) -> Result<(), NoMemory>
    ensures within { OnOk result (i < length maxima.old.items
        → maxima.new.items ≡ slice_set maxima.old.items i (max (slice_index maxima.old.items i) degree)) }
    ensures past { OnOk result (length maxima.old.items ≤ i → maxima.new.items ≡ maxima.old.items ++ degree ∷ []) }
{
    if i < maxima.len() {
        maxima[i] = maxima[i].max(degree);
    } else {
        maxima.push(degree)?;
    }
    Ok(())
}

/// Lowers the last elements of a descending list, or leaves them out, so that its sum is at most `most`.
pub(crate) fn cap_sum(alloc: Global, falling: &[u64], most: u64) -> Result<Vec<u64>, NoMemory>
    requires { IsDescending falling.now }
    ensures { IfOk result (λ list. list.items ≡ capped_at falling.now most) }
{
    let mut list = Vec::new(alloc);
    let mut left = most;
    for degree in falling {
        let taken = left.min(*degree);
        if taken == 0 {
            return Ok(list);
        }
        list.push(taken)?;
        left -= taken;
    }
    Ok(list)
}
