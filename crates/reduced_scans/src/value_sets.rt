//! Makes the set of a column's values in the rows of a list, if the values lie in a short range. Each number in the range has a mark.
ghost use Rattle.std.specs.Prelude.{◌≡◌, ◌+◌, ◌-◌, ◌*◌, ◌<◌, ◌≤◌, true, All, IfOk, IfSome, length, slice_index};
ghost use Rattle.limits.specs.Profile.{most_rows};
ghost use Rattle.reduced_scans.specs.SemiJoins.{is_marked};

use base_io::NoMemory;
use std::alloc::Global;

// A range with at most this many numbers is always short.
const ALWAYS_SHORT: u64 = 64;

/// A set of values: the least value of their range, and for each number in the range whether it is in the set.
#[derive(Drop)]
pub(crate) struct ValueSet {
    least: u64,
    marks: Vec<bool>,
}

impl ValueSet {
    /// Whether the value is in the set.
    pub(crate) fn has(&self, value: u64) -> bool
        ensures { result ≡ is_marked self.now.least self.now.marks.items value }
    {
        if value < self.least {
            return false;
        }
        let place = (value - self.least) as usize;
        place < self.marks.len() && self.marks[place]
    }
}

// The least and the greatest cell in the rows of `list`. If `list` is empty, they are `u64::MAX` and 0.
fn least_and_greatest(cells: &[u64], list: &[u32]) -> (u64, u64)
    requires { All (λ row. row < length cells.now) list.now }
    ensures { All (λ row. (result.0 ≤ slice_index cells.now row) × (slice_index cells.now row ≤ result.1)) list.now }
{
    let mut least = u64::MAX;
    let mut greatest = 0;
    'rows: for row in list {
        let cell = cells[*row as usize];
        least = least.min(cell);
        greatest = greatest.max(cell);
    }
    (least, greatest)
}

// Marks the cells in the rows of `list`. All these cells lie in the range.
fn mark(cells: &[u64], list: &[u32], least: u64, marks: &mut [bool])
    requires rows { All (λ row. row < length cells.now) list.now }
    requires above { All (λ row. least ≤ slice_index cells.now row) list.now }
    requires below { All (λ row. slice_index cells.now row - least < length marks.old) list.now }
    ensures { All (λ row. is_marked least marks.new (slice_index cells.now row) ≡ true) list.now }
{
    'rows: for row in list {
        let cell = cells[*row as usize];
        marks[(cell - least) as usize] = true;
    }
}

/// The set of a column's cells in the rows of `list`, if their range has at most 64 + 8 * `rows` numbers; otherwise `None`.
pub(crate) fn values_of(
    alloc: Global,
    cells: &[u64],
    list: &[u32],
    rows: u64,
) -> Result<Option<ValueSet>, NoMemory>
    requires rows { All (λ row. row < length cells.now) list.now }
    requires few { rows ≤ 2 * most_rows }
    ensures { IfOk result (λ found. IfSome found (λ values.
        All (λ row. is_marked values.least values.marks.items (slice_index cells.now row) ≡ true) list.now)) }
{
    if list.is_empty() {
        return Ok(Some(ValueSet {
            least: 0,
            marks: Vec::new(alloc),
        }));
    }
    let (least, greatest) = least_and_greatest(cells, list);
    let width = greatest - least;
    if width >= ALWAYS_SHORT + 8 * rows {
        return Ok(None);
    }
    let mut marks = vec![in alloc; false; width as usize + 1]?;
    mark(cells, list, least, &mut marks);
    Ok(Some(ValueSet { least, marks }))
}
