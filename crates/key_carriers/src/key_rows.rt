//! Finds the rows of a key column by their cells.
ghost use Rattle.std.specs.Prelude.{◌≡◌, ◌≤◌, IfOk, length, true};
ghost use Rattle.std.specs.List.{range_with_len};
ghost use Rattle.limits.specs.Profile.{most_rows};
ghost use Rattle.link_index.specs.Places.{IsPlaceOf};
ghost use Rattle.key_carriers.specs.Cells.{cells_found};

use base_io::NoMemory;
use link_index::Chains;
use std::alloc::Global;

/// A column whose rows can be found by their cells.
#[derive(Drop)]
pub(crate) enum KeyRows {
    /// The first cell, and the number of rows. From row to row the cell increases by one, so a cell determines its row.
    Ascending(u64, u64),
    /// Any cells, in a hash table.
    Chained(Chains),
}

// Whether the first cell is `first`, and each further cell is one more than the cell before.
fn ascend_from(first: u64, cells: &[u64]) -> bool
    ensures { result ≡ true → cells.now ≡ range_with_len first (length cells.now) }
{
    'cells: for at in 0..cells.len() {
        if cells[at] < first {
            return false;
        }
        if cells[at] - first != at as u64 {
            return false;
        }
    }
    true
}

// A hash table that finds the rows of these cells.
fn chains_of(alloc: Global, cells: &[u64]) -> Result<Chains, NoMemory>
    requires within_limit { length cells.now ≤ most_rows }
    ensures { IfOk result (λ chains. chains.keys ≡ cells.now) }
{
    let rows = cells.len() as u64;
    let mut chains = Chains::with_room(alloc, rows, rows.max(1))?;
    chains.load(cells);
    Ok(chains)
}

// The index of a cell in a list of `rows` cells, if it is in the list. The list begins with `first` and ascends by one.
fn place_from(first: u64, rows: u64, cell: u64) -> Option<u32>
    requires within_limit { rows ≤ most_rows }
    ensures { IsPlaceOf (range_with_len first rows) cell 0 result }
{
    if cell < first {
        return None;
    }
    let place = cell - first;
    if place < rows {
        Some(place as u32)
    } else {
        None
    }
}

impl KeyRows {
    /// Prepares to find rows by these cells. In most files keys ascend by one from row to row, and then no hash table is made. A first pass over the
    /// cells, which takes no memory, tests this.
    pub(crate) fn new(alloc: Global, cells: &[u64]) -> Result<KeyRows, NoMemory>
        requires within_limit { length cells.now ≤ most_rows }
        ensures { IfOk result (λ key. cells_found key ≡ cells.now) }
    {
        let first = if cells.is_empty() { 0 } else { cells[0] };
        if ascend_from(first, cells) {
            return Ok(KeyRows::Ascending(first, cells.len() as u64));
        }
        Ok(KeyRows::Chained(chains_of(alloc, cells)?))
    }

    /// The first row that has the cell, if there is one.
    pub(crate) fn row_of(&self, cell: u64) -> Option<u32>
        requires within_limit { length (cells_found self.now) ≤ most_rows }
        ensures { IsPlaceOf (cells_found self.now) cell 0 result }
    {
        match self {
            KeyRows::Ascending(first, rows) => place_from(*first, *rows, cell),
            KeyRows::Chained(chains) => chains.first(cell),
        }
    }
}
