//! The rest lists of filter columns for the keys of one joined column, each made once and kept.
ghost use Rattle.std.specs.Prelude.{◌≡◌, ◌==◌, List, ℕ, All, IfOk, IfSome, is_some};
ghost use Rattle.std.specs.List.{list_any};
ghost use Rattle.gathered_stats.specs.declared.entry_table.EntryTable.{EntryTable};
ghost use Rattle.gathered_stats.specs.Rests.{IsRestOf, among_frequent, is_kept, rest_in};

use base_io::NoMemory;
use cond_stats::FilterColumn;
use piece_math::Pieces;

/// The rest list of the filter column with number `column`.
#[derive(Drop)]
pub(crate) struct RestList {
    pub column: u32,
    pub list: Pieces,
}

/// The kept rest list of a filter column, if there is one.
pub(crate) fn find_rest<'b>(rests: &'b [RestList], column: u32) -> Option<&'b Pieces>
    ensures there { is_some result ≡ is_kept rests.now column }
    ensures list { IfSome result (λ list. (table : EntryTable) (keys : List ℕ) → All (IsRestOf table keys) rests.now
        → list.now ≡ rest_in table keys column) }
{
    for kept in rests {
        if kept.column == column {
            return Some(&kept.list);
        }
    }
    None
}

// Whether a cell is among these.
fn has(cells: &[u64], cell: u64) -> bool
    ensures { result ≡ list_any (λ other. other == cell) cells.now }
{
    cells.iter().any(|other| *other == cell)
}

/// Whether the value with this cell is one of a filter column's frequent values. A value that has no cell (`None`) isn't frequent.
pub(crate) fn among_frequent(sorted: &FilterColumn<'_>, cell: Option<u64>) -> Result<bool, NoMemory>
    ensures { IfOk result (λ frequent. frequent ≡ among_frequent sorted.now.cells cell) }
{
    match cell {
        Some(cell) => {
            let values = sorted.frequent()?;
            Ok(has(values.as_slice(), cell))
        }
        None => Ok(false),
    }
}
