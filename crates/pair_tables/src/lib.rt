//! Tables of a filter column and a joined column, their statistics, and the lists that the statistics give, for tests and measurements.
//!
//! In: cells, a pool and the filter column's kind. Out: a table (`table_of`, in `specs/Tables.antt`), and from its cells a `ColumnStats`. The
//! contract of `table_of` says, with `HasColumn` of column_stats, that the table has columns 0 and 1. Contracts of statistics use `stats_of`,
//! `list_for_value`, `list_for_range` and `leaf_by_cuts`.
#![tactic(auto)]

ghost use Rattle.std.specs.Prelude.{◌≡◌, ◌↔◌, All, IfOk, IsTrue};
ghost use Rattle.csv_tables.specs.Cells.{IsCell};
ghost use Rattle.column_stats.specs.Pairs.{HasColumn};
ghost use Rattle.pair_tables.specs.Tables.{table_of};

mod answers;
mod gathering;

pub use answers::{for_equal, for_range, leaf_int, leaf_text};
use base_io::{NoMemory, Seq};
use csv_tables::{Cells, Pool};
pub use gathering::gather;
use limits::MOST_ROWS;
use schema_types::Kind;
use std::alloc::Global;

/// Whether each number is a cell of the kind.
pub fn are_cells(pool: &Pool, kind: Kind, cells: &[u64]) -> bool
    ensures { IsTrue result ↔ All (IsCell pool.now kind) cells.now }
{
    let texts = pool.len() as u64;
    match kind {
        Kind::Int => true,
        Kind::Text(_) => cells.iter().all(|cell| *cell < texts),
    }
}

/// The table of two columns: a filter column of a kind and a joined column of numbers. Invalid arguments give the error `NoMemory` too. The columns
/// must have the same length, at most 4,000,000. Each number of the filter column must be a cell of its kind.
pub fn table_of_pair(
    alloc: Global,
    pool: &Pool,
    kind: Kind,
    filter: &[u64],
    joined: &[u64],
) -> Result<Cells, NoMemory>
    ensures table { IfOk result (λ cells. cells ≡ table_of kind filter.now joined.now) }
    ensures filter { IfOk result (λ cells. HasColumn pool.now cells 0) }
    ensures joined { IfOk result (λ cells. HasColumn pool.now cells 1) }
{
    if filter.len() != joined.len() || filter.len() > MOST_ROWS as usize {
        return Err(NoMemory);
    }
    if !are_cells(pool, kind, filter) {
        return Err(NoMemory);
    }
    let mut kinds = Seq::one(alloc, kind)?;
    kinds.push(Kind::Int)?;
    let mut columns = Seq::one(alloc, Seq::from_vec(Vec::from_slice(alloc, filter)?))?;
    columns.push(Seq::from_vec(Vec::from_slice(alloc, joined)?))?;
    Ok(Cells {
        kinds,
        columns,
        rows: filter.len() as u32,
    })
}
