//! Makes the row bounds and lists of the entries, from valid arguments.
ghost use Rattle.std.specs.Prelude.{◌≡◌, [], ◌<◌, ◌≤◌, ℕ, length, IfOk};
ghost use Rattle.std.specs.List.{sum};
ghost use Rattle.limits.specs.Profile.{greatest_entries, greatest_rows};
ghost use Rattle.safebound_lists.specs.Runs.{AreValid, list_of};
ghost use Rattle.safebound_bounds.specs.Arguments.{AreRunsValidAt, IsEqualityValid, IsListValidAt, IsRowBoundValidAt, equality_at};
ghost use Rattle.safebound_bounds.specs.Listed.{HoldsListed};
ghost use Rattle.safebound_bounds.specs.Meaning.{edge_of as edge_of_equality, edges_of, fitted as fitted_to};

use crate::arguments::{ColumnList, Equality};
use crate::checking::own_runs;
use base_io::{NoMemory, Seq};
use berge_tree::{Edge, Place};
use bound_fold::EntryLists;
use join_graph::Parts;
use piece_math::Pieces;
use safebound_lists::{Run, pieces_of};
use std::alloc::Global;

// The list of a column, fitted to a number of rows. If its sum is above `rows`, it is cut. If its sum is below `rows`, ones are added.
fn fitted(alloc: Global, rows: u64, runs: &[Run]) -> Result<Pieces, NoMemory>
    requires rows { rows ≤ greatest_rows }
    requires valid { AreValid runs.now }
    ensures list { IfOk result (λ list. list ≡ fitted_to rows (list_of runs.now)) }
    ensures total { IfOk result (λ list. sum list ≡ rows) }
{
    let list = pieces_of(alloc, runs)?;
    let mut cut = list.cap(rows)?;
    let total = cut.total() as u64;
    if total < rows {
        cut.push_run(1, rows - total)?;
    }
    Ok(cut)
}

// The row bounds of the entries, without lists.
fn with_rows(alloc: Global, rows: &[u64]) -> Result<EntryLists, NoMemory>
    requires { length rows.now ≤ greatest_entries }
    ensures { IfOk result (λ known. HoldsListed rows.now (length rows.now) [] [] known) }
{
    let mut known = EntryLists::new(alloc);
    for entry in 0..rows.len() as u8 {
        known.set_rows(entry, rows[entry as usize])?;
    }
    Ok(known)
}

/// The row bounds of the entries, and the lists of their columns.
pub(crate) fn entry_lists(
    alloc: Global,
    rows: &[u64],
    lists: &[ColumnList],
    runs: &[Run],
) -> Result<EntryLists, NoMemory>
    requires few { length rows.now ≤ greatest_entries }
    requires rows { (i : ℕ) → i < length rows.now → IsRowBoundValidAt rows.now i }
    requires lists { (i : ℕ) → i < length lists.now → IsListValidAt (length rows.now) (length runs.now) lists.now i }
    requires runs { (i : ℕ) → i < length lists.now → AreRunsValidAt lists.now runs.now i }
    ensures { IfOk result (λ known. HoldsListed rows.now (length rows.now) lists.now runs.now known) }
{
    let mut known = with_rows(alloc, rows)?;
    for list in lists {
        let own = own_runs(runs, *list);
        let most = rows[list.entry as usize];
        let fitting = fitted(alloc, most, own)?;
        known.add(list.entry as u8, list.column, fitting)?;
    }
    Ok(known)
}

fn edge_of(equality: Equality) -> Edge
    requires left { equality.left_entry < 256 }
    requires right { equality.right_entry < 256 }
    ensures { result ≡ edge_of_equality equality }
{
    Edge {
        left: Place {
            entry: equality.left_entry as u8,
            column: equality.left_column,
        },
        right: Place {
            entry: equality.right_entry as u8,
            column: equality.right_column,
        },
    }
}

/// The conjuncts of a query that has only these equalities as conjuncts (`Parts` of join_graph).
pub(crate) fn parts_of(alloc: Global, equalities: &[Equality]) -> Result<Parts, NoMemory>
    requires { (i : ℕ) → i < length equalities.now → IsEqualityValid greatest_entries (equality_at equalities.now i) }
    ensures { IfOk result (λ parts. parts.equalities ≡ edges_of equalities.now) }
{
    let mut edges = Seq::new(alloc);
    for equality in equalities {
        edges.push(edge_of(*equality))?;
    }
    Ok(Parts {
        local: Seq::new(alloc),
        equalities: edges,
        residual: Seq::new(alloc),
    })
}
