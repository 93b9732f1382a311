//! Makes bounds from the statistics of a query: a list for each joined column, and a row bound for each entry.
ghost use Rattle.std.specs.Prelude.{◌≡◌, ◌-◌, ◌^◌, ◌<◌, ◌≤◌, min, sum, IfOk, IsSome, map, length, ℕ};
ghost use Rattle.degree_sequences.specs.Domination.{DominatesKeys};
ghost use Rattle.query_types.specs.declared.types.Query.{Query};
ghost use Rattle.sql_meaning.specs.Tables.{Tables};
ghost use Rattle.filtered_lists.specs.Lists.{ColumnLists, RowCounts, filtered_list, row_bound};
ghost use Rattle.filtered_lists.specs.Standing.{ListsStandFor, SumTo, scan_of};
ghost use Rattle.predicate_bounds.specs.StatsLists.{HasLists, HasRowLists, column_steps, columns_of, first_steps, list_in_stats, row_bound_in_stats};

use crate::columns::{ColumnSteps, QueryStats};
use crate::running::run_steps;
use base_io::NoMemory;
use piece_math::Pieces;
use std::alloc::Global;

impl QueryStats {
    // The joined columns of an entry.
    fn columns(&self, from: u8) -> &[ColumnSteps]
        requires { from < length self.now.entries }
        ensures { result.now ≡ columns_of self.now from }
    {
        self.entries.get(usize::from(from)).columns.as_slice()
    }

    /// Runs the steps of a joined column of an entry, and returns the list that they leave. If these are the steps of the entry's own
    /// conjuncts, the list is `filtered_list` of those conjuncts. If the statistics also stand for a database, the list dominates the column
    /// over the rows of the entry's scan.
    pub fn bound_list(&self, alloc: Global, from: u8, column: u32) -> Result<Pieces, NoMemory>
        requires entry { from < length self.now.entries }
        requires known { IsSome (column_steps self.now from column) }
        ensures exact { IfOk result (λ list. list ≡ list_in_stats self.now from column) }
        ensures list { (query : Query) (lists : ColumnLists) → HasLists query self.now from column lists
            → IfOk result (λ list. list ≡ filtered_list lists from query.conjuncts) }
        ensures never_under { (query : Query) (lists : ColumnLists) (tables : Tables) (key : ℕ → ℕ)
            → HasLists query self.now from column lists → ListsStandFor lists tables from key
            → IfOk result (λ list. DominatesKeys list (map key (scan_of tables from query.conjuncts))) }
    {
        for joined in self.columns(from) {
            if joined.column == column {
                return run_steps(alloc, joined.steps.as_slice());
            }
        }
        unreachable!()
    }

    /// The row bound of an entry: the sum of the list of its first column, but at most `u64::MAX`. If the statistics stand for a database,
    /// the row bound is at least the number of rows of the entry's scan.
    pub fn row_bound(&self, alloc: Global, from: u8) -> Result<u64, NoMemory>
        requires entry { from < length self.now.entries }
        requires known { IsSome (first_steps self.now from) }
        ensures exact { IfOk result (λ rows. rows ≡ row_bound_in_stats self.now from) }
        ensures rows { (query : Query) (lists : ColumnLists) (counts : RowCounts) → HasRowLists query self.now from lists → SumTo lists counts
            → IfOk result (λ rows. rows ≡ row_bound counts from query.conjuncts) }
        ensures never_under { (query : Query) (lists : ColumnLists) (tables : Tables) (key : ℕ → ℕ)
            → HasRowLists query self.now from lists → ListsStandFor lists tables from key
            → IfOk result (λ rows. length (scan_of tables from query.conjuncts) ≤ rows) }
    {
        let columns = self.columns(from);
        let list = run_steps(alloc, columns[0].steps.as_slice())?;
        Ok(rows_of(&list))
    }
}

// The sum of a list, but at most `u64::MAX`.
fn rows_of(list: &Pieces) -> u64
    ensures { result ≡ min (sum list.now) (2 ^ 64 - 1) }
{
    list.total().min(u128::from(u64::MAX)) as u64
}
