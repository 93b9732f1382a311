//! Makes the list of each step, for the keys of one joined column. A step is a comparison of an own conjunct, an AND or an OR
//! (`predicate_bounds`).
ghost use Rattle.std.specs.Prelude.{◌≡◌, ◌^◌, ◌≤◌, All, length, map, true, IfOk, IsTrue, OnOk};
ghost use Rattle.std.specs.List.{list_any, sum, zip};
ghost use Rattle.cond_stats.specs.Lists.{compressed_degrees, list_of_value};
ghost use Rattle.filtered_lists.specs.Lists.{ColumnLists};
ghost use Rattle.predicate_bounds.specs.ListRuns.{is_small, with_list};
ghost use Rattle.predicate_bounds.specs.Steps.{range_of, value_of};
ghost use Rattle.gathered_stats.specs.Asked.{asks_for_all_rows};
ghost use Rattle.gathered_stats.specs.Filters.{AreColumnListsOf, IsColumnIn, IsReady, HasFilterFor, has_filter};
ghost use Rattle.gathered_stats.specs.Rests.{IsRestOf, rest_in, with_rest};
ghost use Rattle.gathered_stats.specs.ShownCells.{shown_cells};

use crate::entry_table::EntryTable;
use crate::filters::find;
use crate::literals::{cell_of_literal, end_leaf};
use crate::rests::{RestList, among_frequent, find_rest};
use base_io::{NoMemory, Seq};
use cond_stats::{FilterColumn, whole_list};
use piece_math::Pieces;
use predicate_bounds::{ColumnSteps, ListStep, Literal, Range, Step};
use std::alloc::Global;

/// Whether a step asks for the list of all rows.
pub(crate) fn asks_for_all_rows(step: &Step) -> bool
    ensures { result ≡ asks_for_all_rows step.now }
{
    match step {
        Step::Whole => true,
        Step::Equal { .. } | Step::Within(_) | Step::And | Step::NoRows | Step::Or => false,
    }
}

fn any_asks_for_all_rows(steps: &[Step]) -> bool
    ensures { result ≡ list_any asks_for_all_rows steps.now }
{
    steps.iter().any(|step| asks_for_all_rows(step))
}

impl EntryTable<'_> {
    // The rest list of a filter column. The first call for this column makes the list and keeps it in `rests`. Each call returns a copy.
    fn rest_of(
        &self,
        keys: &[u64],
        column: u32,
        sorted: &FilterColumn<'_>,
        rests: &mut Seq<RestList>,
    ) -> Result<Pieces, NoMemory>
        requires ready { IsReady self.now }
        requires keys { length keys.now ≡ (shown_cells self.now).rows }
        requires column { IsColumnIn self.now.pool.now (shown_cells self.now) column sorted.now }
        requires rests { All (IsRestOf self.now keys.now) rests.old }
        ensures list { IfOk result (λ list. list ≡ rest_in self.now keys.now column) }
        ensures rests { OnOk result (rests.new ≡ with_rest self.now keys.now column rests.old) }
    {
        if let Some(list) = find_rest(rests.as_slice(), column) {
            return list.copy();
        }
        let list = sorted.rest(keys, self.accuracy)?;
        let copy = list.copy()?;
        rests.push(RestList { column, list })?;
        Ok(copy)
    }

    // The list for the value with this cell in a filter column: the value's own list if the value is frequent, else the rest list.
    fn list_of_cell(
        &self,
        keys: &[u64],
        column: u32,
        sorted: &FilterColumn<'_>,
        cell: Option<u64>,
        rests: &mut Seq<RestList>,
    ) -> Result<Pieces, NoMemory>
        requires ready { IsReady self.now }
        requires keys { length keys.now ≡ (shown_cells self.now).rows }
        requires column { IsColumnIn self.now.pool.now (shown_cells self.now) column sorted.now }
        requires rests { All (IsRestOf self.now keys.now) rests.old }
        ensures list { IfOk result (λ list. list ≡ list_of_value self.now.accuracy (zip sorted.now.cells keys.now) cell) }
        ensures rests { OnOk result (All (IsRestOf self.now keys.now) rests.new) }
    {
        let frequent = among_frequent(sorted, cell)?;
        if frequent {
            return sorted.list_of_value(keys, cell, self.accuracy);
        }
        self.rest_of(keys, column, sorted, rests)
    }

    // The list for the rows that have a literal's value in a filter column.
    fn list_of_literal(
        &self,
        keys: &[u64],
        column: u32,
        literal: &Literal,
        rests: &mut Seq<RestList>,
    ) -> Result<Pieces, NoMemory>
        requires ready { IsReady self.now }
        requires keys { length keys.now ≡ (shown_cells self.now).rows }
        requires sorted { has_filter self.now.filters column ≡ true }
        requires rests { All (IsRestOf self.now keys.now) rests.old }
        ensures list { IfOk result (λ list. (lists : ColumnLists) → AreColumnListsOf self.now keys.now lists
            → list ≡ lists.equal column (value_of literal.now)) }
        ensures small { IfOk result (λ list. sum list ≤ 2 ^ 32) }
        ensures rests { OnOk result (All (IsRestOf self.now keys.now) rests.new) }
    {
        let sorted = find(self.filters.as_slice(), column);
        let kind = *self.cells.kinds.get(column as usize);
        let cell = cell_of_literal(self.pool, kind, literal);
        self.list_of_cell(keys, column, sorted, cell, rests)
    }

    // The list for the rows whose value in the range's filter column lies in the range.
    fn list_within(&self, keys: &[u64], range: &Range) -> Result<Pieces, NoMemory>
        requires ready { IsReady self.now }
        requires keys { length keys.now ≡ (shown_cells self.now).rows }
        requires sorted { has_filter self.now.filters range.now.column ≡ true }
        ensures list { IfOk result (λ list. (lists : ColumnLists) → AreColumnListsOf self.now keys.now lists
            → list ≡ lists.range (range_of range.now)) }
        ensures small { IfOk result (λ list. sum list ≤ 2 ^ 32) }
    {
        let column = find(self.filters.as_slice(), range.column);
        let low = end_leaf(column, &range.low);
        let high = end_leaf(column, &range.high);
        column.list_of_range(keys, low, high, self.accuracy)
    }

    // The list of all rows if a step asks for it, else an empty list.
    fn whole_for(&self, alloc: Global, keys: &[u64], steps: &[Step]) -> Result<Pieces, NoMemory>
        requires ready { IsReady self.now }
        requires keys { length keys.now ≡ (shown_cells self.now).rows }
        ensures whole { IfOk result (λ list. list_any asks_for_all_rows steps.now ≡ true → list ≡ compressed_degrees self.now.accuracy keys.now) }
        ensures small { IfOk result (λ list. sum list ≤ 2 ^ 32) }
    {
        if any_asks_for_all_rows(steps) {
            return whole_list(alloc, keys, self.accuracy);
        }
        Ok(Pieces::empty(alloc))
    }

    // A step with its list. `whole` is the list of all rows; it is used only if the step asks for it.
    fn list_step(
        &self,
        keys: &[u64],
        whole: &Pieces,
        step: &Step,
        rests: &mut Seq<RestList>,
    ) -> Result<ListStep, NoMemory>
        requires ready { IsReady self.now }
        requires keys { length keys.now ≡ (shown_cells self.now).rows }
        requires whole { asks_for_all_rows step.now ≡ true → whole.now ≡ compressed_degrees self.now.accuracy keys.now }
        requires rows { sum whole.now ≤ 2 ^ 32 }
        requires has_column { HasFilterFor self.now.filters step.now }
        requires rests { All (IsRestOf self.now keys.now) rests.old }
        ensures list { IfOk result (λ listed_step. (lists : ColumnLists)
            → AreColumnListsOf self.now keys.now lists → listed_step ≡ with_list lists step.now) }
        ensures small { IfOk result (λ listed_step. IsTrue (is_small listed_step)) }
        ensures rests { OnOk result (All (IsRestOf self.now keys.now) rests.new) }
    {
        match step {
            Step::Whole => Ok(ListStep::List(whole.copy()?)),
            Step::Equal { column, literal } => {
                Ok(ListStep::List(self.list_of_literal(keys, *column, literal, rests)?))
            }
            Step::Within(range) => Ok(ListStep::List(self.list_within(keys, range)?)),
            Step::And => Ok(ListStep::And),
            Step::NoRows => Ok(ListStep::NoRows),
            Step::Or => Ok(ListStep::Or),
        }
    }

    /// Steps, each with its list for the keys of a joined column. The list of all rows is made at most once. Each filter column's rest list is made
    /// at most once too.
    pub(crate) fn list_steps(
        &self,
        alloc: Global,
        keys: &[u64],
        column: u32,
        steps: &[Step],
    ) -> Result<ColumnSteps, NoMemory>
        requires ready { IsReady self.now }
        requires keys { length keys.now ≡ (shown_cells self.now).rows }
        requires has_column { All (HasFilterFor self.now.filters) steps.now }
        ensures column { IfOk result (λ gathered. gathered.column ≡ column) }
        ensures steps { IfOk result (λ gathered. (lists : ColumnLists)
            → AreColumnListsOf self.now keys.now lists → gathered.steps ≡ map (with_list lists) steps.now) }
    {
        let whole = self.whole_for(alloc, keys, steps)?;
        self.list_steps_over(alloc, keys, &whole, column, steps)
    }

    /// As `list_steps`, but the caller has the list of all rows, `whole`.
    pub(crate) fn list_steps_over(
        &self,
        alloc: Global,
        keys: &[u64],
        whole: &Pieces,
        column: u32,
        steps: &[Step],
    ) -> Result<ColumnSteps, NoMemory>
        requires ready { IsReady self.now }
        requires keys { length keys.now ≡ (shown_cells self.now).rows }
        requires whole { list_any asks_for_all_rows steps.now ≡ true → whole.now ≡ compressed_degrees self.now.accuracy keys.now }
        requires rows { sum whole.now ≤ 2 ^ 32 }
        requires has_column { All (HasFilterFor self.now.filters) steps.now }
        ensures column { IfOk result (λ gathered. gathered.column ≡ column) }
        ensures steps { IfOk result (λ gathered. (lists : ColumnLists)
            → AreColumnListsOf self.now keys.now lists → gathered.steps ≡ map (with_list lists) steps.now) }
    {
        let mut rests = Seq::new(alloc);
        let mut gathered = ColumnSteps::new(alloc, column);
        for step in steps {
            let listed = self.list_step(keys, whole, step, &mut rests)?;
            gathered.push(listed)?;
        }
        Ok(gathered)
    }
}
