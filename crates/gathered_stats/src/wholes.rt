//! Finds the list of all rows of a column, if a step of the column's entry already has it.
ghost use Rattle.std.specs.Prelude.{◌≡◌, ℕ, All, List, Some, map, slice_get, IfSome};
ghost use Rattle.cond_stats.specs.Lists.{compressed_degrees};
ghost use Rattle.csv_tables.specs.declared.types.Cells.{Cells};
ghost use Rattle.filtered_lists.specs.Lists.{ColumnLists};
ghost use Rattle.predicate_bounds.specs.declared.running.ListStep.TheVariants as list_step;
ghost use Rattle.predicate_bounds.specs.ListRuns.{with_list};
ghost use Rattle.gathered_stats.specs.Asked.{AreStepsOf};
ghost use Rattle.gathered_stats.specs.Columns.{KeysHaveLists, keys_in};

use crate::lists::asks_for_all_rows;
use piece_math::Pieces;
use predicate_bounds::{ColumnSteps, EntryStats, ListStep, Step};

// The list of the step with index `at`, if the step has a list.
fn list_at(gathered: &ColumnSteps, at: usize) -> Option<&Pieces>
    ensures { IfSome result (λ list. slice_get gathered.now.steps at ≡ Some (list_step.List list.now)) }
{
    if at >= gathered.steps.len() {
        return None;
    }
    match gathered.steps.get(at) {
        ListStep::List(list) => Some(list),
        ListStep::And | ListStep::NoRows | ListStep::Or => None,
    }
}

// The list of the first step that asks for all rows.
fn whole_among<'a>(steps: &[Step], gathered: &'a ColumnSteps) -> Option<&'a Pieces>
    ensures { IfSome result (λ list. (lists : ColumnLists) → gathered.now.steps ≡ map (with_list lists) steps.now → list.now ≡ lists.whole) }
{
    for (at, step) in steps.iter().enumerate() {
        if asks_for_all_rows(step) {
            return list_at(gathered, at);
        }
    }
    None
}

/// The list of all rows of a column, if the gathered steps of its entry have it.
pub(crate) fn whole_of<'a>(steps: &[Step], own: &'a EntryStats, column: u32) -> Option<&'a Pieces>
    ensures { IfSome result (λ list. (texts : List (List ℕ)) (cells : Cells) (accuracy : ℕ) → KeysHaveLists texts cells accuracy column
        → All (AreStepsOf texts cells accuracy steps.now) own.now.columns → list.now ≡ compressed_degrees accuracy (keys_in cells column)) }
{
    for gathered in own.columns.as_slice() {
        if gathered.column == column {
            return whole_among(steps, gathered);
        }
    }
    None
}
