//! The filter columns of an entry: the columns that its own conjuncts compare with literals, each sorted once. A step is a comparison of an own
//! conjunct, an AND or an OR (`predicate_bounds`).
ghost use Rattle.std.specs.Prelude.{◌≡◌, ◌<◌, ℕ, List, All, length, true, IfOk, OnOk};
ghost use Rattle.predicate_bounds.specs.declared.steps.Step.{Step};
ghost use Rattle.sql_meaning.specs.Databases.{AreCells};
ghost use Rattle.gathered_stats.specs.Asked.{AsksWithin, compared_column};
ghost use Rattle.gathered_stats.specs.Filters.{IsColumnIn, IsFilterOf, HasFilterFor, has_filter};

use crate::entry_table::row_count;
use base_io::{NoMemory, Seq};
use cond_stats::FilterColumn;
use csv_tables::{Cells, Pool};
use predicate_bounds::Step;
use std::alloc::Global;

/// A filter column, sorted. `column` is its number in the table.
#[derive(Drop)]
pub(crate) struct SortedColumn<'a> {
    pub column: u32,
    pub sorted: FilterColumn<'a>,
}

/// The column that a step compares with literals, if it compares one.
pub fn compared_column(step: &Step) -> Option<u32>
    ensures { result ≡ compared_column step.now }
{
    match step {
        Step::Equal { column, .. } => Some(*column),
        Step::Within(range) => Some(range.column),
        Step::Whole | Step::And | Step::NoRows | Step::Or => None,
    }
}

// Whether `filters` has the column with this number.
fn has_filter(filters: &[SortedColumn<'_>], column: u32) -> bool
    ensures { result ≡ has_filter filters.now column }
{
    filters.iter().any(|filter| filter.column == column)
}

// A column of a table, sorted.
fn sorted<'a>(
    alloc: Global,
    pool: &'a Pool,
    cells: &'a Cells,
    column: u32,
) -> Result<SortedColumn<'a>, NoMemory>
    requires cells { AreCells pool.now cells.now }
    requires exists { column < length cells.now.kinds }
    ensures { IfOk result (λ filter. (filter.column ≡ column) × IsFilterOf pool.now cells.now filter) }
{
    let _rows = row_count(cells);
    let at = column as usize;
    let kind = *cells.kinds.get(at);
    let sorted = FilterColumn::new(alloc, pool, kind, cells.columns.get(at).as_slice())?;
    Ok(SortedColumn { column, sorted })
}

// Adds the column that a step compares with literals, if there is one and it isn't in `filters` yet.
fn add_filter<'a>(
    alloc: Global,
    pool: &'a Pool,
    cells: &'a Cells,
    step: &Step,
    filters: &mut Seq<SortedColumn<'a>>,
) -> Result<(), NoMemory>
    requires cells { AreCells pool.now cells.now }
    requires exists { AsksWithin cells.now step.now }
    requires filters { All (IsFilterOf pool.now cells.now) filters.old }
    ensures filters { OnOk result (All (IsFilterOf pool.now cells.now) filters.new) }
    ensures has_column { OnOk result (HasFilterFor filters.new step.now) }
    ensures kept { OnOk result ((other : Step) → HasFilterFor filters.old other → HasFilterFor filters.new other) }
{
    let Some(column) = compared_column(step) else {
        return Ok(());
    };
    if has_filter(filters.as_slice(), column) {
        return Ok(());
    }
    filters.push(sorted(alloc, pool, cells, column)?)
}

/// The columns that steps compare with literals, each sorted once.
pub(crate) fn filters_of<'a>(
    alloc: Global,
    pool: &'a Pool,
    cells: &'a Cells,
    steps: &[Step],
) -> Result<Seq<SortedColumn<'a>>, NoMemory>
    requires cells { AreCells pool.now cells.now }
    requires exist { All (AsksWithin cells.now) steps.now }
    ensures filters { IfOk result (λ filters. All (IsFilterOf pool.now cells.now) filters) }
    ensures has_column { IfOk result (λ filters. All (HasFilterFor filters) steps.now) }
{
    let mut filters = Seq::new(alloc);
    for step in steps {
        add_filter(alloc, pool, cells, step, &mut filters)?;
    }
    Ok(filters)
}

/// The sorted column with this number. `filters` must contain it.
pub(crate) fn find<'a, 'b>(filters: &'b [SortedColumn<'a>], column: u32) -> &'b FilterColumn<'a>
    requires { has_filter filters.now column ≡ true }
    ensures { (texts : List (List ℕ)) (cells : Cells) → All (IsFilterOf texts cells) filters.now
        → IsColumnIn texts cells column result.now }
{
    for filter in filters {
        if filter.column == column {
            return &filter.sorted;
        }
    }
    unreachable!()
}
