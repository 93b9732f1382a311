//! Makes the statistics of an entry from a section, the part of a file for one table.
ghost use Rattle.std.specs.Prelude.{◌≡◌, All, IfOk, map};
ghost use Rattle.predicate_bounds.specs.ListRuns.{with_list};
ghost use Rattle.predicate_bounds.specs.Steps.{range_of, value_of};
ghost use Rattle.stats_file_of_query.specs.Standing.{list_between, list_of_value};
ghost use Rattle.stats_file_bounds.specs.Entries.{AreStepsFromStatsFile, AsksForFilterColumn, IsSectionOfSome};
ghost use Rattle.stats_file_bounds.specs.FileStatistics.{stats_file_lists, list_of_one_key, paired_with, whole_list};
ghost use Rattle.stats_file_bounds.specs.Found.{pair_for};

use crate::answers::{list_of_literal, list_within};
use crate::find::pair_in;
use base_io::{NoMemory, Seq};
use piece_math::Pieces;
use predicate_bounds::{ColumnSteps, EntryStats, ListStep, Literal, Range, Step};
use stats_file::TableStats;
use stats_file_of_query::Needs;
use std::alloc::Global;

// The column with which a filter column makes a pair: the joined column. If the entry joins no column, it is the filter column itself.
fn paired_with(needs: &Needs, joined: u32, column: u32) -> u32
    ensures { result ≡ paired_with needs.now joined column }
{
    if needs.joined.len() == 0 {
        column
    } else {
        joined
    }
}

// The list of a column with `rows` rows that all have the same key.
fn list_of_one_key(alloc: Global, rows: u32) -> Result<Pieces, NoMemory>
    ensures { IfOk result (λ list. list ≡ list_of_one_key rows) }
{
    let mut list = Pieces::empty(alloc);
    if rows > 0 {
        list.push_run(u128::from(rows), 1)?;
    }
    Ok(list)
}

// The list of all rows in a pair. It is empty if the section has no such pair.
fn whole_of(
    alloc: Global,
    section: &TableStats,
    filter: u32,
    joined: u32,
) -> Result<Pieces, NoMemory>
    ensures { IfOk result (λ list. list ≡ (pair_for section.now filter joined).whole) }
{
    match pair_in(section, filter, joined) {
        Some(pair) => pair.whole.copy(),
        None => Ok(Pieces::empty(alloc)),
    }
}

// The list of all rows for a joined column.
fn whole_list(
    alloc: Global,
    section: &TableStats,
    needs: &Needs,
    joined: u32,
) -> Result<Pieces, NoMemory>
    ensures { IfOk result (λ list. list ≡ whole_list section.now needs.now joined) }
{
    match needs.filters.as_slice() {
        [column, ..] => whole_of(alloc, section, *column, paired_with(needs, joined, *column)),
        [] => {
            if needs.joined.len() == 0 {
                return list_of_one_key(alloc, section.rows);
            }
            whole_of(alloc, section, joined, joined)
        }
    }
}

// The list of the rows that have a literal in a filter column.
fn list_of_equal(
    alloc: Global,
    section: &TableStats,
    needs: &Needs,
    joined: u32,
    column: u32,
    literal: &Literal,
) -> Result<Pieces, NoMemory>
    ensures { IfOk result (λ list. list ≡ list_of_value (pair_for section.now column (paired_with needs.now joined column)) (value_of literal.now)) }
{
    match pair_in(section, column, paired_with(needs, joined, column)) {
        Some(pair) => list_of_literal(pair, literal).copy(),
        None => Ok(Pieces::empty(alloc)),
    }
}

// The list of the rows in a range of a filter column.
fn list_of_range(
    alloc: Global,
    section: &TableStats,
    needs: &Needs,
    joined: u32,
    range: &Range,
) -> Result<Pieces, NoMemory>
    requires { IsSectionOfSome section.now }
    ensures { IfOk result (λ list. list ≡ list_between (pair_for section.now range.now.column (paired_with needs.now joined range.now.column))
        (range_of range.now).low (range_of range.now).high) }
{
    match pair_in(
        section,
        range.column,
        paired_with(needs, joined, range.column),
    ) {
        Some(pair) => list_within(alloc, pair, range),
        None => Ok(Pieces::empty(alloc)),
    }
}

// A step of an entry's own conjuncts, with its list. `whole` is the list of all rows of the entry's table.
fn list_step(
    alloc: Global,
    section: &TableStats,
    needs: &Needs,
    joined: u32,
    whole: &Pieces,
    step: &Step,
) -> Result<ListStep, NoMemory>
    requires section { IsSectionOfSome section.now }
    requires whole { whole.now ≡ whole_list section.now needs.now joined }
    requires asks { AsksForFilterColumn needs.now step.now }
    ensures { IfOk result (λ listed_step. listed_step ≡ with_list (stats_file_lists section.now needs.now joined) step.now) }
{
    match step {
        Step::Whole => Ok(ListStep::List(whole.copy()?)),
        Step::Equal { column, literal } => {
            let list = list_of_equal(alloc, section, needs, joined, *column, literal)?;
            Ok(ListStep::List(list))
        }
        Step::Within(range) => {
            let list = list_of_range(alloc, section, needs, joined, range)?;
            Ok(ListStep::List(list))
        }
        Step::And => Ok(ListStep::And),
        Step::NoRows => Ok(ListStep::NoRows),
        Step::Or => Ok(ListStep::Or),
    }
}

// The steps of an entry's own conjuncts, each with its list for a joined column.
fn list_steps(
    alloc: Global,
    section: &TableStats,
    needs: &Needs,
    joined: u32,
    steps: &[Step],
) -> Result<ColumnSteps, NoMemory>
    requires section { IsSectionOfSome section.now }
    requires asks { All (AsksForFilterColumn needs.now) steps.now }
    ensures column { IfOk result (λ gathered. gathered.column ≡ joined) }
    ensures steps { IfOk result (λ gathered. gathered.steps ≡ map (with_list (stats_file_lists section.now needs.now joined)) steps.now) }
{
    let whole = whole_list(alloc, section, needs, joined)?;
    let mut gathered = ColumnSteps::new(alloc, joined);
    for step in steps {
        let listed = list_step(alloc, section, needs, joined, &whole, step)?;
        gathered.push(listed)?;
    }
    Ok(gathered)
}

/// The steps of an entry's own conjuncts, with their lists for each of these joined columns.
pub(crate) fn list_columns(
    alloc: Global,
    section: &TableStats,
    needs: &Needs,
    steps: &[Step],
    columns: &[u32],
) -> Result<EntryStats, NoMemory>
    requires section { IsSectionOfSome section.now }
    requires asks { All (AsksForFilterColumn needs.now) steps.now }
    ensures columns { IfOk result (λ stats. map (λ gathered. gathered.column) stats.columns ≡ columns.now) }
    ensures steps { IfOk result (λ stats. All (AreStepsFromStatsFile section.now needs.now steps.now) stats.columns) }
{
    let mut gathered = Seq::new(alloc);
    for column in columns {
        gathered.push(list_steps(alloc, section, needs, *column, steps)?)?;
    }
    Ok(EntryStats { columns: gathered })
}
