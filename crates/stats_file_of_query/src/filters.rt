//! Finds the filter columns of an entry: the columns that the query compares with literals.
ghost use Rattle.std.specs.Prelude.{◌≡◌, ◌==◌, IfOk, OnOk};
ghost use Rattle.std.specs.List.{filter_map, list_any};
ghost use Rattle.degree_sequences.specs.Degrees.{different};
ghost use Rattle.gathered_stats.specs.Asked.{compared_column};
ghost use Rattle.stats_file_of_query.specs.Columns.{with_column};

use base_io::{NoMemory, Seq};
use gathered_stats::compared_column;
use predicate_bounds::Step;
use std::alloc::Global;

// Whether the list has this column.
fn has_column(columns: &[u32], column: u32) -> bool
    ensures { result ≡ list_any (λ other. column == other) columns.now }
{
    columns.iter().any(|other| column == *other)
}

// Adds the column at the end of the list, if there is a column and the list doesn't have it yet.
fn add_column(columns: &mut Seq<u32>, column: Option<u32>) -> Result<(), NoMemory>
    ensures { OnOk result (columns.new ≡ with_column columns.old column) }
{
    let Some(column) = column else {
        return Ok(());
    };
    if has_column(columns.as_slice(), column) {
        return Ok(());
    }
    columns.push(column)
}

/// The columns that steps compare with literals, each once. They are in the order of the steps that name them first.
pub(crate) fn filters_of(alloc: Global, steps: &[Step]) -> Result<Seq<u32>, NoMemory>
    ensures { IfOk result (λ columns. columns ≡ different (filter_map compared_column steps.now)) }
{
    let mut columns = Seq::new(alloc);
    for step in steps {
        add_column(&mut columns, compared_column(step))?;
    }
    Ok(columns)
}
