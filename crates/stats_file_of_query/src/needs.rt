//! The columns and pairs of columns of which an entry needs statistics.
ghost use Rattle.std.specs.Prelude.{◌≡◌, ◌++◌, IfOk, OnOk, map};
ghost use Rattle.std.specs.List.{filter_map};
ghost use Rattle.degree_sequences.specs.Degrees.{different};
ghost use Rattle.gathered_stats.specs.Asked.{compared_column, joined_columns};
ghost use Rattle.stats_file_of_query.specs.ColumnPairs.{of_itself, with_each};

use crate::column_pairs::ColumnPair;
use crate::filters::filters_of;
use base_io::{NoMemory, Seq};
use berge_tree::Edge;
use gathered_stats::joined_columns;
use predicate_bounds::Step;
use std::alloc::Global;

/// The columns of a FROM entry, each once: `filters` has the columns that the entry's own conjuncts compare with literals, and `joined` the columns
/// that equalities join.
#[derive(Drop)]
pub struct Needs {
    pub filters: Seq<u32>,
    pub joined: Seq<u32>,
}

// Adds the pair of each column with itself.
fn add_themselves(columns: &[u32], pairs: &mut Seq<ColumnPair>) -> Result<(), NoMemory>
    ensures { OnOk result (pairs.new ≡ pairs.old ++ map of_itself columns.now) }
{
    for column in columns {
        pairs.push(ColumnPair {
            filter: *column,
            joined: *column,
        })?;
    }
    Ok(())
}

// Adds the pair of a filter column with each joined column.
fn add_with_each(filter: u32, joined: &[u32], pairs: &mut Seq<ColumnPair>) -> Result<(), NoMemory>
    ensures { OnOk result (pairs.new ≡ pairs.old ++ with_each joined.now filter) }
{
    for column in joined {
        pairs.push(ColumnPair {
            filter,
            joined: *column,
        })?;
    }
    Ok(())
}

impl Needs {
    ghost use Rattle.stats_file_of_query.specs.Needs.{pairs_of};

    /// Appends the pairs that the entry needs: each filter column with each joined column. An entry without filter columns needs each joined column
    /// with itself. An entry without joined columns needs each filter column with itself.
    pub fn add_pairs(&self, pairs: &mut Seq<ColumnPair>) -> Result<(), NoMemory>
        ensures { OnOk result (pairs.new ≡ pairs.old ++ pairs_of self.now) }
    {
        if self.filters.len() == 0 {
            return add_themselves(self.joined.as_slice(), pairs);
        }
        if self.joined.len() == 0 {
            return add_themselves(self.filters.as_slice(), pairs);
        }
        for filter in self.filters.as_slice() {
            add_with_each(*filter, self.joined.as_slice(), pairs)?;
        }
        Ok(())
    }
}

/// The columns of which an entry needs statistics. They follow from the steps of its own conjuncts and from the equalities of its query.
pub fn needs_of(
    alloc: Global,
    steps: &[Step],
    equalities: &[Edge],
    entry: u8,
) -> Result<Needs, NoMemory>
    ensures filters { IfOk result (λ needs. needs.filters ≡ different (filter_map compared_column steps.now)) }
    ensures joined { IfOk result (λ needs. needs.joined ≡ joined_columns entry equalities.now) }
{
    let filters = filters_of(alloc, steps)?;
    let joined = joined_columns(alloc, equalities, entry)?;
    Ok(Needs { filters, joined })
}
