//! Looks up sections and pairs in a file. A section has the statistics of one table. A pair has the statistics of a joined column by the values of a
//! filter column.
ghost use Rattle.std.specs.Prelude.{◌≡◌, option_map};
ghost use Rattle.std.specs.List.{list_all};
ghost use Rattle.stats_file_of_query.specs.Standing.{section_of};
ghost use Rattle.stats_file_bounds.specs.Found.{has_pair, pair_in};

use stats_file::{PairStats, StatsFile, TableStats};
use stats_file_of_query::ColumnPair;

/// The section of a table, if the file has one.
pub(crate) fn section_of(file: &StatsFile, table: u32) -> Option<&TableStats>
    ensures { option_map (λ section. section.now) result ≡ section_of file.now table }
{
    for section in file.tables.as_slice() {
        if section.table == table {
            return Some(section);
        }
    }
    None
}

/// The pair of two columns, if the section has one.
pub(crate) fn pair_in(section: &TableStats, filter: u32, joined: u32) -> Option<&PairStats>
    ensures { option_map (λ pair. pair.now) result ≡ pair_in section.now filter joined }
{
    for pair in section.pairs.as_slice() {
        if pair.filter == filter && pair.joined == joined {
            return Some(pair);
        }
    }
    None
}

// Whether the section has a pair.
fn has_pair(section: &TableStats, pair: &ColumnPair) -> bool
    ensures { result ≡ has_pair section.now pair.now }
{
    pair_in(section, pair.filter, pair.joined).is_some()
}

/// Whether the section has all of these pairs.
pub(crate) fn has_each_pair(section: &TableStats, pairs: &[ColumnPair]) -> bool
    ensures { result ≡ list_all (has_pair section.now) pairs.now }
{
    pairs.iter().all(|pair| has_pair(section, pair))
}
