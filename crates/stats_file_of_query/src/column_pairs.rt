//! Pairs of a filter column and a joined column.
ghost use Rattle.std.specs.Prelude.{◌≡◌};
ghost use Rattle.stats_file_of_query.specs.ColumnPairs.{is_pair};

/// A filter column and a joined column of a table, by their positions in the table.
#[derive(Clone, Copy, Debug, PartialEq, Eq)]
pub struct ColumnPair {
    pub filter: u32,
    pub joined: u32,
}

impl ColumnPair {
    /// Whether the pair has these columns.
    pub fn is_of(&self, filter: u32, joined: u32) -> bool
        ensures { result ≡ is_pair filter joined self.now }
    {
        self.filter == filter && self.joined == joined
    }
}
