//! The draft: the part of a statistics file that is read so far. It grows line by line.
ghost use Rattle.std.specs.Prelude.{◌≡◌};
ghost use Rattle.stats_reading.specs.Drafts.{empty_draft, empty_pair, empty_section};

use crate::stages::Stage;
use base_io::Seq;
use piece_math::Pieces;
use schema_types::Kind;
use stats_file::{PairStats, TableStats};
use std::alloc::Global;

/// The part of a file that is read so far: the complete tables, the current table, and the current pair, which isn't in the table yet. `kind` is the
/// kind of the values in the pair's filter column. `same_filter_at` is the index of an earlier pair of the table with the same filter column.
/// `same_joined_at` is the index of an earlier pair with the same joined column. If there is no such pair, the index is the number of earlier pairs.
#[derive(Debug, Drop)]
pub struct Draft {
    pub stage: Stage,
    pub accuracy: u8,
    pub tables: Seq<TableStats>,
    pub section: TableStats,
    pub pair: PairStats,
    pub kind: Kind,
    pub same_filter_at: usize,
    pub same_joined_at: usize,
}

/// A pair of these columns without lists.
pub fn new_pair(alloc: Global, filter: u32, joined: u32) -> PairStats
    ensures { result ≡ empty_pair filter joined }
{
    PairStats {
        filter,
        joined,
        whole: Pieces::empty(alloc),
        frequent: Seq::new(alloc),
        rest: Pieces::empty(alloc),
        cuts: Seq::new(alloc),
        nodes: Seq::new(alloc),
    }
}

/// A table's section without pairs.
pub fn new_section(alloc: Global, table: u32, rows: u32) -> TableStats
    ensures { result ≡ empty_section table rows }
{
    TableStats {
        table,
        rows,
        pairs: Seq::new(alloc),
    }
}

impl Draft {
    /// A draft before the first line.
    pub fn new(alloc: Global) -> Draft
        ensures { result ≡ empty_draft }
    {
        Draft {
            stage: Stage::Start,
            accuracy: 0,
            tables: Seq::new(alloc),
            section: new_section(alloc, 0, 0),
            pair: new_pair(alloc, 0, 0),
            kind: Kind::Int,
            same_filter_at: 0,
            same_joined_at: 0,
        }
    }
}
