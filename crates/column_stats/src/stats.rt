//! The statistics of a filter column for a joined column.
ghost use Rattle.std.specs.Prelude.{◌≡◌, ◌<◌};
ghost use Rattle.cond_stats.specs.Leaves.{node_size};
ghost use Rattle.column_stats.specs.Nodes.{node_place};

use base_io::Seq;
use piece_math::Pieces;
use schema_types::Kind;

/// A frequent value, by its cell, and the list of its rows.
#[derive(Debug, Drop)]
pub struct FrequentList {
    pub cell: u64,
    pub list: Pieces,
}

/// The statistics of a filter column for a joined column.
#[derive(Drop)]
pub struct ColumnStats {
    /// The kind of the filter column.
    pub kind: Kind,
    /// How many rows the table has.
    pub rows: u32,
    /// The list of all rows.
    pub whole: Pieces,
    /// The lists of up to 32 frequent values, the most frequent first.
    pub frequent: Seq<FrequentList>,
    /// The one list for all values that aren't frequent.
    pub rest: Pieces,
    /// The cells at which the leaves begin.
    pub cuts: Seq<u64>,
    /// The lists of the nodes of 1, 2, 4, 8, 16 and 32 leaves, in this order. Nodes of one size are in the order of their leaves.
    pub nodes: Seq<Pieces>,
}

/// The index in `nodes` of the least node that holds both leaves.
pub fn place_of_node(low: u8, high: u8) -> u8
    requires low { low < 32 }
    ensures place { result ≡ node_place (node_size low high) low }
    ensures below { result < 63 }
{
    if low == high {
        low
    } else if low / 2 == high / 2 {
        32 + low / 2
    } else if low / 4 == high / 4 {
        48 + low / 4
    } else if low / 8 == high / 8 {
        56 + low / 8
    } else if low / 16 == high / 16 {
        60 + low / 16
    } else {
        62
    }
}
