use base_io::Seq;

/// A left-deep order of n entries, with bounds. Entries are numbered in FROM order, from 0.
///
/// Bounds are in rows. `scans` has the bound of each entry's scan, in FROM order. `levels` has, for each k from 1 to n, the bound of the join of the
/// order's first k entries.
#[derive(Debug, Drop)]
pub struct Plan {
    pub order: Seq<u8>,
    pub scans: Seq<u64>,
    pub levels: Seq<u64>,
}
