use base_io::Seq;

/// An inner node of a join tree: the numbers of the two nodes that it joins, and the bound of their join, in rows.
///
/// In a tree over n entries the number of a leaf is its FROM position, counted from 0. Inner nodes are numbered from n.
#[derive(Clone, Copy, Debug, PartialEq, Eq)]
pub struct Join {
    pub left: u8,
    pub right: u8,
    pub bound: u64,
}

/// A join tree over n entries.
///
/// `joins` has the inner nodes in the order of their numbers. Each comes after the two nodes that it joins, and the last is the root. A tree over one
/// entry has no joins. `scans` has the bounds of the entries' scans in FROM order. `cost` is the greatest bound of an inner node, or the bound of the
/// scan if there is only one entry. Bounds and cost are in rows.
#[derive(Debug, Drop)]
pub struct BushyPlan {
    pub joins: Seq<Join>,
    pub scans: Seq<u64>,
    pub cost: u64,
}
