use base_io::Seq;
use berge_tree::Edge;

/// The conjuncts of a query, each in one part. A conjunct's number is its index in text order, counted from 0.
#[derive(Debug, Drop)]
pub struct Parts {
    /// For each FROM entry, the conjuncts that name just this entry.
    pub local: Seq<Seq<u32>>,
    /// The equalities of columns of two different entries, in text order.
    pub equalities: Seq<Edge>,
    /// All other conjuncts.
    pub residual: Seq<u32>,
}
