//! Lists of positive numbers in descending order, kept as pieces of equal elements, and the operations by which bounds are computed.
//!
//! Each operation gives the list that `degree_sequences` defines, in which a number past 128 bits becomes 2^128 - 1. The
//! time of an operation depends on the number of pieces and never on the number of ranks (Degree Sequence Bound, ICDT 2023;
//! SafeBound, SIGMOD 2023). Statistics are kept as pieces, and the bound of a join tree is a total (`root_total`).
//!
//! In contracts a `Pieces` is the list that its pieces stand for. There `expanded` is the list of a slice of pieces, and `runs` is
//! the number of pieces of a list.
//!
//! ```text
//! let degrees = Pieces::from_list(alloc, &[4, 4, 1])?;        // pieces (4, 2), (1, 1)
//! let bounds = compose(alloc, &degrees, &children)?;          // each child's column has the total 9
//! let rows = root_total(alloc, &others, 9)?;
//! ```
#![tactic(auto)]

mod blocks;
mod by_rank;
pub mod examples;
pub mod laws;
mod listed;
mod minima;
mod pieces;
mod walk;
mod weights;

pub use blocks::compose;
pub use pieces::{Piece, Pieces};
pub use weights::{Child, root_total};
