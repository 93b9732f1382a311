//! Computes the bound of a join tree by a fold, and from it the bound of a set of entries. If the lists dominate the tables, no join of these entries
//! has more rows.
//!
//! In: a tree of entries and classes, and for each entry a row bound and the lists of its joined columns. A list is given by its pieces, in
//! descending order. Out: one number of 128 bits.
//!
//! The fold goes from the leaves up. The list of a class is the rank-wise product of the lists of the entries below it. The list of an entry is
//! composed with the lists of the classes below it. The bound of the tree is the sum of the weights of the root's rows. Each turn of a set has kept
//! equalities, and they make trees. The bound of the turn is the product of the trees' bounds, and the least bound of all turns is the set's bound.
//!
//! In contracts `row_bound_of` and `list_of` give the row bounds and lists of an `EntryLists`, and `bounds_of` gives them as `EntryBounds`.
//! `TreeHasBounds` and `SetHasBounds` say that an `EntryLists` has the row bounds and lists that a tree or a set needs.
#![tactic(auto)]

mod lists;
mod over_trees;
mod sets;

pub use lists::EntryLists;
pub use over_trees::fold;
pub use sets::{set_bound, turn_bound};
