//! The bound of a join tree and of a set of entries, as mathematics. The number is defined here, and proved to be never below the join's rows.
//!
//! A bound needs, for each entry, a row bound and descending lists of its joined columns. For each turn it also needs the join trees of the set's
//! kept equalities (a spanning forest of its join graph). This crate has definitions and laws; the crate bound_fold computes the numbers.
//!
//! A tree's bound is computed from the leaves up. The list of a class is the rank-wise product of the lists of the entries below it. The list of an
//! entry is composed with the lists of the classes below it. The tree's bound is the sum of the weights of the root's rows. A set's bound in a turn
//! is the product of its trees' bounds, and the set's bound is the least of these products over all turns.
//!
//! The numbers are `EntryBounds`, `bound_of_tree` and `bound_of_set`. `KeyedTables`, `TreeDominates` and `SetDominates` say for which tables they are
//! bounds. `TreeIsNear` and `SetIsNear` say how near the bounds are to exact bounds.
#![tactic(auto)]

mod examples;
mod laws;

pub use examples::{instances, one_class, sets, trees};
pub use laws::{
    bounds_are_near, bounds_are_unique, bounds_saturate, choices_are_counted,
    scans_are_never_under, sets_are_never_under, small_sets_have_plain_bounds,
    trees_are_never_under, trees_are_unique, trees_have_the_lists_of_their_set,
};
