//! Makes join trees from kept equalities (those of a spanning forest of the join graph). In these trees entries and classes alternate, and a set's
//! bound is computed over them.
//!
//! In: equalities of columns that close no cycle between entries, and a set of entries, an `EntrySet`. Out: one tree for each component of the set,
//! on the heap. A class has all columns that the equalities connect with each other. Below an entry are the classes of its columns, except the class
//! above the entry. Below a class are its entries, except the entry above the class. `ColumnClasses` tells whether two columns are in the same class.
//!
//! Contracts require `ClosesNoCycle` and `AreWithin` of the equalities. In clauses on results, `AreAllTreesOf` describes the trees of a set,
//! `tree_of` is the tree that heap boxes contain, and `class_of` the class of a column.
#![tactic(auto)]

mod classes;
mod columns;
mod edges;
mod laws;
mod tree;
mod walk;

pub use classes::ColumnClasses;
pub use edges::{Edge, Place};
pub use laws::{
    a_tree_is_a_component, classes_are_joined_columns, examples, has_entries_implies_within,
    joined_parts_close_no_cycle, names_keep_entries_apart, no_cycle_of_classes,
};
pub use tree::{Classes, Members, Tree};
pub use walk::rooted;
