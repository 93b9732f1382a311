//! Plans: the order or the join tree in which the entries of a query are joined, and a bound for each step.
//!
//! The crates order_search and bushy_plan make plans. Then a plan is printed, memory is reserved by its bounds, and the joins follow it. A plan over
//! a join tree is a `BushyPlan`: the tree has a leaf for each entry, and each inner node joins two nodes. A left-deep order is a `Plan`: each step
//! joins one more entry to all entries before it.
//!
//! An order is a tree whose right children are leaves: `tree_of_order` makes the tree. The order can be read from the tree again: `entry_in_order`
//! and `level_bound` give its entries and the bounds of its levels, and `level_node` says which node is a level.
//!
//! In contracts `IsPlan` and `IsTreePlan` say that a plan is for n entries, `IsOrder` that a list is an order of them, and `IsOrderTree` that a tree
//! is that of an order, which is `order_of_tree`.
#![tactic(auto)]

mod bushy;
mod laws;
mod left_deep;
mod orders;
mod tree_laws;

pub use bushy::{BushyPlan, Join};
pub use laws::examples;
pub use left_deep::Plan;
pub use orders::{NO_JOIN, entry_in_order, level_bound, level_node, tree_of_order, write_joins};
pub use tree_laws::{order_examples, order_trees, orders_are_read, tree_examples};
