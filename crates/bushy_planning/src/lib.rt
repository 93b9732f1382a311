//! Plans a query by the best join tree of its entries, with bounds of the tree's scans and nodes.
//!
//! Its plans are for joins over a tree; the crate planning makes plans for joins along an order. In: a query and the tables of its entries. The
//! bounds of all scans and of all sets of entries are computed by planning. This crate chooses the tree that costs least by these bounds. Out: the
//! plan, or a refusal.
//!
//! In contracts `tree_answer` of plan_answers is the result, and `IsTreePlanOf` of bushy_join says that no bound of a plan is too low. `BoundLevels`
//! and `BoundLists` of planning say that no bound of a set or scan is too low.
//!
//! ```text
//! let known = from_statistics(alloc, &query, &db, accuracy)?;
//! let plan = plan_tree_from(alloc, &known, budget)?;
//! let reserved = reserve_bushy(alloc, &plan)?;
//! ```
#![tactic(auto)]

mod laws;
mod plan;

pub use laws::best_trees_are_never_under;
pub use plan::plan_tree_from;
