//! Finds the best join tree of a query's entries, from a bound for every set of entries.
//!
//! In: a bound for each set of the FROM entries, and the bound of each entry's scan. The bound of the set {0, 2} has the index 5, which is 101 in
//! binary. The cost of a tree is the greatest bound among its inner nodes. Out: the tree of least cost, as a plan. If the least cost is above the
//! budget, the result is a refusal with the least cost. If the least cost doesn't fit into 128 bits, the refusal says this.
//!
//! In contracts `IsBestPlan` and `IsBest` describe the tree, `IsTreePlan` of plans its shape, and `IsCause` a refusal. The refusals are those of
//! order_search.
//!
//! ```text
//! let plan = choose_bushy(alloc, &bounds, &scans, budget)?;
//! plan.joins.as_slice()
//! ```
#![tactic(auto)]

mod joins;
mod laws;
mod search;
mod splits;
mod table;
mod weight;

pub use laws::{examples, one_answer, one_best_tree};
pub use search::choose_bushy;
