//! Finds the best left-deep order of a query's entries, from the bound of every set of entries.
//!
//! In: a bound for each set of FROM entries, and the bound of each entry's scan. The bound of the set {0, 2} has the index 5, which is 101 in binary.
//! The cost of an order is the greatest bound among its prefixes (its first entry, its first two entries, and so on). Out: the order of least cost,
//! with the bounds of its prefixes. If the least cost is above the budget, the result is a refusal: it names this cost, or says that the cost is past
//! 128 bits.
//!
//! In contracts `IsBest`, `levels`, `cost` and `IsPlan` (of the crate plans) describe a plan, and `IsCause` a refusal.
//!
//! ```text
//! let plan = choose(alloc, &bounds, &scans, budget)?;
//! plan.order.as_slice()
//! ```
#![tactic(auto)]

mod laws;
mod refusal;
mod search;
mod table;
mod way;
mod weight;

pub use laws::{examples, one_answer, one_best_order, sets_have_their_bits};
pub use refusal::PlanError;
pub use search::choose;
