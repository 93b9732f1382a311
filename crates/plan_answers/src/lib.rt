//! The results of `choose` (of order_search) and of `choose_bushy` (of bushy_plan), as functions of the bounds.
//!
//! The contracts of both calls are relations between bounds and a result. They leave open only whether the call runs out of memory. If it doesn't,
//! the result of `choose` is `plan_answer` (in `specs/PlanAnswer.antt`): the plan of `best_order` or a refusal. That of `choose_bushy` is
//! `tree_answer` (in `specs/TreeAnswer.antt`): the plan of `best_tree` or a refusal. They search all orders and all trees, so they are for
//! specifications and never run.
//!
//! The laws say that the computed result is what the call promises (`IsPromised`). In a proof about the result of a call, use the clause
//! `no_other_result` of `promised_answers` or `promised_tree_answers`. In a proof about one exit of a call, use `chosen` or `refused`.
//!
//! `bounds_of_sets` (in `specs/Bounds.antt`) makes the list of bounds from a function of the set.
#![tactic(auto)]

mod examples;
mod laws;
mod tree_examples;
mod tree_laws;

pub use examples::small_plans;
pub use laws::{best_orders, bounds_of_all_sets, promised_answers};
pub use tree_examples::small_trees;
pub use tree_laws::{best_trees, promised_tree_answers};
