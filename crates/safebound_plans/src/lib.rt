//! The best order and the best join tree, by bounds of 64 bits that a planner hands in.
//!
//! The planner gives a bound for each set of entries, at the index whose bits are the set's entries. A bound of 2^64 - 1 means 2^64 - 1 or
//! more. A call writes the levels of the best left-deep order, or the joins of the best tree, into the caller's buffer (the room). If it
//! returns a `Refusal`, the room is as it was. No call has a precondition: it tests what it needs.
//!
//! Two more calls compute how many bytes the buffers of an order or a tree take in this project's engine.
//!
//! In contracts `IsBestOrder` and `IsBestTree` say what is in the room afterwards. `IsOrderCause` and `IsTreeCause` define the causes of
//! refusals, and `IsOrderMemory` and `IsTreeMemory` the bytes.
#![tactic(auto)]

mod memory;
mod ordering;
mod shaping;
mod widening;

pub use memory::{order_memory, small_plans, tree_memory};
pub use ordering::{Level, order};
pub use shaping::{JoinNode, tree};
