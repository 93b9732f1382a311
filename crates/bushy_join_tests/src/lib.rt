//! Worked examples of levels of an order and of joins over a tree, as theorems that are proved by computation.
//!
//! The examples have a crate of their own, so that bushy_join isn't proved a second time for them.
#![tactic(auto)]

pub mod examples;
pub mod levels;
