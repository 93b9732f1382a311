//! Tests of bushy_plan: the best join tree over given bounds. Orders over given bounds are among the worked examples of order_search, and
//! bench_orders prints orders and trees of twelve entries.
//!
//! The tests have a crate of their own, so that bushy_plan isn't proved a second time for them.
#![tactic(auto)]

#[cfg(test)]
mod choosing;
#[cfg(test)]
mod trees;
