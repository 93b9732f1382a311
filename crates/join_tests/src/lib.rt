//! Tests of bounds from a query's database, of the best join tree, and of the rows of its nodes over whole scans. In `orders` memory is reserved for
//! an order, and the order is joined as its tree. All tests are over three tables that are joined in a triangle. The program makes these steps by
//! other calls; the calls of this crate have contracts of their own.
//!
//! The tests have a crate of their own, so that no crate that they test is proved a second time.
#![tactic(auto)]

#[cfg(test)]
mod bounds;
#[cfg(test)]
mod bounds_of_queries;
#[cfg(test)]
mod leaves;
#[cfg(test)]
mod orders;
#[cfg(test)]
mod planned_trees;
#[cfg(test)]
mod trees;
#[cfg(test)]
mod triangle;
