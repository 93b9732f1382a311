//! Tests of stores and sinks in memory, and of those calls of the lowest crates that allocate memory. The tests have ample memory.
//!
//! What the calls return is proved. The tests have a crate of their own, so that no crate that they test is proved a second time.
#![tactic(auto)]

#[cfg(test)]
mod devices;
#[cfg(test)]
mod lists;
#[cfg(test)]
mod rows;
#[cfg(test)]
mod shop;
