//! Tests of column_stats. Each call is made with ample memory. What the calls return is proved in column_stats. There are also examples of lists
//! that are computed from the definitions.
#![tactic(auto)]

pub mod examples;
#[cfg(test)]
mod tests;
