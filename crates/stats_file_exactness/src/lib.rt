//! Proves that a plan from the statistics file of a query is the plan from the query's tables.
//!
//! The file has all statistics that the query needs. Its bounds are the same as those from the statistics of the tables. Its text is read back as the
//! same file.
#![tactic(auto)]

pub mod laws;
