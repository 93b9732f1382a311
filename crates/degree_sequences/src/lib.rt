//! Degree lists (frequencies in descending order): what they are, when a list dominates keys, and how lists are combined.
//!
//! The bounds of a query rest on these definitions. Statistics are compressed degree lists. A bound
//! is computed from them by rank-wise products and by composition along a join tree. Degree
//! lists and domination are those of SafeBound (SIGMOD 2023). Products and composition are those of
//! Degree Sequence Bound (ICDT 2023). Compression by heads is this project's own. Nothing here runs:
//! the crate has definitions, their lemmas, and two modules of laws and examples. Each law is the contract
//! of an empty function.
//!
//! Contracts use `degree_list`, `running_sum`, `DominatesKeys`, `DominatesWeights`, `rank_product`,
//! `rank_sum`, `rank_maximum`, `lesser`, `capped_at`, `compressed`, `composed`, `root_total`, `runs` and `saturated`.
#![tactic(auto)]

pub mod examples;
pub mod laws;
