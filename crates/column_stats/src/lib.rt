//! Statistics of a filter column for a joined column (SafeBound, SIGMOD 2023, conditional degree sequences). They are made once. Then they give the
//! lists of values and ranges without taking more memory.
//!
//! A plan from tables makes only the lists that its conditions ask for (`cond_stats`). This crate makes all of them, for a caller that keeps
//! statistics, for example in a statistics file. In: two columns of a table's cells. Out: a `ColumnStats`. It has the list of all rows, up to 32
//! lists of frequent values, the rest list for all other values, 32 cuts, and the lists of 63 nodes. Without rows it has no cuts and no nodes.
//!
//! Contracts use `stats_of`, `list_for_value`, `list_for_range`, `leaf_by_cuts` and `IsValid` (in `specs/Stats.antt`). The law `nodes_dominate` says
//! what the list of a node dominates. `specs/Promises.antt` says that the lists are the lists of `cond_stats`, and what they dominate. The contract
//! of `gather` in pair_tables says that these promises hold.
//!
//! ```text
//! let column = FilterColumn::new(alloc, pool, kind, filter)?;
//! let stats = gather_sorted(alloc, &column, kind, joined, Accuracy::of(1))?;   // stats ≡ stats_of pool kind 1 (zip filter joined)
//! ```
#![tactic(auto)]

pub mod examples;
mod gathering;
pub mod laws;
mod parts;
mod stats;

pub use gathering::gather_sorted;
pub use stats::{ColumnStats, FrequentList, place_of_node};
