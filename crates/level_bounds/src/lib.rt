//! Levels and their bounds: the laws that connect what a query means with the bounds of its sets of entries.
//!
//! In: what a query means over its tables (`sql_meaning`), and the bound of a set of entries (`tree_bounds`). Out: laws;
//! nothing here runs.
//!
//! - Suppose that the bounds of each entry hold for its scan. Then no level over the entries of a set has more rows than the set's
//!   bound. This holds in whatever order the entries are joined.
//! - The last level of any order of all entries is the answer of the query, as a multiset.
//! - Suppose that no entry of a set has own conjuncts. Then the bound of the set is near the bound that the degree lists of whole tables
//!   give (SafeBound, SIGMOD 2023).
//!
//! The laws use `query_scan` for the rows of a scan, and `level_over_entries` for a level. `BoundsEachScan` says that bounds of entries hold for
//! the scans, and `IsOrderOfSet` that a list has a set's entries in some order. `AreCompressed` and `uncompressed` are about bounds of whole tables.
#![tactic(auto)]

pub mod examples;
pub mod laws;
