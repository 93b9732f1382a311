//! Laws about a plan over whole tables: its bounds are near those that the plan would have without compression.
//!
//! Compression of degree lists may raise bounds. The laws suppose that no conjunct names exactly one entry. Then at accuracy K the bound of a level
//! or node of n entries is at most ((K + 1) / K)^n times the uncompressed bound. At the usual accuracy, 1, that is 2^n times. `LevelsAreNear` and
//! `NodesAreNear` (in `specs/Nearness.antt`) state this for a plan. As no conjunct names exactly one entry, each scan is its whole table, so the laws
//! leave out scans.
#![tactic(auto)]

mod laws;

pub use laws::{default_levels_are_near, levels_are_near, nodes_are_near};
