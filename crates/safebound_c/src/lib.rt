//! The library for callers in C: the calls of include/safebound.h. Each call but `safebound_version` hands its values to a crate that checks
//! them and computes the result. The kind of join is checked in this crate, in `safebound_joined_rows`. The header's function that returns
//! the text of a status isn't in this crate, but in library/status.c.
//!
//! A call returns a status. It also writes a number to `*detail`, if this status has one. `TellsAnswer` says what the two numbers mean, and
//! what was written into the caller's buffer. No call has a precondition on the values that it gets, and no call keeps anything for the
//! next call. What the header asks of pointers is trusted.
#![tactic(auto)]

mod bounding;
mod joining;
mod listing;
mod planning;
mod status;
mod version;

pub use bounding::{safebound_bounds, safebound_bounds_within, safebound_set_bound};
pub use joining::safebound_joined_rows;
pub use listing::{
    safebound_append, safebound_compress, safebound_cut, safebound_degrees, safebound_greater,
    safebound_lesser,
};
pub use planning::{safebound_memory, safebound_order, safebound_tree, safebound_tree_memory};
pub use version::safebound_version;
