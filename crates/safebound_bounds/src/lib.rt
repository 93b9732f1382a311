//! The bounds of all sets of entries, from what a planner hands in: row bounds, equalities, and lists of columns as runs.
//!
//! A call writes 2^n bounds of 64 bits into the caller's buffer, or returns the bound of one set. The bound 2^64 - 1 means 2^64 - 1 or more.
//! If a call is refused, the buffer is unchanged. No call has a precondition: each call tests its arguments.
//!
//! A list may count fewer rows than its entry's row bound. The other rows then have no value in that column (NULL) and match nothing. So they
//! aren't counted in a set in which an equality names the column. A list that counts more rows than the row bound is cut.
//!
//! In contracts `known_in` has the row bounds and lists in a set, and `all_bounds` and `bound_in` are the results. `IsBoundsCause`,
//! `IsWithinCause` and `IsSetCause` define the causes of refusals. `work_of` is the number that is compared with the limit of work. `ValuesFit`
//! says to which tables the bounds apply.
#![tactic(auto)]

mod arguments;
mod bounding;
mod checking;
mod in_sets;
mod laws;
mod listing;
mod work;

pub use arguments::{ColumnList, Equality, NO_VALUES};
pub use bounding::{bounds, bounds_within, set_bound};
pub use laws::rows_without_values_join_with_nothing;
