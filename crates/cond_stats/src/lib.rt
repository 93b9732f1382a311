//! Conditional statistics: lists that dominate the joined keys of the rows that a condition on a filter column leaves (SafeBound, SIGMOD 2023,
//! conditional degree sequences). The filter column and the joined column are of one table.
//!
//! This is the stage after a table is read. In: columns of cells. Out: compressed degree lists. There are lists for all rows, for the rows with one
//! filter value, and for the rows whose filter value lies in a range. A `FilterColumn` sorts the filter column once, and makes a list when a caller
//! asks for it.
//!
//! In contracts `compressed_degrees`, `list_of_value`, `rest`, `list_of_range` and `list_of_node` (in `specs/Lists.antt`) are the lists.
//! `frequent` has the values that have lists of their own, and `cuts` the values at which leaves begin. `leaf_of_value`, `list_between` and
//! `is_between` (in `specs/Columns.antt`) are about the ends of a range. `laws` says what the lists dominate and sum to. In contracts a
//! `FilterColumn` is a `CellColumn`.
//!
//! ```text
//! let column = FilterColumn::new(alloc, &pool, kind, filter)?;
//! let list = column.list_of_value(joined, Some(cell), Accuracy::of(1))?;   // list ≡ list_of_value 1 (zip filter joined) (Some cell)
//! ```
#![tactic(auto)]

mod column;
mod counting;
mod cut_leaves;
mod cuts;
pub mod examples;
mod groups;
pub mod laws;
mod lists;
mod order;
mod rest;
mod texts;
mod whole;

pub use column::FilterColumn;
pub use cut_leaves::{leaf_of_int, leaf_of_text};
pub use whole::whole_list;
