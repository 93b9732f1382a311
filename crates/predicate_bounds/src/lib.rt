//! Makes the bounds of filtered entries. From an entry's own conjuncts and their lists it makes a list that dominates the scanned rows.
//!
//! In: a query, and each joined column's lists by values and ranges of filter columns. `read_steps` turns own conjuncts into steps that run over
//! a stack of lists. It pushes NOT down to the comparisons, and merges nested ANDs. If a comparison has its literal on the left, its sides are
//! swapped. All comparisons of a column with < <= > >= in an AND become one range. `QueryStats` holds the steps of each joined column, with the
//! lists that they ask for. `bound_list` and `row_bound` run these steps. This crate doesn't know where the lists come from.
//!
//! In contracts `steps_of` (in `specs/Steps.antt`) says which lists an entry's own conjuncts ask for. `HasLists` and `HasRowLists` (in
//! `specs/StatsLists.antt`) say which lists statistics hold. The results are `filtered_list` and `row_bound` of `filtered_lists`.
//!
//! ```text
//! let steps = read_steps(alloc, &query, &parts, 0)?;   // steps ≡ steps_of 0 query.conjuncts
//! let list = stats.bound_list(alloc, 0, column)?;      // list ≡ filtered_list lists 0 query.conjuncts
//! ```
#![tactic(auto)]

mod columns;
mod comparing;
mod ranges;
mod reading;
mod running;
mod stats;
mod steps;

pub use columns::{ColumnSteps, EntryStats, QueryStats};
pub use reading::read_steps;
pub use running::ListStep;
pub use steps::{Literal, Range, Step};
