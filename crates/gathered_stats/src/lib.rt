//! Gathers from a query's tables the statistics that the query's bounds need.
//!
//! This is the step between the tables and the bounds. In: a query, its database and an accuracy. Out, for each FROM entry and each of its joined
//! columns: the steps of the entry's own conjuncts, each step with its list (SafeBound, SIGMOD 2023). Steps run over a stack: a comparison pushes its
//! list, and AND and OR combine the two lists on top (`predicate_bounds`).
//!
//! A list is made only if a step asks for it. A filter column is sorted once for each entry; an entry without conditions sorts no column. For each
//! joined column, the rest list of a filter column is made for the first value that needs it, and copied for further values.
//!
//! `gather_paired` is for conditions that are carried along a reference to a key. Each row of one entry is paired with the row of another entry to
//! which it refers. The filter columns belong to the second entry, and the joined columns to the first. If the rows are all rows of the
//! first entry's table, the list of all rows isn't made again: it is taken from the first entry's own steps, if they have it.
//!
//! In contracts `statistics_of` (in `specs/Statistics.antt`) says what the statistics tell. `IsGatheredForPaired` says what `gather_paired` returns.
//!
//! ```text
//! let parts = split(alloc, &query)?;
//! let stats = gather_query(alloc, &query, &parts, &db, Accuracy::of(1))?;    // Tells query stats (statistics_of (tables_of db) 1)
//! let rows = stats.row_bound(alloc, 0)?;
//! ```
#![tactic(auto)]

mod columns;
mod entry_table;
mod filters;
mod gather;
mod lists;
mod literals;
mod paired_rows;
mod rests;
mod wholes;

pub use columns::{asked_columns, joined_columns};
pub use filters::compared_column;
pub use gather::{characters_differ, gather_query};
pub use paired_rows::{PairedRows, gather_paired};
