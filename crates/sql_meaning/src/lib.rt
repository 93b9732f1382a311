//! What a query means: when a condition holds, which choices of rows make an answer, and the answer itself. Tables are lists of rows.
//! Nothing here knows of plans, bounds or hashing. The code that runs a query is proved against these definitions.
//!
//! In: a query (`query_types`) and a database (`csv_tables`) that has the query's tables (`IsDatabaseOf`). `holds` tests a condition
//! on given rows and allocates nothing. `answer_slow` lists the choices of the answer by nested loops, for tests.
//!
//! Contracts use `tables_of`, `cond_holds`, `entries_named`, `choices_of`, `chosen`, `answer` and `conjuncts_of`. In contracts `level_over` is a
//! level over given lists of rows; `level` and `scan` read whole tables. The module `laws` has laws of these definitions.
#![tactic(auto)]

mod answer;
mod columns;
mod conditions;
pub mod examples;
pub mod laws;
mod values;

pub use answer::{all_hold, answer_slow};
pub use columns::value_of_column;
pub use conditions::holds;
pub use values::ValueRef;
