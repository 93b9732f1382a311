//! Finds the entries of a query that carry their own conjuncts to other entries, along references to keys that the schema declares. Also finds the
//! rows that refer to a row of a carrying entry.
//!
//! In: a query with the parts of its conjuncts (`Parts` of join_graph), its schema and its tables. Out: the equalities along which conjuncts are
//! carried (`carrying_equalities`), and for each equality the widened table (`widened`). The widened table has pairs of row numbers: a row that
//! refers to a row of the other table, and the row to which it refers. No row is copied. A row that refers to no row is left out, so references
//! without a target are allowed.
//!
//! In contracts `carrying_equalities` and `carriers_to` are the equalities, and `widened`, `referring` and `referred` the widened table.
//! `rows_referring` has the rows that refer to a row of the carrier's scan. `DeclaredKeysHold` says that a column which is declared as a key has no
//! value twice.
#![tactic(auto)]

mod key_rows;
mod references;
mod rows;

pub use references::carrying_equalities;
pub use rows::{Widened, widened_rows};
