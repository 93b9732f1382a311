//! Twelve calls over small tables, as theorems that are proved by computation. They lead from the words and the bytes of the files to the bytes of
//! both streams. `examples` has the calls of `run` and `audit`. Some plan an order or a join tree. Some use reduced scans, or count over them.
//! One has a budget that is one row too small. Two have a limit of memory: just enough, and a byte too small. `statistics` has
//! `stats`, `plan --stats` and `append`, and `keys` has `plan --keys`.
//!
//! All these calls, except `plan --keys`, have the files
//!
//! ```text
//! schema.sql   CREATE TABLE R (X INTEGER NOT NULL); CREATE TABLE S (X INTEGER NOT NULL);
//! query.sql    SELECT R.X FROM R, S WHERE R.X = S.X
//! r.csv        X, and the records 1, 1, 1, 2, 2, 3
//! s.csv        X, and the records 1, 1, 4, 5, 6
//! rs.stats     what `stats` writes of both tables
//! new.csv      X, and the records 1, 4
//! ```
//!
//! and `run schema.sql query.sql` writes
//!
//! ```text
//! notes        scan R 6
//!              scan S 5
//!              level 1 S 5
//!              level 2 R 12
//! out          X, and the record 1 six times
//! ```
//!
//! The verdict on words and files is computed stage by stage (`proofs/`). By the headline theorem it is true of each call with these words and files
//! (`EachCallEnds` in `specs/Calls.antt`). Nothing here does anything when it runs.
#![tactic(auto)]

mod examples;
mod keys;
mod statistics;

pub use examples::{
    above_its_limit, audited, audited_as_a_tree, joined, joined_over_reduced_scans,
    joined_within_a_limit, refused,
};
pub use keys::planned_by_keys;
pub use statistics::{
    appended, planned_from_a_file, plans_from_these_bytes_hold, statistics_written,
};
