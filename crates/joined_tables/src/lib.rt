//! How many rows an outer join, a semi-join or an anti-join has at most, from bounds of the inner join and of both tables.
//!
//! The call takes three bounds of 64 bits and returns a bound of 64 bits. A bound of 2^64 - 1 means 2^64 - 1 or more, so it excludes nothing.
//! specs/Tables defines joined tables as SQL-92 does.
//!
//! In contracts `joined` has the rows of a joined table, and `most_joined` is the number that is returned. `IsWithin` says what a bound means.
#![tactic(auto)]

mod joins;

pub use joins::{Join, joined_rows};
