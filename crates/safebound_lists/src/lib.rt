//! Calls for a planner that keeps lists itself. Each call checks every value that it is given, and calls the proved crates. It writes its result
//! into the caller's buffer, which is called the room.
//!
//! Lists are given as runs. One call makes the degree sequence of a column from its keys, and one makes a list with fewer runs. Other calls
//! make a list from two lists, rank by rank. It has the sum of their elements, the greater of their elements, or the lesser of their running sums.
//! One call cuts a list. Each call returns how many elements it wrote. If it returns a `Refusal`, the room is as it was. No call has a
//! precondition: it tests what it needs.
//!
//! In contracts `AreValid` says that a list is valid. `MayBeCompressed`, `MayBeAdded`, `AreBothValid` and `MayTakeGreater` say which arguments
//! calls accept. `IsWritten` says what is in the room afterwards. Each call has a definition of its refusals' causes (`specs/Causes.antt`).
#![tactic(auto)]

mod adding;
mod comparing;
mod compressing;
mod counting;
mod cutting;
mod laws;
mod refusal;
mod runs;
mod written;

pub use adding::append;
pub use comparing::{greater_of, lesser_of};
pub use compressing::compress;
pub use counting::degrees;
pub use cutting::cut;
pub use laws::{conditions_dominate, lists_dominate};
pub use refusal::Refusal;
pub use runs::{Run, first_invalid_run, pieces_of};
