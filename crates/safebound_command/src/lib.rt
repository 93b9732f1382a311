//! The whole program over files in memory, for callers in C: include/safebound_command.h.
//!
//! One call runs a command line over files that the caller lends. The call writes the two texts into two buffers of the caller, called rooms,
//! and returns the exit status of the program. The words are copied into an array of fixed size, so only the run itself can run out of
//! memory.
//!
//! The contract is `CallEnds` (in `specs/Command.antt`). It is the headline of the top call with a store and streams in memory. The store has
//! exactly these files, and its reads never fail. Writes to a stream fail only if its room is full.
#![tactic(auto)]

mod command;
mod rooms;
mod run;
mod words;

pub use command::safebound_command;
