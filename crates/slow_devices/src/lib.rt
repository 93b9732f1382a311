//! A store and a sink that read or write at most a given number of bytes in each call, for tests. Nothing here allocates memory.
//!
//! `SlowStore` wraps a `MemStore`, and `SlowSink` wraps a `MemSink`. Files, counts and failures are those of the inner store or sink.
//! `bytes_handed_on` (in `specs/Cuts.antt`) says how many bytes of a call are handed on.
#![tactic(auto)]

mod slow_sink;
mod slow_store;

pub use slow_sink::SlowSink;
pub use slow_store::SlowStore;
