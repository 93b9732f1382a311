//! Stores (which give files by name) and sinks (which take bytes), lists, boxes and names, and the error for too little memory.
//!
//! The first stage of a query reads each file to its end, with `read_file`. The last stage writes its texts with `write_all`.
//!
//! Contracts on stores use `answer_about` (what a store tells about a name) and `ReadsFile` (the results that reading a file may have). Contracts on
//! sinks use `appended` and `GrewByPrefix` (what a sink took), and `Wrote` and `WroteBuffered` (what a step that writes guarantees). `Rose` says that
//! a count of faults rose. In contracts a `Seq` is the list of its items, a `Boxed` its value and a `Name` its bytes.
#![tactic(auto)]

mod boxed;
mod buffer;
mod cases;
mod errors;
mod mem_sink;
mod mem_store;
mod name;
mod null_sink;
mod read;
mod seq;
mod sink;
mod store;
mod write;

pub use boxed::Boxed;
pub use buffer::Buffer;
pub use cases::examples;
pub use errors::{Failed, NoMemory, ReadError, StoreError};
pub use mem_sink::MemSink;
pub use mem_store::MemStore;
pub use name::Name;
pub use null_sink::NullSink;
pub use read::read_file;
pub use seq::Seq;
pub use sink::Sink;
pub use store::Store;
pub use write::write_all;
