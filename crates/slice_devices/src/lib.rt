//! A store and a sink over memory that the caller lends. Neither of them allocates memory or copies whole files.
//!
//! `SliceStore` gives the files of a list, and its reads never fail. `SliceSink` fills a buffer of the caller (its room) from the
//! front. A write fails only if the room is full. Contracts use `files_of` for the store's files and `named_bytes` for the sink's bytes, both in
//! `specs/Slices.antt`.
#![tactic(auto)]

mod slice_sink;
mod slice_store;

pub use slice_sink::SliceSink;
pub use slice_store::{SliceFile, SliceStore};
