//! A sink that writes to a real stream.
ghost use Rattle.std.specs.Prelude.{◌≡◌, None};

use base_io::{Failed, Sink};
use std::io::Write;

/// A stream whose failed writes are counted. Contracts say nothing about the bytes that the stream took.
#[derive(Drop)]
pub struct StreamSink<W> {
    stream: W,
    faults: u64,
}

impl<W: Write> StreamSink<W> {
    /// A sink with no failed write so far.
    pub fn new(stream: W) -> StreamSink<W>
        ensures faults { result.faults ≡ 0 }
    {
        StreamSink { stream, faults: 0 }
    }
}

impl<W: Write> Sink for StreamSink<W> {
    ghost taken = { λ _. None };

    ghost faults = { λ s. s.faults };

    fn write(&mut self, bytes: &[u8]) -> Result<usize, Failed> {
        match self.stream.write(bytes) {
            Ok(count) if count > 0 || bytes.is_empty() => Ok(count),
            _ => {
                self.faults = self.faults.saturating_add(1);
                Err(Failed)
            }
        }
    }
}
