//! A buffer of fixed size in front of a sink.
ghost use Rattle.std.specs.Prelude.{◌≡◌, ◌≤◌, ◌+◌, ◌++◌, [], length, OnOk};
ghost use Rattle.std.specs.List.{flat_map};
ghost use Rattle.base_io.specs.Devices.{growth};
ghost use Rattle.base_io.specs.Writes.{WroteBuffered, Wrote};

use crate::{Failed, Sink, write_all};
use std::marker::Model;

// The buffer is large, so that a text takes few calls of the sink.
const ROOM: usize = 8192;

/// Gathers small writes, so that a sink is called once for many writes. In contracts it is the bytes that wait for the sink. The buffer lies on the
/// stack and allocates nothing. After `Failed` the buffer must not be used again.
#[derive(Drop)]
pub struct Buffer {
    bytes: [u8; ROOM],
    used: usize,
}

impl Model for Buffer {
    ghost use Rattle.std.specs.Prelude.{ℕ, List, take, ◌≤◌};

    ghost Value = { List ℕ };

    ghost view = { λ buffer. take buffer.used buffer.bytes };

    ghost invariant = { λ buffer. buffer.used ≤ 8192 };
}

impl Buffer {
    /// An empty buffer: no bytes wait.
    pub fn new() -> Buffer
        ensures { result ≡ [] }
    {
        Buffer {
            bytes: [0; ROOM],
            used: 0,
        }
    }

    // Adds bytes that fit.
    fn keep(&mut self, bytes: &[u8])
        requires { length self.old + length bytes.now ≤ 8192 }
        ensures { self.new ≡ self.old ++ bytes.now }
    {
        let end = self.used + bytes.len();
        self.bytes[self.used..end].copy_from_slice(bytes);
        self.used = end;
    }

    /// Hands all waiting bytes to the sink.
    pub fn flush<N: Sink>(&mut self, sink: &mut N) -> Result<(), Failed>
        ensures wrote { Wrote (growth N.taken N.faults sink.old sink.new) self.old result }
        ensures empty { OnOk result (self.new ≡ []) }
    {
        write_all(sink, &self.bytes[..self.used])?;
        self.used = 0;
        Ok(())
    }

    /// Adds bytes. If they don't fit, the buffer first hands its waiting bytes to the sink. More bytes than the whole buffer holds then go directly
    /// to the sink.
    pub fn put<N: Sink>(&mut self, sink: &mut N, bytes: &[u8]) -> Result<(), Failed>
        ensures { WroteBuffered (growth N.taken N.faults sink.old sink.new) self.old self.new bytes.now result }
    {
        if bytes.len() <= ROOM - self.used {
            self.keep(bytes);
            return Ok(());
        }
        self.flush(sink)?;
        if bytes.len() <= ROOM {
            self.keep(bytes);
            return Ok(());
        }
        write_all(sink, bytes)?;
        Ok(())
    }

    /// Adds the bytes of several parts, in order.
    pub fn put_parts<N: Sink>(&mut self, sink: &mut N, parts: &[&[u8]]) -> Result<(), Failed>
        ensures { WroteBuffered (growth N.taken N.faults sink.old sink.new) self.old self.new (flat_map (λ part. part.now) parts.now) result }
    {
        'parts: for part in parts {
            self.put(sink, part)?;
        }
        Ok(())
    }
}
