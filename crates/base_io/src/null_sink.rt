ghost use Rattle.std.specs.Prelude.{◌≡◌, None, Ok, length};

use crate::{Failed, Sink};

/// A sink that takes every byte and stores no byte. Its count of faults is always 0.
#[derive(Clone, Copy, Debug)]
pub struct NullSink;

impl Sink for NullSink {
    ghost taken = { λ _. None };

    ghost faults = { λ _. 0 };

    /// Takes all of the bytes.
    fn write(&mut self, bytes: &[u8]) -> Result<usize, Failed>
        ensures all { result ≡ Ok (length bytes.now) }
    {
        Ok(bytes.len())
    }
}
