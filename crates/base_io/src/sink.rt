//! A sink: where bytes are written to.
ghost use Rattle.std.specs.Prelude.{◌≡◌, ◌<◌, ◌≤◌, ℕ, List, Option, length, take, IfOk, OnErr};
ghost use Rattle.base_io.specs.Causes.{Rose};
ghost use Rattle.base_io.specs.Sinks.{appended};

use crate::Failed;

/// Takes bytes in the order in which they come.
pub trait Sink {
    /// The bytes taken so far, if the sink tells them.
    ghost taken: { Self → Option (List ℕ) };

    /// How often a write has failed.
    ghost faults: { Self → ℕ };

    /// Takes some of these bytes, from the front, and returns how many it took.
    fn write(&mut self, bytes: &[u8]) -> Result<usize, Failed>
        ensures bound { IfOk result (λ n. n ≤ length bytes.now) }

        // If there are bytes and the sink takes no byte, the call has failed.
        ensures progress { 0 < length bytes.now → IfOk result (λ n. 0 < n) }

        ensures took { IfOk result (λ n. taken self.new ≡ appended (taken self.old) (take n bytes.now)) }
        ensures nothing { OnErr result (taken self.new ≡ taken self.old) }
        ensures later { faults self.old ≤ faults self.new }
        ensures failed { OnErr result (Rose (faults self.old) (faults self.new)) };
}
