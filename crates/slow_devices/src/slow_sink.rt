ghost use Rattle.std.specs.Prelude.{◌≡◌, ◌<◌, ◌≤◌, ◌+◌, ◌||◌, ◌&&◌, nat_eq, nat_lt, min, if◌then◌else◌, is_err, IfOk, OnErr, length, take, Some};
ghost use Rattle.base_io.specs.Causes.{Rose, one_more};
ghost use Rattle.base_io.specs.FailingCalls.{is_failing_call};
ghost use Rattle.base_io.specs.Sinks.{appended};
ghost use Rattle.slow_devices.specs.Cuts.{bytes_handed_on};

use base_io::{Failed, MemSink, Sink};

/// A sink that takes at most `most` bytes in each call. If `most` is 0, it counts as 1. The bytes taken, room, counts and failures are those of the
/// inner sink.
#[derive(Drop)]
pub struct SlowSink {
    pub inner: MemSink,
    pub most: u32,
}

impl SlowSink {
    /// A sink that hands at most `most` bytes of each call to the inner sink.
    pub fn new(inner: MemSink, most: u32) -> SlowSink
        requires { 0 < most }
        ensures inner { result.inner ≡ inner }
        ensures most { result.most ≡ most }
    {
        SlowSink { inner, most }
    }
}

impl Sink for SlowSink {
    ghost taken = { λ s. Some s.inner.taken };

    ghost faults = { λ s. s.inner.faults };

    /// Hands at most `most` of the bytes on to the inner sink.
    fn write(&mut self, bytes: &[u8]) -> Result<usize, Failed>
        ensures bound { IfOk result (λ n. n ≤ length bytes.now) }
        ensures progress { 0 < length bytes.now → IfOk result (λ n. 0 < n) }
        ensures took { IfOk result (λ n. Some self.new.inner.taken ≡ appended (Some self.old.inner.taken) (take n bytes.now)) }
        ensures nothing { OnErr result (Some self.new.inner.taken ≡ Some self.old.inner.taken) }
        ensures later { self.old.inner.faults ≤ self.new.inner.faults }
        ensures failed { OnErr result (Rose self.old.inner.faults self.new.inner.faults) }

        // A call fails exactly if its number is in the inner sink's `fail_at`, or if it brings bytes and no room is left.
        ensures calls { self.new.inner.calls ≡ one_more self.old.inner.calls }
        ensures fail_at { self.new.inner.fail_at ≡ self.old.inner.fail_at }
        ensures fails { is_err result ≡ (is_failing_call self.new.inner.calls self.old.inner.fail_at
            || (nat_eq self.old.inner.room 0 && nat_lt 0 (length bytes.now))) }

        // A call takes the bytes that are handed on, until no room is left.
        ensures most { IfOk result (λ n. n ≡ min self.old.inner.room (bytes_handed_on self.old.most (length bytes.now))) }
        ensures room { IfOk result (λ n. self.new.inner.room + n ≡ self.old.inner.room) }
        ensures kept_room { OnErr result (self.new.inner.room ≡ self.old.inner.room) }
        ensures same_most { self.new.most ≡ self.old.most }
        ensures faults { self.new.inner.faults ≡ (if is_err result then one_more self.old.inner.faults else self.old.inner.faults) }
    {
        let count = (self.most.max(1) as usize).min(bytes.len());
        self.inner.write(&bytes[..count])
    }
}
