ghost use Rattle.std.specs.Prelude.{◌≡◌, ◌<◌, ◌≤◌, ◌-◌, min, if◌then◌else◌, length, drop, IfOk, List, Some, ℕ, IsErrOf};
ghost use Rattle.limits.specs.Profile.{most_file};
ghost use Rattle.base_io.specs.Causes.{Rose, one_more};
ghost use Rattle.base_io.specs.Files.{file_of, ReadsAt, answer_about};
ghost use Rattle.base_io.specs.FailingCalls.{has_failed, is_failing_call};
ghost use Rattle.slow_devices.specs.Cuts.{bytes_handed_on};

use base_io::{MemStore, Store, StoreError};

/// A store of files in memory that gives at most `most` bytes in each call. If `most` is 0, it counts as 1. Files, counts and failures are those of
/// the inner store.
#[derive(Drop)]
pub struct SlowStore {
    pub inner: MemStore,
    pub most: u32,
}

impl SlowStore {
    /// A store that gives at most `most` of the inner store's bytes in each call.
    pub fn new(inner: MemStore, most: u32) -> SlowStore
        requires { 0 < most }
        ensures inner { result.inner ≡ inner }
        ensures most { result.most ≡ most }
    {
        SlowStore { inner, most }
    }
}

impl Store for SlowStore {
    ghost files = { λ s. Some s.inner.files };

    ghost faults = { λ s. s.inner.faults };

    ghost misses = { λ s. s.inner.misses };

    /// Lets the inner store read at most `most` bytes into the front of the buffer.
    fn read_at(&mut self, name: &str, at: u64, into: &mut [u8]) -> Result<usize, StoreError>
        requires place { at ≤ most_file }
        requires room { 0 < length into.old }
        ensures read { ReadsAt (answer_about (Some self.old.inner.files) name.now) at result into.new }
        ensures files { Some self.new.inner.files ≡ Some self.old.inner.files }
        ensures later { self.old.inner.faults ≤ self.new.inner.faults }
        ensures later_misses { self.old.inner.misses ≤ self.new.inner.misses }
        ensures failed { IsErrOf result StoreError.Failed → Rose self.old.inner.faults self.new.inner.faults }
        ensures missing { IsErrOf result StoreError.Missing
            → (self.new.inner.faults ≡ self.old.inner.faults) × (self.new.inner.misses ≡ one_more self.old.inner.misses) }
        ensures misses { (IsErrOf result StoreError.Missing → ⊥) → self.new.inner.misses ≡ self.old.inner.misses }

        // A read gives bytes until the file ends, the buffer is full or `most` bytes are read. Bytes of the buffer past the first `most` stay as they
        // were.
        ensures most { IfOk result (λ n. (bytes : List ℕ) → file_of self.old.inner.files name.now ≡ Some bytes
            → n ≡ min (length bytes - at) (bytes_handed_on self.old.most (length into.new))) }
        ensures behind { drop (bytes_handed_on self.old.most (length into.old)) into.new
            ≡ drop (bytes_handed_on self.old.most (length into.old)) into.old }
        ensures same_most { self.new.most ≡ self.old.most }

        // A call fails exactly if its number is in the inner store's `fail_at`.
        ensures calls { self.new.inner.calls ≡ one_more self.old.inner.calls }
        ensures fail_at { self.new.inner.fail_at ≡ self.old.inner.fail_at }
        ensures fails { has_failed result ≡ is_failing_call self.new.inner.calls self.old.inner.fail_at }
        ensures faults { self.new.inner.faults
            ≡ (if is_failing_call self.new.inner.calls self.old.inner.fail_at then one_more self.old.inner.faults else self.old.inner.faults) }
    {
        let count = (self.most.max(1) as usize).min(into.len());
        self.inner.read_at(name, at, &mut into[..count])
    }
}
