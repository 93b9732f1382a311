ghost use Rattle.std.specs.Prelude.{◌≡◌, ◌<◌, ◌≤◌, ◌+◌, ◌-◌, ◌||◌, ◌&&◌, nat_eq, nat_lt, [], min, if◌then◌else◌, is_err, IfOk, OnErr, length, take, Some};
ghost use Rattle.base_io.specs.Causes.{Rose, one_more};
ghost use Rattle.base_io.specs.FailingCalls.{is_failing_call};
ghost use Rattle.base_io.specs.Sinks.{appended};

use crate::{Failed, NoMemory, Seq, Sink};
use std::alloc::Global;
use std::marker::Model;

/// A sink in memory that has room for a limited number of bytes.
///
/// Calls are counted from 1, and a call fails if its number is in `fail_at`. A call that brings bytes also fails if no room is left. The counts of
/// calls and faults begin at 0 and do not rise above the greatest value of their type. No write allocates memory.
#[derive(Drop)]
pub struct MemSink {
    taken: Vec<u8>,
    room: u64,
    fail_at: Seq<u64>,
    calls: u64,
    faults: u64,
}

impl Model for MemSink {
    ghost use Rattle.std.specs.Prelude.{◌≤◌, ◌+◌, vec_len, vec_capacity};
    ghost use Rattle.base_io.specs.MemSink.{Contents};

    ghost Value = { Contents };

    ghost view = { λ s. record { taken = s.taken.items; room = s.room; fail_at = s.fail_at; calls = s.calls; faults = s.faults } };

    ghost invariant = { λ s. vec_len s.taken + s.room ≤ vec_capacity s.taken };
}

impl MemSink {
    /// An empty sink that has the memory for `room` bytes.
    pub fn new(alloc: Global, room: u64, fail_at: Seq<u64>) -> Result<MemSink, NoMemory>
        ensures taken { IfOk result (λ s. s.taken ≡ []) }
        ensures room { IfOk result (λ s. s.room ≡ room) }
        ensures fail_at { IfOk result (λ s. s.fail_at ≡ fail_at) }
        ensures calls { IfOk result (λ s. s.calls ≡ 0) }
        ensures faults { IfOk result (λ s. s.faults ≡ 0) }
    {
        let taken = Vec::with_capacity(alloc, room as usize)?;
        Ok(MemSink {
            taken,
            room,
            fail_at,
            calls: 0,
            faults: 0,
        })
    }

    /// The bytes taken so far.
    pub fn written(&self) -> &[u8]
        ensures { result.now ≡ self.now.taken }
    {
        self.taken.as_slice()
    }
}

impl Sink for MemSink {
    ghost taken = { λ s. Some s.taken };

    ghost faults = { λ s. s.faults };

    /// Takes bytes from the front until no room is left.
    fn write(&mut self, bytes: &[u8]) -> Result<usize, Failed>
        ensures bound { IfOk result (λ n. n ≤ length bytes.now) }
        ensures progress { 0 < length bytes.now → IfOk result (λ n. 0 < n) }
        ensures took { IfOk result (λ n. Some self.new.taken ≡ appended (Some self.old.taken) (take n bytes.now)) }
        ensures nothing { OnErr result (Some self.new.taken ≡ Some self.old.taken) }
        ensures later { self.old.faults ≤ self.new.faults }
        ensures failed { OnErr result (Rose self.old.faults self.new.faults) }

        // A call fails exactly if its number is in `fail_at`, or if it brings bytes and no room is left. Each failure is counted.
        ensures calls { self.new.calls ≡ one_more self.old.calls }
        ensures fail_at { self.new.fail_at ≡ self.old.fail_at }
        ensures fails { is_err result ≡ (is_failing_call self.new.calls self.old.fail_at
            || (nat_eq self.old.room 0 && nat_lt 0 (length bytes.now))) }
        ensures most { IfOk result (λ n. n ≡ min self.old.room (length bytes.now)) }
        ensures room { IfOk result (λ n. self.new.room + n ≡ self.old.room) }
        ensures kept_room { OnErr result (self.new.room ≡ self.old.room) }
        ensures faults { self.new.faults ≡ (if is_err result then one_more self.old.faults else self.old.faults) }
    {
        self.calls = self.calls.saturating_add(1);
        let fails = self.fail_at.as_slice().contains(&self.calls);
        if fails || (self.room == 0 && !bytes.is_empty()) {
            self.faults = self.faults.saturating_add(1);
            return Err(Failed);
        }
        let count = (self.room as usize).min(bytes.len());
        self.taken.extend_from_slice(&bytes[..count]).unwrap();
        self.room -= count as u64;
        Ok(count)
    }
}
