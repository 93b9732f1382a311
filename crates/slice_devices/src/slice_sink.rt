//! A sink that fills a buffer of the caller (its room) from the front.
ghost use Rattle.std.specs.Prelude.{◌≡◌, ◌<◌, ◌≤◌, IfOk, OnErr, drop, length, take};
ghost use Rattle.base_io.specs.Causes.{Rose};
ghost use Rattle.base_io.specs.Sinks.{appended};
ghost use Rattle.slice_devices.specs.Slices.{named_bytes};

use base_io::{Failed, Sink};

/// A room, the number of bytes written at its front, and the number of failed writes. A write takes bytes until no room is left. It fails only
/// if the room is full and the write brings bytes.
#[derive(Drop)]
pub struct SliceSink<'a> {
    pub room: &'a mut [u8],
    pub used: usize,
    pub faults: u64,
    pub ghost within: { used ≤ length room.now },
    pub ghost full: { 0 < faults → used ≡ length room.now },
}

impl<'a> SliceSink<'a> {
    /// A sink that has taken nothing.
    pub fn new(room: &'a mut [u8]) -> SliceSink<'a>
        ensures same_room { result.room.ghost_name ≡ room.entry.ghost_name }
        ensures same_bytes { result.room.now ≡ room.old }
        ensures used { result.used ≡ 0 }
        ensures faults { result.faults ≡ 0 }
    {
        SliceSink {
            room,
            used: 0,
            faults: 0,
        }
    }
}

impl Sink for SliceSink<'_> {
    ghost taken = { λ s. named_bytes s.room.ghost_name s.used s.room.now };

    ghost faults = { λ s. s.faults };

    /// Takes bytes from the front until no room is left.
    fn write(&mut self, bytes: &[u8]) -> Result<usize, Failed>
        ensures bound { IfOk result (λ n. n ≤ length bytes.now) }
        ensures progress { 0 < length bytes.now → IfOk result (λ n. 0 < n) }
        ensures took { IfOk result (λ n. named_bytes self.new.room.ghost_name self.new.used self.new.room.now
            ≡ appended (named_bytes self.old.room.ghost_name self.old.used self.old.room.now) (take n bytes.now)) }
        ensures nothing { OnErr result (named_bytes self.new.room.ghost_name self.new.used self.new.room.now
            ≡ named_bytes self.old.room.ghost_name self.old.used self.old.room.now) }
        ensures later { self.old.faults ≤ self.new.faults }
        ensures failed { OnErr result (Rose self.old.faults self.new.faults) }

        // Each byte after the bytes that were taken is as it was.
        ensures kept { drop self.new.used self.new.room.now ≡ drop self.new.used self.old.room.now }
    {
        let left = self.room.len() - self.used;
        if left == 0 && !bytes.is_empty() {
            self.faults = self.faults.saturating_add(1);
            return Err(Failed);
        }
        let count = left.min(bytes.len());
        let end = self.used + count;
        self.room[self.used..end].copy_from_slice(&bytes[..count]);
        self.used = end;
        Ok(count)
    }
}
