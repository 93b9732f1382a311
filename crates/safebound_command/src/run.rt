//! The top call over files and buffers that the caller lends.
ghost use Rattle.std.specs.Prelude.{◌≡◌, ◌<◌, [], None, length, map, take};
ghost use Rattle.safebound_top.specs.Headline.{Headline};
ghost use Rattle.prepared_runs.specs.KeptBuffers.{KeepsItsBuffers};
ghost use Rattle.prepared_runs.specs.Shops.{demo_number_of, store_read};
ghost use Rattle.prepared_runs.specs.Verdict.{verdict};
ghost use Rattle.slice_devices.specs.Slices.{files_of};
ghost use Rattle.safebound_command.specs.Command.{store_of_files, stream};

use safebound_top::{Joined, Status, refuse_words, safebound};
use safebound_words::MOST_WORDS;
use slice_devices::{SliceFile, SliceSink, SliceStore};
use std::alloc::Global;

/// Runs the program. Afterwards both streams still have their rooms, which hold what was written. `kept` gets the buffers of the joins.
pub(crate) fn run(
    alloc: Global,
    words: &[&str],
    store: &mut SliceStore<'_, '_>,
    out: &mut SliceSink<'_>,
    notes: &mut SliceSink<'_>,
    kept: &mut Option<Joined>,
) -> Status
    requires out { (out.old.used ≡ 0) × (out.old.faults ≡ 0) }
    requires notes { (notes.old.used ≡ 0) × (notes.old.faults ≡ 0) }
    requires none { kept.old ≡ None }
    ensures same_out { out.new.room.ghost_name ≡ out.old.room.ghost_name }
    ensures same_notes { notes.new.room.ghost_name ≡ notes.old.room.ghost_name }
    ensures headline { Headline (record {
      words = map (λ w. w.now) words.now;
      status = result;
      store = store_read (demo_number_of (map (λ w. w.now) words.now)) (store_of_files (files_of store.old.files.now) (files_of store.new.files.now) store.old.misses store.new.misses);
      out = stream (take out.new.used out.new.room.now) out.new.faults;
      notes = stream (take notes.new.used notes.new.room.now) notes.new.faults;
    }) }
    ensures buffers { result ≡ Status.Done → KeepsItsBuffers
        (store_read (demo_number_of (map (λ w. w.now) words.now)) (store_of_files (files_of store.old.files.now) (files_of store.new.files.now) store.old.misses store.new.misses))
        (verdict (map (λ w. w.now) words.now)) kept.new }
{
    safebound(alloc, words, store, out, notes, kept)
}

/// Refuses a command line that has too many words. Afterwards the stream still has its room, which holds what was written.
pub(crate) fn refuse(
    _words: &[&[u8]],
    _files: &[SliceFile<'_>],
    notes: &mut SliceSink<'_>,
) -> Status
    requires many { MOST_WORDS < length _words.now }
    requires notes { (notes.old.used ≡ 0) × (notes.old.faults ≡ 0) }
    ensures same_notes { notes.new.room.ghost_name ≡ notes.old.room.ghost_name }
    ensures headline { Headline (record {
      words = map (λ w. w.now) _words.now;
      status = result;
      store = store_read (demo_number_of (map (λ w. w.now) _words.now)) (store_of_files (files_of _files.now) (files_of _files.now) 0 0);
      out = stream [] 0;
      notes = stream (take notes.new.used notes.new.room.now) notes.new.faults;
    }) }
{
    refuse_words(notes)
}
