//! Runs the program over files, and writes its texts into rooms.
ghost use Rattle.std.specs.Prelude.{◌<◌, length, map};
ghost use Rattle.outcomes.specs.Statuses.{code_of};
ghost use Rattle.slice_devices.specs.Slices.{files_of};
ghost use Rattle.safebound_command.specs.Command.{ProgramRan, written_room};

use crate::run::{refuse, run};
use safebound_top::Status;
use safebound_words::MOST_WORDS;
use slice_devices::{SliceFile, SliceSink, SliceStore};
use std::alloc::Global;

/// How a run ended: its status, how many bytes it wrote into each room, and how often it asked for a file that the caller didn't lend.
#[derive(Clone, Copy, Debug)]
pub(crate) struct RunResult {
    pub status: Status,
    pub out: u64,
    pub notes: u64,
    pub misses: u64,
}

/// Runs the program over these files.
pub(crate) fn run_over(
    alloc: Global,
    words: &[&str],
    files: &[SliceFile<'_>],
    out: &mut [u8],
    notes: &mut [u8],
) -> RunResult
    ensures { ProgramRan (map (λ w. w.now) words.now) (files_of files.now) (written_room out.new result.out) (written_room notes.new result.notes)
        result.misses (code_of result.status) }
{
    let mut store = SliceStore::new(files);
    let mut out = SliceSink::new(out);
    let mut notes = SliceSink::new(notes);
    let mut kept = None;
    let status = run(alloc, words, &mut store, &mut out, &mut notes, &mut kept);
    RunResult {
        status,
        out: out.used as u64,
        notes: notes.used as u64,
        misses: store.misses,
    }
}

/// Refuses a command line that has too many words. No file is read, and only the room for notes is written.
pub(crate) fn refuse_over(
    words: &[&[u8]],
    files: &[SliceFile<'_>],
    _out: &[u8],
    notes: &mut [u8],
) -> RunResult
    requires { MOST_WORDS < length words.now }
    ensures { ProgramRan (map (λ w. w.now) words.now) (files_of files.now) (written_room _out.now result.out) (written_room notes.new result.notes)
        result.misses (code_of result.status) }
{
    let mut notes = SliceSink::new(notes);
    let status = refuse(words, files, &mut notes);
    RunResult {
        status,
        out: 0,
        notes: notes.used as u64,
        misses: 0,
    }
}
