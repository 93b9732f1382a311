//! The call that C makes.
ghost use Rattle.std.specs.Prelude.{map};
ghost use Rattle.slice_devices.specs.Slices.{files_of};
ghost use Rattle.safebound_command.specs.Command.{CallEnds, written_room};

use crate::rooms::{refuse_over, run_over};
use crate::words::{WordsFault, texts_of_words};
use outcomes::NO_WORDS;
use slice_devices::SliceFile;
use std::alloc::Global;

/// Runs the program over these files. The buffers `out` and `notes` are its two streams. The result is the exit status.
#[unsafe(no_mangle)]
pub extern "C" fn safebound_command(
    alloc: Global,
    words: &[&[u8]],
    files: &[SliceFile],
    out: &mut [u8],
    notes: &mut [u8],
    out_length: &mut u64,
    notes_length: &mut u64,
) -> u32
    ensures { CallEnds (map (λ w. w.now) words.now) (files_of files.now) (written_room out.new out_length.new)
        (written_room notes.new notes_length.new) result }
{
    *out_length = 0;
    *notes_length = 0;
    let ended = match texts_of_words(words) {
        Ok(texts) => run_over(alloc, texts.as_slice(), files, out, notes),
        Err(WordsFault::TooMany) => refuse_over(words, files, out, notes),
        Err(WordsFault::NotUtf8) => return NO_WORDS as u32,
    };
    *out_length = ended.out;
    *notes_length = ended.notes;
    ended.status.code() as u32
}
