//! The program: the top call over real files and the standard streams.
#![tactic(auto)]

mod folder_store;
mod stream_sink;

use folder_store::FolderStore;
use safebound_top::{NO_MEMORY, NO_WORDS, safebound};
use std::alloc::{AllocError, Global};
use std::process::ExitCode;
use std::{env, io};
use stream_sink::StreamSink;

// The command line's words, without the program's name.
fn command_line_words(rt: &HostRuntime) -> io::Result<Vec<String>> {
    let mut all = Vec::new(rt.alloc());
    for (i, word) in env::args(rt)?.enumerate() {
        if i > 0 {
            all.push(word)?;
        }
    }
    Ok(all)
}

fn as_str_slices<'a>(alloc: Global, words: &'a [String]) -> Result<Vec<&'a str>, AllocError> {
    let mut all = Vec::new(alloc);
    for word in words {
        all.push(word.as_str())?;
    }
    Ok(all)
}

fn main(rt: HostRuntime) -> ExitCode {
    let words = match command_line_words(&rt) {
        Ok(words) => words,
        Err(error) if error.kind() == io::ErrorKind::OutOfMemory => {
            return ExitCode::from(NO_MEMORY);
        }
        Err(_) => return ExitCode::from(NO_WORDS),
    };
    let Ok(words) = as_str_slices(rt.alloc(), words.as_slice()) else {
        return ExitCode::from(NO_MEMORY);
    };
    let mut store = FolderStore::new(&rt);
    let mut out = StreamSink::new(rt.stdout());
    let mut notes = StreamSink::new(rt.stderr());
    let mut kept = None;
    let status = safebound(
        rt.alloc(),
        words.as_slice(),
        &mut store,
        &mut out,
        &mut notes,
        &mut kept,
    );
    ExitCode::from(status.code())
}
