//! Runs over devices in memory, while tools/memory refuses their requests for memory one after another.
//!
//! An argument names a run; without an argument all runs are made. A run that ends with the expected bytes prints `done`, and its status is 0. If the
//! call answers that memory ran out, in one line and without a row, the status is 11. If memory ran out while the run's files and devices were made,
//! the status is 12. Neither of these two prints anything. For any other answer the run prints `another answer` with the status 0, which tools/memory
//! takes for a failure.
#![tactic(auto)]

mod runs;

use base_io::{MemSink, MemStore, Name, NoMemory, Seq};
use runs::{RUNS, Run, Text, equals_text, text_of};
use safebound_top::safebound;
use std::alloc::Global;
use std::process::ExitCode;
use std::{env, io};

const MEMORY_RAN_OUT: u8 = 11;

const DEVICES_NOT_MADE: u8 = 12;

// How a run went.
#[derive(Clone, Copy)]
enum Outcome {
    Done,
    RanOutOfMemory,
    DevicesNotMade,
    Other,
}

impl Outcome {
    fn status(self) -> u8 {
        match self {
            Outcome::Done | Outcome::Other => 0,
            Outcome::RanOutOfMemory => MEMORY_RAN_OUT,
            Outcome::DevicesNotMade => DEVICES_NOT_MADE,
        }
    }
}

fn file_of(alloc: Global, name: &str, text: Text) -> Result<(Name, Seq<u8>), NoMemory> {
    let bytes = text_of(alloc, text)?;
    Ok((Name::from_str(alloc, name)?, Seq::from_vec(bytes)))
}

fn store_of(alloc: Global, run: &Run) -> Result<MemStore, NoMemory> {
    let mut files = Seq::new(alloc);
    for (name, text) in run.files {
        files.push(file_of(alloc, name, *text)?)?;
    }
    Ok(MemStore::new(files, Seq::new(alloc)))
}

fn sink(alloc: Global) -> Result<MemSink, NoMemory> {
    MemSink::new(alloc, 50_000, Seq::new(alloc))
}

// Makes the call and nothing else, so that only one short function has to deal with the call's long contract.
fn code_of(
    alloc: Global,
    words: &[&str],
    store: &mut MemStore,
    out: &mut MemSink,
    notes: &mut MemSink,
) -> u8 {
    let mut kept = None;
    let status = safebound(alloc, words, store, out, notes, &mut kept);
    status.code()
}

fn outcome_of(run: &Run, code: u8, notes: &[u8], out: &[u8]) -> Outcome {
    if code == 0 && notes == run.notes && equals_text(out, run.out) {
        Outcome::Done
    } else if code == MEMORY_RAN_OUT && notes == b"error memory\n".as_slice() && out.is_empty() {
        Outcome::RanOutOfMemory
    } else {
        Outcome::Other
    }
}

fn attempt(alloc: Global, run: &Run) -> Result<Outcome, NoMemory> {
    let mut store = store_of(alloc, run)?;
    let mut out = sink(alloc)?;
    let mut notes = sink(alloc)?;
    let code = code_of(alloc, run.command_line, &mut store, &mut out, &mut notes);
    Ok(outcome_of(run, code, notes.written(), out.written()))
}

fn print_outcome(rt: &HostRuntime, name: &str, outcome: Outcome) -> io::Result<()> {
    let text = match outcome {
        Outcome::Done => "done",
        Outcome::Other => "another answer",
        Outcome::RanOutOfMemory | Outcome::DevicesNotMade => return Ok(()),
    };
    println!(rt; "{name}: {text}")
}

fn status_of(rt: &HostRuntime, run: &Run) -> io::Result<u8> {
    let outcome = attempt(rt.alloc(), run).unwrap_or(Outcome::DevicesNotMade);
    print_outcome(rt, run.name, outcome)?;
    Ok(outcome.status())
}

// The first argument.
fn first_argument(rt: &HostRuntime) -> io::Result<Option<String>> {
    for (i, word) in env::args(rt)?.enumerate() {
        if i == 1 {
            return Ok(Some(word));
        }
    }
    Ok(None)
}

fn is_asked(word: &Option<String>, name: &str) -> bool {
    match word {
        Some(word) => word.as_str() == name,
        None => true,
    }
}

// Makes the runs that are asked for, up to the first run whose status isn't 0. Returns the status of the last run.
fn status_of_all(rt: &HostRuntime, runs: &[Run], word: &Option<String>) -> io::Result<u8> {
    for run in runs {
        if is_asked(word, run.name) {
            let status = status_of(rt, run)?;
            if status != 0 {
                return Ok(status);
            }
        }
    }
    Ok(0)
}

fn main(rt: HostRuntime) -> ExitCode {
    let Ok(word) = first_argument(&rt) else {
        return ExitCode::from(DEVICES_NOT_MADE);
    };
    ExitCode::from(status_of_all(&rt, &RUNS, &word).unwrap_or(1))
}
