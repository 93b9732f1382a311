//! Runs a join of two tables while one call of a device fails.
use base_io::{MemSink, MemStore, Name, NoMemory, Seq, Sink, Store};
use safebound_top::safebound;
use slow_devices::{SlowSink, SlowStore};
use std::alloc::Global;
use std::test::Fail;

const FILES: [(&str, &str); 4] = [
    (
        "schema.sql",
        "CREATE TABLE R (X INTEGER NOT NULL); CREATE TABLE S (X INTEGER NOT NULL);",
    ),
    ("query.sql", "SELECT R.X FROM R, S WHERE R.X = S.X"),
    ("r.csv", "X\r\n1\r\n1\r\n1\r\n2\r\n2\r\n3\r\n"),
    ("s.csv", "X\r\n1\r\n1\r\n4\r\n5\r\n6\r\n"),
];

const PLAN: &[u8] = b"scan R 6\nscan S 5\nlevel 1 S 5\nlevel 2 R 12\n";

const ROWS: &[u8] = b"X\r\n1\r\n1\r\n1\r\n1\r\n1\r\n1\r\n";

const NOTES_IF_OUT_FAILS: &[u8] =
    b"scan R 6\nscan S 5\nlevel 1 S 5\nlevel 2 R 12\nerror write out\n";

const LINE_IF_NOTES_FAIL: &[u8] = b"error write notes\n";

// The answers of the runs in which the store's first call fails, then its second, and so on. Each answer is the exit code, the notes, a bar, and what
// `out` took.
const ANSWERS_IF_STORE_FAILS: &[u8] =
    b"\x03error read schema.sql\n|\x03error read query.sql\n|\x03error read r.csv\n|\x03error read s.csv\n|\x00scan R 6\nscan S 5\nlevel 1 S 5\nlevel 2 R 12\n|X\r\n1\r\n1\r\n1\r\n1\r\n1\r\n1\r\n";

// Which call of each device fails, counted from 1. With 0 no call fails.
#[derive(Clone, Copy)]
struct Failing {
    store: u64,
    out: u64,
    notes: u64,
}

const NO_CALL_FAILS: Failing = Failing {
    store: 0,
    out: 0,
    notes: 0,
};

// What a run answered and wrote, and how often it called the store.
#[derive(Debug, Drop)]
struct RunResult {
    code: u8,
    calls: u64,
    notes: Vec<u8>,
    out: Vec<u8>,
}

fn files(alloc: Global) -> Result<Seq<(Name, Seq<u8>)>, NoMemory> {
    let mut files = Seq::new(alloc);
    for (name, text) in FILES {
        let bytes = Vec::from_slice(alloc, text.as_bytes())?;
        files.push((Name::from_str(alloc, name)?, Seq::from_vec(bytes)))?;
    }
    Ok(files)
}

fn store(alloc: Global, failing: Failing) -> Result<MemStore, NoMemory> {
    Ok(MemStore::new(files(alloc)?, Seq::one(alloc, failing.store)?))
}

fn sink(alloc: Global, failing: u64) -> Result<MemSink, NoMemory> {
    MemSink::new(alloc, 1000, Seq::one(alloc, failing)?)
}

// The exit status of a run over these devices.
fn run_code<S: Store, O: Sink, N: Sink>(
    alloc: Global,
    store: &mut S,
    out: &mut O,
    notes: &mut N,
) -> u8 {
    let words = ["run", "schema.sql", "query.sql"];
    let mut kept = None;
    safebound(alloc, &words, store, out, notes, &mut kept).code()
}

fn what_was_written(
    alloc: Global,
    code: u8,
    calls: u64,
    out: &MemSink,
    notes: &MemSink,
) -> Result<RunResult, NoMemory> {
    Ok(RunResult {
        code,
        calls,
        notes: Vec::from_slice(alloc, notes.written())?,
        out: Vec::from_slice(alloc, out.written())?,
    })
}

fn run_whole(alloc: Global, failing: Failing) -> Result<RunResult, NoMemory> {
    let mut store = store(alloc, failing)?;
    let mut out = sink(alloc, failing.out)?;
    let mut notes = sink(alloc, failing.notes)?;
    let code = run_code(alloc, &mut store, &mut out, &mut notes);
    what_was_written(alloc, code, store.calls, &out, &notes)
}

// A run over devices that transfer one byte a call.
fn run_slowly(alloc: Global, failing: Failing) -> Result<RunResult, NoMemory> {
    let mut store = SlowStore::new(store(alloc, failing)?, 1);
    let mut out = SlowSink::new(sink(alloc, failing.out)?, 1);
    let mut notes = SlowSink::new(sink(alloc, failing.notes)?, 1);
    let code = run_code(alloc, &mut store, &mut out, &mut notes);
    what_was_written(alloc, code, store.inner.calls, &out.inner, &notes.inner)
}

fn run(alloc: Global, slowly: bool, failing: Failing) -> Result<RunResult, NoMemory> {
    if slowly {
        run_slowly(alloc, failing)
    } else {
        run_whole(alloc, failing)
    }
}

fn answer(alloc: Global, ran: &RunResult) -> Result<Vec<u8>, NoMemory> {
    let mut answer = Vec::new(alloc);
    answer.push(ran.code)?;
    answer.extend_from_slice(ran.notes.as_slice())?;
    answer.push(b'|')?;
    answer.extend_from_slice(ran.out.as_slice())?;
    Ok(answer)
}

// The answers while the store fails at its first call, then at its second, and so on, until a run is done. If equal answers follow each other,
// only the first is kept.
fn read_answers(alloc: Global, slowly: bool) -> Result<Vec<u8>, NoMemory> {
    let mut answers = Vec::new(alloc);
    let mut last_answer = Vec::new(alloc);
    for k in 1u64..1000 {
        let ran = run(
            alloc,
            slowly,
            Failing {
                store: k,
                ..NO_CALL_FAILS
            },
        )?;
        let answer = answer(alloc, &ran)?;
        if answer.as_slice() != last_answer.as_slice() {
            answers.extend_from_slice(answer.as_slice())?;
            last_answer = answer;
        }
        if ran.code == 0 {
            break;
        }
    }
    Ok(answers)
}

// Each file takes one call for each transfer, and one more that finds its end. The four files have 148 bytes.
#[test]
fn each_file_is_read_once(rt: HostRuntime) -> Result<(), Fail> {
    for (slowly, calls) in [(false, 8), (true, 152)] {
        let ran = run(rt.alloc(), slowly, NO_CALL_FAILS)?;
        assert_eq!(rt; ran.calls, calls, "slowly: {slowly}");
    }
    Ok(())
}

#[test]
fn each_failing_read_names_its_file(rt: HostRuntime) -> Result<(), Fail> {
    for slowly in [false, true] {
        let told = read_answers(rt.alloc(), slowly)?;
        assert_eq!(rt; told.as_slice(), ANSWERS_IF_STORE_FAILS, "slowly: {slowly}");
    }
    Ok(())
}

fn is_done(ran: &RunResult) -> bool {
    ran.code == 0 && ran.notes.as_slice() == PLAN && ran.out.as_slice() == ROWS
}

// The rows end where the k-th call failed: after k - 1 bytes, if each call takes one byte.
fn rows_end_at_failed_call(ran: &RunResult, slowly: bool, k: u64) -> bool {
    let ends_there = !slowly || (ran.out.len() as u64).saturating_add(1) == k;
    ran.code == 10
        && ran.notes.as_slice() == NOTES_IF_OUT_FAILS
        && ROWS.starts_with(ran.out.as_slice())
        && ends_there
}

// The notes have the plan up to the k-th call, and then the line on the failure. No row is written.
fn plan_ends_at_failed_call(ran: &RunResult, slowly: bool, k: u64) -> bool {
    match ran.notes.as_slice().strip_suffix(LINE_IF_NOTES_FAIL) {
        Some(front) => {
            let ends_there = !slowly || (front.len() as u64).saturating_add(1) == k;
            ran.code == 10 && ran.out.is_empty() && PLAN.starts_with(front) && ends_there
        }
        None => false,
    }
}

// Makes the first call of `out` fail, then the second, and so on, until a run is done. Returns whether there was a run before the
// done one, and each such run was cut.
fn rows_are_cut(alloc: Global, slowly: bool) -> Result<bool, NoMemory> {
    for k in 1u64..1000 {
        let ran = run(
            alloc,
            slowly,
            Failing {
                out: k,
                ..NO_CALL_FAILS
            },
        )?;
        if is_done(&ran) {
            return Ok(k > 1);
        }
        if !rows_end_at_failed_call(&ran, slowly, k) {
            break;
        }
    }
    Ok(false)
}

// As `rows_are_cut`, for calls of `notes`: a run in which such a call fails has written the beginning of the plan.
fn plans_are_cut(alloc: Global, slowly: bool) -> Result<bool, NoMemory> {
    for k in 1u64..1000 {
        let ran = run(
            alloc,
            slowly,
            Failing {
                notes: k,
                ..NO_CALL_FAILS
            },
        )?;
        if is_done(&ran) {
            return Ok(k > 1);
        }
        if !plan_ends_at_failed_call(&ran, slowly, k) {
            break;
        }
    }
    Ok(false)
}

#[test]
fn each_failing_write_leaves_a_front(rt: HostRuntime) -> Result<(), Fail> {
    for slowly in [false, true] {
        assert!(rt; rows_are_cut(rt.alloc(), slowly)?, "slowly: {slowly}");
        assert!(rt; plans_are_cut(rt.alloc(), slowly)?, "slowly: {slowly}");
    }
    Ok(())
}
