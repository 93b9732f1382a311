//! Tests of stores and sinks in memory, and of slow stores and sinks, which transfer only a few bytes in each call.
use base_io::{
    Failed, MemSink, MemStore, Name, NullSink, ReadError, Seq, Sink, Store, StoreError, read_file,
    write_all,
};
use slow_devices::{SlowSink, SlowStore};
use std::alloc::Global;
use std::test::Fail;

// A store of one file. The calls are counted from 1, and call number `failing` fails. If `failing` is 0, no call fails.
fn store_of(alloc: Global, failing: u64) -> Result<MemStore, Fail> {
    let bytes = Vec::from_slice(alloc, b"X\r\n")?;
    let mut files = Seq::new(alloc);
    files.push((Name::from_str(alloc, "r.csv")?, Seq::from_vec(bytes)))?;
    Ok(MemStore::new(files, Seq::one(alloc, failing)?))
}

#[test]
fn a_missing_file_is_counted(rt: HostRuntime) -> Result<(), Fail> {
    let mut store = store_of(rt.alloc(), 2)?;
    let missing = read_file(Seq::new(rt.alloc()), &mut store, "s.csv", 100);
    assert!(rt; matches!(missing, Err(ReadError::Missing)));
    assert_eq!(rt; (store.calls, store.faults, store.misses), (1, 0, 1));
    let mut block = [0_u8; 4];
    assert_eq!(rt;
        store.read_at("r.csv", 0, &mut block),
        Err(StoreError::Failed)
    );
    assert_eq!(rt; (store.calls, store.faults, store.misses), (2, 1, 1));
    assert_eq!(rt; store.read_at("r.csv", 1, &mut block), Ok(2));
    assert_eq!(rt; block, [13, 10, 0, 0]);
    Ok(())
}

// Reads the whole file, at most `most` bytes in each call. Returns its length and the number of calls.
fn read_slowly(alloc: Global, most: u32) -> Result<(usize, u64), Fail> {
    let inner = store_of(alloc, 0)?;
    let mut store = SlowStore { inner, most };
    let read = read_file(Seq::new(alloc), &mut store, "r.csv", 100)?;
    Ok((read.len(), store.inner.calls))
}

// A limit of 0 bytes counts as a limit of 1.
#[test]
fn files_are_read_byte_by_byte(rt: HostRuntime) -> Result<(), Fail> {
    for most in [1, 0] {
        assert_eq!(rt; read_slowly(rt.alloc(), most)?, (3, 4));
    }
    Ok(())
}

// Writes ten bytes to a sink with this room, at most `most` bytes in each call. Call number `failing` fails. Returns whether all bytes were written,
// and how many bytes the sink took.
fn write_ten_bytes(
    alloc: Global,
    room: u64,
    failing: u64,
    most: u32,
) -> Result<(bool, usize), Fail> {
    let inner = MemSink::new(alloc, room, Seq::one(alloc, failing)?)?;
    let mut sink = SlowSink { inner, most };
    let all = write_all(&mut sink, b"X\r\n1\r\n1\r\n2").is_ok();
    Ok((all, sink.inner.written().len()))
}

#[test]
fn a_sink_takes_what_fits(rt: HostRuntime) -> Result<(), Fail> {
    for (room, failing, most, answer) in [
        (5, 0, 100, (false, 5)),
        (100, 2, 3, (false, 3)),
        (100, 0, 1, (true, 10)),
    ] {
        assert_eq!(rt; write_ten_bytes(rt.alloc(), room, failing, most)?, answer);
    }
    Ok(())
}

#[test]
fn parts_are_written_in_order(rt: HostRuntime) -> Result<(), Fail> {
    let mut sink = MemSink::new(rt.alloc(), 100, Seq::one(rt.alloc(), 2)?)?;
    let (scan, rows): (&[u8], &[u8]) = (b"scan ", b"R 6\n");
    assert_eq!(rt; sink.write(scan), Ok(5));
    assert_eq!(rt; sink.write(rows), Err(Failed));
    for part in [rows, scan] {
        assert_eq!(rt; write_all(&mut sink, part), Ok(()));
    }
    assert_eq!(rt; sink.written(), b"scan R 6\nscan ".as_slice());
    assert_eq!(rt; write_all(&mut NullSink, scan), Ok(()));
    Ok(())
}
