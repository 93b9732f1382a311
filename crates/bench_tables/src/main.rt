//! Measures the proved code of csv_tables; bench/tables.rs measures plain Rust for the same work.
//!
//! Without an argument the program reads small files and writes nothing. With an argument, say `time`, it writes a line for each file. A line has the
//! kind of the file (numbers or texts), its number of rows, its number of different texts, a checksum of its cells, and the milliseconds of the
//! fastest `read_table`.
#![tactic(auto)]

ghost use Rattle.std.specs.Prelude.{◌≤◌, length};
ghost use Rattle.limits.specs.Profile.{most_file, most_text};
ghost use Rattle.schema_types.specs.Validity.{IsValidTable};

mod files;

use base_io::Seq;
use csv_tables::{Pool, TableError, read_table};
use files::{FileKind, file_of};
use limits::MOST_FILE;
use schema_types::{SchemaError, Table, read_schema};
use std::alloc::Global;
use std::rt::Clock;
use std::time::Instant;
use std::{env, io};

// What was read of a file, and the time of the fastest reading so far.
#[derive(Clone, Copy)]
struct Measure {
    rows: u32,
    texts: usize,
    sum: u64,
    nanos: u128,
}

fn invalid_data() -> io::Error {
    io::Error::from(io::ErrorKind::InvalidData)
}

fn table_error(_: TableError) -> io::Error {
    invalid_data()
}

fn schema_error(_: SchemaError) -> io::Error {
    invalid_data()
}

// A checksum of cells that continues the checksum of the cells before. It depends on the order of the cells.
fn sum_with(before: u64, cells: &[u64]) -> u64 {
    let mut sum = before;
    for cell in cells {
        sum = sum.wrapping_mul(31).wrapping_add(*cell);
    }
    sum
}

fn sum_of(columns: &[Seq<u64>]) -> u64 {
    let mut sum: u64 = 0;
    for column in columns {
        sum = sum_with(sum, column.as_slice());
    }
    sum
}

// One reading into a new pool.
fn read_once(rt: &impl Clock, alloc: Global, table: &Table, bytes: &[u8]) -> io::Result<Measure>
    requires valid { IsValidTable table.now }
    requires few { length bytes.now ≤ most_file }
{
    let mut pool = Pool::new(alloc);
    let start = Instant::now(rt)?;
    let cells = read_table(alloc, table, bytes, &mut pool).map_err(table_error)?;
    let nanos = start.elapsed(rt)?.as_nanos();
    Ok(Measure {
        rows: cells.rows,
        texts: pool.len(),
        sum: sum_of(cells.columns.as_slice()),
        nanos,
    })
}

// Reads a file `rounds` times, and gives the least time. A file of more than `MOST_FILE` bytes is refused.
fn read_often(
    rt: &impl Clock,
    alloc: Global,
    table: &Table,
    bytes: &[u8],
    rounds: u32,
) -> io::Result<Measure>
    requires valid { IsValidTable table.now }
{
    if bytes.len() > MOST_FILE as usize {
        return Err(invalid_data());
    }
    let mut least = read_once(rt, alloc, table, bytes)?;
    for _ in 1..rounds {
        let measure = read_once(rt, alloc, table, bytes)?;
        least.nanos = least.nanos.min(measure.nanos);
    }
    Ok(least)
}

// How long the files are, how often each is read, and whether times are written.
#[derive(Clone, Copy)]
struct Settings {
    is_timed: bool,
    bytes: usize,
    rounds: u32,
}

const UNTIMED: Settings = Settings {
    is_timed: false,
    bytes: 500,
    rounds: 1,
};

// A file ends with the first record that reaches `bytes`. A record has fewer than 256 bytes, so the file has at most `MOST_FILE` bytes.
const TIMED: Settings = Settings {
    is_timed: true,
    bytes: MOST_FILE as usize - 256,
    rounds: 5,
};

fn write_measure(rt: &HostRuntime, name: &str, measure: Measure) -> io::Result<()> {
    let millis = measure.nanos / 1_000_000;
    println!(rt;
        "{name} {} {} {} {millis}",
        measure.rows, measure.texts, measure.sum
    )
}

fn measure_file(
    rt: &HostRuntime,
    settings: Settings,
    kind: FileKind,
    schema: &[u8],
) -> io::Result<()>
    requires { length schema.now ≤ most_text }
{
    let alloc = rt.alloc();
    let schema = read_schema(alloc, schema).map_err(schema_error)?;
    let [table] = schema.tables.as_slice() else {
        return Err(invalid_data());
    };
    let file = file_of(alloc, kind, settings.bytes)?;
    let found = read_often(rt, alloc, table, file.as_bytes(), settings.rounds)?;
    if settings.is_timed {
        write_measure(rt, kind.name(), found)?;
    }
    Ok(())
}

fn main(rt: HostRuntime) -> io::Result<()> {
    let settings = if env::args(&rt)?.count() > 1 {
        TIMED
    } else {
        UNTIMED
    };
    measure_file(
        &rt,
        settings,
        FileKind::Numbers,
        b"CREATE TABLE R (A INT NOT NULL, B INT NOT NULL, C INT NOT NULL, D INT NOT NULL, E INT NOT NULL, F INT NOT NULL, G INT NOT NULL, H INT NOT NULL);",
    )?;
    measure_file(
        &rt,
        settings,
        FileKind::Texts,
        b"CREATE TABLE R (A VARCHAR(40) NOT NULL, B VARCHAR(40) NOT NULL, C VARCHAR(40) NOT NULL, D VARCHAR(40) NOT NULL);",
    )
}
