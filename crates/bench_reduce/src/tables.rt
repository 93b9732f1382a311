//! Makes the tables whose scans the benchmark reduces, as CSV files in memory.
ghost use Rattle.std.specs.Prelude.{◌≤◌};

use crate::failed::Failed;
use base_io::{MemStore, Name, NoMemory, Seq};
use std::alloc::Global;

pub(crate) const SCHEMA: &str =
    "CREATE TABLE A (X INT NOT NULL); CREATE TABLE B (X INT NOT NULL, Y INT NOT NULL); CREATE TABLE D (Y INT NOT NULL); CREATE TABLE P (X INT NOT NULL, Y INT NOT NULL); CREATE TABLE Q (X INT NOT NULL, Y INT NOT NULL);";

pub(crate) const CHAIN: &str = "SELECT A.X FROM A, B, D WHERE A.X = B.X AND B.Y = D.Y";

pub(crate) const CYCLE: &str = "SELECT P.X FROM P, Q WHERE P.Y = Q.X AND Q.Y = P.X";

fn push_number(file: &mut Vec<u8>, number: u32, end: u8) -> Result<(), NoMemory> {
    let mut digits = itoa::Buffer::new();
    file.extend_from_slice(digits.format(number).as_bytes())?;
    file.push(end)?;
    Ok(())
}

// A file of one column. Its row r, counted from 0, has the number r * `times`.
fn column(alloc: Global, header: &[u8], rows: u32, times: u32) -> Result<Vec<u8>, NoMemory>
    requires rows { rows ≤ 1000000 }
    requires times { times ≤ 100 }
{
    let mut file = Vec::from_slice(alloc, header)?;
    for row in 0..rows {
        push_number(&mut file, row * times, b'\n')?;
    }
    Ok(file)
}

// A file of two columns. Its row r, counted from 0, has r in X, and in Y the smaller of r + `more` and the number of the last row.
fn pairs(alloc: Global, rows: u32, more: u32) -> Result<Vec<u8>, NoMemory>
    requires rows { rows ≤ 1000000 }
    requires more { more ≤ 1 }
{
    let mut file = Vec::from_slice(alloc, b"X,Y\n")?;
    for row in 0..rows {
        push_number(&mut file, row, b',')?;
        push_number(&mut file, (row + more).min(rows - 1), b'\n')?;
    }
    Ok(file)
}

fn add(
    alloc: Global,
    files: &mut Seq<(Name, Seq<u8>)>,
    name: &str,
    file: Vec<u8>,
) -> Result<(), NoMemory> {
    files.push((Name::from_str(alloc, name)?, Seq::from_vec(file)))
}

/// The tables of the chain: A, B and D, each of `rows` rows. A and B have every number below `rows`, D the multiples of 100 from 0 on. In each table
/// the rows stay that have a multiple of 100, if this is below `rows`.
pub(crate) fn chain(alloc: Global, rows: u32) -> Result<MemStore, Failed>
    requires { rows ≤ 1000000 }
{
    let mut files = Seq::new(alloc);
    add(alloc, &mut files, "a.csv", column(alloc, b"X\n", rows, 1)?)?;
    add(alloc, &mut files, "b.csv", pairs(alloc, rows, 0)?)?;
    add(
        alloc,
        &mut files,
        "d.csv",
        column(alloc, b"Y\n", rows, 100)?,
    )?;
    Ok(MemStore::new(files, Seq::new(alloc)))
}

/// The tables of the cycle: P and Q, each of `rows` rows. Row 0 of P has no match and is removed. Then row 0 of Q has no match and is
/// removed, then row 1 of P, and so on. Only the last row of each table stays.
pub(crate) fn cycle(alloc: Global, rows: u32) -> Result<MemStore, Failed>
    requires { rows ≤ 1000000 }
{
    let mut files = Seq::new(alloc);
    add(alloc, &mut files, "p.csv", pairs(alloc, rows, 0)?)?;
    add(alloc, &mut files, "q.csv", pairs(alloc, rows, 1)?)?;
    Ok(MemStore::new(files, Seq::new(alloc)))
}
