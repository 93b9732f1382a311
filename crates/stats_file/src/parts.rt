//! Writes the lines of a file of statistics, each from its parts, without allocating.
ghost use Rattle.std.specs.Prelude.{◌≡◌, ◌<◌, ◌++◌, codes, decimal};
ghost use Rattle.std.specs.Fmt.{signed_decimal};
ghost use Rattle.std.specs.List.{flat_map};
ghost use Rattle.stats_file.specs.Lines.{datum_text, hex_byte, hex_digit as digit_of, hex_text, run_text, runs_text};
ghost use Rattle.stats_file.specs.Parts.{part_text};
ghost use Rattle.base_io.specs.Devices.{growth};
ghost use Rattle.base_io.specs.Writes.{WroteBuffered};

use crate::Datum;
use base_io::{Buffer, Failed, Sink};
use piece_math::Piece;

const X: &[u8] = b"x";

const STAR: &[u8] = b"*";

const SPACE: &[u8] = b" ";

const DASH: &[u8] = b"-";

/// A part of a line: fixed bytes, a name in hexadecimal, a number, a value of a column, or the runs of a list.
#[derive(Clone, Copy)]
pub enum Part<'a> {
    Plain(&'a [u8]),
    Hex(&'a str),
    Number(u32),
    Value(&'a Datum),
    Runs(&'a [Piece]),
}

fn hex_digit(n: u8) -> u8
    requires { n < 16 }
    ensures { result ≡ digit_of n }
{
    if n < 10 { b'0' + n } else { b'a' - 10 + n }
}

fn put_hex_byte<N: Sink>(byte: u8, buffer: &mut Buffer, sink: &mut N) -> Result<(), Failed>
    ensures { WroteBuffered (growth N.taken N.faults sink.old sink.new) buffer.old buffer.new (hex_byte byte) result }
{
    buffer.put(sink, &[hex_digit(byte / 16), hex_digit(byte % 16)])
}

fn put_hex_bytes<N: Sink>(bytes: &[u8], buffer: &mut Buffer, sink: &mut N) -> Result<(), Failed>
    ensures { WroteBuffered (growth N.taken N.faults sink.old sink.new) buffer.old buffer.new (flat_map hex_byte bytes.now) result }
{
    'bytes: for byte in bytes {
        put_hex_byte(*byte, buffer, sink)?;
    }
    Ok(())
}

fn put_hex<N: Sink>(bytes: &[u8], buffer: &mut Buffer, sink: &mut N) -> Result<(), Failed>
    ensures { WroteBuffered (growth N.taken N.faults sink.old sink.new) buffer.old buffer.new (hex_text bytes.now) result }
{
    buffer.put(sink, X)?;
    put_hex_bytes(bytes, buffer, sink)
}

fn put_number<N: Sink>(number: u32, buffer: &mut Buffer, sink: &mut N) -> Result<(), Failed>
    ensures { WroteBuffered (growth N.taken N.faults sink.old sink.new) buffer.old buffer.new (decimal number) result }
{
    let mut digits = itoa::Buffer::new();
    buffer.put(sink, digits.format(number).as_bytes())
}

fn put_signed<N: Sink>(number: i64, buffer: &mut Buffer, sink: &mut N) -> Result<(), Failed>
    ensures { WroteBuffered (growth N.taken N.faults sink.old sink.new) buffer.old buffer.new (signed_decimal number) result }
{
    let mut digits = itoa::Buffer::new();
    buffer.put(sink, digits.format(number).as_bytes())
}

fn put_datum<N: Sink>(datum: &Datum, buffer: &mut Buffer, sink: &mut N) -> Result<(), Failed>
    ensures { WroteBuffered (growth N.taken N.faults sink.old sink.new) buffer.old buffer.new (datum_text datum.now) result }
{
    match datum {
        Datum::Int(number) => put_signed(*number, buffer, sink),
        Datum::Text(text) => put_hex(text.as_str().as_bytes(), buffer, sink),
    }
}

fn put_run<N: Sink>(run: Piece, buffer: &mut Buffer, sink: &mut N) -> Result<(), Failed>
    ensures { WroteBuffered (growth N.taken N.faults sink.old sink.new) buffer.old buffer.new (run_text run) result }
{
    let (mut value, mut count) = (itoa::Buffer::new(), itoa::Buffer::new());
    let value = value.format(run.value).as_bytes();
    let count = count.format(run.count).as_bytes();
    buffer.put_parts(sink, &[value, STAR, count])
}

// Writes a run that isn't the first run of its list, with a blank before it.
fn put_next_run<N: Sink>(run: Piece, buffer: &mut Buffer, sink: &mut N) -> Result<(), Failed>
    ensures { WroteBuffered (growth N.taken N.faults sink.old sink.new) buffer.old buffer.new (codes " " ++ run_text run) result }
{
    let (mut value, mut count) = (itoa::Buffer::new(), itoa::Buffer::new());
    let value = value.format(run.value).as_bytes();
    let count = count.format(run.count).as_bytes();
    buffer.put_parts(sink, &[SPACE, value, STAR, count])
}

fn put_next_runs<N: Sink>(runs: &[Piece], buffer: &mut Buffer, sink: &mut N) -> Result<(), Failed>
    ensures { WroteBuffered (growth N.taken N.faults sink.old sink.new) buffer.old buffer.new
        (flat_map (λ next. codes " " ++ run_text next) runs.now) result }
{
    'runs: for run in runs {
        put_next_run(*run, buffer, sink)?;
    }
    Ok(())
}

fn put_runs<N: Sink>(runs: &[Piece], buffer: &mut Buffer, sink: &mut N) -> Result<(), Failed>
    ensures { WroteBuffered (growth N.taken N.faults sink.old sink.new) buffer.old buffer.new (runs_text runs.now) result }
{
    if runs.is_empty() {
        return buffer.put(sink, DASH);
    }
    put_run(runs[0], buffer, sink)?;
    put_next_runs(&runs[1..], buffer, sink)
}

fn put_part<N: Sink>(part: &Part, buffer: &mut Buffer, sink: &mut N) -> Result<(), Failed>
    ensures { WroteBuffered (growth N.taken N.faults sink.old sink.new) buffer.old buffer.new (part_text part.now) result }
{
    match part {
        Part::Plain(bytes) => buffer.put(sink, bytes),
        Part::Hex(name) => put_hex(name.as_bytes(), buffer, sink),
        Part::Number(number) => put_number(*number, buffer, sink),
        Part::Value(value) => put_datum(value, buffer, sink),
        Part::Runs(runs) => put_runs(runs, buffer, sink),
    }
}

/// Writes the parts of a line in their order, through the buffer into the sink. The call fails if the sink fails.
pub fn put_line<N: Sink>(parts: &[Part], buffer: &mut Buffer, sink: &mut N) -> Result<(), Failed>
    ensures { WroteBuffered (growth N.taken N.faults sink.old sink.new) buffer.old buffer.new (flat_map part_text parts.now) result }
{
    'parts: for part in parts {
        put_part(part, buffer, sink)?;
    }
    Ok(())
}
