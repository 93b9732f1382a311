//! Writes the line `memory BYTES`, which says how many bytes a plan takes. No function here allocates memory.
ghost use Rattle.base_io.specs.Devices.{growth};
ghost use Rattle.base_io.specs.Writes.{WroteBuffered, Wrote};
ghost use Rattle.printed_texts.specs.Memory.{memory_line, memory_text};

use base_io::{Buffer, Failed, Sink};

const MEMORY: &[u8] = b"memory ";

const LINE_END: &[u8] = b"\n";

fn put_bytes<N: Sink>(bytes: u128, buffer: &mut Buffer, sink: &mut N) -> Result<(), Failed>
    ensures { WroteBuffered (growth N.taken N.faults sink.old sink.new) buffer.old buffer.new (memory_line bytes) result }
{
    let mut digits = itoa::Buffer::new();
    let bytes = digits.format(bytes).as_bytes();
    buffer.put_parts(sink, &[MEMORY, bytes, LINE_END])
}

fn write_bytes<N: Sink>(bytes: u128, sink: &mut N) -> Result<(), Failed>
    ensures { Wrote (growth N.taken N.faults sink.old sink.new) (memory_line bytes) result }
{
    let mut buffer = Buffer::new();
    put_bytes(bytes, &mut buffer, sink)?;
    buffer.flush(sink)
}

/// Writes how many bytes the plan takes, if the command gave a limit of memory; otherwise writes nothing. The line follows the plan text.
pub fn write_memory<N: Sink>(limit: Option<u64>, bytes: u128, sink: &mut N) -> Result<(), Failed>
    ensures { Wrote (growth N.taken N.faults sink.old sink.new) (memory_text limit bytes) result }
{
    if limit.is_none() {
        return Ok(());
    }
    write_bytes(bytes, sink)
}
