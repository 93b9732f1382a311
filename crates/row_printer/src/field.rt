//! Writes fields, in quotes if they need quotes.
ghost use Rattle.std.specs.Prelude.{◌≡◌, ◌++◌, codes};
ghost use Rattle.std.specs.List.{list_any};
ghost use Rattle.base_io.specs.Devices.{growth};
ghost use Rattle.base_io.specs.Writes.{WroteBuffered};
ghost use Rattle.row_printer.specs.Fields.{doubled, doubled_quote, field_text, is_special as special, lone_field_text};

use base_io::{Buffer, Failed, Sink};

const QUOTE: &[u8] = b"\"";

const TWO_QUOTES: &[u8] = b"\"\"";

const COMMA: &[u8] = b",";

const RECORD_END: &[u8] = b"\r\n";

fn is_special(byte: u8) -> bool
    ensures { result ≡ special byte }
{
    byte == b',' || byte == b'\r' || byte == b'\n' || byte == b'"'
}

fn needs_quotes(field: &[u8]) -> bool
    ensures { result ≡ list_any special field.now }
{
    field.iter().any(|byte| is_special(*byte))
}

fn put_byte_doubling_quotes<N: Sink>(
    byte: u8,
    buffer: &mut Buffer,
    sink: &mut N,
) -> Result<(), Failed>
    ensures { WroteBuffered (growth N.taken N.faults sink.old sink.new) buffer.old buffer.new (doubled_quote byte) result }
{
    if byte == b'"' {
        buffer.put(sink, TWO_QUOTES)
    } else {
        buffer.put(sink, &[byte])
    }
}

// Writes the field with each double quote doubled.
fn put_doubled<N: Sink>(field: &[u8], buffer: &mut Buffer, sink: &mut N) -> Result<(), Failed>
    ensures { WroteBuffered (growth N.taken N.faults sink.old sink.new) buffer.old buffer.new (doubled field.now) result }
{
    'bytes: for byte in field {
        put_byte_doubling_quotes(*byte, buffer, sink)?;
    }
    Ok(())
}

fn put_quoted<N: Sink>(field: &[u8], buffer: &mut Buffer, sink: &mut N) -> Result<(), Failed>
    ensures { WroteBuffered (growth N.taken N.faults sink.old sink.new) buffer.old buffer.new (codes "\"" ++ (doubled field.now ++ codes "\"")) result }
{
    buffer.put(sink, QUOTE)?;
    put_doubled(field, buffer, sink)?;
    buffer.put(sink, QUOTE)
}

/// Writes a field of a record that has several fields. A field that holds a comma, CR, LF or a double quote is put in double quotes. Each double
/// quote in the field is then doubled. On `Failed`, the sink has taken a prefix of this text: what waited in the buffer, and then the field's text.
pub fn put_field<N: Sink>(field: &[u8], buffer: &mut Buffer, sink: &mut N) -> Result<(), Failed>
    ensures { WroteBuffered (growth N.taken N.faults sink.old sink.new) buffer.old buffer.new (field_text field.now) result }
{
    if needs_quotes(field) {
        put_quoted(field, buffer, sink)
    } else {
        buffer.put(sink, field)
    }
}

/// Writes the field of a record that has one field. An empty field is written as two double quotes, so that no record is an empty line.
pub fn put_only_field<N: Sink>(
    field: &[u8],
    buffer: &mut Buffer,
    sink: &mut N,
) -> Result<(), Failed>
    ensures { WroteBuffered (growth N.taken N.faults sink.old sink.new) buffer.old buffer.new (lone_field_text field.now) result }
{
    match field {
        [] => buffer.put(sink, TWO_QUOTES),
        [_, ..] => put_field(field, buffer, sink),
    }
}

/// Writes the comma between two fields.
pub fn put_comma<N: Sink>(buffer: &mut Buffer, sink: &mut N) -> Result<(), Failed>
    ensures { WroteBuffered (growth N.taken N.faults sink.old sink.new) buffer.old buffer.new (codes ",") result }
{
    buffer.put(sink, COMMA)
}

/// Writes the end of a record.
pub fn put_record_end<N: Sink>(buffer: &mut Buffer, sink: &mut N) -> Result<(), Failed>
    ensures { WroteBuffered (growth N.taken N.faults sink.old sink.new) buffer.old buffer.new (codes "\r\n") result }
{
    buffer.put(sink, RECORD_END)
}
