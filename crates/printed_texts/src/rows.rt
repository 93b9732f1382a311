//! Writes the records of the rows text. No function here allocates memory.
ghost use Rattle.std.specs.Prelude.{◌≡◌, ◌≤◌, All, length};
ghost use Rattle.std.specs.List.{flat_map};
ghost use Rattle.base_io.specs.Devices.{growth};
ghost use Rattle.base_io.specs.Writes.{WroteBuffered};
ghost use Rattle.row_printer.specs.Fields.{field_text, lone_field_text};
ghost use Rattle.sql_meaning.specs.Databases.{AreTables, IsColumnOf};
ghost use Rattle.sql_meaning.specs.ValueRefs.{value_of_ref};
ghost use Rattle.sql_meaning.specs.Tables.{tables_of};
ghost use Rattle.printed_texts.specs.Lines.{IsRecordOf, field_at, fields_at, line_at, next_field};
ghost use Rattle.printed_texts.specs.Texts.{value_text};

use base_io::{Buffer, Failed, Sink};
use csv_tables::Database;
use query_types::Out;
use row_printer::{put_comma, put_field, put_only_field, put_record_end};
use sql_meaning::{ValueRef, value_of_column};

/// A record of the rows text: the header, or the record of a choice. A choice has one row number for each FROM entry, in FROM order.
#[derive(Clone, Copy, Debug)]
pub enum RowsRecord<'a> {
    Header,
    Rows(&'a [u32]),
}

// An output's field in a record: its name in the header, otherwise its value.
fn field<'a>(out: &'a Out, line: RowsRecord, db: &'a Database) -> ValueRef<'a>
    requires tables { AreTables db.now }
    requires column { IsColumnOf db.now out.now.column }
    requires line { IsRecordOf db.now line }
    ensures { value_text (value_of_ref result) ≡ field_at (tables_of db.now) line.entry out.now }
{
    match line {
        RowsRecord::Header => ValueRef::Text(out.name.as_str()),
        RowsRecord::Rows(rows) => value_of_column(&out.column, db, rows),
    }
}

fn put_value<N: Sink>(value: ValueRef, buffer: &mut Buffer, sink: &mut N) -> Result<(), Failed>
    ensures { WroteBuffered (growth N.taken N.faults sink.old sink.new) buffer.old buffer.new
        (field_text (value_text (value_of_ref value.entry))) result }
{
    match value {
        ValueRef::Int(number) => {
            let mut digits = itoa::Buffer::new();
            put_field(digits.format(number).as_bytes(), buffer, sink)
        }
        ValueRef::Text(text) => put_field(text.as_bytes(), buffer, sink),
    }
}

// Puts the field of a record that has one field.
fn put_lone_value<N: Sink>(value: ValueRef, buffer: &mut Buffer, sink: &mut N) -> Result<(), Failed>
    ensures { WroteBuffered (growth N.taken N.faults sink.old sink.new) buffer.old buffer.new
        (lone_field_text (value_text (value_of_ref value.entry))) result }
{
    match value {
        ValueRef::Int(number) => {
            let mut digits = itoa::Buffer::new();
            put_only_field(digits.format(number).as_bytes(), buffer, sink)
        }
        ValueRef::Text(text) => put_only_field(text.as_bytes(), buffer, sink),
    }
}

// Puts a comma, and then the field of an output.
fn put_next<N: Sink>(
    out: &Out,
    line: RowsRecord,
    db: &Database,
    buffer: &mut Buffer,
    sink: &mut N,
) -> Result<(), Failed>
    requires tables { AreTables db.now }
    requires column { IsColumnOf db.now out.now.column }
    requires line { IsRecordOf db.now line }
    ensures { WroteBuffered (growth N.taken N.faults sink.old sink.new) buffer.old buffer.new
        (next_field (tables_of db.now) line.entry out.now) result }
{
    put_comma(buffer, sink)?;
    put_value(field(out, line, db), buffer, sink)
}

// Puts the fields of all outputs after the first, each with a comma before it.
fn put_others<N: Sink>(
    outs: &[Out],
    line: RowsRecord,
    db: &Database,
    buffer: &mut Buffer,
    sink: &mut N,
) -> Result<(), Failed>
    requires tables { AreTables db.now }
    requires columns { All (λ out. IsColumnOf db.now out.column) outs.now }
    requires line { IsRecordOf db.now line }
    ensures { WroteBuffered (growth N.taken N.faults sink.old sink.new) buffer.old buffer.new
        (flat_map (next_field (tables_of db.now) line.entry) outs.now) result }
{
    'outs: for out in outs {
        put_next(out, line, db, buffer, sink)?;
    }
    Ok(())
}

// Puts the fields of two or more outputs.
fn put_several<N: Sink>(
    outs: &[Out],
    line: RowsRecord,
    db: &Database,
    buffer: &mut Buffer,
    sink: &mut N,
) -> Result<(), Failed>
    requires several { 2 ≤ length outs.now }
    requires tables { AreTables db.now }
    requires columns { All (λ out. IsColumnOf db.now out.column) outs.now }
    requires line { IsRecordOf db.now line }
    ensures { WroteBuffered (growth N.taken N.faults sink.old sink.new) buffer.old buffer.new
        (fields_at outs.now (tables_of db.now) line.entry) result }
{
    let first = &outs[0];
    put_value(field(first, line, db), buffer, sink)?;
    put_others(&outs[1..], line, db, buffer, sink)
}

// Puts the fields of a record.
fn put_fields<N: Sink>(
    outs: &[Out],
    line: RowsRecord,
    db: &Database,
    buffer: &mut Buffer,
    sink: &mut N,
) -> Result<(), Failed>
    requires tables { AreTables db.now }
    requires columns { All (λ out. IsColumnOf db.now out.column) outs.now }
    requires line { IsRecordOf db.now line }
    ensures { WroteBuffered (growth N.taken N.faults sink.old sink.new) buffer.old buffer.new
        (fields_at outs.now (tables_of db.now) line.entry) result }
{
    match outs.len() {
        0 => buffer.put(sink, b""),
        1 => put_lone_value(field(&outs[0], line, db), buffer, sink),
        _ => put_several(outs, line, db, buffer, sink),
    }
}

/// Puts a record of the rows text: the fields of the outputs, and the record's end (RFC 4180).
pub fn put_line<N: Sink>(
    outs: &[Out],
    line: RowsRecord,
    db: &Database,
    buffer: &mut Buffer,
    sink: &mut N,
) -> Result<(), Failed>
    requires tables { AreTables db.now }
    requires columns { All (λ out. IsColumnOf db.now out.column) outs.now }
    requires line { IsRecordOf db.now line }
    ensures { WroteBuffered (growth N.taken N.faults sink.old sink.new) buffer.old buffer.new
        (line_at outs.now (tables_of db.now) line.entry) result }
{
    put_fields(outs, line, db, buffer, sink)?;
    put_record_end(buffer, sink)
}
