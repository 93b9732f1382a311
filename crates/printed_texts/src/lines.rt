//! Writes the line of a fault: `error`, then words with a blank before each, and LF. One of the words may be the name of a file. No function here
//! takes memory.
ghost use Rattle.std.specs.Prelude.{◌++◌, ◌∷◌, map};
ghost use Rattle.std.specs.Char.{to_ascii_lowercase};
ghost use Rattle.std.specs.List.{flat_map};
ghost use Rattle.base_io.specs.Devices.{growth};
ghost use Rattle.base_io.specs.Writes.{WroteBuffered, Wrote};
ghost use Rattle.printed_texts.specs.Faults.{after_blank, error_line, table_file};
ghost use Rattle.printed_texts.specs.Words.{file_word_text};

use base_io::{Buffer, Failed, Sink};
use schema_types::Table;

const ERROR: &[u8] = b"error";

const SPACE: &[u8] = b" ";

const CSV: &[u8] = b".csv";

const LINE_END: &[u8] = b"\n";

/// The name of a file in a line: a given name, or the name of a table's own file, which is the table's name in lower case and `.csv`.
#[derive(Clone, Copy)]
pub enum FileWord<'a> {
    Given(&'a [u8]),
    OfTable(&'a Table),
}

// Puts a name, with A to Z in lower case.
fn put_lower<N: Sink>(name: &[u8], buffer: &mut Buffer, sink: &mut N) -> Result<(), Failed>
    ensures { WroteBuffered (growth N.taken N.faults sink.old sink.new) buffer.old buffer.new (map to_ascii_lowercase name.now) result }
{
    'bytes: for byte in name {
        buffer.put(sink, &[byte.to_ascii_lowercase()])?;
    }
    Ok(())
}

fn put_table_file<N: Sink>(table: &Table, buffer: &mut Buffer, sink: &mut N) -> Result<(), Failed>
    ensures { WroteBuffered (growth N.taken N.faults sink.old sink.new) buffer.old buffer.new (table_file table.now) result }
{
    put_lower(table.name.as_str().as_bytes(), buffer, sink)?;
    buffer.put(sink, CSV)
}

fn put_file_name<N: Sink>(file: FileWord, buffer: &mut Buffer, sink: &mut N) -> Result<(), Failed>
    ensures { WroteBuffered (growth N.taken N.faults sink.old sink.new) buffer.old buffer.new (file_word_text file.entry) result }
{
    match file {
        FileWord::Given(name) => buffer.put(sink, name),
        FileWord::OfTable(table) => put_table_file(table, buffer, sink),
    }
}

// Puts a blank and the name of a file.
fn put_file<N: Sink>(file: FileWord, buffer: &mut Buffer, sink: &mut N) -> Result<(), Failed>
    ensures { WroteBuffered (growth N.taken N.faults sink.old sink.new) buffer.old buffer.new (after_blank (file_word_text file.entry)) result }
{
    buffer.put(sink, SPACE)?;
    put_file_name(file, buffer, sink)
}

// Puts a blank and a word.
fn put_word<N: Sink>(word: &[u8], buffer: &mut Buffer, sink: &mut N) -> Result<(), Failed>
    ensures { WroteBuffered (growth N.taken N.faults sink.old sink.new) buffer.old buffer.new (after_blank word.now) result }
{
    buffer.put_parts(sink, &[SPACE, word])
}

fn put_words<N: Sink>(words: &[&[u8]], buffer: &mut Buffer, sink: &mut N) -> Result<(), Failed>
    ensures { WroteBuffered (growth N.taken N.faults sink.old sink.new) buffer.old buffer.new (flat_map (λ w. after_blank w.now) words.now) result }
{
    'words: for word in words {
        put_word(word, buffer, sink)?;
    }
    Ok(())
}

// Puts words, the name of a file, and more words, with a blank before each.
fn put_words_about<N: Sink>(
    words: &[&[u8]],
    file: FileWord,
    more: &[&[u8]],
    buffer: &mut Buffer,
    sink: &mut N,
) -> Result<(), Failed>
    ensures { WroteBuffered (growth N.taken N.faults sink.old sink.new) buffer.old buffer.new
        (flat_map after_blank (map (λ w. w.now) words.now ++ (file_word_text file.entry ∷ map (λ w. w.now) more.now))) result }
{
    put_words(words, buffer, sink)?;
    put_file(file, buffer, sink)?;
    put_words(more, buffer, sink)
}

/// Writes the line `error` with these words. If the sink fails, the call fails, and a prefix of the line is written.
pub fn write_error_line<N: Sink>(words: &[&[u8]], sink: &mut N) -> Result<(), Failed>
    ensures { Wrote (growth N.taken N.faults sink.old sink.new) (error_line (map (λ w. w.now) words.now)) result }
{
    let mut buffer = Buffer::new();
    buffer.put(sink, ERROR)?;
    put_words(words, &mut buffer, sink)?;
    buffer.put(sink, LINE_END)?;
    buffer.flush(sink)
}

/// Writes the line `error` with these words, the name of a file, and more words. If the sink fails, the call fails, and a prefix of the line
/// is written.
pub fn write_words_about<N: Sink>(
    words: &[&[u8]],
    file: FileWord,
    more: &[&[u8]],
    sink: &mut N,
) -> Result<(), Failed>
    ensures { Wrote (growth N.taken N.faults sink.old sink.new)
        (error_line (map (λ w. w.now) words.now ++ (file_word_text file.entry ∷ map (λ w. w.now) more.now))) result }
{
    let mut buffer = Buffer::new();
    buffer.put(sink, ERROR)?;
    put_words_about(words, file, more, &mut buffer, sink)?;
    buffer.put(sink, LINE_END)?;
    buffer.flush(sink)
}
