//! Writes the line that says how a run ended, if its status isn't `Done`. No function here allocates memory.
ghost use Rattle.std.specs.Prelude.{◌≡◌, ◌≢◌, ◌∷◌, [], codes, decimal, option_copied, option_map};
ghost use Rattle.base_io.specs.Devices.{growth};
ghost use Rattle.base_io.specs.Writes.{Wrote};
ghost use Rattle.printed_texts.specs.Faults.{column_name_in, error_line, fault_line, file_name, file_of_rows, file_of_table, is_of_file as of_file, limit_word as word_of_limit, limit_words, query_cause, read_words, refusal_words, schema_cause, sink_name, stats_cause, table_in, table_words};
ghost use Rattle.printed_texts.specs.Words.{file_word_text, names_of_line};

use crate::lines::{FileWord, write_error_line, write_words_about};
use base_io::{Failed, Sink};
use outcomes::{FileId, QueryCause, Refusal, SchemaCause, SinkId, StatsCause, Status, TableCause};
use schema_types::{LimitKind, Schema, Table};

/// The names that a line may need. The files are named as in the command; `rows_file` is the file of new rows, if the command has one. After the
/// schema was read, the line may also name its tables.
#[derive(Clone, Copy)]
pub struct LineNames<'a> {
    pub schema_file: &'a str,
    pub query_file: &'a str,
    pub stats_file: &'a str,
    pub rows_file: Option<&'a str>,
    pub schema: Option<&'a Schema>,
}

fn table_at<'a>(schema: Option<&'a Schema>, number: u32) -> Option<&'a Table>
    ensures { option_copied result ≡ table_in (option_copied schema.entry) number }
{
    match schema {
        Some(schema) => schema.tables.as_slice().get(number as usize),
        None => None,
    }
}

fn table_word<'a>(table: Option<&'a Table>) -> FileWord<'a>
    ensures { file_word_text result ≡ file_of_table (option_copied table.entry) }
{
    match table {
        Some(table) => FileWord::OfTable(table),
        None => FileWord::Given(b""),
    }
}

// The file of a table's rows: the file that the command names, or else the table's own file.
fn rows_word<'a>(rows_file: Option<&'a str>, table: Option<&'a Table>) -> FileWord<'a>
    ensures { file_word_text result ≡ file_of_rows (option_map (λ name. name.now) rows_file.entry) (option_copied table.entry) }
{
    match rows_file {
        Some(name) => FileWord::Given(name.as_bytes()),
        None => table_word(table),
    }
}

fn name_of_column(table: &Table, number: u32) -> &[u8]
    ensures { result.now ≡ column_name_in (Some table.now) number }
{
    match table.columns.as_slice().get(number as usize) {
        Some(column) => column.name.as_str().as_bytes(),
        None => b"",
    }
}

fn column_name<'a>(table: Option<&'a Table>, number: u32) -> &'a [u8]
    ensures { result.now ≡ column_name_in (option_copied table.entry) number }
{
    match table {
        Some(table) => name_of_column(table, number),
        None => b"",
    }
}

// The name of `file` in a line.
fn file_word<'a>(file: FileId, names: LineNames<'a>) -> FileWord<'a>
    ensures { file_word_text result ≡ file_name file (names_of_line names.entry) }
{
    match file {
        FileId::Schema => FileWord::Given(names.schema_file.as_bytes()),
        FileId::Query => FileWord::Given(names.query_file.as_bytes()),
        FileId::Table(number) => rows_word(names.rows_file, table_at(names.schema, number)),
        FileId::Stats => FileWord::Given(names.stats_file.as_bytes()),
    }
}

fn schema_word(cause: SchemaCause) -> &'static [u8]
    ensures { result.now ≡ schema_cause cause }
{
    match cause {
        SchemaCause::Syntax => b"syntax",
        SchemaCause::Name => b"name",
        SchemaCause::Nullable => b"nullable",
    }
}

fn query_word(cause: QueryCause) -> &'static [u8]
    ensures { result.now ≡ query_cause cause }
{
    match cause {
        QueryCause::Syntax => b"syntax",
        QueryCause::Name => b"name",
        QueryCause::Kind => b"kind",
    }
}

fn stats_word(cause: StatsCause) -> &'static [u8]
    ensures { result.now ≡ stats_cause cause }
{
    match cause {
        StatsCause::Syntax => b"syntax",
        StatsCause::Rule => b"rule",
        StatsCause::Missing => b"missing",
    }
}

fn sink_word(sink: SinkId) -> &'static [u8]
    ensures { result.now ≡ sink_name sink }
{
    match sink {
        SinkId::Out => b"out",
        SinkId::Notes => b"notes",
    }
}

fn limit_word(which: LimitKind) -> &'static [u8]
    ensures { result.now ≡ word_of_limit which }
{
    match which {
        LimitKind::FileBytes => b"file-bytes",
        LimitKind::Rows => b"rows",
        LimitKind::Tables => b"tables",
        LimitKind::Columns => b"columns",
        LimitKind::TextLength => b"text-length",
        LimitKind::Nesting => b"nesting",
        LimitKind::FromEntries => b"from-entries",
        LimitKind::InValues => b"in-values",
        LimitKind::Conjuncts => b"conjuncts",
        LimitKind::Outputs => b"outputs",
    }
}

fn is_of_file(which: LimitKind) -> bool
    ensures { result ≡ of_file which }
{
    matches!(which, LimitKind::FileBytes | LimitKind::Rows)
}

const USAGE: &[u8] = b"usage";

const READ: &[u8] = b"read";

const SCHEMA: &[u8] = b"schema";

const QUERY: &[u8] = b"query";

const TABLE: &[u8] = b"table";

const STATS: &[u8] = b"stats";

const LIMIT: &[u8] = b"limit";

const BUDGET: &[u8] = b"budget";

const PAST_BITS: &[u8] = b"past-bits";

const WRITE: &[u8] = b"write";

const MEMORY: &[u8] = b"memory";

const MEMORY_LIMIT: &[u8] = b"memory-limit";

const UTF8: &[u8] = b"utf8";

const HEADER: &[u8] = b"header";

const WIDTH: &[u8] = b"width";

const FIELD: &[u8] = b"field";

const KEY: &[u8] = b"key";

// Writes the line of a refused schema, query or statistics text. It has the word for the text, the cause, and a number for the place: an offset in
// the text, a line, or a FROM entry.
fn write_cause_at<N: Sink>(text: &[u8], cause: &[u8], at: u32, sink: &mut N) -> Result<(), Failed>
    ensures { Wrote (growth N.taken N.faults sink.old sink.new) (error_line (text.now ∷ (cause.now ∷ (decimal at ∷ [])))) result }
{
    let mut digits = itoa::Buffer::new();
    write_error_line(&[text, cause, digits.format(at).as_bytes()], sink)
}

// Writes the line of a table whose file is refused, with the cause and two numbers.
fn write_numbers<N: Sink>(
    file: FileWord,
    cause: &[u8],
    first: u32,
    second: u32,
    sink: &mut N,
) -> Result<(), Failed>
    ensures { Wrote (growth N.taken N.faults sink.old sink.new)
        (error_line (codes "table" ∷ (file_word_text file.entry ∷ (cause.now ∷ (decimal first ∷ (decimal second ∷ [])))))) result }
{
    let (mut one, mut other) = (itoa::Buffer::new(), itoa::Buffer::new());
    let one = one.format(first).as_bytes();
    let other = other.format(second).as_bytes();
    write_words_about(&[TABLE], file, &[cause, one, other], sink)
}

// Writes the line of a table whose file is refused.
fn write_table_fault<N: Sink>(
    file: FileWord,
    table: Option<&Table>,
    cause: TableCause,
    sink: &mut N,
) -> Result<(), Failed>
    ensures { Wrote (growth N.taken N.faults sink.old sink.new) (error_line (table_words (file_word_text file.entry) (option_copied table.entry) cause)) result }
{
    let mut digits = itoa::Buffer::new();
    match cause {
        TableCause::Utf8 { at } => {
            write_words_about(&[TABLE], file, &[UTF8, digits.format(at).as_bytes()], sink)
        }
        TableCause::Header { column } => {
            write_words_about(&[TABLE], file, &[HEADER, column_name(table, column)], sink)
        }
        TableCause::Width { row, found } => write_numbers(file, WIDTH, row, found, sink),
        TableCause::Field { row, column } => {
            let row = digits.format(row).as_bytes();
            let column = column_name(table, column);
            write_words_about(&[TABLE], file, &[FIELD, row, column], sink)
        }
        TableCause::Key { row, earlier } => write_numbers(file, KEY, row, earlier, sink),
    }
}

// Writes the line of a limit that is exceeded.
fn write_limit<N: Sink>(
    which: LimitKind,
    file: FileWord,
    found: u64,
    sink: &mut N,
) -> Result<(), Failed>
    ensures { Wrote (growth N.taken N.faults sink.old sink.new) (error_line (limit_words which (file_word_text file.entry) found)) result }
{
    let mut digits = itoa::Buffer::new();
    let found = digits.format(found).as_bytes();
    if is_of_file(which) {
        write_words_about(&[LIMIT, limit_word(which)], file, &[found], sink)
    } else {
        write_error_line(&[LIMIT, limit_word(which), found], sink)
    }
}

fn write_budget<N: Sink>(least: u128, sink: &mut N) -> Result<(), Failed>
    ensures { Wrote (growth N.taken N.faults sink.old sink.new) (error_line (codes "budget" ∷ (decimal least ∷ []))) result }
{
    let mut digits = itoa::Buffer::new();
    write_error_line(&[BUDGET, digits.format(least).as_bytes()], sink)
}

fn write_memory_limit<N: Sink>(bytes: u128, sink: &mut N) -> Result<(), Failed>
    ensures { Wrote (growth N.taken N.faults sink.old sink.new) (error_line (codes "memory-limit" ∷ (decimal bytes ∷ []))) result }
{
    let mut digits = itoa::Buffer::new();
    write_error_line(&[MEMORY_LIMIT, digits.format(bytes).as_bytes()], sink)
}

// Writes the line of a file that doesn't exist or can't be read.
fn write_read<N: Sink>(file: FileId, names: LineNames, sink: &mut N) -> Result<(), Failed>
    ensures { Wrote (growth N.taken N.faults sink.old sink.new) (error_line (read_words file (names_of_line names.entry))) result }
{
    write_words_about(&[READ], file_word(file, names), &[], sink)
}

// Writes the line of a refusal.
fn write_refusal<N: Sink>(refusal: Refusal, names: LineNames, sink: &mut N) -> Result<(), Failed>
    ensures { Wrote (growth N.taken N.faults sink.old sink.new) (error_line (refusal_words refusal (names_of_line names.entry))) result }
{
    match refusal {
        Refusal::Usage => write_error_line(&[USAGE], sink),
        Refusal::Missing { file } => write_read(file, names, sink),
        Refusal::Schema { cause, at } => write_cause_at(SCHEMA, schema_word(cause), at, sink),
        Refusal::Query { cause, at } => write_cause_at(QUERY, query_word(cause), at, sink),
        Refusal::Stats { cause, at } => write_cause_at(STATS, stats_word(cause), at, sink),
        Refusal::Table { table, cause } => {
            let file = file_word(FileId::Table(table), names);
            write_table_fault(file, table_at(names.schema, table), cause, sink)
        }
        Refusal::Limit { which, file, found } => {
            write_limit(which, file_word(file, names), found, sink)
        }
        Refusal::Budget { least } => write_budget(least, sink),
        Refusal::MemoryLimit { bytes } => write_memory_limit(bytes, sink),
        Refusal::PastBits => write_error_line(&[PAST_BITS], sink),
    }
}

/// Writes the line of a status that is not `Done`. The line names a table by its file, and a column by its name.
pub fn write_line<N: Sink>(status: Status, names: LineNames, sink: &mut N) -> Result<(), Failed>
    requires { status ≢ Status.Done }
    ensures { Wrote (growth N.taken N.faults sink.old sink.new) (fault_line status (names_of_line names.entry)) result }
{
    match status {
        Status::Done => Ok(()),
        Status::Refused(refusal) => write_refusal(refusal, names, sink),
        Status::ReadFault { file } => write_read(file, names, sink),
        Status::WriteFault { sink: cut } => write_error_line(&[WRITE, sink_word(cut)], sink),
        Status::NoMemory => write_error_line(&[MEMORY], sink),
    }
}
