//! The line that reports how a call ended.
ghost use Rattle.std.specs.Prelude.{◌≡◌, ◌≢◌, option_copied};
ghost use Rattle.base_io.specs.Devices.{growth};
ghost use Rattle.base_io.specs.Writes.{Wrote};
ghost use Rattle.safebound_top.specs.CallHistory.{StatusReported};
ghost use Rattle.printed_texts.specs.Words.{names_of_line};
ghost use Rattle.safebound_top.specs.Faults.{names_by as names_in, names_of as names_told, stats_file_of as stats_file_told, status_line};

use base_io::{Failed, Sink};
use outcomes::Status;
use printed_texts::{LineNames, write_line};
use safebound_words::{Command, QueryTask, SchemaTask};
use schema_types::Schema;

// The name of the statistics file that a command reads. The name is empty if the command reads no statistics file.
fn stats_file_of<'a>(work: &'a QueryTask<'a>) -> &'a str
    ensures { result.now ≡ stats_file_told work.now }
{
    match work {
        QueryTask::PlanFromStats { file, .. } => file.get(),
        QueryTask::Plan(_) | QueryTask::WriteStats { .. } => "",
    }
}

// The names that a line may use: the names of the command's files, and the names in the schema.
fn names_by<'a>(
    schema_file: &'a str,
    schema_task: &'a SchemaTask<'a>,
    schema: Option<&'a Schema>,
) -> LineNames<'a>
    ensures { names_of_line result ≡ names_in schema_file.now schema_task.now (option_copied schema.entry) }
{
    match schema_task {
        SchemaTask::Query { file, work } => LineNames {
            schema_file,
            query_file: file.get(),
            stats_file: stats_file_of(work),
            rows_file: None,
            schema,
        },
        SchemaTask::Append(rows) => LineNames {
            schema_file,
            query_file: "",
            stats_file: rows.stats_file.get(),
            rows_file: Some(rows.rows_file.get()),
            schema,
        },
    }
}

// The names that a line may use. There is no command if the words were refused, and then no file is named.
fn names_of<'a>(command: Option<&'a Command<'a>>, schema: Option<&'a Schema>) -> LineNames<'a>
    ensures { names_of_line result ≡ names_told (option_copied command.entry) (option_copied schema.entry) }
{
    match command {
        Some(command) => names_by(command.schema_file.get(), &command.schema_task, schema),
        None => LineNames {
            schema_file: "",
            query_file: "",
            stats_file: "",
            rows_file: None,
            schema,
        },
    }
}

/// Writes the line of a status that isn't `Done`. The line names a file by the command's word for it, a table by its file, and a column by
/// its name in the schema.
pub fn write_fault<N: Sink>(
    status: Status,
    command: Option<&Command>,
    schema: Option<&Schema>,
    sink: &mut N,
) -> Result<(), Failed>
    requires { status ≢ Status.Done }
    ensures { Wrote (growth N.taken N.faults sink.old sink.new)
        (status_line status (option_copied command.entry) (option_copied schema.entry)) result }
{
    write_line(status, names_of(command, schema), sink)
}

/// Writes the line of a status, at the end of a call. If this write fails, the status stays the same.
pub fn report<N: Sink>(
    status: Status,
    command: Option<&Command>,
    schema: Option<&Schema>,
    notes: &mut N,
)
    requires { status ≢ Status.Done }
    ensures { StatusReported (growth N.taken N.faults notes.old notes.new) (status_line status (option_copied command.entry) (option_copied schema.entry)) }
{
    match write_fault(status, command, schema, notes) {
        Ok(()) => {}
        Err(Failed) => {}
    }
}
