//! The top call, stage by stage.
ghost use Rattle.std.specs.Prelude.{◌≡◌, IfSome, List, ℕ, None, Ok, Some, map, option_copied};
ghost use Rattle.base_io.specs.Devices.{growth, reading};
ghost use Rattle.outcomes.specs.Statuses.{status_of_failure};
ghost use Rattle.schema_types.specs.Validity.{IsValid};
ghost use Rattle.stats_reading.specs.Names.{HasByteColumns};
ghost use Rattle.safebound_words.specs.InRange.{HasRanges};
ghost use Rattle.safebound_top.specs.CallHistory.{CallHistory, TextsEnded, StageRan, StatusReported};
ghost use Rattle.safebound_top.specs.Faults.{status_line};
ghost use Rattle.safebound_top.specs.Headline.{Headline};
ghost use Rattle.prepared_runs.specs.KeptBuffers.{HasBuffersOf, KeepsItsBuffers};
ghost use Rattle.safebound_top.specs.Promise.{Promise};
ghost use Rattle.prepared_runs.specs.PreparedRun.{CanBeWritten, outcome_of};
ghost use Rattle.prepared_runs.specs.Shops.{demo_number_of, shop_store, store_read};
ghost use Rattle.prepared_runs.specs.Verdict.{IsSchemaTaskFile, schema_task_run, command_run, command_stage, verdict};

use crate::report::report;
use crate::texts::write_outcome;
use base_io::{NoMemory, Sink, Store};
use outcomes::{Failure, Refusal, Status};
use prepared_runs::{Joined, PreparedRun, load_schema, open_shop, prepare_run};
use safebound_words::{Command, read_words};
use schema_types::Schema;
use std::alloc::Global;

// Writes the line that says why a reading ended early, and returns the status.
fn report_failure<N: Sink>(
    failure: Failure,
    command: &Command,
    schema: Option<&Schema>,
    notes: &mut N,
) -> Status
    ensures status { result ≡ status_of_failure failure }
    ensures told { StatusReported (growth N.taken N.faults notes.old notes.new)
        (status_line result (Some command.now) (option_copied schema.entry)) }
{
    let status = Status::from(failure);
    report(status, Some(command), schema, notes);
    status
}

// Writes the texts of the run, and hands out the buffers of its joins. If a write fails, a line says which stream couldn't be written.
fn write_or_report<O: Sink, N: Sink>(
    ready: PreparedRun,
    command: &Command,
    schema: &Schema,
    out: &mut O,
    notes: &mut N,
    kept: &mut Option<Joined>,
) -> Status
    requires ready { CanBeWritten schema.now ready }
    requires none { kept.old ≡ None }
    ensures ended { TextsEnded result (growth O.taken O.faults out.old out.new) (growth N.taken N.faults notes.old notes.new) (outcome_of schema.now ready)
        (status_line result (Some command.now) (Some schema.now)) }
    ensures kept { result ≡ Status.Done → HasBuffersOf (outcome_of schema.now ready) kept.new }
{
    match write_outcome(ready, schema, out, notes, kept) {
        Ok(()) => Status::Done,
        Err(sink) => {
            let status = Status::from(sink);
            report(status, Some(command), Some(schema), notes);
            status
        }
    }
}

// Runs a command whose schema was read.
fn run_over<S: Store, O: Sink, N: Sink>(
    alloc: Global,
    command: &Command,
    schema: &Schema,
    store: &mut S,
    out: &mut O,
    notes: &mut N,
    kept: &mut Option<Joined>,
) -> Status
    requires schema { IsValid schema.now }
    requires bytes { HasByteColumns schema.now }
    requires ranges { HasRanges command.now.schema_task }
    requires none { kept.old ≡ None }
    ensures ran { StageRan result (reading S.files S.faults S.misses store.old store.new) (growth O.taken O.faults out.old out.new)
        (growth N.taken N.faults notes.old notes.new) (schema_task_run command.now.schema_task schema.now)
        (IsSchemaTaskFile command.now.schema_task schema.now)
        (status_line result (Some command.now) (Some schema.now)) }
    ensures kept { result ≡ Status.Done
        → KeepsItsBuffers (reading S.files S.faults S.misses store.old store.new) (schema_task_run command.now.schema_task schema.now) kept.new }
{
    match prepare_run(alloc, store, &command.schema_task, schema) {
        Ok(ready) => write_or_report(ready, command, schema, out, notes, kept),
        Err(failure) => report_failure(failure, command, Some(schema), notes),
    }
}

// Runs a command over the files of this store.
fn run<S: Store, O: Sink, N: Sink>(
    alloc: Global,
    command: &Command,
    store: &mut S,
    out: &mut O,
    notes: &mut N,
    kept: &mut Option<Joined>,
) -> Status
    requires ranges { HasRanges command.now.schema_task }
    requires none { kept.old ≡ None }
    ensures course { (words : List (List ℕ)) → command_stage words ≡ Ok command.now → CallHistory (record {
      words = words;
      status = result;
      store = reading S.files S.faults S.misses store.old store.new;
      out = growth O.taken O.faults out.old out.new;
      notes = growth N.taken N.faults notes.old notes.new;
    }) }
    ensures kept { result ≡ Status.Done
        → KeepsItsBuffers (reading S.files S.faults S.misses store.old store.new) (command_run command.now) kept.new }
{
    match load_schema(alloc, store, &command.schema_file) {
        Ok(schema) => run_over(alloc, command, &schema, store, out, notes, kept),
        Err(failure) => report_failure(failure, command, None, notes),
    }
}

// Runs a command over the files of a shop.
fn run_shop<O: Sink, N: Sink>(
    alloc: Global,
    number: u32,
    command: &Command,
    out: &mut O,
    notes: &mut N,
    kept: &mut Option<Joined>,
) -> Status
    requires ranges { HasRanges command.now.schema_task }
    requires none { kept.old ≡ None }
    ensures course { (words : List (List ℕ)) → command_stage words ≡ Ok command.now → CallHistory (record {
      words = words;
      status = result;
      store = shop_store number;
      out = growth O.taken O.faults out.old out.new;
      notes = growth N.taken N.faults notes.old notes.new;
    }) }
    ensures kept { result ≡ Status.Done → KeepsItsBuffers (shop_store number) (command_run command.now) kept.new }
{
    match open_shop(alloc, number) {
        Ok(mut shop) => run(alloc, command, &mut shop, out, notes, kept),
        Err(NoMemory) => report_failure(Failure::NoMemory, command, None, notes),
    }
}

// Runs a command over the files of its shop, if it asks for one (`demo`), and otherwise over the files of this store.
fn run_command<S: Store, O: Sink, N: Sink>(
    alloc: Global,
    command: &Command,
    store: &mut S,
    out: &mut O,
    notes: &mut N,
    kept: &mut Option<Joined>,
) -> Status
    requires ranges { HasRanges command.now.schema_task }
    requires none { kept.old ≡ None }
    ensures course { (words : List (List ℕ)) → command_stage words ≡ Ok command.now → CallHistory (record {
      words = words;
      status = result;
      store = store_read command.now.shop (reading S.files S.faults S.misses store.old store.new);
      out = growth O.taken O.faults out.old out.new;
      notes = growth N.taken N.faults notes.old notes.new;
    }) }
    ensures untouched { IfSome command.now.shop (λ number. store.new ≡ store.old) }
    ensures kept { result ≡ Status.Done
        → KeepsItsBuffers (store_read command.now.shop (reading S.files S.faults S.misses store.old store.new)) (command_run command.now) kept.new }
{
    match command.shop {
        Some(number) => run_shop(alloc, number, command, out, notes, kept),
        None => run(alloc, command, store, out, notes, kept),
    }
}

/// Writes the line for words that are no command.
pub fn refuse_words<N: Sink>(notes: &mut N) -> Status
    ensures status { result ≡ Status.Refused Refusal.Usage }
    ensures told { StatusReported (growth N.taken N.faults notes.old notes.new) (status_line result None None) }
{
    let status = Status::Refused(Refusal::Usage);
    report(status, None, None, notes);
    status
}

/// Runs a command. It reads the files that the words name, plans the query, and takes all memory. Then it writes the plan text to `notes`. If the
/// words ask for the rows text or the audit text, it writes this text to `out`. If the command can't be run, one line in `notes` says why.
///
/// Some commands differ. `stats` writes a statistics file to `out` and no plan. `plan --stats` reads a statistics file and no table. `append`
/// reads a statistics file and new rows, and writes a statistics file to `out` that also counts these rows. `demo` reads files that it makes in
/// memory, and leaves `store` as it is.
///
/// After `run`, `audit` or `demo`, `kept` has the buffers of the joins, with the rows of each level or of each inner node. The buffers hold exactly
/// the bytes of the plan (each capacity times the size of an item). With `--memory N` the plan text prints this number, and it is at most N
/// (sentences 1 and 9 of the headline). No other command takes buffers for joins. The caller frees them.
///
/// The contract says what `run` promises (`specs/Promise.antt`), what comes out of any call (`specs/Headline.antt`, sentence by sentence),
/// and what the buffers hold (`KeepsItsBuffers` of prepared_runs).
pub fn safebound<S: Store, O: Sink, N: Sink>(
    alloc: Global,
    words: &[&str],
    store: &mut S,
    out: &mut O,
    notes: &mut N,
    kept: &mut Option<Joined>,
) -> Status
    requires none { kept.old ≡ None }
    ensures promise { Promise (record {
      words = map (λ w. w.now) words.now;
      status = result;
      store = store_read (demo_number_of (map (λ w. w.now) words.now)) (reading S.files S.faults S.misses store.old store.new);
      out = growth O.taken O.faults out.old out.new;
      notes = growth N.taken N.faults notes.old notes.new;
    }) }
    ensures headline { Headline (record {
      words = map (λ w. w.now) words.now;
      status = result;
      store = store_read (demo_number_of (map (λ w. w.now) words.now)) (reading S.files S.faults S.misses store.old store.new);
      out = growth O.taken O.faults out.old out.new;
      notes = growth N.taken N.faults notes.old notes.new;
    }) }
    ensures untouched { IfSome (demo_number_of (map (λ w. w.now) words.now)) (λ number. store.new ≡ store.old) }
    ensures buffers { result ≡ Status.Done → KeepsItsBuffers
        (store_read (demo_number_of (map (λ w. w.now) words.now)) (reading S.files S.faults S.misses store.old store.new))
        (verdict (map (λ w. w.now) words.now)) kept.new }
{
    match read_words(words) {
        Ok(command) => run_command(alloc, &command, store, out, notes, kept),
        Err(_) => refuse_words(notes),
    }
}
