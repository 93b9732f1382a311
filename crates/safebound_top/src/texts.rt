//! The texts that a run writes to its two streams. Nothing here allocates memory.
ghost use Rattle.std.specs.Prelude.{◌≡◌, ◌++◌, ℕ, List, None, OnOk, Some, length};
ghost use Rattle.base_io.specs.Devices.{Growth, growth};
ghost use Rattle.base_io.specs.Writes.{Wrote};
ghost use Rattle.printed_texts.specs.Memory.{memory_text};
ghost use Rattle.printed_texts.specs.Texts.{rows_lines};
ghost use Rattle.sql_meaning.specs.Databases.{IsDatabaseOf};
ghost use Rattle.joined_texts.specs.Printed.{printed_rows};
ghost use Rattle.stats_file.specs.FileText.{file_text};
ghost use Rattle.stats_file.specs.Rules.{KeepsRules};
ghost use Rattle.safebound_top.specs.CallHistory.{TextsWritten, WroteIfAny};
ghost use Rattle.safebound_top.specs.Headline.{DidNotGrow};
ghost use Rattle.prepared_runs.specs.KeptBuffers.{HasParts, IsJoined, HasBuffersOf, KeepsPending, counts_in};
ghost use Rattle.prepared_runs.specs.RunOutcome.{RunOutcome};
ghost use Rattle.safebound_top.specs.OutcomeTexts.{notes_text, out_text};
ghost use Rattle.prepared_runs.specs.PreparedQuery.{HasRoom, IsPrepared, pending_plan, text_from};
ghost use Rattle.prepared_runs.specs.PreparedRun.{CanBeWritten, IsPlanned, outcome_of, plan_from, planned_outcome};
ghost use Rattle.prepared_runs.specs.Shapes.{IsShapedPlan, joined_entries, shape_audits, shape_lines};

use base_io::{Failed, Sink};
use csv_tables::Database;
use joined_texts::{write_audit, write_rows, write_tree_audit};
use outcomes::SinkId;
use plans::BushyPlan;
use prepared_runs::{
    Joined, PendingOutput, PreparedQuery, PreparedRun, PreparedStatsFilePlan, join,
};
use printed_texts::{write_memory, write_plan, write_tree};
use query_types::{Query, Source};
use safebound_words::Shape;
use schema_types::Schema;
use stats_file::{StatsFile, write_stats};

// Writes the rows text of a plan that was joined.
fn write_joined<O: Sink>(
    joined: &Joined,
    query: &Query,
    db: &Database,
    out: &mut O,
) -> Result<(), Failed>
    requires database { IsDatabaseOf query.now db.now }
    requires joined { (lists : List (List ℕ)) × IsJoined query.now db.now lists joined.now }
    ensures { Wrote (growth O.taken O.faults out.old out.new)
        (rows_lines query.now.select (printed_rows query.now db.now (joined_entries joined.now.plan))) result }
{
    write_rows(&joined.done, query, db, out)
}

// Writes the audit text of a plan that was joined: how many rows each level or inner node has.
fn write_audit_text<O: Sink>(
    joined: &Joined,
    shape: Shape,
    query: &Query,
    db: &Database,
    out: &mut O,
) -> Result<(), Failed>
    requires database { IsDatabaseOf query.now db.now }
    requires parts { HasParts (length query.now.from) shape joined.now }
    ensures { Wrote (growth O.taken O.faults out.old out.new)
        (shape_audits query.now.from shape joined.now.plan (counts_in query.now db.now shape joined.now)) result }
{
    match shape {
        Shape::Order => write_audit(&joined.done, &joined.plan, query, db, out),
        Shape::Tree => write_tree_audit(&joined.done, &joined.plan, out),
    }
}

// If joins are pending, does them, writes the rows text or the audit text, and hands out the buffers with the rows.
fn join_and_write<O: Sink>(
    rest: PendingOutput,
    shape: Shape,
    query: &Query,
    db: &Database,
    out: &mut O,
    kept: &mut Option<Joined>,
) -> Result<(), Failed>
    requires database { IsDatabaseOf query.now db.now }
    requires plan { IsShapedPlan (length query.now.from) shape (pending_plan rest) }
    requires room { HasRoom query.now db.now rest }
    requires none { kept.old ≡ None }
    ensures text { WroteIfAny (growth O.taken O.faults out.old out.new) (text_from shape rest query.now db.now) result }
    ensures kept { KeepsPending query.now db.now shape rest kept.new }
{
    match rest {
        PendingOutput::Rows(joins) => {
            let joined = join(joins, query, db);
            let result = write_joined(&joined, query, db, out);
            *kept = Some(joined);
            result
        }
        PendingOutput::Audit(joins) => {
            let joined = join(joins, query, db);
            let result = write_audit_text(&joined, shape, query, db, out);
            *kept = Some(joined);
            result
        }
        PendingOutput::Nothing(_) => Ok(()),
    }
}

// The plan of the output that is pending.
fn plan_of(rest: &PendingOutput) -> &BushyPlan
    ensures { result.now ≡ pending_plan rest.now }
{
    match rest {
        PendingOutput::Rows(joins) => &joins.room.plan,
        PendingOutput::Audit(joins) => &joins.room.plan,
        PendingOutput::Nothing(plan) => plan,
    }
}

// Writes the plan text of an order or of a tree, without the line of its bytes.
fn write_plan_lines<N: Sink>(
    shape: Shape,
    plan: &BushyPlan,
    sources: &[Source],
    notes: &mut N,
) -> Result<(), Failed>
    requires { IsShapedPlan (length sources.now) shape plan.now }
    ensures { Wrote (growth N.taken N.faults notes.old notes.new) (shape_lines sources.now shape plan.now) result }
{
    match shape {
        Shape::Order => write_plan(plan, sources, notes),
        Shape::Tree => write_tree(plan, sources, notes),
    }
}

// Writes the plan text of a plan. If memory is limited, it adds the line with the bytes of the plan.
fn write_plan_text<N: Sink>(
    shape: Shape,
    plan: &BushyPlan,
    memory: Option<u64>,
    bytes: u128,
    sources: &[Source],
    notes: &mut N,
) -> Result<(), Failed>
    requires { IsShapedPlan (length sources.now) shape plan.now }
    ensures { Wrote (growth N.taken N.faults notes.old notes.new) (shape_lines sources.now shape plan.now ++ memory_text memory bytes) result }
{
    write_plan_lines(shape, plan, sources, notes)?;
    write_memory(memory, bytes, notes)
}

// Writes the plan text to `notes`. If joins are pending, then does them, writes the text for `out`, and hands out the buffers of the joins.
fn write_texts<O: Sink, N: Sink>(
    prepared: PreparedQuery,
    out: &mut O,
    notes: &mut N,
    kept: &mut Option<Joined>,
) -> Result<(), SinkId>
    requires ready { IsPrepared prepared }
    requires none { kept.old ≡ None }
    ensures texts { TextsWritten (growth O.taken O.faults out.old out.new) (growth N.taken N.faults notes.old notes.new)
        (planned_outcome prepared) result }
    ensures kept { OnOk result (HasBuffersOf (planned_outcome prepared) kept.new) }
{
    let PreparedQuery {
        query,
        db,
        source: _,
        shape,
        memory,
        bytes,
        rest,
    } = prepared;
    let plan = plan_of(&rest);
    match write_plan_text(shape, plan, memory, bytes, query.from.as_slice(), notes) {
        Ok(()) => {}
        Err(Failed) => return Err(SinkId::Notes),
    }
    match join_and_write(rest, shape, &query, &db, out, kept) {
        Ok(()) => Ok(()),
        Err(Failed) => Err(SinkId::Out),
    }
}

// Writes the text of a statistics file to `out`, and nothing to `notes`.
fn write_file<O: Sink>(file: &StatsFile, schema: &Schema, out: &mut O) -> Result<(), SinkId>
    requires { KeepsRules schema.now file.now }
    ensures { (notes : Growth) (outcome : RunOutcome) → DidNotGrow notes → notes_text outcome ≡ None
        → out_text outcome ≡ Some (file_text schema.now file.now) → TextsWritten (growth O.taken O.faults out.old out.new) notes outcome result }
{
    match write_stats(file, schema, out) {
        Ok(()) => Ok(()),
        Err(_) => Err(SinkId::Out),
    }
}

// Writes the plan text of a plan from a statistics file to `notes`, and nothing to `out`.
fn write_stats_file_plan<N: Sink>(made: PreparedStatsFilePlan, notes: &mut N) -> Result<(), SinkId>
    requires { IsPlanned made }
    ensures { (out : Growth) → DidNotGrow out → TextsWritten out (growth N.taken N.faults notes.old notes.new) (plan_from made) result }
{
    let PreparedStatsFilePlan {
        query,
        file: _,
        shape,
        plan,
        memory,
        bytes,
    } = made;
    match write_plan_text(shape, &plan, memory, bytes, query.from.as_slice(), notes) {
        Ok(()) => Ok(()),
        Err(Failed) => Err(SinkId::Notes),
    }
}

/// Writes the texts of a run: first its text for `notes`, and then its text for `out`. A run may have only one of the two. If the run joins, the call
/// hands out the buffers with the rows of the joins.
pub fn write_outcome<O: Sink, N: Sink>(
    ready: PreparedRun,
    schema: &Schema,
    out: &mut O,
    notes: &mut N,
    kept: &mut Option<Joined>,
) -> Result<(), SinkId>
    requires ready { CanBeWritten schema.now ready }
    requires none { kept.old ≡ None }
    ensures texts { TextsWritten (growth O.taken O.faults out.old out.new) (growth N.taken N.faults notes.old notes.new)
        (outcome_of schema.now ready) result }
    ensures kept { OnOk result (HasBuffersOf (outcome_of schema.now ready) kept.new) }
{
    match ready {
        PreparedRun::Planned(prepared) => write_texts(prepared, out, notes, kept),
        PreparedRun::StatsMade(made_stats) => write_file(&made_stats.file, schema, out),
        PreparedRun::PlannedFromStats(made) => write_stats_file_plan(made, notes),
        PreparedRun::Appended(made) => write_file(&made.file, schema, out),
    }
}
