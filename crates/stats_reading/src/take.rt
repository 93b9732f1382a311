//! Takes one line into a draft.
ghost use Rattle.std.specs.Prelude.{◌≡◌, ◌<◌, ◌++◌, ℕ, List, false, codes, length, OnOk};
ghost use Rattle.schema_types.specs.Validity.{IsValid};
ghost use Rattle.stats_reading.specs.declared.draft.Draft.{Draft as State};
ghost use Rattle.stats_reading.specs.Drafts.{PairsAscend, TablesAscend};
ghost use Rattle.stats_reading.specs.IsTaken.{LineAnswers, BeginsPairOf, BeginsTable, IsReady, LineIsRead};
ghost use Rattle.stats_reading.specs.Kinds.{is_tested, AreLineParts, HasEmptySecond, IsLineOf};
ghost use Rattle.stats_reading.specs.Steps.{EndsAnd, PairEnds, TableEnds};
ghost use Rattle.stats_reading.specs.Valid.{IsValidDraft};

use crate::begins::{take_pair, take_table};
use crate::draft::Draft;
use crate::ends::{end_pair, end_table};
use crate::fault::Fault;
use crate::line::{Line, LineKind};
use crate::stages::stage_after;
use crate::takes::{take_accuracy, take_cut, take_frequent, take_node, take_rest, take_whole};
use schema_types::Schema;
use std::alloc::Global;

// Ends the table that is being read, and begins another table.
fn take_table_line(
    alloc: Global,
    schema: &Schema,
    draft: &mut Draft,
    name: &[u8],
    rows: &[u8],
) -> Result<(), Fault>
    requires valid { IsValid schema.now }
    requires ascend { (m : State) → TableEnds draft.old.stage draft.old m → TablesAscend m }
    ensures { EndsAnd (TableEnds draft.old.stage draft.old) (BeginsTable schema.now draft.new (name.now, rows.now)) result }
{
    match end_table(alloc, draft) {
        Err(fault) => Err(fault),
        Ok(()) => take_table(alloc, schema, draft, name, rows),
    }
}

// Ends the pair that is being read, and begins another pair.
fn take_pair_line(
    alloc: Global,
    schema: &Schema,
    draft: &mut Draft,
    filter: &[u8],
    joined: &[u8],
) -> Result<(), Fault>
    requires valid { IsValid schema.now }
    requires exists { draft.old.section.table < length schema.now.tables }
    requires ascend { (m : State) → PairEnds draft.old.stage draft.old m → PairsAscend m }
    ensures { EndsAnd (PairEnds draft.old.stage draft.old) (BeginsPairOf schema.now draft.new (filter.now, joined.now)) result }
{
    match end_pair(alloc, draft) {
        Err(fault) => Err(fault),
        Ok(()) => {
            let table = schema.tables.get(draft.section.table as usize);
            take_pair(alloc, table, draft, filter, joined)
        }
    }
}

// Reads the words of a line whose kind may come next.
fn take_words(alloc: Global, schema: &Schema, draft: &mut Draft, line: Line) -> Result<(), Fault>
    requires schema { IsValid schema.now }
    requires ready { IsReady line.kind schema.now draft.old }
    ensures { LineIsRead schema.now line.entry.kind draft.old draft.new (line.entry.first.now, line.entry.second.now) result }
{
    match line.kind {
        LineKind::First => take_accuracy(draft, line.first),
        LineKind::Table => take_table_line(alloc, schema, draft, line.first, line.second),
        LineKind::Pair => take_pair_line(alloc, schema, draft, line.first, line.second),
        LineKind::Whole => take_whole(alloc, draft, line.first),
        LineKind::Frequent => take_frequent(alloc, draft, line.first, line.second),
        LineKind::Rest => take_rest(alloc, draft, line.first),
        LineKind::Cut => take_cut(alloc, draft, line.first),
        LineKind::Node => take_node(alloc, draft, line.first),
        LineKind::End => end_table(alloc, draft),
    }
}

/// Takes a line, if its kind and its words may come next. Of some kinds of lines the caller has tested the words against the grammar (`is_tested`).
/// For the other kinds, words that are taken are words of the grammar.
pub fn take(alloc: Global, schema: &Schema, draft: &mut Draft, line: Line) -> Result<(), Fault>
    requires schema { IsValid schema.now }
    requires valid { IsValidDraft draft.old.stage schema.now draft.old }
    requires empty_second { HasEmptySecond line.kind line.second.now }
    ensures answers { (l : List ℕ) → IsLineOf line.entry.kind line.entry.first.now line.entry.second.now l
        → LineAnswers schema.now draft.old draft.new (l ++ codes "\n") result }
    ensures known { is_tested line.entry.kind ≡ false
        → OnOk result (AreLineParts line.entry.kind line.entry.first.now line.entry.second.now) }
{
    let Some(stage) = stage_after(draft.stage, line.kind) else {
        return Err(Fault::Syntax);
    };
    match take_words(alloc, schema, draft, line) {
        Err(fault) => Err(fault),
        Ok(()) => {
            draft.stage = stage;
            Ok(())
        }
    }
}
