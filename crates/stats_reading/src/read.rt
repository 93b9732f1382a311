//! Reads a statistics file from its bytes.
ghost use Rattle.std.specs.Prelude.{◌≡◌, ◌≤◌, ◌↔◌, ◌++◌, [], codes, length, IsTrue};
ghost use Rattle.limits.specs.Profile.{most_file};
ghost use Rattle.schema_types.specs.Validity.{IsValid};
ghost use Rattle.stats_file.specs.Answers.{IsAllowedResult as FileAnswers};
ghost use Rattle.stats_reading.specs.declared.stages.Stage.TheVariants as stages;
ghost use Rattle.stats_reading.specs.IsTaken.{LineAnswers};
ghost use Rattle.stats_reading.specs.Remaining.{file_of_draft};
ghost use Rattle.stats_reading.specs.Refusals.{refusal_of};
ghost use Rattle.stats_reading.specs.Valid.{IsValidDraft};

use crate::draft::Draft;
use crate::fault::Fault;
use crate::line::{Line, fault_of, kind_of, may_be_read, words_in};
use crate::stages::Stage;
use crate::take::take;
use schema_types::Schema;
use stats_file::{StatsError, StatsFile};
use stats_words::split_at_byte;
use std::alloc::Global;

fn refusal(fault: Fault, line: u32) -> StatsError
    ensures { result ≡ refusal_of line fault }
{
    match fault {
        Fault::Syntax => StatsError::Syntax { line },
        Fault::Rule => StatsError::Rule { line },
        Fault::NoMemory => StatsError::NoMemory,
    }
}

// Takes a line without its line end. The words of lists and values are read in one pass, and tested against the grammar only if they are refused. Two
// calls find the kind and the words, since an `Option` of both is slow to copy.
fn take_line(alloc: Global, schema: &Schema, draft: &mut Draft, text: &[u8]) -> Result<(), Fault>
    requires schema { IsValid schema.now }
    requires valid { IsValidDraft draft.old.stage schema.now draft.old }
    ensures { LineAnswers schema.now draft.old draft.new (text.now ++ codes "\n") result }
{
    let Some(kind) = kind_of(text) else {
        return Err(Fault::Syntax);
    };
    let Some((first, second)) = words_in(kind, text) else {
        return Err(Fault::Syntax);
    };
    let line = Line {
        kind,
        first,
        second,
    };
    if !may_be_read(line) {
        return Err(Fault::Syntax);
    }
    match take(alloc, schema, draft, line) {
        Ok(()) => Ok(()),
        Err(fault) => Err(fault_of(line, fault)),
    }
}

fn is_done(draft: &Draft) -> bool
    ensures { IsTrue result ↔ (draft.now.stage ≡ stages.Done) }
{
    matches!(draft.stage, Stage::Done)
}

fn is_complete(draft: &Draft, rest: &[u8]) -> bool
    ensures { IsTrue result ↔ ((draft.now.stage ≡ stages.Done) × (rest.now ≡ [])) }
{
    rest.is_empty() && is_done(draft)
}

fn finish(draft: Draft) -> StatsFile
    ensures { result ≡ file_of_draft draft [] }
{
    let Draft {
        stage: _,
        accuracy,
        tables,
        section: _,
        pair: _,
        kind: _,
        same_filter_at: _,
        same_joined_at: _,
    } = draft;
    StatsFile { accuracy, tables }
}

/// Reads the text of a file over a schema. Out: the file, or the first line that is refused, counted from 1. `Syntax`: no text of the grammar begins
/// with the lines up to this one. `Rule`: some text of the grammar begins with them, but no text of a file that keeps the rules. A text that ends
/// too early is refused with `Syntax`, at the line after its last complete line.
pub fn read_stats(alloc: Global, schema: &Schema, bytes: &[u8]) -> Result<StatsFile, StatsError>
    requires schema { IsValid schema.now }
    requires length { length bytes.now ≤ most_file }
    ensures { FileAnswers schema.now bytes.now result }
{
    let mut draft = Draft::new(alloc);
    let mut line: u32 = 1;
    let mut rest = bytes;
    'lines: while let Some((text, others)) = split_at_byte(rest, b'\n') {
        if let Err(fault) = take_line(alloc, schema, &mut draft, text) {
            return Err(refusal(fault, line));
        }
        rest = others;
        line += 1;
    }
    if is_complete(&draft, rest) {
        Ok(finish(draft))
    } else {
        Err(StatsError::Syntax { line })
    }
}
