//! Which kinds of lines the grammar allows next.
ghost use Rattle.std.specs.Prelude.{◌≡◌};
ghost use Rattle.stats_reading.specs.declared.stages.Stage.TheVariants as stages;
ghost use Rattle.stats_reading.specs.Stages.{next_stage};

use crate::line::LineKind;

/// A stage is named after the lines that may come next. Its comment says what was read last.
#[derive(Clone, Copy, Debug, PartialEq, Eq)]
pub enum Stage {
    /// Nothing.
    Start,
    /// The first line, or a table that is complete.
    Tables,
    /// The line of a table, or a pair that is complete.
    Pairs,
    /// The line of a pair.
    Whole,
    /// The list of all rows, or a frequent value.
    Frequent,
    /// The list of the other values, or a cut.
    Cuts,
    /// A node.
    Nodes,
    /// The last line.
    Done,
}

fn after_tables(kind: LineKind) -> Option<Stage>
    ensures { result ≡ next_stage stages.Tables kind }
{
    match kind {
        LineKind::Table => Some(Stage::Pairs),
        LineKind::End => Some(Stage::Done),
        _ => None,
    }
}

fn after_pairs(kind: LineKind) -> Option<Stage>
    ensures { result ≡ next_stage stages.Pairs kind }
{
    match kind {
        LineKind::Pair => Some(Stage::Whole),
        LineKind::Table => Some(Stage::Pairs),
        LineKind::End => Some(Stage::Done),
        _ => None,
    }
}

fn after_frequent(kind: LineKind) -> Option<Stage>
    ensures { result ≡ next_stage stages.Frequent kind }
{
    match kind {
        LineKind::Frequent => Some(Stage::Frequent),
        LineKind::Rest => Some(Stage::Cuts),
        _ => None,
    }
}

fn after_cuts(kind: LineKind) -> Option<Stage>
    ensures { result ≡ next_stage stages.Cuts kind }
{
    match kind {
        LineKind::Cut => Some(Stage::Cuts),
        LineKind::Node => Some(Stage::Nodes),
        LineKind::Pair => Some(Stage::Whole),
        LineKind::Table => Some(Stage::Pairs),
        LineKind::End => Some(Stage::Done),
        _ => None,
    }
}

fn after_nodes(kind: LineKind) -> Option<Stage>
    ensures { result ≡ next_stage stages.Nodes kind }
{
    match kind {
        LineKind::Node => Some(Stage::Nodes),
        LineKind::Pair => Some(Stage::Whole),
        LineKind::Table => Some(Stage::Pairs),
        LineKind::End => Some(Stage::Done),
        _ => None,
    }
}

fn after_start(kind: LineKind) -> Option<Stage>
    ensures { result ≡ next_stage stages.Start kind }
{
    match kind {
        LineKind::First => Some(Stage::Tables),
        _ => None,
    }
}

fn after_pair_line(kind: LineKind) -> Option<Stage>
    ensures { result ≡ next_stage stages.Whole kind }
{
    match kind {
        LineKind::Whole => Some(Stage::Frequent),
        _ => None,
    }
}

/// The stage after a line of this kind, if the grammar allows such a line at this stage.
pub fn stage_after(stage: Stage, kind: LineKind) -> Option<Stage>
    ensures { result ≡ next_stage stage kind }
{
    match stage {
        Stage::Start => after_start(kind),
        Stage::Tables => after_tables(kind),
        Stage::Pairs => after_pairs(kind),
        Stage::Whole => after_pair_line(kind),
        Stage::Frequent => after_frequent(kind),
        Stage::Cuts => after_cuts(kind),
        Stage::Nodes => after_nodes(kind),
        Stage::Done => None,
    }
}
