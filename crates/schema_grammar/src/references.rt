//! Reads the target of a reference: a table, and its columns if they are written (SQL-92 11.8).
ghost use Rattle.ll_grammars.specs.Rules.{IsReadAs};
ghost use Rattle.schema_grammar.specs.Readers.{read_action, read_target, read_triggered_action, read_triggered_actions};

use crate::names::{name, name_list};
use crate::terminals::{ACTION, CASCADE, DELETE_OR_UPDATE, NO, NULL_OR_DEFAULT, ON, OPEN, SET};
use crate::tree::TargetNode;
use ll_grammars::{Reader, Stop};

// NO ACTION | CASCADE | SET NULL | SET DEFAULT
#[tactic(auto, unfolding(crate::specs::Readers::read_action))]
fn action(reader: &mut Reader<'_>) -> Result<(), Stop>
    ensures { IsReadAs result reader.new (read_action reader.old) }
{
    if reader.starts(NO) {
        reader.one(NO)?;
        reader.one(ACTION)?;
    } else if reader.starts(CASCADE) {
        reader.one(CASCADE)?;
    } else {
        reader.one(SET)?;
        reader.one(NULL_OR_DEFAULT)?;
    }
    Ok(())
}

// ON ( DELETE | UPDATE ) action
#[tactic(auto, unfolding(crate::specs::Readers::read_triggered_action))]
fn triggered_action(reader: &mut Reader<'_>) -> Result<(), Stop>
    ensures { IsReadAs result reader.new (read_triggered_action reader.old) }
{
    reader.one(ON)?;
    reader.one(DELETE_OR_UPDATE)?;
    action(reader)
}

#[tactic(auto, using(crate::proofs::ActionLoop::actions_stop, crate::proofs::ActionLoop::actions_end))]
fn triggered_actions(reader: &mut Reader<'_>) -> Result<(), Stop>
    ensures { IsReadAs result reader.new (read_triggered_actions reader.old) }
{
    'actions: while reader.starts(ON) {
        triggered_action(reader)?;
    }
    Ok(())
}

// name [ "(" names ")" ] { ON .. }
#[tactic(auto, unfolding(crate::specs::Readers::read_target))]
pub fn target(reader: &mut Reader<'_>) -> Result<TargetNode, Stop>
    ensures { IsReadAs result reader.new (read_target reader.old) }
{
    let table = name(reader)?;
    let columns = if reader.starts(OPEN) {
        Some(name_list(reader)?)
    } else {
        None
    };
    triggered_actions(reader)?;
    Ok(TargetNode { table, columns })
}
