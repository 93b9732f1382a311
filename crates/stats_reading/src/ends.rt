//! Lines that end the current pair or table. What they end must be complete.
ghost use Rattle.std.specs.Prelude.{◌≡◌, ◌↔◌, IsTrue, OnOk};
ghost use Rattle.stats_reading.specs.Drafts.{pair_ended, table_ended, HasAllNodes};
ghost use Rattle.stats_reading.specs.declared.draft.Draft.{Draft as State};
ghost use Rattle.stats_reading.specs.Steps.{Ends, PairEnds, TableEnds};

use crate::draft::{Draft, new_pair, new_section};
use crate::fault::Fault;
use crate::stages::Stage;
use base_io::NoMemory;
use std::alloc::Global;

fn has_all_nodes(draft: &Draft) -> bool
    ensures { IsTrue result ↔ HasAllNodes draft.now }
{
    draft.section.rows == 0 || (draft.pair.cuts.len() == 32 && draft.pair.nodes.len() == 63)
}

fn push_pair(alloc: Global, draft: &mut Draft) -> Result<(), NoMemory>
    ensures { OnOk result (draft.new ≡ pair_ended draft.old) }
{
    let pair = std::mem::replace(&mut draft.pair, new_pair(alloc, 0, 0));
    draft.section.pairs.push(pair)
}

fn push_section(alloc: Global, draft: &mut Draft) -> Result<(), NoMemory>
    ensures { OnOk result (draft.new ≡ table_ended draft.old) }
{
    let section = std::mem::replace(&mut draft.section, new_section(alloc, 0, 0));
    draft.tables.push(section)
}

fn end_open_pair(alloc: Global, draft: &mut Draft) -> Result<(), Fault>
    ensures { Ends (λ t. HasAllNodes draft.old × (t ≡ pair_ended draft.old)) draft.new result }
{
    if !has_all_nodes(draft) {
        return Err(Fault::Rule);
    }
    push_pair(alloc, draft)?;
    Ok(())
}

/// If a pair is being read, adds it to the table, or refuses the line if the pair isn't complete.
pub fn end_pair(alloc: Global, draft: &mut Draft) -> Result<(), Fault>
    ensures { Ends (PairEnds draft.old.stage draft.old) draft.new result }
{
    match draft.stage {
        Stage::Cuts | Stage::Nodes => end_open_pair(alloc, draft),
        _ => Ok(()),
    }
}

fn end_open_table(alloc: Global, draft: &mut Draft) -> Result<(), Fault>
    ensures { Ends (λ t. (m : State) × PairEnds draft.old.stage draft.old m × (t ≡ table_ended m)) draft.new result }
{
    end_pair(alloc, draft)?;
    push_section(alloc, draft)?;
    Ok(())
}

/// If a table is being read, adds it to the file, or refuses the line if its last pair isn't complete.
pub fn end_table(alloc: Global, draft: &mut Draft) -> Result<(), Fault>
    ensures { Ends (TableEnds draft.old.stage draft.old) draft.new result }
{
    match draft.stage {
        Stage::Tables => Ok(()),
        _ => end_open_table(alloc, draft),
    }
}
