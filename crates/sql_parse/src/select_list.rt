//! Resolves the names of the SELECT list, each once, and gathers the outputs that the list gives.
ghost use Rattle.std.specs.Prelude.{◌≡◌, ◌≤◌, ◌+◌, ◌++◌, [], All, IfOk, IfErr, length};
ghost use Rattle.std.specs.List.{flat_map};
ghost use Rattle.limits.specs.Profile.{most_entries, most_outputs};
ghost use Rattle.schema_types.specs.Validity.{IsValid};
ghost use Rattle.sql_tokens.specs.Words.{IsLexemeOf};
ghost use Rattle.query_grammar.specs.Lexemes.{IsOutWith, IsOutListWith};
ghost use Rattle.query_names.specs.Answers.{IsNameError};
ghost use Rattle.query_names.specs.Scopes.{whole_scope};
ghost use Rattle.query_names.specs.Binding.{FirstTwoAreEnough, schema_of, from_of, out_offences_of, outs_offences_of};
ghost use Rattle.sql_parse.specs.Outputs.{all_outs_by, outs_by, selected_by, capped};

use crate::outputs::{FoundOutputs, add_column, add_entry};
use base_io::NoMemory;
use query_grammar::{OutNode, OutsNode};
use query_names::{Binder, Entry, QueryError, Visible};
use sql_tokens::name;

/// The outputs of `*`: the columns of all entries.
#[tactic(auto, using(crate::proofs::OutFacts::none_before, crate::proofs::OutFacts::all_before))]
fn all_outputs(binder: &Binder<'_>) -> Result<FoundOutputs, NoMemory>
    requires valid { IsValid (schema_of binder.now) }
    ensures count { IfOk result (λ found. found.count ≡ capped (length (all_outs_by binder.now))) }
    ensures outs { IfOk result (λ found. length (from_of binder.now) ≤ most_entries → found.count ≤ most_outputs
        → found.outs ≡ all_outs_by binder.now) }
{
    let mut found = FoundOutputs::new(binder.alloc);
    'all: for number in 0..binder.entries.sources.len() {
        let table = binder.entries.sources.as_slice()[number].table;
        add_entry(binder, Entry { number, table }, &mut found)?;
    }
    Ok(found)
}

/// Resolves the name of an item of the list, and adds the outputs that the item gives.
#[tactic(auto, using(crate::proofs::OutFacts::named_entry_in_8_bits), unfolding(query_names::specs::Binding::out_offences_of, crate::specs::Outputs::outs_by, crate::specs::Outputs::outs_of_entry_by))]
fn add_out(
    binder: &Binder<'_>,
    visible: &Visible,
    out: &OutNode,
    found: &mut FoundOutputs,
) -> Result<(), QueryError>
    requires first_two_enough { FirstTwoAreEnough binder.now visible.now }
    requires all { visible.now.scope ≡ whole_scope (from_of binder.now) }
    requires valid { IsValid (schema_of binder.now) }
    requires tokens { IsOutWith (IsLexemeOf binder.now.text.now) out.now }
    ensures names { IfOk result (λ _. out_offences_of binder.now visible.now.scope out.now ≡ []) }
    ensures count { IfOk result (λ _. found.new.count ≡ capped (found.old.count + length (outs_by binder.now out.now))) }
    ensures outs { IfOk result (λ _. length (from_of binder.now) ≤ most_entries → found.new.count ≤ most_outputs
        → found.new.outs ≡ found.old.outs ++ outs_by binder.now out.now) }
    ensures err { IfErr result (IsNameError (out_offences_of binder.now visible.now.scope out.now)) }
{
    match out {
        OutNode::All(token) => {
            let alias = name(binder.alloc, binder.text, token)?;
            match binder.entry_named(visible.scope, alias.as_str()) {
                Some(entry) => Ok(add_entry(binder, entry, found)?),
                None => Err(QueryError::Name { at: token.start }),
            }
        }
        OutNode::Column { column, name } => match binder.resolve(visible, column)? {
            Some(one) => {
                let token = name.unwrap_or(column.column);
                Ok(add_column(binder, one, &token, found)?)
            }
            None => Err(QueryError::Name {
                at: column.table.unwrap_or(column.column).start,
            }),
        },
    }
}

/// Resolves the names of all items of a list, in text order, and gathers the outputs that the items give.
fn listed(
    binder: &Binder<'_>,
    visible: &Visible,
    list: &[OutNode],
) -> Result<FoundOutputs, QueryError>
    requires first_two_enough { FirstTwoAreEnough binder.now visible.now }
    requires all { visible.now.scope ≡ whole_scope (from_of binder.now) }
    requires valid { IsValid (schema_of binder.now) }
    requires tokens { All (IsOutWith (IsLexemeOf binder.now.text.now)) list.now }
    ensures names { IfOk result (λ _. flat_map (out_offences_of binder.now visible.now.scope) list.now ≡ []) }
    ensures count { IfOk result (λ found. found.count ≡ capped (length (flat_map (outs_by binder.now) list.now))) }
    ensures outs { IfOk result (λ found. length (from_of binder.now) ≤ most_entries → found.count ≤ most_outputs
        → found.outs ≡ flat_map (outs_by binder.now) list.now) }
    ensures err { IfErr result (IsNameError (flat_map (out_offences_of binder.now visible.now.scope) list.now)) }
{
    let mut found = FoundOutputs::new(binder.alloc);
    'all: for out in list {
        add_out(binder, visible, out, &mut found)?;
    }
    Ok(found)
}

/// Resolves the names of the SELECT list, in text order, and gathers the outputs.
#[tactic(auto, unfolding(query_names::specs::Binding::outs_offences_of, query_names::specs::Binding::out_offences_of, crate::specs::Outputs::selected_by, crate::specs::Outputs::all_outs_by, crate::specs::Outputs::outs_by))]
pub fn select(
    binder: &Binder<'_>,
    visible: &Visible,
    outs: &OutsNode,
) -> Result<FoundOutputs, QueryError>
    requires first_two_enough { FirstTwoAreEnough binder.now visible.now }
    requires all { visible.now.scope ≡ whole_scope (from_of binder.now) }
    requires valid { IsValid (schema_of binder.now) }
    requires tokens { IsOutListWith (IsLexemeOf binder.now.text.now) outs.now }
    ensures names { IfOk result (λ _. outs_offences_of binder.now visible.now.scope outs.now ≡ []) }
    ensures count { IfOk result (λ found. found.count ≡ capped (length (selected_by binder.now outs.now))) }
    ensures outs { IfOk result (λ found. length (from_of binder.now) ≤ most_entries → found.count ≤ most_outputs
        → found.outs ≡ selected_by binder.now outs.now) }
    ensures err { IfErr result (IsNameError (outs_offences_of binder.now visible.now.scope outs.now)) }
{
    match outs {
        OutsNode::All => Ok(all_outputs(binder)?),
        OutsNode::Listed(list) => listed(binder, visible, list.as_slice()),
    }
}
