//! Checks the SELECT list and the conditions of a query whose FROM entries are known: names, kinds and the lengths of IN lists.
ghost use Rattle.std.specs.Prelude.{◌≡◌, ◌≤◌, ◌++◌, [], None, IfOk, IfErr, length};
ghost use Rattle.std.specs.List.{flat_map};
ghost use Rattle.limits.specs.Profile.{most_entries, most_outputs};
ghost use Rattle.schema_types.specs.Validity.{IsValid};
ghost use Rattle.sql_tokens.specs.Words.{IsLexemeOf};
ghost use Rattle.query_grammar.specs.Lexemes.{IsQueryWith};
ghost use Rattle.query_names.specs.Names.{sources_of};
ghost use Rattle.query_names.specs.Scopes.{whole_scope};
ghost use Rattle.query_names.specs.Answers.{IsNameError, or_first};
ghost use Rattle.query_names.specs.Binding.{FirstTwoAreEnough, schema_of, from_of};
ghost use Rattle.sql_parse.specs.AfterFrom.{names_after_from, kinds_after_from, lists_after_from, conjuncts_by};
ghost use Rattle.sql_parse.specs.Outputs.{selected_by, capped};

use crate::outputs::FoundOutputs;
use crate::parts::{bind_filter, bind_parts};
use crate::select_list::select;
use base_io::Seq;
use query_grammar::QueryNode;
use query_names::{Binder, LateOffences, QueryError, Visible};
use query_types::Cond;

/// Resolves the names of the SELECT list and gathers its outputs. Then checks all conditions. The conjuncts are added if FROM doesn't have too many
/// entries and no IN list is too long.
#[tactic(auto, using(crate::proofs::AfterFromFacts::no_name, crate::proofs::AfterFromFacts::name_in_outs, crate::proofs::AfterFromFacts::name_in_parts, crate::proofs::AfterFromFacts::name_in_filter, crate::proofs::AfterFromFacts::kinds_behind_are, crate::proofs::AfterFromFacts::lists_behind_are, crate::proofs::AfterFromFacts::conjuncts_are_both), unfolding(query_grammar::specs::Lexemes::IsQueryWith))]
pub fn check_clauses(
    binder: &Binder<'_>,
    visible: &Visible,
    query: &QueryNode,
    held: &mut LateOffences,
    conjuncts: &mut Seq<Cond>,
) -> Result<FoundOutputs, QueryError>
    requires first_two_enough { FirstTwoAreEnough binder.now visible.now }
    requires all { visible.now.scope ≡ whole_scope (from_of binder.now) }
    requires valid { IsValid (schema_of binder.now) }
    requires ends { length (flat_map sources_of query.now.parts) ≤ length (from_of binder.now) }
    requires tokens { IsQueryWith (IsLexemeOf binder.now.text.now) query.now }
    ensures names { IfOk result (λ _. names_after_from binder.now query.now ≡ []) }
    ensures kind { IfOk result (λ _. held.new.kind ≡ or_first held.old.kind (kinds_after_from binder.now query.now)) }
    ensures list { IfOk result (λ _. held.new.list ≡ or_first held.old.list (lists_after_from binder.now query.now)) }
    ensures members { IfOk result (λ _. length (from_of binder.now) ≤ most_entries → held.new.list ≡ None
        → conjuncts.new ≡ conjuncts.old ++ conjuncts_by binder.now query.now) }
    ensures count { IfOk result (λ found. found.count ≡ capped (length (selected_by binder.now query.now.outs))) }
    ensures outs { IfOk result (λ found. length (from_of binder.now) ≤ most_entries → found.count ≤ most_outputs
        → found.outs ≡ selected_by binder.now query.now.outs) }
    ensures err { IfErr result (IsNameError (names_after_from binder.now query.now)) }
{
    let found = select(binder, visible, &query.outs)?;
    bind_parts(binder, query.parts.as_slice(), held, conjuncts)?;
    bind_filter(binder, &query.filter, held, conjuncts)?;
    Ok(found)
}
