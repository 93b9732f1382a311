//! Checks the conditions of all parts of FROM, and the condition of WHERE. A part is one item of the list in FROM with its joins.
ghost use Rattle.std.specs.Prelude.{◌≡◌, ◌≤◌, ◌+◌, ◌++◌, [], All, None, IfOk, IfErr, IfSome, length};
ghost use Rattle.std.specs.List.{flat_map};
ghost use Rattle.limits.specs.Profile.{most_entries};
ghost use Rattle.sql_tokens.specs.Words.{IsLexemeOf};
ghost use Rattle.query_grammar.specs.Lexemes.{IsCondWith, IsFromItemWith};
ghost use Rattle.query_names.specs.Names.{sources_of};
ghost use Rattle.query_names.specs.Scopes.{conditions_of_joins, on_conditions, where_condition};
ghost use Rattle.query_names.specs.Answers.{IsNameError, or_first};
ghost use Rattle.query_names.specs.Binding.{from_of, names_in, kinds_in, long_lists_in, members_in};

use crate::joins::{bind_condition, bind_joins};
use base_io::Seq;
use query_grammar::{CondNode, FromItemNode};
use query_names::{Binder, LateOffences, QueryError};
use query_types::Cond;

/// Checks the conditions of a part whose first entry is entry `first`. Returns the number of the next part's first entry.
fn bind_part(
    binder: &Binder<'_>,
    first: usize,
    part: &FromItemNode,
    held: &mut LateOffences,
    conjuncts: &mut Seq<Cond>,
) -> Result<usize, QueryError>
    requires ends { first + 1 + length part.now.joins ≤ length (from_of binder.now) }
    requires tokens { IsFromItemWith (IsLexemeOf binder.now.text.now) part.now }
    ensures next { IfOk result (λ next. next ≡ first + 1 + length part.now.joins) }
    ensures names { IfOk result (λ _. flat_map (names_in binder.now) (conditions_of_joins first (first + 1) part.now.joins) ≡ []) }
    ensures kind { IfOk result (λ _.
        held.new.kind ≡ or_first held.old.kind (flat_map (kinds_in binder.now) (conditions_of_joins first (first + 1) part.now.joins))) }
    ensures list { IfOk result (λ _. held.new.list ≡ or_first held.old.list (flat_map long_lists_in (conditions_of_joins first (first + 1) part.now.joins))) }
    ensures list_stays_noted { IfOk result (λ _. held.new.list ≡ None → held.old.list ≡ None) }
    ensures members { IfOk result (λ _. length (from_of binder.now) ≤ most_entries → held.new.list ≡ None
        → conjuncts.new ≡ conjuncts.old ++ flat_map (members_in binder.now) (conditions_of_joins first (first + 1) part.now.joins)) }
    ensures err { IfErr result (IsNameError (flat_map (names_in binder.now) (conditions_of_joins first (first + 1) part.now.joins))) }
{
    let mut visible = binder.none_visible(first);
    binder.bring_into_scope(&mut visible)?;
    bind_joins(binder, part.joins.as_slice(), &mut visible, held, conjuncts)?;
    Ok(visible.scope.end)
}

/// Checks the conditions of all parts.
#[tactic(auto, using(crate::proofs::PartFacts::conditions_at, crate::proofs::PartFacts::sources_at, query_names::proofs::Walk::or_first_append))]
pub fn bind_parts(
    binder: &Binder<'_>,
    parts: &[FromItemNode],
    held: &mut LateOffences,
    conjuncts: &mut Seq<Cond>,
) -> Result<(), QueryError>
    requires ends { length (flat_map sources_of parts.now) ≤ length (from_of binder.now) }
    requires tokens { All (IsFromItemWith (IsLexemeOf binder.now.text.now)) parts.now }
    ensures names { IfOk result (λ _. flat_map (names_in binder.now) (on_conditions 0 parts.now) ≡ []) }
    ensures kind { IfOk result (λ _. held.new.kind ≡ or_first held.old.kind (flat_map (kinds_in binder.now) (on_conditions 0 parts.now))) }
    ensures list { IfOk result (λ _. held.new.list ≡ or_first held.old.list (flat_map long_lists_in (on_conditions 0 parts.now))) }
    ensures members { IfOk result (λ _. length (from_of binder.now) ≤ most_entries → held.new.list ≡ None
        → conjuncts.new ≡ conjuncts.old ++ flat_map (members_in binder.now) (on_conditions 0 parts.now)) }
    ensures err { IfErr result (IsNameError (flat_map (names_in binder.now) (on_conditions 0 parts.now))) }
{
    let mut first = 0;
    'all: for part in parts {
        first = bind_part(binder, first, part, held, conjuncts)?;
    }
    Ok(())
}

/// Checks the condition of WHERE.
pub fn bind_filter(
    binder: &Binder<'_>,
    filter: &Option<CondNode>,
    held: &mut LateOffences,
    conjuncts: &mut Seq<Cond>,
) -> Result<(), QueryError>
    requires tokens { IfSome filter.now (IsCondWith (IsLexemeOf binder.now.text.now)) }
    ensures names { IfOk result (λ _. flat_map (names_in binder.now) (where_condition (from_of binder.now) filter.now) ≡ []) }
    ensures kind { IfOk result (λ _.
        held.new.kind ≡ or_first held.old.kind (flat_map (kinds_in binder.now) (where_condition (from_of binder.now) filter.now))) }
    ensures list { IfOk result (λ _.
        held.new.list ≡ or_first held.old.list (flat_map long_lists_in (where_condition (from_of binder.now) filter.now))) }
    ensures list_stays_noted { IfOk result (λ _. held.new.list ≡ None → held.old.list ≡ None) }
    ensures members { IfOk result (λ _. length (from_of binder.now) ≤ most_entries → held.new.list ≡ None
        → conjuncts.new ≡ conjuncts.old ++ flat_map (members_in binder.now) (where_condition (from_of binder.now) filter.now)) }
    ensures err { IfErr result (IsNameError (flat_map (names_in binder.now) (where_condition (from_of binder.now) filter.now))) }
{
    match filter {
        Some(condition) => {
            let visible = binder.all_visible()?;
            bind_condition(binder, &visible, condition, held, conjuncts)
        }
        None => Ok(()),
    }
}
