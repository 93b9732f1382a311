//! Checks ON conditions, each with the entries that are in scope where it is written.
ghost use Rattle.std.specs.Prelude.{◌≡◌, ◌≤◌, ◌+◌, ◌++◌, [], All, None, IfOk, IfErr, length};
ghost use Rattle.std.specs.List.{flat_map};
ghost use Rattle.limits.specs.Profile.{most_entries};
ghost use Rattle.sql_tokens.specs.Words.{IsLexemeOf};
ghost use Rattle.query_grammar.specs.Lexemes.{IsCondWith, IsJoinWith};
ghost use Rattle.query_names.specs.Scopes.{conditions_of_joins};
ghost use Rattle.query_names.specs.Answers.{IsNameError, or_first};
ghost use Rattle.query_names.specs.Binding.{FirstTwoAreEnough, from_of, names_in, kinds_in, long_lists_in, members_in};

use base_io::Seq;
use query_grammar::{CondNode, JoinedNode};
use query_names::{Binder, LateOffences, QueryError, Visible};
use query_types::Cond;

/// Checks the names, kinds and lists of a condition. Appends its members to `conjuncts` if the query doesn't have too many entries and no IN list so
/// far is too long.
#[tactic(auto, unfolding(query_names::specs::Binding::names_in, query_names::specs::Binding::kinds_in, query_names::specs::Binding::long_lists_in, query_names::specs::Binding::members_in))]
pub fn bind_condition(
    binder: &Binder<'_>,
    visible: &Visible,
    condition: &CondNode,
    held: &mut LateOffences,
    conjuncts: &mut Seq<Cond>,
) -> Result<(), QueryError>
    requires first_two_enough { FirstTwoAreEnough binder.now visible.now }
    requires tokens { IsCondWith (IsLexemeOf binder.now.text.now) condition.now }
    ensures names { IfOk result (λ _. names_in binder.now (record { scope = visible.now.scope; condition = condition.now }) ≡ []) }
    ensures kind { IfOk result (λ _.
        held.new.kind ≡ or_first held.old.kind (kinds_in binder.now (record { scope = visible.now.scope; condition = condition.now }))) }
    ensures list { IfOk result (λ _.
        held.new.list ≡ or_first held.old.list (long_lists_in (record { scope = visible.now.scope; condition = condition.now }))) }
    ensures list_stays_noted { IfOk result (λ _. held.new.list ≡ None → held.old.list ≡ None) }
    ensures members { IfOk result (λ _. length (from_of binder.now) ≤ most_entries → held.new.list ≡ None
        → conjuncts.new ≡ conjuncts.old ++ members_in binder.now (record { scope = visible.now.scope; condition = condition.now })) }
    ensures err { IfErr result (IsNameError (names_in binder.now (record { scope = visible.now.scope; condition = condition.now }))) }
{
    binder.add_members(visible, condition, held, conjuncts)
}

/// Checks the ON conditions of one item of FROM, as `bind_condition` does. Each join first brings its entry into scope.
pub fn bind_joins(
    binder: &Binder<'_>,
    joins: &[JoinedNode],
    visible: &mut Visible,
    held: &mut LateOffences,
    conjuncts: &mut Seq<Cond>,
) -> Result<(), QueryError>
    requires first_two_enough { FirstTwoAreEnough binder.now visible.old }
    requires begins { visible.old.scope.first ≤ visible.old.scope.end }
    requires ends { visible.old.scope.end + length joins.now ≤ length (from_of binder.now) }
    requires tokens { All (IsJoinWith (IsLexemeOf binder.now.text.now)) joins.now }
    ensures names { IfOk result (λ _.
        flat_map (names_in binder.now) (conditions_of_joins visible.old.scope.first visible.old.scope.end joins.now) ≡ []) }
    ensures kind { IfOk result (λ _.
        held.new.kind ≡ or_first held.old.kind (flat_map (kinds_in binder.now)
        (conditions_of_joins visible.old.scope.first visible.old.scope.end joins.now))) }
    ensures list { IfOk result (λ _.
        held.new.list ≡ or_first held.old.list (flat_map long_lists_in (conditions_of_joins visible.old.scope.first visible.old.scope.end joins.now))) }
    ensures list_stays_noted { IfOk result (λ _. held.new.list ≡ None → held.old.list ≡ None) }
    ensures members { IfOk result (λ _. length (from_of binder.now) ≤ most_entries → held.new.list ≡ None
        → conjuncts.new ≡ conjuncts.old
        ++ flat_map (members_in binder.now) (conditions_of_joins visible.old.scope.first visible.old.scope.end joins.now)) }
    ensures scope { IfOk result (λ _. visible.new.scope.end ≡ visible.old.scope.end + length joins.now) }
    ensures err { IfErr result (IsNameError (flat_map (names_in binder.now)
        (conditions_of_joins visible.old.scope.first visible.old.scope.end joins.now))) }
{
    'all: for join in joins {
        binder.bring_into_scope(visible)?;
        bind_condition(binder, visible, &join.on, held, conjuncts)?;
    }
    Ok(())
}
