//! Builds the conditions that a query text means, and their members. An AND has the members of all its operands. Any other condition has itself as
//! its only member.
ghost use Rattle.std.specs.Prelude.{[], ◌∷◌, All, IfOk, IfErr, map};
ghost use Rattle.std.specs.List.{flat_map};
ghost use Rattle.sql_tokens.specs.Words.{IsLexemeOf};
ghost use Rattle.query_grammar.specs.Lexemes.{IsCondWith};
ghost use Rattle.query_names.specs.Scopes.{tests};
ghost use Rattle.query_names.specs.Answers.{IsNameError};
ghost use Rattle.query_names.specs.Binding.{FirstTwoAreEnough, test_offences_of, value_by, members_by};
ghost use Rattle.query_names.specs.Checking.{IsStateAfterTests};

use crate::QueryError;
use crate::binder::Binder;
use crate::checks::LateOffences;
use crate::scope::Visible;
use base_io::{Boxed, Seq};
use query_grammar::CondNode;
use query_types::Cond;

impl<'a> Binder<'a> {
    /// Checks conditions of the text, and returns the conditions that they mean.
    #[cycle(values)]
    fn values(
        &self,
        visible: &Visible,
        conditions: &[CondNode],
        held: &mut LateOffences,
    ) -> Result<Seq<Cond>, QueryError>
        requires first_two_enough { FirstTwoAreEnough self.now visible.now }
        requires tokens { All (IsCondWith (IsLexemeOf self.now.text.now)) conditions.now }
        ensures ok { IfOk result (λ found. IsStateAfterTests self.now visible.now.scope (flat_map tests conditions.now) held.old held.new [] found
            (map (value_by self.now visible.now.scope) conditions.now)) }
        ensures err { IfErr result (IsNameError (flat_map (test_offences_of self.now visible.now.scope) (flat_map tests conditions.now))) }
    {
        let mut found = Seq::new(self.alloc);
        'all: for condition in conditions {
            self.add_value(visible, condition, held, &mut found)?;
        }
        Ok(found)
    }

    /// Checks a condition of the text, and adds the condition that it means.
    #[cycle(values)]
    fn add_value(
        &self,
        visible: &Visible,
        condition: &CondNode,
        held: &mut LateOffences,
        found: &mut Seq<Cond>,
    ) -> Result<(), QueryError>
        requires first_two_enough { FirstTwoAreEnough self.now visible.now }
        requires tokens { IsCondWith (IsLexemeOf self.now.text.now) condition.now }
        ensures ok { IfOk result (λ _. IsStateAfterTests self.now visible.now.scope (tests condition.now) held.old held.new found.old found.new
            (value_by self.now visible.now.scope condition.now ∷ [])) }
        ensures err { IfErr result (IsNameError (flat_map (test_offences_of self.now visible.now.scope) (tests condition.now))) }
    {
        match condition {
            CondNode::And(members) => {
                let parts = self.values(visible, members.as_slice(), held)?;
                if self.builds(held) {
                    found.push(Cond::And(parts))?;
                }
                Ok(())
            }
            CondNode::Or(members) => {
                let parts = self.values(visible, members.as_slice(), held)?;
                if self.builds(held) {
                    found.push(Cond::Or(parts))?;
                }
                Ok(())
            }
            CondNode::Not(member) => {
                let mut parts = Seq::new(self.alloc);
                self.add_value(visible, member.get(), held, &mut parts)?;
                if let Some(part) = parts.pop() {
                    found.push(Cond::Not(Boxed::new(self.alloc, part)?))?;
                }
                Ok(())
            }
            CondNode::Test(test) => self.add_test(visible, test, held, found),
        }
    }

    /// Checks a condition of the text, and adds the members of the condition that it means. They aren't added if FROM has too many entries or an IN
    /// list so far is too long.
    pub fn add_members(
        &self,
        visible: &Visible,
        condition: &CondNode,
        held: &mut LateOffences,
        found: &mut Seq<Cond>,
    ) -> Result<(), QueryError>
        requires first_two_enough { FirstTwoAreEnough self.now visible.now }
        requires tokens { IsCondWith (IsLexemeOf self.now.text.now) condition.now }
        ensures ok { IfOk result (λ _. IsStateAfterTests self.now visible.now.scope (tests condition.now) held.old held.new found.old found.new
            (members_by self.now visible.now.scope condition.now)) }
        ensures err { IfErr result (IsNameError (flat_map (test_offences_of self.now visible.now.scope) (tests condition.now))) }
    {
        match condition {
            CondNode::And(members) => {
                'all: for member in members.as_slice() {
                    self.add_members(visible, member, held, found)?;
                }
                Ok(())
            }
            CondNode::Or(_) | CondNode::Not(_) => self.add_value(visible, condition, held, found),
            CondNode::Test(test) => self.add_test_members(visible, test, held, found),
        }
    }
}
