//! Builds the comparisons of a test (a comparison, BETWEEN or IN of a query text). Each name in a test is resolved once.
ghost use Rattle.std.specs.Prelude.{◌≡◌, ◌≤◌, [], ◌∷◌, All, None, true, IfOk, IfErr, length, map};
ghost use Rattle.std.specs.List.{flat_map};
ghost use Rattle.limits.specs.Profile.{most_entries};
ghost use Rattle.sql_tokens.specs.Words.{IsLexemeOf};
ghost use Rattle.query_grammar.specs.Lexemes.{IsLiteralWith, IsTestWith};
ghost use Rattle.query_types.specs.declared.types.Cond.TheVariants as cond;
ghost use Rattle.query_names.specs.Names.{offset_if};
ghost use Rattle.query_names.specs.Offences.{left_of, differ};
ghost use Rattle.query_names.specs.Answers.{IsNameError};
ghost use Rattle.query_names.specs.Binding.{FirstTwoAreEnough, from_of, test_offences_of, test_value_by, test_members_by};
ghost use Rattle.query_names.specs.Checking.{IsStateAfterChecks, IsStateAfterTest, comparisons_by, is_range, wrong_literal, equal_to};

use crate::QueryError;
use crate::binder::Binder;
use crate::checks::LateOffences;
use crate::operands::{ResolvedOperand, bind_literal, copied};
use crate::scope::Visible;
use crate::values::test_condition;
use base_io::{NoMemory, Seq};
use limits::MOST_ENTRIES;
use query_grammar::{LiteralNode, OperandNode, TestNode};
use query_types::{Cond, Op};

/// The left operand of a test.
fn left_of(test: &TestNode) -> OperandNode
    ensures { result ≡ left_of test.now }
{
    match test {
        TestNode::Compare { left, .. } => *left,
        TestNode::Between { operand, .. } => *operand,
        TestNode::In { operand, .. } => *operand,
    }
}

/// Whether a test is BETWEEN without NOT. Such a test counts as two members of its condition, one for each comparison.
fn is_range(test: &TestNode) -> bool
    ensures { result ≡ is_range test.now }
{
    match test {
        TestNode::Between { negated, .. } => !*negated,
        TestNode::Compare { .. } | TestNode::In { .. } => false,
    }
}

impl<'a> Binder<'a> {
    /// Whether conditions are still built: FROM doesn't have too many entries, and no IN list so far is too long.
    pub(crate) fn builds(&self, held: &LateOffences) -> bool
        ensures within { length (from_of self.now) ≤ most_entries → held.now.list ≡ None → result ≡ true }
        ensures few { result ≡ true → length (from_of self.now) ≤ most_entries }
        ensures none { result ≡ true → held.now.list ≡ None }
    {
        self.entries.sources.len() <= MOST_ENTRIES && held.list.is_none()
    }

    /// Adds the comparison of two operands. If `other` is of the wrong kind, the offset of `other` is kept.
    fn compare(
        &self,
        left: &ResolvedOperand,
        op: Op,
        other: ResolvedOperand,
        held: &mut LateOffences,
        found: &mut Seq<Cond>,
    ) -> Result<(), NoMemory>
        ensures { IfOk result (λ _. IsStateAfterChecks self.now [] (offset_if (differ left.now.is_text other.is_text) other.first) []
            held.old held.new found.old found.new (cond.Compare op left.now.value other.value ∷ [])) }
    {
        held.note_kind(other.is_text != left.is_text, other.first);
        if self.builds(held) {
            let left = copied(self.alloc, &left.value)?;
            found.push(Cond::Compare {
                op,
                left,
                right: other.value,
            })?;
        }
        Ok(())
    }

    /// Adds the equality of `left` with each value of an IN list.
    fn add_equalities(
        &self,
        left: &ResolvedOperand,
        values: &[LiteralNode],
        held: &mut LateOffences,
        found: &mut Seq<Cond>,
    ) -> Result<(), NoMemory>
        requires { All (IsLiteralWith (IsLexemeOf self.now.text.now)) values.now }
        ensures { IfOk result (λ _. IsStateAfterChecks self.now [] (flat_map (wrong_literal left.now.is_text) values.now) []
            held.old held.new found.old found.new (map (equal_to self.now.text.now left.now.value) values.now)) }
    {
        'all: for value in values {
            let other = bind_literal(self.alloc, self.text, value)?;
            self.compare(left, Op::Eq, other, held, found)?;
        }
        Ok(())
    }

    /// Checks the names, kinds and IN list of a test, and adds the test's comparisons.
    fn add_comparisons(
        &self,
        visible: &Visible,
        test: &TestNode,
        held: &mut LateOffences,
        found: &mut Seq<Cond>,
    ) -> Result<(), QueryError>
        requires first_two_enough { FirstTwoAreEnough self.now visible.now }
        requires tokens { IsTestWith (IsLexemeOf self.now.text.now) test.now }
        ensures ok { IfOk result (λ _. IsStateAfterTest self.now visible.now.scope test.now held.old held.new found.old found.new
            (comparisons_by self.now visible.now.scope test.now)) }
        ensures err { IfErr result (IsNameError (test_offences_of self.now visible.now.scope test.now)) }
    {
        let left = self.bind_operand(visible, &left_of(test))?;
        match test {
            TestNode::Compare { op, right, .. } => {
                let right = self.bind_operand(visible, right)?;
                Ok(self.compare(&left, *op, right, held, found)?)
            }
            TestNode::Between { low, high, .. } => {
                let low = self.bind_operand(visible, low)?;
                let high = self.bind_operand(visible, high)?;
                self.compare(&left, Op::Ge, low, held, found)?;
                Ok(self.compare(&left, Op::Le, high, held, found)?)
            }
            TestNode::In { values, .. } => {
                held.note_list(test);
                Ok(self.add_equalities(&left, values.as_slice(), held, found)?)
            }
        }
    }

    /// Checks a test, and adds the condition that it means.
    pub(crate) fn add_test(
        &self,
        visible: &Visible,
        test: &TestNode,
        held: &mut LateOffences,
        found: &mut Seq<Cond>,
    ) -> Result<(), QueryError>
        requires first_two_enough { FirstTwoAreEnough self.now visible.now }
        requires tokens { IsTestWith (IsLexemeOf self.now.text.now) test.now }
        ensures ok { IfOk result (λ _. IsStateAfterTest self.now visible.now.scope test.now held.old held.new found.old found.new
            (test_value_by self.now visible.now.scope test.now ∷ [])) }
        ensures err { IfErr result (IsNameError (test_offences_of self.now visible.now.scope test.now)) }
    {
        let mut parts = Seq::new(self.alloc);
        self.add_comparisons(visible, test, held, &mut parts)?;
        if self.builds(held) {
            found.push(test_condition(self.alloc, test, parts)?)?;
        }
        Ok(())
    }

    /// Checks a test, and adds the members of the condition that it means.
    pub(crate) fn add_test_members(
        &self,
        visible: &Visible,
        test: &TestNode,
        held: &mut LateOffences,
        found: &mut Seq<Cond>,
    ) -> Result<(), QueryError>
        requires first_two_enough { FirstTwoAreEnough self.now visible.now }
        requires tokens { IsTestWith (IsLexemeOf self.now.text.now) test.now }
        ensures ok { IfOk result (λ _. IsStateAfterTest self.now visible.now.scope test.now held.old held.new found.old found.new
            (test_members_by self.now visible.now.scope test.now)) }
        ensures err { IfErr result (IsNameError (test_offences_of self.now visible.now.scope test.now)) }
    {
        if is_range(test) {
            self.add_comparisons(visible, test, held, found)
        } else {
            self.add_test(visible, test, held, found)
        }
    }
}
