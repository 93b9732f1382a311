//! The value of a number literal, and the condition that a test of a query text means.
ghost use Rattle.std.specs.Prelude.{◌≡◌, IfOk, if◌then◌else◌};
ghost use Rattle.sql_tokens.specs.Words.{IsLexemeOf};
ghost use Rattle.query_types.specs.declared.types.Cond.TheVariants as cond;
ghost use Rattle.query_names.specs.Numbers.{signed, is_negative, number_value};
ghost use Rattle.query_names.specs.Values.{any_of};
ghost use Rattle.query_names.specs.Checking.{test_condition};

use base_io::{Boxed, NoMemory, Seq};
use ll_grammars::{Lexeme, Terminal};
use query_grammar::TestNode;
use query_types::Cond;
use sql_tokens::number;
use std::alloc::Global;

const MINUS: &[Terminal] = &[Terminal::Minus];

/// The number with its sign. A number outside the range of `i64` becomes the nearer end of the range; its query is refused.
fn signed(negative: bool, value: u64) -> i64
    ensures { result ≡ signed negative value }
{
    if negative {
        if value >= 1 << 63 {
            i64::MIN
        } else {
            -(value as i64)
        }
    } else if value >= 1 << 63 {
        i64::MAX
    } else {
        value as i64
    }
}

/// Whether the sign is a minus. Without a sign the number isn't negative.
pub fn is_negative(sign: &Option<Lexeme>) -> bool
    ensures { result ≡ is_negative sign.now }
{
    match sign {
        Some(sign) => ll_grammars::is_among(sign.terminal, MINUS),
        None => false,
    }
}

/// The value of a number literal: the number that its digits spell, with the sign before them, if there is one.
#[tactic(auto, unfolding(crate::specs::Numbers::number_value))]
pub fn number_value(text: &[u8], sign: &Option<Lexeme>, digits: &Lexeme) -> i64
    requires { IsLexemeOf text.now digits.now }
    ensures { result ≡ number_value text.now sign.now digits.now }
{
    signed(is_negative(sign), number(text, digits))
}

/// The OR of these conditions. A single condition stays as it is.
#[tactic(auto, using(crate::proofs::Meanings::only_part_is_or, crate::proofs::Meanings::several_parts_are_or))]
fn any_of(mut parts: Seq<Cond>) -> Cond
    ensures { result ≡ (any_of parts).whole }
{
    if parts.len() == 1 {
        match parts.pop() {
            Some(one) => one,
            None => unreachable!(),
        }
    } else {
        Cond::Or(parts)
    }
}

/// NOT of the condition if `negated` is true, otherwise the condition itself.
fn negated_if(alloc: Global, negated: bool, condition: Cond) -> Result<Cond, NoMemory>
    ensures { IfOk result (λ found. found ≡ (if negated then cond.Not condition else condition)) }
{
    if negated {
        Ok(Cond::Not(Boxed::new(alloc, condition)?))
    } else {
        Ok(condition)
    }
}

/// The condition of a test, from its comparisons. BETWEEN is the AND of its comparisons, and IN is the OR of its comparisons. NOT BETWEEN
/// is the NOT of this AND, and NOT IN the NOT of this OR. The condition of a test with a comparison operator is its only comparison.
pub fn test_condition(alloc: Global, test: &TestNode, parts: Seq<Cond>) -> Result<Cond, NoMemory>
    ensures { IfOk result (λ found. found ≡ test_condition test.now parts) }
{
    match test {
        TestNode::Compare { .. } => Ok(any_of(parts)),
        TestNode::Between { negated, .. } => negated_if(alloc, *negated, Cond::And(parts)),
        TestNode::In { negated, .. } => negated_if(alloc, *negated, any_of(parts)),
    }
}
