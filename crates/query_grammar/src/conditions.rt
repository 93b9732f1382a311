//! Reads conditions: OR, AND, NOT and parentheses. `depth` is how deep parentheses may still be nested. It limits the recursion.
ghost use Rattle.std.specs.Prelude.{◌≡◌, IfOk, IfErr};
ghost use Rattle.ll_grammars.specs.Rules.{IsReadAs};
ghost use Rattle.query_grammar.specs.Values.{negate, all_of, any_of};
ghost use Rattle.query_grammar.specs.Readers.{read_factor, read_next_factor, read_factors, read_term, read_next_term, read_terms, read_cond, read_inside, read_test, read_within};

use crate::predicates::{flat_test, negation};
use crate::terminals::{AND, CLOSE, OPEN, OR};
use crate::tree::CondNode;
use base_io::{Boxed, Seq};
use ll_grammars::{Reader, Stop};

/// The AND of these conditions. A single condition stays as it is.
fn all_of(mut conditions: Seq<CondNode>) -> CondNode
    ensures { result ≡ all_of conditions }
{
    if conditions.len() == 1 {
        match conditions.pop() {
            Some(condition) => condition,
            None => CondNode::And(conditions),
        }
    } else {
        CondNode::And(conditions)
    }
}

/// The OR of these conditions. A single condition stays as it is.
fn any_of(mut conditions: Seq<CondNode>) -> CondNode
    ensures { result ≡ any_of conditions }
{
    if conditions.len() == 1 {
        match conditions.pop() {
            Some(condition) => condition,
            None => CondNode::Or(conditions),
        }
    } else {
        CondNode::Or(conditions)
    }
}

/// NOT of the condition if `negated`, otherwise the condition itself.
fn negated_if(reader: &Reader<'_>, negated: bool, condition: CondNode) -> Result<CondNode, Stop>
    ensures value { IfOk result (λ c. c ≡ negate (negated, condition)) }
    ensures memory { IfErr result (λ e. e ≡ Stop.NoMemory) }
{
    if negated {
        let inner = Boxed::new(reader.allocator(), condition)?;
        Ok(CondNode::Not(inner))
    } else {
        Ok(condition)
    }
}

#[cycle(conditions)]
#[tactic(auto, using(crate::proofs::EnoughDepth::test_zero, crate::proofs::EnoughDepth::test_flat, crate::proofs::EnoughDepth::test_inside))]
fn test(reader: &mut Reader<'_>, depth: u32) -> Result<CondNode, Stop>
    ensures { IsReadAs result reader.new (read_test depth reader.old) }
{
    if depth == 0 {
        flat_test(reader)
    } else if reader.starts(OPEN) {
        inside(reader, depth - 1)
    } else {
        flat_test(reader)
    }
}

#[cycle(conditions)]
#[tactic(auto, unfolding(crate::specs::Readers::read_inside))]
fn inside(reader: &mut Reader<'_>, depth: u32) -> Result<CondNode, Stop>
    ensures { IsReadAs result reader.new (read_inside (read_test depth) reader.old) }
{
    reader.one(OPEN)?;
    let inner = condition_at(reader, depth)?;
    reader.one(CLOSE)?;
    Ok(inner)
}

#[cycle(conditions)]
#[tactic(auto, unfolding(crate::specs::Readers::read_factor))]
fn factor(reader: &mut Reader<'_>, depth: u32) -> Result<CondNode, Stop>
    ensures { IsReadAs result reader.new (read_factor (read_test depth) reader.old) }
{
    let negated = negation(reader)?;
    let inner = test(reader, depth)?;
    negated_if(reader, negated, inner)
}

#[cycle(conditions)]
#[tactic(auto, unfolding(crate::specs::Readers::read_next_factor))]
fn next_factor(reader: &mut Reader<'_>, depth: u32) -> Result<CondNode, Stop>
    ensures { IsReadAs result reader.new (read_next_factor (read_test depth) reader.old) }
{
    reader.one(AND)?;
    factor(reader, depth)
}

#[cycle(conditions)]
#[tactic(auto, using(ll_grammars::proofs::Loops::listed_start), unfolding(crate::specs::Readers::read_factors))]
fn factors(reader: &mut Reader<'_>, depth: u32) -> Result<Seq<CondNode>, Stop>
    ensures { IsReadAs result reader.new (read_factors (read_test depth) reader.old) }
{
    let mut factors = Seq::new(reader.allocator());
    let first = factor(reader, depth)?;
    factors.push(first)?;
    'others: while reader.starts(AND) {
        let factor = next_factor(reader, depth)?;
        factors.push(factor)?;
    }
    Ok(factors)
}

#[cycle(conditions)]
#[tactic(auto, unfolding(crate::specs::Readers::read_term))]
fn term(reader: &mut Reader<'_>, depth: u32) -> Result<CondNode, Stop>
    ensures { IsReadAs result reader.new (read_term (read_test depth) reader.old) }
{
    let factors = factors(reader, depth)?;
    Ok(all_of(factors))
}

#[cycle(conditions)]
#[tactic(auto, unfolding(crate::specs::Readers::read_next_term))]
fn next_term(reader: &mut Reader<'_>, depth: u32) -> Result<CondNode, Stop>
    ensures { IsReadAs result reader.new (read_next_term (read_test depth) reader.old) }
{
    reader.one(OR)?;
    term(reader, depth)
}

#[cycle(conditions)]
#[tactic(auto, using(ll_grammars::proofs::Loops::listed_start), unfolding(crate::specs::Readers::read_terms))]
fn terms(reader: &mut Reader<'_>, depth: u32) -> Result<Seq<CondNode>, Stop>
    ensures { IsReadAs result reader.new (read_terms (read_test depth) reader.old) }
{
    let mut terms = Seq::new(reader.allocator());
    let first = term(reader, depth)?;
    terms.push(first)?;
    'others: while reader.starts(OR) {
        let term = next_term(reader, depth)?;
        terms.push(term)?;
    }
    Ok(terms)
}

#[cycle(conditions)]
#[tactic(auto, unfolding(crate::specs::Readers::read_cond))]
fn condition_at(reader: &mut Reader<'_>, depth: u32) -> Result<CondNode, Stop>
    ensures { IsReadAs result reader.new (read_cond (read_test depth) reader.old) }
{
    let terms = terms(reader, depth)?;
    Ok(any_of(terms))
}

/// Reads a condition in which parentheses are nested at most `depth` deep.
#[tactic(auto, unfolding(crate::specs::Readers::read_within))]
pub fn condition(reader: &mut Reader<'_>, depth: u32) -> Result<CondNode, Stop>
    ensures { IsReadAs result reader.new (read_within depth reader.old) }
{
    condition_at(reader, depth)
}
