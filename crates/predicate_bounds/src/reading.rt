//! Turns an entry's own conjuncts into steps over a stack of answers (see `steps`). NOT is pushed down while conditions are read: if `holds`
//! is false, the opposite of the condition is read. The recursion is as deep as the condition.
ghost use Rattle.std.specs.Prelude.{◌≡◌, ◌<◌, ◌++◌, [], false, true, map, length, IfOk, OnOk};
ghost use Rattle.filtered_lists.specs.Comparisons.{comparison_of};
ghost use Rattle.filtered_lists.specs.Filters.{and_answer, conjunction_of, one_conjunction, or_answer};
ghost use Rattle.filtered_lists.specs.Filters.{of_answer, of_comparison, of_comparison_or_whole};
ghost use Rattle.predicate_bounds.specs.Added.{IsConjunctionAdded, and_if_earlier, range_steps};
ghost use Rattle.predicate_bounds.specs.Steps.{step_answers, steps_of, value_of};
ghost use Rattle.join_graph.specs.Conjuncts.{local_of, is_own_conjunct, numbers_where};

use crate::comparing::{LiteralComparison, comparison_with_literal, negated_operator};
use crate::ranges::{has_column, intersection_of};
use crate::steps::{Literal, Range, Step};
use base_io::{NoMemory, Seq};
use join_graph::Parts;
use query_grammar::Op;
use query_types::{Cond, Operand, Query};
use std::alloc::Global;

/// The members of an AND that were read so far. `has_answer` says whether a member has left an answer on the stack. `ranges` has the ranges of the
/// comparisons with < <= > >=, whose steps come at the end of the AND.
#[derive(Drop)]
pub(crate) struct Members {
    pub has_answer: bool,
    pub ranges: Seq<Range>,
}

impl Members {
    // No member yet.
    fn none(alloc: Global) -> Members
        ensures has_answer { result.has_answer ≡ false }
        ensures ranges { result.ranges ≡ [] }
    {
        Members {
            has_answer: false,
            ranges: Seq::new(alloc),
        }
    }

    // Ends the steps of a member that leaves an answer on the stack. If an earlier member has left an answer there too, the step And is added.
    fn add_and(&mut self, steps: &mut Seq<Step>) -> Result<(), NoMemory>
        ensures steps { OnOk result (steps.new ≡ steps.old ++ and_if_earlier self.old.has_answer) }
        ensures has_answer { OnOk result (self.new.has_answer ≡ true) }
        ensures ranges { OnOk result (self.new.ranges ≡ self.old.ranges) }
    {
        if self.has_answer {
            steps.push(Step::And)?;
        }
        self.has_answer = true;
        Ok(())
    }

    // Ends the AND: adds the steps of its ranges, one range for each column. If the AND has no members, adds the step Whole.
    fn finish(&mut self, alloc: Global, steps: &mut Seq<Step>) -> Result<(), NoMemory>
        ensures { OnOk result (steps.new ≡ steps.old ++ range_steps self.old.has_answer self.old.ranges) }
    {
        let len = self.ranges.len();
        for i in 0..len {
            let ranges = self.ranges.as_slice();
            let column = ranges[i].column;
            if !has_column(&ranges[..i], column) {
                steps.push(Step::Within(intersection_of(alloc, ranges, column)?))?;
                self.add_and(steps)?;
            }
        }
        if !self.has_answer {
            steps.push(Step::Whole)?;
        }
        Ok(())
    }

    // Adds a comparison of a column with a literal.
    fn add_literal_comparison(
        &mut self,
        alloc: Global,
        compared: LiteralComparison,
        steps: &mut Seq<Step>,
    ) -> Result<(), NoMemory>
        ensures { OnOk result (IsConjunctionAdded self.old steps.old self.new steps.new
            (of_comparison step_answers compared.op compared.column (value_of compared.literal))) }
    {
        let LiteralComparison {
            op,
            column,
            literal,
        } = compared;
        match op {
            Op::Eq => {
                steps.push(Step::Equal { column, literal })?;
                self.add_and(steps)
            }
            Op::Ne => {
                let below = Range {
                    column,
                    low: None,
                    high: Some(literal.copy(alloc)?),
                };
                let above = Range {
                    column,
                    low: Some(literal),
                    high: None,
                };
                steps.push(Step::Within(below))?;
                steps.push(Step::Within(above))?;
                steps.push(Step::Or)?;
                self.add_and(steps)
            }
            Op::Lt | Op::Le => self.ranges.push(Range {
                column,
                low: None,
                high: Some(literal),
            }),
            Op::Gt | Op::Ge => self.ranges.push(Range {
                column,
                low: Some(literal),
                high: None,
            }),
        }
    }

    // Adds a comparison. If it isn't a comparison of a column with a literal, its step is Whole.
    fn add_comparison(
        &mut self,
        alloc: Global,
        op: Op,
        left: &Operand,
        right: &Operand,
        steps: &mut Seq<Step>,
    ) -> Result<(), NoMemory>
        ensures { OnOk result (IsConjunctionAdded self.old steps.old self.new steps.new
            (of_comparison_or_whole step_answers (comparison_of op left.now right.now))) }
    {
        match comparison_with_literal(alloc, op, left, right)? {
            Some(compared) => self.add_literal_comparison(alloc, compared, steps),
            None => {
                steps.push(Step::Whole)?;
                self.add_and(steps)
            }
        }
    }

    /// Adds a condition, or its opposite if `holds` is false.
    #[cycle(reading)]
    pub(crate) fn add_condition(
        &mut self,
        alloc: Global,
        cond: &Cond,
        holds: bool,
        steps: &mut Seq<Step>,
    ) -> Result<(), NoMemory>
        ensures { OnOk result (IsConjunctionAdded self.old steps.old self.new steps.new (conjunction_of step_answers cond.now holds)) }
    {
        match cond {
            Cond::And(all) => {
                if holds {
                    self.add_each(alloc, all.as_slice(), holds, steps)
                } else {
                    self.add_any(alloc, all.as_slice(), holds, steps)
                }
            }
            Cond::Or(any) => {
                if holds {
                    self.add_any(alloc, any.as_slice(), holds, steps)
                } else {
                    self.add_each(alloc, any.as_slice(), holds, steps)
                }
            }
            Cond::Not(inner) => self.add_condition(alloc, inner.get(), !holds, steps),
            Cond::Compare { op, left, right } => {
                let op = if holds { *op } else { negated_operator(*op) };
                self.add_comparison(alloc, op, left, right, steps)
            }
        }
    }

    // Adds each condition of `conds` as a member of this AND, or the opposite of each, if `holds` is false.
    #[cycle(reading)]
    fn add_each(
        &mut self,
        alloc: Global,
        conds: &[Cond],
        holds: bool,
        steps: &mut Seq<Step>,
    ) -> Result<(), NoMemory>
        ensures { OnOk result (IsConjunctionAdded self.old steps.old self.new steps.new
            (one_conjunction (map (λ cond. conjunction_of step_answers cond holds) conds.now))) }
    {
        for cond in conds {
            self.add_condition(alloc, cond, holds, steps)?;
        }
        Ok(())
    }

    // Adds the OR of `conds` as one member, or the OR of their opposites, if `holds` is false.
    #[cycle(reading)]
    fn add_any(
        &mut self,
        alloc: Global,
        conds: &[Cond],
        holds: bool,
        steps: &mut Seq<Step>,
    ) -> Result<(), NoMemory>
        ensures { OnOk result (IsConjunctionAdded self.old steps.old self.new steps.new
            (of_answer (or_answer step_answers (map (λ cond. conjunction_of step_answers cond holds) conds.now)))) }
    {
        steps.push(Step::NoRows)?;
        for cond in conds {
            add_answer(alloc, cond, holds, steps)?;
            steps.push(Step::Or)?;
        }
        self.add_and(steps)
    }
}

// Adds steps that leave one answer on the stack: the answer of the condition, or of its opposite, if `holds` is false.
#[cycle(reading)]
fn add_answer(
    alloc: Global,
    cond: &Cond,
    holds: bool,
    steps: &mut Seq<Step>,
) -> Result<(), NoMemory>
    ensures { OnOk result (steps.new ≡ steps.old ++ and_answer step_answers (conjunction_of step_answers cond.now holds)) }
{
    let mut members = Members::none(alloc);
    members.add_condition(alloc, cond, holds, steps)?;
    members.finish(alloc, steps)
}

// The steps of the own conjuncts of entry `from`. `own` has these conjuncts' numbers in the query.
fn read_own(alloc: Global, query: &Query, from: u8, own: &[u32]) -> Result<Seq<Step>, NoMemory>
    requires { own.now ≡ numbers_where (is_own_conjunct from) 0 query.now.conjuncts }
    ensures { IfOk result (λ steps. steps ≡ steps_of from query.now.conjuncts) }
{
    let mut members = Members::none(alloc);
    let mut steps = Seq::new(alloc);
    for number in own {
        let cond = query.conjuncts.get(*number as usize);
        members.add_condition(alloc, cond, true, &mut steps)?;
    }
    members.finish(alloc, &mut steps)?;
    steps.push(Step::Whole)?;
    steps.push(Step::And)?;
    Ok(steps)
}

/// The steps of the own conjuncts of entry `from`: which lists a bound asks for, and how the bound combines them. `parts` is what `split`
/// made of the query.
pub fn read_steps(
    alloc: Global,
    query: &Query,
    parts: &Parts,
    from: u8,
) -> Result<Seq<Step>, NoMemory>
    requires entry { from < length query.now.from }
    requires local { parts.now.local ≡ local_of query.now }
    ensures { IfOk result (λ steps. steps ≡ steps_of from query.now.conjuncts) }
{
    let own = parts.local.get(from as usize);
    read_own(alloc, query, from, own.as_slice())
}
