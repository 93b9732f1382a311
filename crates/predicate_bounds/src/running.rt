//! Runs steps over a stack of lists.
ghost use Rattle.std.specs.Prelude.{◌≡◌, ◌+◌, ◌^◌, ◌<◌, ◌≤◌, [], reverse, IfOk, OnOk, IsTrue};
ghost use Rattle.std.specs.List.{list_all, sum};
ghost use Rattle.degree_sequences.specs.ByRank.{rank_sum};
ghost use Rattle.degree_sequences.specs.RunningSums.{lesser};
ghost use Rattle.predicate_bounds.specs.Runs.{combine_top};
ghost use Rattle.predicate_bounds.specs.ListRuns.{after_list_step, after_list_steps, is_small, top_list, total_of};

use base_io::{NoMemory, Seq};
use piece_math::Pieces;
use std::alloc::Global;

/// A step over a stack of lists.
#[derive(Debug, Drop)]
pub enum ListStep {
    /// Puts a list on the stack.
    List(Pieces),
    /// Replaces the two lists on top by one list. Its running sum at each rank is the lesser of the two lists' running sums.
    And,
    /// Puts the empty list on the stack.
    NoRows,
    /// Replaces the two lists on top by their sum, rank by rank.
    Or,
}

// Replaces the two lists on top by their AND.
fn and_top(stack: &mut Seq<Pieces>) -> Result<(), NoMemory>
    requires { total_of stack.old < 2 ^ 128 }
    ensures lists { OnOk result (reverse stack.new ≡ combine_top lesser (reverse stack.old)) }
    ensures total { OnOk result (total_of stack.new ≤ total_of stack.old) }
{
    let Some(y) = stack.pop() else {
        return Ok(());
    };
    let Some(x) = stack.pop() else {
        return stack.push(y);
    };
    let list = x.lesser(&y)?;
    stack.push(list)
}

// Replaces the two lists on top by their OR.
fn or_top(stack: &mut Seq<Pieces>) -> Result<(), NoMemory>
    requires { total_of stack.old < 2 ^ 128 }
    ensures lists { OnOk result (reverse stack.new ≡ combine_top rank_sum (reverse stack.old)) }
    ensures total { OnOk result (total_of stack.new ≤ total_of stack.old) }
{
    let Some(y) = stack.pop() else {
        return Ok(());
    };
    let Some(x) = stack.pop() else {
        return stack.push(y);
    };
    let list = x.sum(&y)?;
    stack.push(list)
}

// Takes one step. The step adds at most 2^32 to the sum of all lists on the stack.
fn take_step(alloc: Global, step: &ListStep, stack: &mut Seq<Pieces>) -> Result<(), NoMemory>
    requires room { total_of stack.old < 2 ^ 128 }
    requires small { IsTrue (is_small step.now) }
    ensures lists { OnOk result (reverse stack.new ≡ after_list_step step.now (reverse stack.old)) }
    ensures total { OnOk result (total_of stack.new ≤ total_of stack.old + 2 ^ 32) }
{
    match step {
        ListStep::List(list) => stack.push(list.copy()?),
        ListStep::And => and_top(stack),
        ListStep::NoRows => stack.push(Pieces::empty(alloc)),
        ListStep::Or => or_top(stack),
    }
}

/// The list that steps leave on top of the stack, or the empty list if the stack is empty.
pub(crate) fn run_steps(alloc: Global, steps: &[ListStep]) -> Result<Pieces, NoMemory>
    requires { IsTrue (list_all is_small steps.now) }
    ensures { IfOk result (λ list. list ≡ top_list (after_list_steps steps.now [])) }
{
    let mut stack = Seq::new(alloc);
    for i in 0..steps.len() {
        take_step(alloc, &steps[i], &mut stack)?;
    }
    match stack.pop() {
        Some(list) => Ok(list),
        None => Ok(Pieces::empty(alloc)),
    }
}
