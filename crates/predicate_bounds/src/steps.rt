//! The steps by which an entry's own conjuncts combine answers, and the literals and ranges that they ask for. An answer stands for some of the
//! entry's rows. It is a list for these rows, their number, or a test that they pass.
ghost use Rattle.std.specs.Prelude.{◌≡◌, IfOk};
ghost use Rattle.csv_tables.specs.Values.{Int, Text, value_cmp};
ghost use Rattle.predicate_bounds.specs.Steps.{value_of};

use base_io::{Name, NoMemory};
use csv_tables::compare_texts;
use std::alloc::Global;
use std::cmp::Ordering;

/// A literal of a query.
#[derive(Debug, Drop)]
pub enum Literal {
    Int(i64),
    Text(Name),
}

/// The values of a column from a low end to a high end, both included. Either end may be missing.
#[derive(Debug, Drop)]
pub struct Range {
    pub column: u32,
    pub low: Option<Literal>,
    pub high: Option<Literal>,
}

/// A step over a stack of answers.
#[derive(Debug, Drop)]
pub enum Step {
    /// Puts the answer for all rows on the stack.
    Whole,
    /// Puts the answer for the rows that have the value `literal` in a column on the stack.
    Equal { column: u32, literal: Literal },
    /// Puts the answer for the rows in a range of a column on the stack.
    Within(Range),
    /// Combines the two answers on top by AND.
    And,
    /// Puts the answer for no row on the stack.
    NoRows,
    /// Combines the two answers on top by OR.
    Or,
}

impl Literal {
    /// A copy of the literal.
    pub(crate) fn copy(&self, alloc: Global) -> Result<Literal, NoMemory>
        ensures { IfOk result (λ literal. literal ≡ self.now) }
    {
        match self {
            Literal::Int(number) => Ok(Literal::Int(*number)),
            Literal::Text(text) => Ok(Literal::Text(Name::from_str(alloc, text.as_str())?)),
        }
    }
}

// Compares a number with a literal.
fn compare_int(a: i64, b: &Literal) -> Ordering
    ensures { result ≡ value_cmp (Int a) (value_of b.now) }
{
    match b {
        Literal::Int(b) => a.cmp(b),
        Literal::Text(_) => Ordering::Less,
    }
}

// Compares a text with a literal.
fn compare_text(a: &str, b: &Literal) -> Ordering
    ensures { result ≡ value_cmp (Text a.now) (value_of b.now) }
{
    match b {
        Literal::Int(_) => Ordering::Greater,
        Literal::Text(b) => compare_texts(a, b.as_str()),
    }
}

/// Compares two literals: numbers by size, and texts by code points. A number is less than a text.
pub(crate) fn compare_literals(a: &Literal, b: &Literal) -> Ordering
    ensures { result ≡ value_cmp (value_of a.now) (value_of b.now) }
{
    match a {
        Literal::Int(a) => compare_int(*a, b),
        Literal::Text(a) => compare_text(a.as_str(), b),
    }
}
