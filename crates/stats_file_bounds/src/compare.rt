//! Compares values of a file with literals of a query.
ghost use Rattle.std.specs.Prelude.{◌≡◌};
ghost use Rattle.csv_tables.specs.Values.{value_cmp};
ghost use Rattle.predicate_bounds.specs.Steps.{value_of as literal_value};
ghost use Rattle.stats_file_of_query.specs.Data.{value_of};
ghost use Rattle.stats_file_of_query.specs.Standing.{is_value};
ghost use Rattle.stats_file_bounds.specs.Compared.{is_at_most};

use csv_tables::compare_texts;
use predicate_bounds::Literal;
use stats_file::Datum;
use std::cmp::Ordering;

// The order of a value and a literal. Numbers are ordered by size, texts by code points, and a number is below each text.
fn compare(value: &Datum, literal: &Literal) -> Ordering
    ensures { result ≡ value_cmp (value_of value.now) (literal_value literal.now) }
{
    match (value, literal) {
        (Datum::Int(a), Literal::Int(b)) => a.cmp(b),
        (Datum::Text(a), Literal::Text(b)) => compare_texts(a.as_str(), b.as_str()),
        (Datum::Int(_), Literal::Text(_)) => Ordering::Less,
        (Datum::Text(_), Literal::Int(_)) => Ordering::Greater,
    }
}

/// Whether a value is equal to the literal.
pub(crate) fn is_literal(value: &Datum, literal: &Literal) -> bool
    ensures { result ≡ is_value (literal_value literal.now) value.now }
{
    compare(value, literal).is_eq()
}

/// Whether a cut is at most the literal.
pub(crate) fn is_at_most(cut: &Datum, literal: &Literal) -> bool
    ensures { result ≡ is_at_most cut.now (literal_value literal.now) }
{
    compare(cut, literal).is_le()
}
