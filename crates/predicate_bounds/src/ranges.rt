//! The intersection of all ranges of a column.
ghost use Rattle.std.specs.Prelude.{◌≡◌, ◌==◌, map, option_map, IfOk};
ghost use Rattle.std.specs.List.{list_any};
ghost use Rattle.filtered_lists.specs.Ranges.{intersection_of};
ghost use Rattle.predicate_bounds.specs.Narrowing.{is_below, is_above, lower_high_end, greater_low_end, narrowed};
ghost use Rattle.predicate_bounds.specs.Steps.{literal_range_of, range_of, value_of};

use crate::steps::{Literal, Range, compare_literals};
use base_io::NoMemory;
use std::alloc::Global;

// Whether `end` exists and is above `literal`.
fn is_above(end: &Option<Literal>, literal: &Literal) -> bool
    ensures { result ≡ is_above (option_map value_of end.now) (value_of literal.now) }
{
    match end {
        None => false,
        Some(end) => compare_literals(literal, end).is_lt(),
    }
}

// Whether `end` exists and is below `literal`.
fn is_below(end: &Option<Literal>, literal: &Literal) -> bool
    ensures { result ≡ is_below (option_map value_of end.now) (value_of literal.now) }
{
    match end {
        None => false,
        Some(end) => compare_literals(literal, end).is_gt(),
    }
}

// The greater of two low ends. If one end is missing, the result is the other end.
fn greater_low_end(
    alloc: Global,
    one: &Option<Literal>,
    other: Option<Literal>,
) -> Result<Option<Literal>, NoMemory>
    ensures { IfOk result (λ low. option_map value_of low ≡ greater_low_end (option_map value_of one.now) (option_map value_of other)) }
{
    let Some(one) = one else {
        return Ok(other);
    };
    if is_above(&other, one) {
        return Ok(other);
    }
    Ok(Some(one.copy(alloc)?))
}

// The lower of two high ends. If one end is missing, the result is the other end.
fn lower_high_end(
    alloc: Global,
    one: &Option<Literal>,
    other: Option<Literal>,
) -> Result<Option<Literal>, NoMemory>
    ensures { IfOk result (λ high. option_map value_of high ≡ lower_high_end (option_map value_of one.now) (option_map value_of other)) }
{
    let Some(one) = one else {
        return Ok(other);
    };
    if is_below(&other, one) {
        return Ok(other);
    }
    Ok(Some(one.copy(alloc)?))
}

// The intersection of two ranges of one column.
fn narrowed(alloc: Global, range: &Range, one: Range) -> Result<Range, NoMemory>
    ensures { IfOk result (λ narrow. range_of narrow ≡ narrowed (range_of range.now) (range_of one)) }
{
    let Range { column, low, high } = one;
    let low = greater_low_end(alloc, &range.low, low)?;
    let high = lower_high_end(alloc, &range.high, high)?;
    Ok(Range { column, low, high })
}

/// The intersection of all ranges of a column: from the greatest of the low ends to the least of the high ends.
pub(crate) fn intersection_of(
    alloc: Global,
    ranges: &[Range],
    column: u32,
) -> Result<Range, NoMemory>
    ensures { IfOk result (λ range. range ≡ literal_range_of (intersection_of (map range_of ranges.now) column)) }
{
    let mut one = Range {
        column,
        low: None,
        high: None,
    };
    let mut i = ranges.len();
    while i > 0 {
        i -= 1;
        let range = &ranges[i];
        if range.column == column {
            one = narrowed(alloc, range, one)?;
        }
    }
    Ok(one)
}

/// Whether a range of `column` is among `ranges`.
pub(crate) fn has_column(ranges: &[Range], column: u32) -> bool
    ensures { result ≡ list_any (λ range. range.column == column) ranges.now }
{
    ranges.iter().any(|range| range.column == column)
}
