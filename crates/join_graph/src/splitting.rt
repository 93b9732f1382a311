//! Puts each conjunct of a query into a part: the own conjuncts of one FROM entry, the equalities, or all others.
ghost use Rattle.std.specs.Prelude.{◌≡◌, ◌^◌, ◌<◌, length, map, IfOk, Some};
ghost use Rattle.std.specs.List.{filter_map, range_with_len};
ghost use Rattle.join_graph.specs.Conjuncts.{equalities_of, equality_of, equality_between, local_of, numbers_where, residual_of};
ghost use Rattle.join_graph.specs.Naming.{edge_in, is_same_part, part_of};
ghost use Rattle.join_graph.specs.declared.splitting.Part.TheVariants as part;

use crate::naming::{EntriesNamed, column_of, named_by};
use crate::parts::Parts;
use base_io::{NoMemory, Seq};
use berge_tree::{Edge, Place};
use query_grammar::Op;
use query_types::{ColumnRef, Cond, Query};
use std::alloc::{AllocError, Global};

/// The part of a conjunct: the own conjuncts of one entry, the equalities of columns of two entries, or all other conjuncts.
#[derive(Clone, Copy)]
pub(crate) enum Part {
    Local(u8),
    Equality(Edge),
    Residual,
}

fn place_of(column: ColumnRef) -> Place
    ensures entry { result.entry ≡ column.from }
    ensures column { result.column ≡ column.column }
{
    Place {
        entry: column.from,
        column: column.column,
    }
}

// The equality of two columns, if they are columns of different entries.
fn equality_between(left: ColumnRef, right: ColumnRef) -> Option<Edge>
    ensures { result ≡ equality_between (Some left) (Some right) }
{
    if left.from == right.from {
        return None;
    }
    Some(Edge {
        left: place_of(left),
        right: place_of(right),
    })
}

// The condition as an equality, if it is `=` between columns of two different entries.
fn equality_of(cond: &Cond) -> Option<Edge>
    ensures { result ≡ equality_of cond.now }
{
    let Cond::Compare { op, left, right } = cond else {
        return None;
    };
    if *op != Op::Eq {
        return None;
    }
    equality_between(column_of(left)?, column_of(right)?)
}

fn part_of(cond: &Cond) -> Part
    ensures { result ≡ part_of cond.now }
{
    if let Some(edge) = equality_of(cond) {
        return Part::Equality(edge);
    }
    match named_by(cond) {
        EntriesNamed::OneEntry(entry) => Part::Local(entry),
        EntriesNamed::NoEntry | EntriesNamed::Several => Part::Residual,
    }
}

// Whether `a` and `b` are the own conjuncts of the same entry, or are both the residual part. If `a` or `b` is an equality, the result is false.
fn is_same_part(a: Part, b: Part) -> bool
    ensures { result ≡ is_same_part a b }
{
    match a {
        Part::Local(entry) => is_local(entry, b),
        Part::Equality(_) => false,
        Part::Residual => matches!(b, Part::Residual),
    }
}

fn is_local(entry: u8, other: Part) -> bool
    ensures { result ≡ is_same_part (part.Local entry) other }
{
    match other {
        Part::Local(own) => own == entry,
        Part::Equality(_) | Part::Residual => false,
    }
}

// The part of each conjunct.
fn parts_of(alloc: Global, conjuncts: &[Cond]) -> Result<Vec<Part>, AllocError>
    ensures { IfOk result (λ parts. parts.items ≡ map part_of conjuncts.now) }
{
    conjuncts.iter().map(|cond| part_of(cond)).collect(alloc)
}

// The numbers of the conjuncts in this part, in text order. If `part` is an equality, the result is empty.
fn numbers_in(alloc: Global, parts: &[Part], part: Part) -> Result<Seq<u32>, NoMemory>
    requires { length parts.now < 2 ^ 32 }
    ensures { IfOk result (λ numbers. numbers ≡ numbers_where (is_same_part part) 0 parts.now) }
{
    let mut numbers = Seq::new(alloc);
    for i in 0..parts.len() {
        if is_same_part(part, parts[i]) {
            numbers.push(i as u32)?;
        }
    }
    Ok(numbers)
}

// For each FROM entry, the numbers of its own conjuncts.
fn numbers_by_entry(alloc: Global, parts: &[Part], entries: u8) -> Result<Seq<Seq<u32>>, NoMemory>
    requires { length parts.now < 2 ^ 32 }
    ensures { IfOk result
        (λ lists. lists ≡ map (λ entry. numbers_where (is_same_part (part.Local entry)) 0 parts.now) (range_with_len 0 entries)) }
{
    let mut lists = Seq::new(alloc);
    for entry in 0..entries {
        lists.push(numbers_in(alloc, parts, Part::Local(entry))?)?;
    }
    Ok(lists)
}

fn edge_in(part: Part) -> Option<Edge>
    ensures { result ≡ edge_in part }
{
    match part {
        Part::Equality(edge) => Some(edge),
        Part::Local(_) | Part::Residual => None,
    }
}

fn equalities_in(alloc: Global, parts: &[Part]) -> Result<Vec<Edge>, AllocError>
    ensures { IfOk result (λ edges. edges.items ≡ filter_map edge_in parts.now) }
{
    parts
        .iter()
        .filter_map(|part| edge_in(*part))
        .collect(alloc)
}

/// Splits the conjuncts of a query into parts. If conjuncts name only entries of FROM, each conjunct is in exactly one part. The call fails only if
/// there is too little memory.
pub fn split(alloc: Global, query: &Query) -> Result<Parts, NoMemory>
    requires entries { length query.now.from < 2 ^ 8 }
    requires conjuncts { length query.now.conjuncts < 2 ^ 32 }
    ensures local { IfOk result (λ parts. parts.local ≡ local_of query.now) }
    ensures equalities { IfOk result (λ parts. parts.equalities ≡ equalities_of query.now) }
    ensures residual { IfOk result (λ parts. parts.residual ≡ residual_of query.now) }
{
    let parts = parts_of(alloc, query.conjuncts.as_slice())?;
    let parts = parts.as_slice();
    Ok(Parts {
        local: numbers_by_entry(alloc, parts, query.from.len() as u8)?,
        equalities: Seq::from_vec(equalities_in(alloc, parts)?),
        residual: numbers_in(alloc, parts, Part::Residual)?,
    })
}
