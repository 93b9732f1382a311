//! Finds the equalities along which conjuncts are carried.
ghost use Rattle.std.specs.Prelude.{◌≡◌, ◌++◌, ◌∷◌, [], ◌<◌, IfOk, OnOk, filter, length};
ghost use Rattle.std.specs.List.{list_any};
ghost use Rattle.join_graph.specs.Conjuncts.{equalities_of, local_of};
ghost use Rattle.tree_bounds.specs.Columns.{EachNamedColumn};
ghost use Rattle.key_carriers.specs.Carriers.{carrying_equalities, carries, has_own_conjunct, is_only_column, is_declared_key, is_reference_from_to, refers, refers_to_key, table_of, exchanged};

use base_io::{NoMemory, Seq};
use berge_tree::Edge;
use join_graph::Parts;
use query_types::Query;
use schema_types::{Reference, Schema};
use std::alloc::Global;

// Whether a list has only this column.
fn is_only_column(column: u32, columns: &[u32]) -> bool
    ensures { result ≡ is_only_column column columns.now }
{
    match columns {
        [only] => *only == column,
        _ => false,
    }
}

// Whether a reference has only this column, and its target is only the column `target` of the table.
fn is_reference_from_to(column: u32, table: u32, target: u32, reference: &Reference) -> bool
    ensures { result ≡ is_reference_from_to column table target reference.now }
{
    if !is_only_column(column, reference.columns.as_slice()) {
        return false;
    }
    if reference.table != table {
        return false;
    }
    is_only_column(target, reference.targets.as_slice())
}

fn some_refers(column: u32, table: u32, target: u32, references: &[Reference]) -> bool
    ensures { result ≡ list_any (is_reference_from_to column table target) references.now }
{
    for reference in references {
        if is_reference_from_to(column, table, target, reference) {
            return true;
        }
    }
    false
}

fn some_is_only_column(column: u32, keys: &[Seq<u32>]) -> bool
    ensures { result ≡ list_any (is_only_column column) keys.now }
{
    for key in keys {
        if is_only_column(column, key.as_slice()) {
            return true;
        }
    }
    false
}

// Whether the schema declares a reference from this column of the table to column `target` of table `other`.
fn refers(schema: &Schema, table: u32, column: u32, other: u32, target: u32) -> bool
    ensures { result ≡ refers schema.now table column other target }
{
    let at = table as usize;
    if at < schema.tables.len() {
        let table = schema.tables.get(at);
        return some_refers(column, other, target, table.references.as_slice());
    }
    false
}

// Whether a column by itself is declared as a key of its table.
fn is_key(schema: &Schema, table: u32, column: u32) -> bool
    ensures { result ≡ is_declared_key schema.now table column }
{
    let at = table as usize;
    if at < schema.tables.len() {
        let table = schema.tables.get(at);
        return some_is_only_column(column, table.keys.as_slice());
    }
    false
}

// The table of an entry.
fn table_of(query: &Query, entry: u8) -> u32
    ensures { result ≡ table_of query.now entry }
{
    let at = usize::from(entry);
    if at < query.from.len() {
        return query.from.get(at).table;
    }
    0
}

fn refers_to_key(schema: &Schema, query: &Query, edge: Edge) -> bool
    ensures { result ≡ refers_to_key schema.now query.now edge }
{
    let table = table_of(query, edge.left.entry);
    let other = table_of(query, edge.right.entry);
    if !refers(schema, table, edge.left.column, other, edge.right.column) {
        return false;
    }
    is_key(schema, other, edge.right.column)
}

// Whether some conjunct names this entry and no other entry.
fn has_own_conjunct(query: &Query, parts: &Parts, entry: u8) -> bool
    requires local { parts.now.local ≡ local_of query.now }
    requires entry { entry < length query.now.from }
    ensures { result ≡ has_own_conjunct query.now entry }
{
    parts.local.get(usize::from(entry)).len() > 0
}

// Adds an equality at the end, if conjuncts are carried along it.
fn add_carrier(
    schema: &Schema,
    query: &Query,
    parts: &Parts,
    edge: Edge,
    edges: &mut Seq<Edge>,
) -> Result<(), NoMemory>
    requires local { parts.now.local ≡ local_of query.now }
    requires entry { edge.right.entry < length query.now.from }
    ensures { OnOk result (edges.new ≡ edges.old ++ filter (carries schema.now query.now) (edge ∷ [])) }
{
    if !refers_to_key(schema, query, edge) {
        return Ok(());
    }
    if !has_own_conjunct(query, parts, edge.right.entry) {
        return Ok(());
    }
    edges.push(edge)
}

fn exchanged(edge: Edge) -> Edge
    ensures { result ≡ exchanged edge }
{
    Edge {
        left: edge.right,
        right: edge.left,
    }
}

/// The equalities along which conjuncts are carried, in text order. The right entry of each is the carrying entry, and its conjuncts are carried to
/// the left entry. The schema declares a reference from the left column to the right column. The right column by itself is a PRIMARY KEY or UNIQUE.
/// Some conjunct names only the right entry. `parts` is the result of `split` for the query.
pub fn carrying_equalities(
    alloc: Global,
    schema: &Schema,
    query: &Query,
    parts: &Parts,
) -> Result<Seq<Edge>, NoMemory>
    requires local { parts.now.local ≡ local_of query.now }
    requires equalities { parts.now.equalities ≡ equalities_of query.now }
    requires named { EachNamedColumn (λ entry column. entry < length query.now.from) (equalities_of query.now) }
    ensures { IfOk result (λ edges. edges ≡ carrying_equalities schema.now query.now) }
{
    let mut edges = Seq::new(alloc);
    let equalities = parts.equalities.as_slice();
    'equalities: for number in 0..equalities.len() {
        let edge = equalities[number];
        add_carrier(schema, query, parts, edge, &mut edges)?;
        add_carrier(schema, query, parts, exchanged(edge), &mut edges)?;
    }
    Ok(edges)
}
