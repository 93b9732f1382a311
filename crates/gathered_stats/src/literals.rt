//! Finds the cell and the leaf of a literal in a column.
ghost use Rattle.std.specs.Prelude.{◌≡◌, ◌<◌, ℕ, IfSome, option_map};
ghost use Rattle.schema_types.specs.declared.types.Kind.TheVariants as kind;
ghost use Rattle.csv_tables.specs.Values.{Int, Text};
ghost use Rattle.cond_stats.specs.Columns.{leaf_of_value};
ghost use Rattle.predicate_bounds.specs.Steps.{value_of};
ghost use Rattle.table_stats.specs.Cells.{IsCellFor};

use cond_stats::FilterColumn;
use csv_tables::{Pool, cell_of};
use predicate_bounds::Literal;
use schema_types::Kind;

// The cell of a number in a column of this kind. A column of texts has no cell for it.
fn cell_of_int(pool: &Pool, kind: Kind, number: i64) -> Option<u64>
    ensures { IsCellFor pool.now kind (Int number) result }
{
    match kind {
        Kind::Int => Some(cell_of(number)),
        Kind::Text(_) => None,
    }
}

// The cell of a text in a column of texts, if the pool has it. `len` is called only for its contract, which says that the pool's texts are UTF-8.
fn find_text(pool: &Pool, text: &str) -> Option<u64>
    ensures { (most : ℕ) → IsCellFor pool.now (kind.Text most) (Text text.now) result }
{
    let _texts = pool.len();
    match pool.find(text) {
        Some(cell) => Some(u64::from(cell)),
        None => None,
    }
}

// The cell of a text in a column of this kind, if the pool has it. A column of numbers has no cell for it.
fn cell_of_text(pool: &Pool, kind: Kind, text: &str) -> Option<u64>
    ensures { IsCellFor pool.now kind (Text text.now) result }
{
    match kind {
        Kind::Int => None,
        Kind::Text(_) => find_text(pool, text),
    }
}

/// The cell of a literal in a column of this kind, if the literal has a cell there.
pub(crate) fn cell_of_literal(pool: &Pool, kind: Kind, literal: &Literal) -> Option<u64>
    ensures { IsCellFor pool.now kind (value_of literal.now) result }
{
    match literal {
        Literal::Int(number) => cell_of_int(pool, kind, *number),
        Literal::Text(text) => cell_of_text(pool, kind, text.as_str()),
    }
}

// The leaf of the column's histogram in which a literal's value lies.
fn leaf_of(column: &FilterColumn<'_>, literal: &Literal) -> u8
    ensures leaf { result ≡ leaf_of_value column.now.texts column.now.kind column.now.cells (value_of literal.now) }
    ensures below { result < 32 }
{
    match literal {
        Literal::Int(number) => column.leaf_of_int(*number),
        Literal::Text(text) => column.leaf_of_text(text.as_str()),
    }
}

/// The leaf in which an end of a range lies, if the range has this end.
pub(crate) fn end_leaf(column: &FilterColumn<'_>, end: &Option<Literal>) -> Option<u8>
    ensures leaf { result ≡ option_map (leaf_of_value column.now.texts column.now.kind column.now.cells) (option_map value_of end.now) }
    ensures below { IfSome result (λ leaf. leaf < 32) }
{
    match end {
        Some(literal) => Some(leaf_of(column, literal)),
        None => None,
    }
}
