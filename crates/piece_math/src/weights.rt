//! The weights of a table's rows, from the lists of its children.
ghost use Rattle.std.specs.Prelude.{◌≡◌, ◌^◌, ◌<◌, ◌≤◌, [], ◌∷◌, length, map, IfOk};
ghost use Rattle.std.specs.List.{All, sum};
ghost use Rattle.degree_sequences.specs.Composition.{row_weights as weights_of, root_total as total_of};
ghost use Rattle.degree_sequences.specs.Descending.{trimmed};
ghost use Rattle.degree_sequences.specs.ComparedChildren.{IsChildOf};
ghost use Rattle.degree_sequences.specs.Runs.{runs};
ghost use Rattle.degree_sequences.specs.Saturation.{saturated};
ghost use Rattle.piece_math.specs.Children.{lists_of, class_runs};

use crate::pieces::Pieces;
use crate::walk::{PiecePlaces, START, next_stretch};
use base_io::NoMemory;
use std::alloc::Global;

/// A child of a table. `column` is the list of the column by which the table joins the child. `class` has the weights that the child gives to rows,
/// by their rank in this column.
#[derive(Debug, Drop)]
pub struct Child {
    pub column: Pieces,
    pub class: Pieces,
}

// For each row the weight that the child gives it: the element of `class` at the row's rank in `column`.
fn spread(child: &Child) -> Result<Pieces, NoMemory>
    requires { sum child.now.column < 2 ^ 64 }
    ensures lists { IsChildOf (sum child.now.column) (lists_of child.now) }
    ensures value { IfOk result (λ list. list ≡ trimmed (weights_of (lists_of child.now ∷ []) (sum child.now.column))) }
    ensures fits { IfOk result (λ list. map saturated list ≡ list) }
    ensures few_pieces { IfOk result (λ list. runs list ≤ runs child.now.class) }
{
    let column = child.column.pieces();
    let class = child.class.pieces();
    let mut list = Pieces::with_room(child.class.alloc(), class.len())?;
    let mut places = PiecePlaces {
        left: START,
        right: START,
    };
    while places.left.at < column.len() || places.right.at < class.len() {
        let stretch = next_stretch(column, class, places);
        let rows = stretch.left * u128::from(stretch.count);
        list.put(stretch.right, rows as u64)?;
        places = stretch.next;
    }
    Ok(list)
}

// The weights of the rows of a table without children. Each row has weight 1.
fn ones(alloc: Global, rows: u64) -> Result<Pieces, NoMemory>
    ensures { IfOk result (λ weights. weights ≡ map saturated (trimmed (weights_of [] rows))) }
{
    let mut weights = Pieces::empty(alloc);
    weights.put(1, rows)?;
    Ok(weights)
}

// The weights of `rows` rows. The weight of a row is the product of the weights that the children give it.
pub fn row_weights(alloc: Global, children: &[Child], rows: u64) -> Result<Pieces, NoMemory>
    requires columns { All (λ child. sum child.column ≡ rows) children.now }
    ensures value { IfOk result (λ weights. weights ≡ map saturated (trimmed (weights_of (map lists_of children.now) rows))) }
    ensures few_pieces { IfOk result (λ weights. 0 < length children.now → runs weights ≤ class_runs children.now) }
{
    if children.is_empty() {
        return ones(alloc, rows);
    }
    let mut weights = spread(&children[0])?;
    for i in 1..children.len() {
        let own = spread(&children[i])?;
        weights = weights.product(&own)?;
    }
    Ok(weights)
}

/// The total weight of `rows` rows of a table without a parent, or `u128::MAX` if the total is larger.
pub fn root_total(alloc: Global, children: &[Child], rows: u64) -> Result<u128, NoMemory>
    requires columns { All (λ child. sum child.column ≡ rows) children.now }
    ensures { IfOk result (λ total. total ≡ saturated (total_of (map lists_of children.now) rows)) }
{
    let weights = row_weights(alloc, children, rows)?;
    Ok(weights.total())
}
