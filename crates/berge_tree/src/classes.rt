//! Tells whether some equalities put two columns into the same class.
ghost use Rattle.std.specs.Prelude.{◌≡◌, IfOk};
ghost use Rattle.berge_tree.specs.Equalities.{class_of, same_place};

use crate::columns::{Column, class_in, columns_of, is_same};
use crate::edges::Edge;
use base_io::{NoMemory, Seq};
use std::alloc::Global;
use std::marker::Model;

/// Equalities, with the classes of columns that they make. In contracts it stands for the equalities alone.
#[derive(Drop)]
pub struct ColumnClasses {
    edges: Seq<Edge>,
    columns: Vec<Column>,
}

impl Model for ColumnClasses {
    ghost use Rattle.std.specs.Prelude.{◌≡◌, List};
    ghost use Rattle.berge_tree.specs.declared.edges.Edge.{Edge};
    ghost use Rattle.berge_tree.specs.Walk.{columns_of};

    ghost Value = { List Edge };

    ghost view = { λ c. c.edges };

    ghost invariant = { λ c. c.columns.items ≡ columns_of c.edges };
}

impl ColumnClasses {
    /// Finds the classes. On `NoMemory` the equalities are dropped.
    pub fn new(alloc: Global, edges: Seq<Edge>) -> Result<ColumnClasses, NoMemory>
        ensures { IfOk result (λ classed. classed ≡ edges) }
    {
        let columns = columns_of(alloc, edges.as_slice())?;
        Ok(ColumnClasses { edges, columns })
    }

    /// The equalities.
    pub fn edges(&self) -> &[Edge]
        ensures { result.now ≡ self.now }
    {
        self.edges.as_slice()
    }

    /// Whether both columns of an equality are in the same class of these equalities.
    pub fn are_in_one(&self, edge: Edge) -> bool
        ensures { result ≡ same_place (class_of self.now edge.left) (class_of self.now edge.right) }
    {
        let columns = self.columns.as_slice();
        is_same(class_in(columns, edge.left), class_in(columns, edge.right))
    }
}
