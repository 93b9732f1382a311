//! Tests whether the kept equalities of two turns are alike (`AreAlike`), by the classes of their columns.
ghost use Rattle.std.specs.Prelude.{◌≡◌, ℕ, List, true};
ghost use Rattle.std.specs.List.{AllByRecursion};
ghost use Rattle.berge_tree.specs.declared.edges.Edge.{Edge};
ghost use Rattle.berge_tree.specs.Equalities.{ClosesNoCycle};
ghost use Rattle.join_graph.specs.Kept.{kept_of};
ghost use Rattle.set_bounds.specs.Alike.{AreAlike, IsWithinOneClass, AreOfTurnsBefore, IsLikeEarlier};

use berge_tree::{ColumnClasses, Edge};

/// True only if `others` puts the two columns of each equality of `edges` into the same class.
pub(crate) fn are_in_classes(others: &ColumnClasses, edges: &[Edge]) -> bool
    ensures { result ≡ true → AllByRecursion (IsWithinOneClass others.now) edges.now }
{
    for edge in edges {
        if !others.are_in_one(*edge) {
            return false;
        }
    }
    true
}

fn are_alike(a: &ColumnClasses, b: &ColumnClasses) -> bool
    ensures { result ≡ true → ClosesNoCycle a.now → ClosesNoCycle b.now → AreAlike a.now b.now }
{
    are_in_classes(a, b.edges()) && are_in_classes(b, a.edges())
}

/// If the result is true, `kept` is alike to the kept equalities of an earlier turn whose bound was computed. If the result is false, nothing is
/// promised.
pub(crate) fn is_like_earlier(kept: &ColumnClasses, folded: &[ColumnClasses]) -> bool
    ensures { result ≡ true → (es : List Edge) → (subset turn : ℕ) → kept.now ≡ kept_of subset turn es
        → AreOfTurnsBefore es subset turn folded.now → IsLikeEarlier es subset turn }
{
    for earlier in folded {
        if are_alike(earlier, kept) {
            return true;
        }
    }
    false
}
