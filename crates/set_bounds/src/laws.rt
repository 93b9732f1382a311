//! Laws by which the bounds of all sets are quick to compute. Each function does nothing.
ghost use Rattle.std.specs.Prelude.{◌≡◌, ◌*◌, ℕ, List};
ghost use Rattle.std.specs.List.{AllByRecursion};
ghost use Rattle.entry_sets.specs.Sets.{IsSubset};
ghost use Rattle.berge_tree.specs.declared.edges.Edge.{Edge};
ghost use Rattle.berge_tree.specs.Equalities.{ClosesNoCycle};
ghost use Rattle.join_graph.specs.Kept.{equalities_within, kept_of};
ghost use Rattle.tree_bounds.specs.SetBounds.{bound_of_set, bound_of_turn, trees_of};
ghost use Rattle.tree_bounds.specs.TreeBounds.{EntryBounds};
ghost use Rattle.set_bounds.specs.Alike.{AreAlike, IsWithinOneClass};
ghost use Rattle.set_bounds.specs.Parts.{ConsistsOfParts};

/// If the equalities of a set close no cycle, every turn keeps all of them. So the bound in every turn is the bound of the set. The same holds if
/// each equality of the set joins columns of one class of turn 0's kept equalities. An example is a class with an equality for each pair of its
/// columns. Then the kept equalities of every turn have the same classes.
pub fn one_turn_serves()
    ensures forest { (b : EntryBounds) (es : List Edge) (subset turn : ℕ) → ClosesNoCycle (equalities_within subset es)
        → bound_of_turn b es subset turn ≡ bound_of_set b es subset }
    ensures classes { (b : EntryBounds) (es : List Edge) (subset turn : ℕ)
        → AllByRecursion (IsWithinOneClass (kept_of subset 0 es)) (equalities_within subset es)
        → bound_of_turn b es subset turn ≡ bound_of_set b es subset }
{}

/// If the equalities of a set close no cycle, the equalities of each subset close no cycle either. So one test of a set serves for all its subsets.
pub fn fewer_entries_close_no_cycle()
    ensures { (es : List Edge) (subset whole : ℕ) → IsSubset subset whole → ClosesNoCycle (equalities_within whole es)
        → ClosesNoCycle (equalities_within subset es) }
{}

/// Suppose that the equalities of a set close no cycle, and that the set consists of two parts that no equality joins. Then its bound is the product
/// of the parts' bounds.
pub fn parts_multiply()
    ensures { (b : EntryBounds) (es : List Edge) (subset part rest : ℕ) → ClosesNoCycle (equalities_within subset es)
        → ConsistsOfParts es subset part rest → bound_of_set b es subset ≡ bound_of_set b es part * bound_of_set b es rest }
{}

/// Turns whose kept equalities name the same columns and make the same classes have the same trees, and so the same bound.
pub fn alike_turns_have_the_same_trees()
    ensures trees { (es : List Edge) (subset turn other : ℕ) → AreAlike (kept_of subset turn es) (kept_of subset other es)
        → trees_of (kept_of subset turn es) subset ≡ trees_of (kept_of subset other es) subset }
    ensures bound { (b : EntryBounds) (es : List Edge) (subset turn other : ℕ) → AreAlike (kept_of subset turn es) (kept_of subset other es)
        → bound_of_turn b es subset turn ≡ bound_of_turn b es subset other }
{}
