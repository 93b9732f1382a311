//! A law on bounds of tables whose rows may lack values. The call does nothing.
ghost use Rattle.std.specs.Prelude.{◌≡◌, ◌<◌, ◌≤◌, ◌^◌, ℕ, List, [], length};
ghost use Rattle.std.specs.List.{AllByRecursion};
ghost use Rattle.berge_tree.specs.declared.edges.Edge.{Edge};
ghost use Rattle.entry_sets.specs.Sets.{entries_of_set};
ghost use Rattle.join_graph.specs.Kept.{equalities_within};
ghost use Rattle.tree_bounds.specs.SetBounds.{bound_of_set};
ghost use Rattle.tree_bounds.specs.Tables.{ChoicesAreDifferent};
ghost use Rattle.safebound_lists.specs.declared.runs.Run.{Run};
ghost use Rattle.safebound_bounds.specs.declared.arguments.ColumnList.{ColumnList};
ghost use Rattle.safebound_bounds.specs.declared.arguments.Equality.{Equality};
ghost use Rattle.safebound_bounds.specs.Causes.{AreArgumentsValid};
ghost use Rattle.safebound_bounds.specs.Meaning.{edges_of, given_list, known, known_in};
ghost use Rattle.safebound_bounds.specs.Values.{SatisfiesValues, ValuedTables, ValuesFit};

/// No bound is too low, even if rows lack values. A choice has one row for each entry of a set. The choices that satisfy the set's equalities are at
/// most as many as the set's bound from `known_in` says. If no equality joins entries of the set, all rows of its entries count.
pub fn rows_without_values_join_with_nothing()
    ensures never_under { (rows : List ℕ) (equalities : List Equality) (lists : List ColumnList) (runs : List Run)
        → AreArgumentsValid rows equalities lists runs → (subset : ℕ) → subset < 2 ^ length rows → (tables : ValuedTables)
        → ValuesFit rows (given_list lists runs) tables (edges_of equalities) subset → (choices : List (ℕ → ℕ))
        → AllByRecursion (SatisfiesValues tables (entries_of_set subset) (equalities_within subset (edges_of equalities))) choices
        → ChoicesAreDifferent (entries_of_set subset) choices
        → length choices ≤ bound_of_set (known_in rows lists runs (edges_of equalities) subset) (edges_of equalities) subset }
    ensures unjoined { (rows : List ℕ) (lists : List ColumnList) (runs : List Run) (es : List Edge) (subset : ℕ)
        → equalities_within subset es ≡ [] → known_in rows lists runs es subset ≡ known rows lists runs }
{}
