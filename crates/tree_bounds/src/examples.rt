//! Examples of each definition, with small numbers.
ghost use Rattle.std.specs.Prelude.{◌≡◌, ◌-◌, ◌*◌, ◌^◌, [], ◌∷◌};
ghost use Rattle.std.specs.List.{AllByRecursion};
ghost use Rattle.degree_sequences.specs.Degrees.{degree_list};
ghost use Rattle.degree_sequences.specs.Saturation.{saturated};
ghost use Rattle.entry_sets.specs.Sets.{entries_of_set};
ghost use Rattle.berge_tree.specs.Testing.{edge_of};
ghost use Rattle.berge_tree.specs.Trees.{entries};
ghost use Rattle.join_graph.specs.Examples.{pair, triangle};
ghost use Rattle.join_graph.specs.Kept.{equalities_within};
ghost use Rattle.tree_bounds.specs.TreeBounds.{TreeHasLists, bound_of_tree, bound_of_trees};
ghost use Rattle.tree_bounds.specs.Nearness.{SetIsNear, TreeIsNear};
ghost use Rattle.tree_bounds.specs.Tables.{Agrees, ChoicesAreDifferent, Satisfies, SetDominates, TreeDominates};
ghost use Rattle.tree_bounds.specs.SetBounds.{SetHasLists, bound_of_set, bound_of_turn};
ghost use Rattle.tree_bounds.specs.Counting.{tree_choices};
ghost use Rattle.tree_bounds.specs.Examples.{path, path_bounds, r_and_s, two_choices, two_keys, two_tables, exact_list, exact_bounds, compressed_bounds, triangle_bounds, pair_bounds, one_class, bounds_of_1700_rows};

/// The bounds of trees over two and three entries, and of two trees together.
pub fn trees()
    ensures path { bound_of_tree path_bounds path ≡ 19 }
    ensures compressed { bound_of_tree compressed_bounds r_and_s ≡ 12 }
    ensures exact { bound_of_tree exact_bounds r_and_s ≡ 9 }
    ensures degrees { (degree_list (two_keys 0 0) ≡ exact_list 0 0) × (degree_list (two_keys 1 0) ≡ exact_list 1 0) }
    ensures six_choices { tree_choices two_tables r_and_s
        ≡ (0 ∷ 0 ∷ []) ∷ (0 ∷ 1 ∷ []) ∷ (1 ∷ 0 ∷ []) ∷ (1 ∷ 1 ∷ []) ∷ (2 ∷ 0 ∷ []) ∷ (2 ∷ 1 ∷ []) ∷ [] }
    ensures components { bound_of_trees path_bounds (path ∷ path ∷ []) ≡ 19 * 19 }
{}

/// The bounds of sets: a triangle (three entries that are joined in a cycle), two entries with two equalities, and two entries without an equality.
pub fn sets()
    ensures first { bound_of_set triangle_bounds triangle 1 ≡ 3 }
    ensures single { bound_of_set triangle_bounds triangle 2 ≡ 3 }
    ensures last { bound_of_set triangle_bounds triangle 4 ≡ 3 }
    ensures first_pair { bound_of_set triangle_bounds triangle 3 ≡ 5 }
    ensures middle_pair { bound_of_set triangle_bounds triangle 6 ≡ 5 }
    ensures last_pair { bound_of_set triangle_bounds triangle 5 ≡ 5 }
    ensures first_turn { bound_of_turn triangle_bounds triangle 7 0 ≡ 9 }
    ensures second_turn { bound_of_turn triangle_bounds triangle 7 1 ≡ 9 }
    ensures third_turn { bound_of_turn triangle_bounds triangle 7 2 ≡ 9 }
    ensures triangle { bound_of_set triangle_bounds triangle 7 ≡ 9 }
    ensures alike { bound_of_turn pair_bounds pair 3 0 ≡ 9 }
    ensures different { bound_of_turn pair_bounds pair 3 1 ≡ 3 }
    ensures least { bound_of_set pair_bounds pair 3 ≡ 3 }
    ensures components { bound_of_set triangle_bounds (edge_of 0 0 1 0 ∷ edge_of 2 0 3 0 ∷ []) 15 ≡ 5 * 5 }
    ensures unjoined { bound_of_set path_bounds [] 7 ≡ 3 * 6 * 5 }
    ensures empty { bound_of_set path_bounds triangle 0 ≡ 1 }
{}

/// The bounds of eleven and of twelve entries in one class.
pub fn one_class()
    ensures eleven { bound_of_tree bounds_of_1700_rows (one_class 9) ≡ 1700 ^ 11 }
    ensures twelve { saturated (bound_of_tree bounds_of_1700_rows (one_class 10)) ≡ 2 ^ 128 - 1 }
{}

/// All premises of the laws can be satisfied. The exact lists of two tables dominate the tables, for the tree and for the set of both entries. Two
/// different choices agree in the tree and satisfy the equality. The compressed lists are near the exact lists at accuracy 1.
pub fn instances()
    ensures lists { TreeHasLists exact_bounds r_and_s }
    ensures dominates { TreeDominates exact_bounds two_tables r_and_s }
    ensures set_lists { SetHasLists exact_bounds (edge_of 0 0 1 0 ∷ []) 3 }
    ensures set_dominates { SetDominates exact_bounds two_tables (edge_of 0 0 1 0 ∷ []) 3 }
    ensures set_bound { bound_of_set exact_bounds (edge_of 0 0 1 0 ∷ []) 3 ≡ 9 }
    ensures near_lists { TreeHasLists compressed_bounds r_and_s }
    ensures near { TreeIsNear 1 compressed_bounds exact_bounds r_and_s }
    ensures set_near { SetIsNear 1 compressed_bounds exact_bounds (edge_of 0 0 1 0 ∷ []) 3 }
    ensures agree { AllByRecursion (Agrees two_tables r_and_s) two_choices }
    ensures satisfy { AllByRecursion (Satisfies two_tables (entries_of_set 3) (equalities_within 3 (edge_of 0 0 1 0 ∷ []))) two_choices }
    ensures different { ChoicesAreDifferent (entries r_and_s) two_choices }
{}
