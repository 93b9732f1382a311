//! Scans, levels and bounds of three tables that are joined in a triangle, as theorems that are proved by computation.
ghost use Rattle.std.specs.Prelude.{◌≡◌, ◌∷◌, [], length};
ghost use Rattle.entry_sets.specs.Sets.{entries_of_set};
ghost use Rattle.join_graph.specs.Conjuncts.{equalities_of};
ghost use Rattle.join_graph.specs.Examples.{triangle as triangle_equalities};
ghost use Rattle.tree_bounds.specs.Examples.{triangle_bounds};
ghost use Rattle.tree_bounds.specs.SetBounds.{bound_of_set};
ghost use Rattle.sql_meaning.specs.Examples.{triangle, triangle_tables};
ghost use Rattle.level_bounds.specs.Examples.{three_tables, triangle_level, triangle_scan};
ghost use Rattle.level_bounds.specs.Keys.{HaveDifferentCharacters, cell_at};
ghost use Rattle.level_bounds.specs.Orders.{IsOrderOfSet};
ghost use Rattle.level_bounds.specs.Scans.{BoundsEachScan, BoundsScans};
ghost use Rattle.level_bounds.specs.WholeTables.{AreCompressed};

/// The order R, S, T has levels of 3, 5 and 4 rows, and bounds of 3, 5 and 9.
pub fn triangles()
    ensures joined { equalities_of triangle ≡ triangle_equalities }
    ensures first { length (triangle_level (0 ∷ [])) ≡ 3 }
    ensures second { length (triangle_level (0 ∷ 1 ∷ [])) ≡ 5 }
    ensures last { length (triangle_level (0 ∷ 1 ∷ 2 ∷ [])) ≡ 4 }
    ensures turned { length (triangle_level (2 ∷ 0 ∷ 1 ∷ [])) ≡ 4 }
    ensures first_bound { bound_of_set triangle_bounds (equalities_of triangle) 1 ≡ 3 }
    ensures second_bound { bound_of_set triangle_bounds (equalities_of triangle) 3 ≡ 5 }
    ensures last_bound { bound_of_set triangle_bounds (equalities_of triangle) 7 ≡ 9 }
{}

/// The three tables meet all premises of the laws. The scan of each entry is its whole table. The bounds are the compressed degree lists of
/// the tables, and they hold for the scans of the three entries. The list T, R, S is an order of the set of all three.
pub fn instances()
    ensures scans { triangle_scan 1 ≡ 0 ∷ 1 ∷ 2 ∷ [] }
    ensures compressed { AreCompressed 1 triangle_bounds three_tables (cell_at triangle_tables) (equalities_of triangle) 7 }
    ensures bounds { BoundsScans triangle_bounds triangle three_tables (cell_at triangle_tables) 7 }
    ensures each { BoundsEachScan triangle_bounds triangle three_tables (cell_at triangle_tables) }
    ensures order { IsOrderOfSet (entries_of_set 7) (2 ∷ 0 ∷ 1 ∷ []) }
    ensures texts { HaveDifferentCharacters triangle_tables.pool }
{}
