//! What the definitions give for small lists.
ghost use Rattle.std.specs.Prelude.{◌≡◌, ◌-◌, ◌^◌, ◌∷◌, [], map};
ghost use Rattle.degree_sequences.specs.ByRank.{rank_product, rank_sum, rank_maximum};
ghost use Rattle.degree_sequences.specs.Composition.{row_weights, composed, root_total};
ghost use Rattle.degree_sequences.specs.Compression.{heads, compressed};
ghost use Rattle.degree_sequences.specs.Degrees.{degree_list};
ghost use Rattle.degree_sequences.specs.RunningSums.{lesser, capped_at};
ghost use Rattle.degree_sequences.specs.Saturation.{saturated};

/// Degree lists, and their compression at several accuracies.
pub fn compression()
    ensures degrees { degree_list (8 ∷ 8 ∷ 8 ∷ 8 ∷ 8 ∷ 2 ∷ 2 ∷ 2 ∷ 5 ∷ []) ≡ 5 ∷ 3 ∷ 1 ∷ [] }
    ensures heads { heads 1 (5 ∷ 3 ∷ 1 ∷ []) ≡ 5 ∷ 5 ∷ 1 ∷ [] }
    ensures five_three_one { compressed 1 (5 ∷ 3 ∷ 1 ∷ []) ≡ 5 ∷ 4 ∷ [] }
    ensures three_two_one { compressed 1 (3 ∷ 2 ∷ 1 ∷ []) ≡ 3 ∷ 3 ∷ [] }
    ensures two_and_three_ones { compressed 1 (2 ∷ 1 ∷ 1 ∷ 1 ∷ []) ≡ 2 ∷ 2 ∷ 1 ∷ [] }
    ensures five_four_three_one { compressed 1 (5 ∷ 4 ∷ 3 ∷ 1 ∷ []) ≡ 5 ∷ 5 ∷ 3 ∷ [] }
    ensures five_four_three_one_finer { compressed 5 (5 ∷ 4 ∷ 3 ∷ 1 ∷ []) ≡ 5 ∷ 4 ∷ 3 ∷ 1 ∷ [] }
    ensures three_two_one_finer { compressed 3 (3 ∷ 2 ∷ 1 ∷ []) ≡ 3 ∷ 2 ∷ 1 ∷ [] }
    ensures two_and_three_ones_finer { compressed 3 (2 ∷ 1 ∷ 1 ∷ 1 ∷ []) ≡ 2 ∷ 1 ∷ 1 ∷ 1 ∷ [] }
{}

/// Operations rank by rank, and operations on running sums.
pub fn by_rank()
    ensures product { rank_product (2 ∷ 1 ∷ []) (3 ∷ 1 ∷ 1 ∷ []) ≡ 6 ∷ 1 ∷ [] }
    ensures saturates { map saturated (rank_product (2 ^ 127 ∷ []) (2 ∷ [])) ≡ (2 ^ 128 - 1) ∷ [] }
    ensures sum { rank_sum (2 ∷ 1 ∷ []) (3 ∷ 1 ∷ 1 ∷ []) ≡ 5 ∷ 2 ∷ 1 ∷ [] }
    ensures maximum { rank_maximum (3 ∷ 1 ∷ []) (2 ∷ 2 ∷ 1 ∷ []) ≡ 3 ∷ 2 ∷ 1 ∷ [] }
    ensures lesser { lesser (3 ∷ 3 ∷ []) (4 ∷ 1 ∷ 1 ∷ []) ≡ 3 ∷ 2 ∷ 1 ∷ [] }
    ensures cut { capped_at (5 ∷ 4 ∷ []) 7 ≡ 5 ∷ 2 ∷ [] }
{}

/// The composition of a parent list with one child, and the total of a root with one child.
pub fn composition()
    ensures weights { row_weights (record { column = 2 ∷ 2 ∷ 2 ∷ []; class = 4 ∷ 1 ∷ [] } ∷ []) 6 ≡ 4 ∷ 4 ∷ 1 ∷ 1 ∷ 0 ∷ 0 ∷ [] }
    ensures blocks { composed (3 ∷ 3 ∷ []) (record { column = 2 ∷ 2 ∷ 2 ∷ []; class = 4 ∷ 1 ∷ [] } ∷ []) ≡ 9 ∷ 1 ∷ [] }
    ensures root { root_total (record { column = 2 ∷ 1 ∷ []; class = 9 ∷ 1 ∷ [] } ∷ []) 3 ≡ 19 }
{}
