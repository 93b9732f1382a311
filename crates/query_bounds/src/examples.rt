//! An example: two tables joined by one column. The bounds are proved by computation.
ghost use Rattle.std.specs.Prelude.{◌≡◌, ◌∷◌, []};
ghost use Rattle.query_bounds.specs.Bounds.{scan_bounds, set_bounds};
ghost use Rattle.query_bounds.specs.Examples.{two_table_query, pair_known};

/// R(X) has the rows [1, 1, 1, 2, 2, 3], and S(X) has the rows [1, 1, 4, 5, 6]. The bounds of the sets are 1 for the empty set, 6 for R, 5 for S, and
/// 12 for R and S.
pub fn pairs()
    ensures scans { scan_bounds two_table_query pair_known ≡ 6 ∷ 5 ∷ [] }
    ensures sets { set_bounds two_table_query pair_known ≡ 1 ∷ 6 ∷ 5 ∷ 12 ∷ [] }
{}
