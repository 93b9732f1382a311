//! The plans of two small tables, as theorems by computation.
ghost use Rattle.std.specs.Prelude.{◌≡◌, ◌∷◌, [], Ok, Err};
ghost use Rattle.plans.specs.Examples.{plan_of};
ghost use Rattle.order_search.specs.declared.refusal.PlanError.TheVariants as error;
ghost use Rattle.query_bounds.specs.Examples.{two_table_query};
ghost use Rattle.planning.specs.Bounds.{scan_bounds_of, set_bounds_of};
ghost use Rattle.planning.specs.Examples.{small_tables};
ghost use Rattle.planning.specs.Plans.{planned};

/// R(X) of 1, 1, 1, 2, 2, 3 and S(X) of 1, 1, 4, 5, 6, joined by X. The bounds are 1 for no entry, 6 for R and 5 for S. The bound for both entries is
/// 12 at accuracy 1, and 9 at accuracy 3. Both orders cost 12, and the order S, R has the smaller sum.
pub fn small_plans()
    ensures scans { scan_bounds_of two_table_query small_tables 1 ≡ 6 ∷ 5 ∷ [] }
    ensures sets { set_bounds_of two_table_query small_tables 1 ≡ 1 ∷ 6 ∷ 5 ∷ 12 ∷ [] }
    ensures finer { set_bounds_of two_table_query small_tables 3 ≡ 1 ∷ 6 ∷ 5 ∷ 9 ∷ [] }
    ensures plan { planned two_table_query small_tables 1 12 ≡ Ok (plan_of (1 ∷ 0 ∷ []) (6 ∷ 5 ∷ []) (5 ∷ 12 ∷ [])) }
    ensures over { planned two_table_query small_tables 1 11 ≡ Err (error.Budget 12) }
{}
