//! The results of `plan_answer` for few entries.
ghost use Rattle.std.specs.Prelude.{◌≡◌, ◌-◌, ◌^◌, [], ◌∷◌, Ok, Err};
ghost use Rattle.limits.specs.Profile.{top_bound};
ghost use Rattle.plans.specs.Examples.{plan_of};
ghost use Rattle.order_search.specs.Examples.{dearer_prefix, equal_bounds, one_pair_past_bits, past_bits, three_entries};
ghost use Rattle.order_search.specs.declared.refusal.PlanError.TheVariants as error;
ghost use Rattle.plan_answers.specs.BestOrder.{all_orders, best_order};
ghost use Rattle.plan_answers.specs.Bounds.{bounds_of_sets};
ghost use Rattle.plan_answers.specs.PlanAnswer.{plan_answer};

/// The best orders and the results for one, three and four entries. One example avoids an order through a pair of entries whose bound is past 128
/// bits. The largest cost that a refusal can name is 2^128 - 2.
pub fn small_plans()
    ensures orders { all_orders 3 ≡
        (0 ∷ 1 ∷ 2 ∷ []) ∷ (0 ∷ 2 ∷ 1 ∷ []) ∷ (1 ∷ 0 ∷ 2 ∷ []) ∷ (1 ∷ 2 ∷ 0 ∷ []) ∷ (2 ∷ 0 ∷ 1 ∷ []) ∷ (2 ∷ 1 ∷ 0 ∷ []) ∷ [] }
    ensures best { best_order three_entries 3 ≡ 0 ∷ 2 ∷ 1 ∷ [] }
    ensures first_of_equal { best_order equal_bounds 3 ≡ 0 ∷ 1 ∷ 2 ∷ [] }
    ensures dearer { best_order dearer_prefix 4 ≡ 2 ∷ 1 ∷ 0 ∷ 3 ∷ [] }
    ensures plan { plan_answer three_entries (2 ∷ 2 ∷ 2 ∷ []) 6
        ≡ Ok (plan_of (0 ∷ 2 ∷ 1 ∷ []) (2 ∷ 2 ∷ 2 ∷ []) (2 ∷ 5 ∷ 6 ∷ [])) }
    ensures budget { plan_answer three_entries (2 ∷ 2 ∷ 2 ∷ []) 5 ≡ Err (error.Budget 6) }
    ensures past_bits { plan_answer past_bits (2 ∷ 2 ∷ 2 ∷ []) 6 ≡ Err error.PastBits }
    ensures avoided { plan_answer one_pair_past_bits (2 ∷ 2 ∷ 2 ∷ []) 6
        ≡ Ok (plan_of (0 ∷ 2 ∷ 1 ∷ []) (2 ∷ 2 ∷ 2 ∷ []) (2 ∷ 5 ∷ 6 ∷ [])) }
    ensures greatest_cost_refused { plan_answer (1 ∷ (2 ^ 128 - 2) ∷ []) (2 ∷ []) 6 ≡ Err (error.Budget (2 ^ 128 - 2)) }
    ensures bounds_above_top { bounds_of_sets 1 (λ set. 2 ^ 129) ≡ top_bound ∷ top_bound ∷ [] }
{}
