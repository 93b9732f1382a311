ghost use Rattle.std.specs.Prelude.{[], ◌∷◌};
ghost use Rattle.plans.specs.Examples.{plan_of};
ghost use Rattle.plans.specs.LeftDeep.{IsOrder, IsPlan};

/// Examples: the definitions, computed for three entries. The call does nothing.
pub fn examples()
    ensures order { IsOrder 3 (0 ∷ 2 ∷ 1 ∷ []) }
    ensures twice { ¬ IsOrder 3 (0 ∷ 2 ∷ 0 ∷ []) }
    ensures beyond { ¬ IsOrder 3 (0 ∷ 3 ∷ 1 ∷ []) }
    ensures missing { ¬ IsOrder 3 (0 ∷ 2 ∷ []) }
    ensures plan { IsPlan 3 (plan_of (0 ∷ 2 ∷ 1 ∷ []) (2 ∷ 2 ∷ 2 ∷ []) (2 ∷ 5 ∷ 6 ∷ [])) }
    ensures no_last_level { ¬ IsPlan 3 (plan_of (0 ∷ 2 ∷ 1 ∷ []) (2 ∷ 2 ∷ 2 ∷ []) (2 ∷ 5 ∷ [])) }
{}
