//! Laws: each list that a call of this crate makes dominates the keys for which it is made. A function here does nothing.
ghost use Rattle.std.specs.Prelude.{◌≡◌, ◌⊎◌, ◌≤◌, ◌==◌, ◌&&◌, ◌||◌, ℕ, Bool, List, ◌++◌, length, map};
ghost use Rattle.std.specs.List.{filter};
ghost use Rattle.degree_sequences.specs.ByRank.{rank_maximum, rank_sum};
ghost use Rattle.degree_sequences.specs.Compression.{compressed};
ghost use Rattle.degree_sequences.specs.Degrees.{degree_list};
ghost use Rattle.degree_sequences.specs.Domination.{DominatesKeys};
ghost use Rattle.degree_sequences.specs.Descending.{IsDescending};
ghost use Rattle.degree_sequences.specs.RunningSums.{capped_at, lesser};

/// A degree sequence dominates its keys. A compressed list dominates what the list dominates. The sum of two lists dominates the keys of both
/// together.
pub fn lists_dominate()
    ensures degrees { (keys : List ℕ) → DominatesKeys (degree_list keys) keys }
    ensures compressed { (list : List ℕ) (accuracy : ℕ) (keys : List ℕ) → IsDescending list
        → DominatesKeys list keys → DominatesKeys (compressed accuracy list) keys }
    ensures added { (list later : List ℕ) (keys more : List ℕ)
        → DominatesKeys list keys → DominatesKeys later more → DominatesKeys (rank_sum list later) (keys ++ more) }
{}

/// A list dominates rows if it dominates their keys. Let one list dominate the rows of one condition, and let another list dominate the rows of
/// another condition. Then the list of the lesser running sums dominates the rows that satisfy both conditions. The sum of the lists dominates the
/// rows that satisfy at least one condition. If the two conditions compare one column with two values, the lists' maximum by rank dominates the rows
/// of each value. If a list dominates some keys, and there are at most `rows` of them, the list cut at `rows` dominates them too.
pub fn conditions_dominate()
    ensures both { (rows : List ℕ) (key : ℕ → ℕ) (first second : ℕ → Bool) (list other : List ℕ)
        → DominatesKeys list (map key (filter first rows)) → DominatesKeys other (map key (filter second rows))
        → DominatesKeys (lesser list other) (map key (filter (λ row. first row && second row) rows)) }
    ensures at_least_one { (rows : List ℕ) (key : ℕ → ℕ) (first second : ℕ → Bool) (list other : List ℕ)
        → DominatesKeys list (map key (filter first rows)) → DominatesKeys other (map key (filter second rows))
        → DominatesKeys (rank_sum list other) (map key (filter (λ row. first row || second row) rows)) }
    ensures one_of { (rows : List ℕ) (key value : ℕ → ℕ) (one another : ℕ) (list other : List ℕ)
        → DominatesKeys list (map key (filter (λ row. value row == one) rows))
        → DominatesKeys other (map key (filter (λ row. value row == another) rows))
        → (any : ℕ) → (any ≡ one) ⊎ (any ≡ another)
        → DominatesKeys (rank_maximum list other) (map key (filter (λ row. value row == any) rows)) }
    ensures cut { (list keys : List ℕ) (rows : ℕ) → DominatesKeys list keys → length keys ≤ rows → DominatesKeys (capped_at list rows) keys }
{}
