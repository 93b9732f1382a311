//! Laws of the definitions. Each function does nothing, and its contract is the law.
ghost use Rattle.std.specs.Prelude.{◌≡◌, ℕ, ◌+◌, ◌-◌, ◌*◌, ◌^◌, ◌<◌, ◌≤◌, ◌==◌, min, max, List, length, map, slice_index};
ghost use Rattle.std.specs.List.{All, AllByRecursion, IsDistinct, sum};
ghost use Rattle.std.specs.List.Sorted.{IsPermutation};
ghost use Rattle.degree_sequences.specs.ByRank.{rank_product, rank_sum, rank_maximum};
ghost use Rattle.degree_sequences.specs.Composition.{ChildLists, row_weights, block_sums, composed};
ghost use Rattle.degree_sequences.specs.Compression.{head_of_row, compressed};
ghost use Rattle.degree_sequences.specs.Degrees.{degree, different, degree_list};
ghost use Rattle.degree_sequences.specs.Domination.{DominatesKeys, DominatesWeights};
ghost use Rattle.degree_sequences.specs.Descending.{IsDescending, trimmed};
ghost use Rattle.degree_sequences.specs.ComparedChildren.{IsChildOf};
ghost use Rattle.degree_sequences.specs.Rank.{rank};
ghost use Rattle.degree_sequences.specs.RunningSums.{running_sum, lesser, capped_at};
ghost use Rattle.degree_sequences.specs.Runs.{runs};
ghost use Rattle.degree_sequences.specs.Saturation.{saturated};

/// A degree list has the degrees of the different keys in descending order, and dominates the keys.
/// A list that dominates keys also dominates their degrees as weights, and conversely (SafeBound,
/// SIGMOD 2023).
pub fn degree_lists()
    ensures different { (keys : List ℕ) → IsDistinct ◌==◌ (different keys) }
    ensures rearranged { (keys : List ℕ) → IsPermutation (map (degree keys) (different keys)) (degree_list keys) }
    ensures descends { (keys : List ℕ) → IsDescending (degree_list keys) }
    ensures positive { (keys : List ℕ) → All (λ x. 0 < x) (degree_list keys) }
    ensures sum { (keys : List ℕ) → sum (degree_list keys) ≡ length keys }
    ensures dominates { (keys : List ℕ) → DominatesKeys (degree_list keys) keys }
    ensures weights { (s keys : List ℕ) → DominatesKeys s keys → DominatesWeights s (degree keys) }
    ensures from_weights { (s keys : List ℕ) → DominatesWeights s (degree keys) → DominatesKeys s keys }
{}

/// If the list's sum is at least t, the rank of row t is the least rank whose running sum is at least t.
pub fn ranks()
    ensures reaches { (s : List ℕ) (t : ℕ) → t ≤ sum s → t ≤ running_sum s (rank s t) }
    ensures least { (s : List ℕ) (t r : ℕ) → 0 < t → r < rank s t → running_sum s r < t }
{}

/// What the running sums of `lesser` and `capped_at` are, and the elements of the rank-wise operations. Each
/// result is in descending order if its operands are.
pub fn operations()
    ensures lesser { (s t : List ℕ) (r : ℕ) → running_sum (lesser s t) r ≡ min (running_sum s r) (running_sum t r) }
    ensures cut { (s : List ℕ) (n r : ℕ) → running_sum (capped_at s n) r ≡ min (running_sum s r) n }
    ensures product { (s t : List ℕ) (r : ℕ) → slice_index (rank_product s t) r ≡ slice_index s r * slice_index t r }
    ensures sum { (s t : List ℕ) (r : ℕ) → slice_index (rank_sum s t) r ≡ slice_index s r + slice_index t r }
    ensures maximum { (s t : List ℕ) (r : ℕ)
        → slice_index (rank_maximum s t) r ≡ max (slice_index s r) (slice_index t r) }
    ensures lesser_falls { (s t : List ℕ) → IsDescending s → IsDescending t → IsDescending (lesser s t) }
    ensures cut_falls { (s : List ℕ) (n : ℕ) → IsDescending s → IsDescending (capped_at s n) }
    ensures product_falls { (s t : List ℕ) → IsDescending s → IsDescending t → IsDescending (rank_product s t) }
    ensures sum_falls { (s t : List ℕ) → IsDescending s → IsDescending t → IsDescending (rank_sum s t) }
    ensures maximum_falls { (s t : List ℕ) → IsDescending s → IsDescending t → IsDescending (rank_maximum s t) }
{}

/// A compressed list has the same sum as its list, and running sums that are no lower. Its elements are at most a little
/// higher, and it has few runs. Compression by heads and its accuracy are this project's own.
pub fn compressions()
    // each element is the head for the row after the sum of the elements before it, or the rest of f's sum if the rest is less
    ensures element { (accuracy : ℕ) (f : List ℕ) (r : ℕ) → r < length (compressed accuracy f)
        → slice_index (compressed accuracy f) r
        ≡ min (head_of_row accuracy f (running_sum (compressed accuracy f) r)) (sum f - running_sum (compressed accuracy f) r) }
    // elements are added only until their sum is f's sum
    ensures goes_on { (accuracy : ℕ) (f : List ℕ) (r : ℕ) → r < length (compressed accuracy f)
        → running_sum (compressed accuracy f) r < sum f }
    ensures sum { (accuracy : ℕ) (f : List ℕ) → IsDescending f → sum (compressed accuracy f) ≡ sum f }
    ensures descends { (accuracy : ℕ) (f : List ℕ) → IsDescending f → IsDescending (compressed accuracy f) }
    ensures above { (accuracy : ℕ) (f : List ℕ) → IsDescending f → (r : ℕ)
        → running_sum f r ≤ running_sum (compressed accuracy f) r }
    ensures near { (accuracy : ℕ) (f : List ℕ) → IsDescending f → (r : ℕ)
        → accuracy * slice_index (compressed accuracy f) r ≤ (accuracy + 1) * slice_index f r }
    ensures few { (accuracy : ℕ) → 0 < accuracy → (f : List ℕ) → IsDescending f → All (λ x. 0 < x) f
        → (digits : ℕ) → slice_index f 0 < 2 ^ digits → runs (compressed accuracy f) ≤ accuracy * digits + 1 }
{}

/// A composition's running sum at r is the sum of the first m row weights, where m is the parent's running sum at r.
pub fn compositions()
    ensures blocks { (parent : List ℕ) (children : List ChildLists) (r : ℕ)
        → running_sum (composed parent children) r ≡ running_sum (row_weights children (sum parent)) (running_sum parent r) }
    ensures descends { (parent : List ℕ) (children : List ChildLists) → IsDescending parent
        → AllByRecursion (IsChildOf (sum parent)) children → IsDescending (composed parent children) }
{}

/// Saturating at each step gives the same as saturating once at the end, for sums, products,
/// rank-wise products, block sums and `trimmed`.
pub fn saturations()
    ensures sums { (a b : ℕ) → saturated (saturated a + saturated b) ≡ saturated (a + b) }
    ensures products { (a b : ℕ) → saturated (saturated a * saturated b) ≡ saturated (a * b) }
    ensures rank_products { (s t : List ℕ)
        → map saturated (rank_product (map saturated s) (map saturated t)) ≡ map saturated (rank_product s t) }
    ensures blocks { (counts weights : List ℕ)
        → map saturated (block_sums counts (map saturated weights)) ≡ map saturated (block_sums counts weights) }
    ensures zeros { (s : List ℕ) → map saturated (trimmed s) ≡ trimmed (map saturated s) }
{}
