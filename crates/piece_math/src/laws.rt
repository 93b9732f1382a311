//! Why bounds are safe: five laws of lists in descending order.
//!
//! Lists have natural numbers of any size, and a list is 0 past its end. Each law says which lists have to be in descending order (`IsDescending`).
//! Domination doesn't depend on the order of the keys. No law computes anything: the bodies are empty, and the contract is the law.
//! Products and compositions of dominating lists are from Degree Sequence Bound (ICDT 2023).
ghost use Rattle.std.specs.Prelude.{ℕ, ◌+◌, ◌*◌, ◌≤◌, List, [], ◌∷◌, length, map};
ghost use Rattle.std.specs.List.{AllByRecursion, AllZip, sum, sum_by, range_with_len};
ghost use Rattle.degree_sequences.specs.ByRank.{rank_product, rank_product_of};
ghost use Rattle.degree_sequences.specs.Composition.{ChildLists, composed, root_total};
ghost use Rattle.degree_sequences.specs.Degrees.{degree};
ghost use Rattle.degree_sequences.specs.Domination.{DominatesKeys, DominatesWeights};
ghost use Rattle.degree_sequences.specs.Descending.{IsDescending};
ghost use Rattle.degree_sequences.specs.ComparedChildren.{IsChildOf, ColumnIsDescending, ChildIsAbove, SumsAreWithin, MatchedChild, IsNear, scales, factors};
ghost use Rattle.degree_sequences.specs.KeyedRows.{ChildKeys, DominatesChild, weight_of_row, weight_of_key};
ghost use Rattle.degree_sequences.specs.RunningSums.{HasHigherSums};

/// Product dominates. If two lists dominate two weights of the same keys, their product by rank dominates the
/// weights multiplied key by key. One of the two lists has to be in descending order.
pub fn product_dominates()
    ensures { (s t : List ℕ) (v w : ℕ → ℕ) → IsDescending t
        → DominatesWeights s v → DominatesWeights t w → DominatesWeights (rank_product s t) (λ a. v a * w a) }
{}

/// Composition dominates. Each row has a parent key and a key for each child. Suppose that the parent list dominates the parent keys. Suppose also
/// that each child's column dominates the child's keys, and its class list the weights of these keys. Then the composition dominates the
/// weights of the parent keys. The lists that dominate keys may have different sums. Each sum is at least the number of rows, because the list
/// dominates. Class lists have to be in descending order.
pub fn compose_dominates()
    // the composition dominates the weights that the rows give to the parent keys
    ensures keys { (parent parent_keys : List ℕ) (lists : List ChildLists) (children : List ChildKeys)
        → DominatesKeys parent parent_keys → AllZip (DominatesChild (length parent_keys)) lists children
        → DominatesWeights (composed parent lists) (weight_of_key parent_keys children) }
    // the total that `root_total` computes from the lists is at least the sum of the rows' weights
    ensures rows { (total rows : ℕ) (lists : List ChildLists) (children : List ChildKeys)
        → rows ≤ total → AllZip (DominatesChild rows) lists children
        → sum_by (weight_of_row children) (range_with_len 0 rows) ≤ root_total lists total }
{}

/// Product is monotone. A list is above another if its running sum at every rank is at least the other's. Suppose that each list of one family is
/// above the matching list of another family. Then the product of the first family is above that of the second. All lists have to be in descending
/// order.
pub fn product_is_monotone()
    ensures { (lists lower : List (List ℕ)) → AllByRecursion IsDescending lists → AllByRecursion IsDescending lower
        → AllZip HasHigherSums lists lower → HasHigherSums (rank_product_of lists) (rank_product_of lower) }
{}

/// Composition is monotone in the same way. Suppose that the parent list, the columns and the class lists of one family are above those of another.
/// Then the composition of the first family is above that of the second. In each family the parent list and the columns have the same sum. All class
/// lists, and the columns of the second family, have to be in descending order.
pub fn compose_is_monotone()
    ensures { (parent lower_parent : List ℕ) (children lower : List ChildLists)
        → AllByRecursion (IsChildOf (sum parent)) children → AllByRecursion (IsChildOf (sum lower_parent)) lower
        → AllByRecursion ColumnIsDescending lower → HasHigherSums parent lower_parent → AllZip ChildIsAbove children lower
        → HasHigherSums (composed parent children) (composed lower_parent lower) }
{}

/// Composition scales. Suppose that K times each running sum of the near parent list is at most `K + 1` times the exact list's running sum. Suppose
/// the same of each child's column. For its class list, the child's scale and factor stand in place of K and `K + 1`. Then `K * scales` times each
/// running sum of the near composition is at most `(K + 1) * factors` times the exact composition's. Here `scales` and `factors` are products over
/// the children. All class lists, and the near columns, have to be in descending order.
pub fn compose_scales()
    ensures { (accuracy : ℕ) (parent exact_parent : List ℕ) (children : List MatchedChild)
        → SumsAreWithin accuracy (accuracy + 1) parent exact_parent → AllByRecursion (IsNear accuracy) children
        → AllByRecursion (IsChildOf (sum parent)) (map (λ child. child.near) children)
        → AllByRecursion (IsChildOf (sum exact_parent)) (map (λ child. child.exact) children)
        → AllByRecursion ColumnIsDescending (map (λ child. child.near) children)
        → SumsAreWithin (accuracy * scales children) ((accuracy + 1) * factors children)
        (composed parent (map (λ child. child.near) children)) (composed exact_parent (map (λ child. child.exact) children)) }
{}

/// Each law at small numbers: all its premises hold, and so does its conclusion.
pub fn instances()
    // the keys 7, 7, 8 joined with 7, 7, 7, 8, 9
    ensures product_dominates { let left : List ℕ = 7 ∷ 7 ∷ 8 ∷ [] in
        let right : List ℕ = 7 ∷ 7 ∷ 7 ∷ 8 ∷ 9 ∷ [] in
        IsDescending (3 ∷ 1 ∷ 1 ∷ [])
        × DominatesWeights (2 ∷ 1 ∷ []) (degree left)
        × DominatesWeights (3 ∷ 1 ∷ 1 ∷ []) (degree right)
        × DominatesWeights (rank_product (2 ∷ 1 ∷ []) (3 ∷ 1 ∷ 1 ∷ [])) (λ a. degree left a * degree right a) }
    // six rows with the parent keys 1 and 2, whose child keys 5, 6 and 7 weigh 4, 1 and 0
    ensures compose_dominates { let parent_keys : List ℕ = 1 ∷ 1 ∷ 1 ∷ 2 ∷ 2 ∷ 2 ∷ [] in
        let lists : List ChildLists = record { column = 2 ∷ 2 ∷ 2 ∷ []; class = 4 ∷ 1 ∷ [] } ∷ [] in
        let children : List ChildKeys = record { keys = 5 ∷ 5 ∷ 6 ∷ 6 ∷ 7 ∷ 7 ∷ []; weight = degree (5 ∷ 5 ∷ 5 ∷ 5 ∷ 6 ∷ []) } ∷ [] in
        DominatesKeys (3 ∷ 3 ∷ []) parent_keys
        × AllZip (DominatesChild (length parent_keys)) lists children
        × DominatesWeights (composed (3 ∷ 3 ∷ []) lists) (weight_of_key parent_keys children) }
    ensures compose_dominates_rows { let lists : List ChildLists = record { column = 2 ∷ 2 ∷ 2 ∷ []; class = 4 ∷ 1 ∷ [] } ∷ [] in
        let children : List ChildKeys = record { keys = 5 ∷ 5 ∷ 6 ∷ 6 ∷ 7 ∷ 7 ∷ []; weight = degree (5 ∷ 5 ∷ 5 ∷ 5 ∷ 6 ∷ []) } ∷ [] in
        (6 ≤ 6)
        × AllZip (DominatesChild 6) lists children
        × (sum_by (weight_of_row children) (range_with_len 0 6) ≤ root_total lists 6) }
    ensures product_is_monotone { let lists : List (List ℕ) = (3 ∷ 3 ∷ []) ∷ (5 ∷ 4 ∷ []) ∷ [] in
        let lower : List (List ℕ) = (3 ∷ 2 ∷ 1 ∷ []) ∷ (5 ∷ 3 ∷ 1 ∷ []) ∷ [] in
        AllByRecursion IsDescending lists
        × AllByRecursion IsDescending lower
        × AllZip HasHigherSums lists lower
        × HasHigherSums (rank_product_of lists) (rank_product_of lower) }
    ensures compose_is_monotone { let children : List ChildLists = record { column = 3 ∷ 3 ∷ []; class = 4 ∷ 1 ∷ [] } ∷ [] in
        let lower : List ChildLists = record { column = 3 ∷ 2 ∷ 1 ∷ []; class = 3 ∷ 2 ∷ [] } ∷ [] in
        AllByRecursion (IsChildOf (sum (3 ∷ 3 ∷ []))) children
        × AllByRecursion (IsChildOf (sum (3 ∷ 2 ∷ 1 ∷ []))) lower
        × AllByRecursion ColumnIsDescending lower
        × HasHigherSums (3 ∷ 3 ∷ []) (3 ∷ 2 ∷ 1 ∷ [])
        × AllZip ChildIsAbove children lower
        × HasHigherSums (composed (3 ∷ 3 ∷ []) children) (composed (3 ∷ 2 ∷ 1 ∷ []) lower) }
    // accuracy 1; twice the running sums of the class list [6, 1] are at most three times the running sums of [4, 1]
    ensures compose_scales { let near : ChildLists = record { column = 3 ∷ 3 ∷ []; class = 6 ∷ 1 ∷ [] } in
        let exact : ChildLists = record { column = 3 ∷ 2 ∷ 1 ∷ []; class = 4 ∷ 1 ∷ [] } in
        let child : MatchedChild = record { near = near; exact = exact; scale = 2; factor = 3 } in
        SumsAreWithin 1 2 (3 ∷ 3 ∷ []) (3 ∷ 2 ∷ 1 ∷ [])
        × AllByRecursion (IsNear 1) (child ∷ [])
        × AllByRecursion (IsChildOf (sum (3 ∷ 3 ∷ []))) (near ∷ [])
        × AllByRecursion (IsChildOf (sum (3 ∷ 2 ∷ 1 ∷ []))) (exact ∷ [])
        × AllByRecursion ColumnIsDescending (near ∷ [])
        × SumsAreWithin 2 6 (composed (3 ∷ 3 ∷ []) (near ∷ [])) (composed (3 ∷ 2 ∷ 1 ∷ []) (exact ∷ [])) }
{}
