//! Laws of the definitions. Each function does nothing.
ghost use Rattle.std.specs.Prelude.{◌≡◌, ◌↔◌, ◌⊎◌, ◌+◌, ◌-◌, ◌*◌, ◌^◌, ◌<◌, ◌≤◌, ℕ, List, [], ◌∷◌, ◌++◌, length, map, min};
ghost use Rattle.std.specs.List.{AllByRecursion, Contains};
ghost use Rattle.degree_sequences.specs.ByRank.{rank_product, rank_product_of};
ghost use Rattle.degree_sequences.specs.Composition.{ChildLists, composed, root_total};
ghost use Rattle.degree_sequences.specs.Saturation.{saturated};
ghost use Rattle.berge_tree.specs.declared.edges.Edge.{Edge};
ghost use Rattle.berge_tree.specs.Equalities.{ClosesNoCycle};
ghost use Rattle.berge_tree.specs.Rooted.{AreAllTreesOf};
ghost use Rattle.entry_sets.specs.Sets.{entries_of_set};
ghost use Rattle.berge_tree.specs.Trees.{BergeTree, entries, entries_of_all};
ghost use Rattle.join_graph.specs.Kept.{equalities_within, kept_of};
ghost use Rattle.tree_bounds.specs.Counting.{tree_choices, number_of_choices};
ghost use Rattle.tree_bounds.specs.Nearness.{SetIsNear, TreeIsNear};
ghost use Rattle.tree_bounds.specs.Saturating.{saturated_class};
ghost use Rattle.tree_bounds.specs.Scans.{SatisfiesScanned, scanned};
ghost use Rattle.tree_bounds.specs.SetBounds.{IsBoundOfSet, IsBoundOfTurn, SetHasLists, bound_of_set, bound_of_turn, trees_of};
ghost use Rattle.tree_bounds.specs.Tables.{KeyedTables, Agrees, ChoicesAreDifferent, Satisfies, SetDominates, TreeDominates};
ghost use Rattle.tree_bounds.specs.TreeBounds.{EntryBounds, TreeHasLists, bound_of_tree, bound_of_trees};

/// The bound of a tree is never less than the number of choices: if the lists dominate the tables, the number of different choices is at most the
/// bound. A choice takes one row of each entry, and the keys of the rows agree in each class (Degree Sequence Bound, ICDT 2023; SafeBound, SIGMOD
/// 2023).
pub fn trees_are_never_under()
    ensures one { (b : EntryBounds) (tables : KeyedTables) (t : BergeTree) → TreeHasLists b t → TreeDominates b tables t
        → (choices : List (ℕ → ℕ)) → AllByRecursion (Agrees tables t) choices → ChoicesAreDifferent (entries t) choices
        → length choices ≤ bound_of_tree b t }
    ensures several { (b : EntryBounds) (tables : KeyedTables) (trees : List BergeTree)
        → AllByRecursion (TreeHasLists b) trees → AllByRecursion (TreeDominates b tables) trees
        → (set : List ℕ) → AllByRecursion (Contains (entries_of_all trees)) set
        → (choices : List (ℕ → ℕ)) → AllByRecursion (λ choice. AllByRecursion (λ t. Agrees tables t choice) trees) choices
        → ChoicesAreDifferent set choices → length choices ≤ bound_of_trees b trees }
{}

/// The choices that agree in a tree can be counted, and listed by their row numbers. The bound is at least their number.
pub fn choices_are_counted()
    ensures choice_is_in_list { (b : EntryBounds) (tables : KeyedTables) (t : BergeTree) → TreeDominates b tables t
        → (choice : ℕ → ℕ) → Agrees tables t choice → Contains (tree_choices tables t) (map choice (entries t)) }
    ensures list_length { (tables : KeyedTables) (t : BergeTree) → length (tree_choices tables t) ≡ number_of_choices tables t }
    ensures within { (b : EntryBounds) (tables : KeyedTables) (t : BergeTree) → TreeHasLists b t → TreeDominates b tables t
        → number_of_choices tables t ≤ bound_of_tree b t }
{}

/// If equalities close no cycle, they have exactly one list of trees over a set of entries. For the kept equalities of a turn this list can be
/// computed.
pub fn trees_are_unique()
    ensures one { (es : List Edge) → ClosesNoCycle es → (set : List ℕ) (trees others : List BergeTree)
        → AreAllTreesOf es set trees → AreAllTreesOf es set others → trees ≡ others }
    ensures computed { (es : List Edge) (subset turn : ℕ) (trees : List BergeTree)
        → AreAllTreesOf (kept_of subset turn es) (entries_of_set subset) trees ↔ (trees ≡ trees_of (kept_of subset turn es) subset) }
{}

/// Suppose that every column in a set's equalities has a descending list that sums to the row bound. Then every column of the set's trees has one
/// too.
pub fn trees_have_the_lists_of_their_set()
    ensures { (b : EntryBounds) (es : List Edge) (subset turn : ℕ) (trees : List BergeTree)
        → AreAllTreesOf (kept_of subset turn es) (entries_of_set subset) trees → SetHasLists b es subset
        → AllByRecursion (TreeHasLists b) trees }
{}

/// A set of entries has exactly one bound in each turn, and exactly one bound over all turns. All these bounds can be computed.
pub fn bounds_are_unique()
    ensures turn { (b : EntryBounds) (es : List Edge) (subset turn n : ℕ)
        → IsBoundOfTurn b es subset turn n ↔ (n ≡ bound_of_turn b es subset turn) }
    ensures set { (b : EntryBounds) (es : List Edge) (subset n : ℕ)
        → IsBoundOfSet b es subset n ↔ (n ≡ bound_of_set b es subset) }
{}

/// The bound of a set is never less than the number of choices. In each turn, the number of different choices is at most the turn's bound. The set's
/// bound is the least bound of all turns. A choice takes one row of each entry of the set and satisfies all equalities of the set. A turn leaves some
/// equalities out, but an equality can only exclude choices. So this makes no bound too low.
pub fn sets_are_never_under()
    ensures each_turn { (b : EntryBounds) (tables : KeyedTables) (es : List Edge) (subset : ℕ)
        → SetHasLists b es subset → SetDominates b tables es subset → (choices : List (ℕ → ℕ))
        → AllByRecursion (Satisfies tables (entries_of_set subset) (equalities_within subset es)) choices
        → ChoicesAreDifferent (entries_of_set subset) choices → (turn : ℕ) → length choices ≤ bound_of_turn b es subset turn }
    ensures least { (b : EntryBounds) (tables : KeyedTables) (es : List Edge) (subset : ℕ)
        → SetHasLists b es subset → SetDominates b tables es subset → (choices : List (ℕ → ℕ))
        → AllByRecursion (Satisfies tables (entries_of_set subset) (equalities_within subset es)) choices
        → ChoicesAreDifferent (entries_of_set subset) choices → length choices ≤ bound_of_set b es subset }
{}

/// The bound of a set is never less than the number of choices of scanned rows, if the lists dominate the scanned rows.
pub fn scans_are_never_under()
    ensures { (b : EntryBounds) (scans : ℕ → List ℕ) (key : ℕ → ℕ → ℕ → ℕ) (es : List Edge) (subset : ℕ)
        → SetHasLists b es subset → SetDominates b (scanned scans key) es subset → (choices : List (ℕ → ℕ))
        → AllByRecursion (SatisfiesScanned scans key (entries_of_set subset) (equalities_within subset es)) choices
        → ChoicesAreDifferent (entries_of_set subset) choices → length choices ≤ bound_of_set b es subset }
{}

/// The empty set has the bound 1. A set of one entry has the entry's row bound.
pub fn small_sets_have_plain_bounds()
    ensures empty { (b : EntryBounds) (es : List Edge) → bound_of_set b es 0 ≡ 1 }
    ensures single { (b : EntryBounds) (es : List Edge) (subset entry : ℕ) → entries_of_set subset ≡ entry ∷ []
        → bound_of_set b es subset ≡ b.rows entry }
{}

/// Bounds from near lists are near the exact bounds. Suppose that each row bound and each running sum, times K, is at most the exact number times
/// K + 1. Then the bound times K^n is at most the exact bound times (K + 1)^n. Here n is the number of entries.
pub fn bounds_are_near()
    ensures tree { (accuracy : ℕ) (b exact : EntryBounds) (t : BergeTree) → TreeHasLists b t → TreeHasLists exact t → TreeIsNear accuracy b exact t
        → accuracy ^ length (entries t) * bound_of_tree b t ≤ (accuracy + 1) ^ length (entries t) * bound_of_tree exact t }
    ensures trees { (accuracy : ℕ) (b exact : EntryBounds) (trees : List BergeTree)
        → AllByRecursion (TreeHasLists b) trees → AllByRecursion (TreeHasLists exact) trees → AllByRecursion (TreeIsNear accuracy b exact) trees
        → accuracy ^ length (entries_of_all trees) * bound_of_trees b trees
        ≤ (accuracy + 1) ^ length (entries_of_all trees) * bound_of_trees exact trees }
    ensures turn { (accuracy : ℕ) (b exact : EntryBounds) (es : List Edge) (subset : ℕ)
        → SetHasLists b es subset → SetHasLists exact es subset → SetIsNear accuracy b exact es subset → (turn : ℕ)
        → accuracy ^ length (entries_of_set subset) * bound_of_turn b es subset turn
        ≤ (accuracy + 1) ^ length (entries_of_set subset) * bound_of_turn exact es subset turn }
    ensures set { (accuracy : ℕ) (b exact : EntryBounds) (es : List Edge) (subset : ℕ)
        → SetHasLists b es subset → SetHasLists exact es subset → SetIsNear accuracy b exact es subset
        → accuracy ^ length (entries_of_set subset) * bound_of_set b es subset
        ≤ (accuracy + 1) ^ length (entries_of_set subset) * bound_of_set exact es subset }
{}

/// If a bound is saturated (capped at 2^128 - 1) at each step, the result is the saturated bound. If a bound is at least some number, the saturated
/// bound is at least this number too, or it is 2^128 - 1.
pub fn bounds_saturate()
    ensures entry { (parent : List ℕ) (children : List ChildLists)
        → map saturated (composed parent (map saturated_class children)) ≡ map saturated (composed parent children) }
    ensures class { (lists : List (List ℕ)) (list : List ℕ) → 0 < length lists
        → map saturated (rank_product (map saturated (rank_product_of lists)) (map saturated list))
        ≡ map saturated (rank_product_of (lists ++ list ∷ [])) }
    ensures root { (children : List ChildLists) (rows : ℕ)
        → saturated (root_total (map saturated_class children) rows) ≡ saturated (root_total children rows) }
    ensures trees { (b : EntryBounds) (trees : List BergeTree) (t : BergeTree)
        → saturated (saturated (bound_of_trees b trees) * saturated (bound_of_tree b t)) ≡ saturated (bound_of_trees b (trees ++ t ∷ [])) }
    ensures turns { (m n : ℕ) → min (saturated m) (saturated n) ≡ saturated (min m n) }
    ensures never_under { (n bound : ℕ) → n ≤ bound → (n ≤ saturated bound) ⊎ (saturated bound ≡ 2 ^ 128 - 1) }
{}
