//! Laws of the definitions. Each call does nothing.
ghost use Rattle.std.specs.Prelude.{[], ◌∷◌, ◌≡◌, ◌≢◌, ◌↔◌, ℕ, Bool, true, List};
ghost use Rattle.std.specs.List.{AllByRecursion, AllPairs, Contains};
ghost use Rattle.berge_tree.specs.Equalities.{AreApart, AreInOneClass, AreWithin, ClosesNoCycle, HasNoCycle, class_of, place};
ghost use Rattle.berge_tree.specs.Examples.{four_entries, four_entries_tree, tree_of_one};
ghost use Rattle.berge_tree.specs.Rooted.{AreAllTreesOf, IsTreeOf};
ghost use Rattle.entry_sets.specs.Sets.{entries_of_set};
ghost use Rattle.berge_tree.specs.Testing.{has_entries, joins_parts};
ghost use Rattle.berge_tree.specs.Trees.{BergeTree, entries};
ghost use Rattle.berge_tree.specs.declared.edges.Edge.{Edge};
ghost use Rattle.berge_tree.specs.declared.edges.Place.{Place};

/// Two columns are in the same class exactly if they are equal whenever all equalities hold.
pub fn classes_are_joined_columns()
    ensures { (es : List Edge) (p q : Place) → (class_of es p ≡ class_of es q) ↔ AreInOneClass es p q }
{}

/// If equalities close no cycle between entries, no class has two columns of one entry, and entries and classes make no cycle.
pub fn no_cycle_of_classes()
    ensures { (es : List Edge) → ClosesNoCycle es → HasNoCycle (class_of es) }
{}

/// A test that two entries are apart, which means that no equalities connect them. Give each entry a name so that each equality joins entries with
/// the same name. If the two entries then have different names, they are apart.
pub fn names_keep_entries_apart()
    ensures { (es : List Edge) (a b : ℕ) (name : ℕ → ℕ)
        → AllByRecursion (λ e. name e.left.entry ≡ name e.right.entry) es
        → name a ≢ name b → AreApart es a b }
{}

/// If `joins_parts` is true of equalities, each of them joins two components that the earlier equalities leave apart. Then the equalities close no
/// cycle.
pub fn joined_parts_close_no_cycle()
    ensures { (es : List Edge) → joins_parts (λ e. e) es ≡ true → ClosesNoCycle es }
{}

/// If `has_entries` is true of a set and of equalities, the equalities join only entries of this set.
pub fn has_entries_implies_within()
    ensures { (subset : ℕ) (es : List Edge) → has_entries subset es ≡ true
        → AreWithin (entries_of_set subset) es }
{}

/// A tree of equalities is a component: it has every entry that the equalities connect with its root, no other entry, and each entry once.
pub fn a_tree_is_a_component()
    ensures has_all_connected { (es : List Edge) (t : BergeTree) → IsTreeOf es t
        → (p q : Place) → Contains (entries t) p.entry → class_of es p ≡ class_of es q
        → Contains (entries t) q.entry }
    ensures has_no_unconnected { (es : List Edge) (t : BergeTree) → ClosesNoCycle es → IsTreeOf es t
        → (side : ℕ → Bool) → ((p q : Place) → class_of es p ≡ class_of es q → side p.entry ≡ side q.entry)
        → AllByRecursion (λ e. side e ≡ side t.root) (entries t) }
    ensures entries_once { (es : List Edge) (t : BergeTree) → ClosesNoCycle es → IsTreeOf es t
        → AllPairs (λ e f. e ≢ f) (entries t) }
{}

/// The definitions, computed for an example of four entries.
pub fn examples()
    ensures closes { ClosesNoCycle four_entries }
    ensures within { AreWithin (0 ∷ 1 ∷ 2 ∷ 3 ∷ []) four_entries }
    ensures one_class { class_of four_entries (place 2 0) ≡ class_of four_entries (place 0 0) }
    ensures another_class { class_of four_entries (place 3 1) ≡ place 1 1 }
    ensures tree { AreAllTreesOf four_entries (0 ∷ 1 ∷ 2 ∷ 3 ∷ []) (four_entries_tree ∷ []) }
    ensures order { entries four_entries_tree ≡ 0 ∷ 1 ∷ 3 ∷ 2 ∷ [] }
    ensures single { AreAllTreesOf [] (0 ∷ 1 ∷ 2 ∷ []) (tree_of_one 0 ∷ tree_of_one 1 ∷ tree_of_one 2 ∷ []) }
{}
