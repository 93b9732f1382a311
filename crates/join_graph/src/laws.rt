//! Laws of the definitions. Each function does nothing, and its contract is the law.
ghost use Rattle.std.specs.Prelude.{◌≡◌, ◌≢◌, ◌↔◌, ◌⊎◌, ℕ, ℤ, All, Bool, IsSomeAnd, IsTrue, List, [], ◌∷◌, length, slice_get, Some, None};
ghost use Rattle.std.specs.List.{Contains};
ghost use Rattle.limits.specs.Profile.{most_turns};
ghost use Rattle.berge_tree.specs.declared.edges.Edge.{Edge};
ghost use Rattle.berge_tree.specs.Equalities.{AreApart, AreWithin, ClosesNoCycle, HasNoCycle, class_of};
ghost use Rattle.entry_sets.specs.Sets.{entries_of_set};
ghost use Rattle.berge_tree.specs.Testing.{edge_of};
ghost use Rattle.query_grammar.specs.declared.tree.Op.TheVariants as op;
ghost use Rattle.schema_types.specs.declared.types.Schema.{Schema};
ghost use Rattle.query_types.specs.Validity.{IsQueryOf};
ghost use Rattle.query_types.specs.declared.types.Cond.{Cond};
ghost use Rattle.query_types.specs.declared.types.Cond.TheVariants as cond;
ghost use Rattle.query_types.specs.declared.types.Operand.{Operand};
ghost use Rattle.query_types.specs.declared.types.Operand.TheVariants as operand;
ghost use Rattle.query_types.specs.declared.types.Query.{Query};
ghost use Rattle.join_graph.specs.Conjuncts.{column_operand, equality_of, numbers_where, count_of_parts};
ghost use Rattle.query_types.specs.Named.{NamesItsEntries};
ghost use Rattle.join_graph.specs.Examples.{first_side, pair, second_side, seventeen, third_side, triangle};
ghost use Rattle.join_graph.specs.Kept.{AreConnected, Keeps, kept_in_order, kept_of, turn_count};

/// For equalities in a given order there is exactly one list of kept equalities. `kept_in_order` computes this list.
pub fn kept_equalities_are_unique()
    ensures { (es kept : List Edge) → Keeps es kept ↔ (kept ≡ kept_in_order es) }
{}

/// The kept equalities of a set in a turn join only entries of the set, and close no cycle. No class that they make has two columns of one entry.
/// Their entries and classes make no cycle.
pub fn kept_equalities_make_no_cycle()
    ensures within { (subset turn : ℕ) (es : List Edge) → AreWithin (entries_of_set subset) (kept_of subset turn es) }
    ensures entries { (subset turn : ℕ) (es : List Edge) → ClosesNoCycle (kept_of subset turn es) }
    ensures classes { (subset turn : ℕ) (es : List Edge) → HasNoCycle (class_of (kept_of subset turn es)) }
{}

/// The conjuncts of a query over a schema name only FROM entries. If conjuncts name only FROM entries, each conjunct is in exactly one part.
pub fn conjuncts_are_in_one_part()
    ensures of_schema { (schema : Schema) (query : Query) → IsQueryOf schema query → NamesItsEntries query }
    ensures one { (query : Query) → NamesItsEntries query → All (λ cond. count_of_parts (length query.from) cond ≡ 1) query.conjuncts }
{}

/// If conjuncts are numbered from 0, `numbers_where` has exactly the indices of the conjuncts that pass the test.
pub fn numbers_are_indices()
    ensures { (test : Cond → Bool) (conds : List Cond) (k : ℕ)
        → Contains (numbers_where test 0 conds) k ↔ IsSomeAnd (slice_get conds k) (λ cond. IsTrue (test cond)) }
{}

/// Two entries are either apart or connected, never both.
pub fn entries_are_apart_or_connected()
    ensures one { (es : List Edge) (a b : ℕ) → AreApart es a b ⊎ AreConnected es a b }
    ensures not_both { (es : List Edge) (a b : ℕ) → AreApart es a b → AreConnected es a b → ⊥ }
{}

/// The equalities that are kept in a triangle, in a pair of equalities, and in seventeen equalities, by computation.
pub fn examples()
    ensures triangle_first { kept_of 7 0 triangle ≡ first_side ∷ second_side ∷ [] }
    ensures triangle_second { kept_of 7 1 triangle ≡ second_side ∷ third_side ∷ [] }
    ensures triangle_third { kept_of 7 2 triangle ≡ third_side ∷ first_side ∷ [] }
    ensures triangle_turns { turn_count 7 triangle ≡ 3 }
    ensures two_entries_turns { turn_count 3 triangle ≡ 1 }
    ensures one_entry_turns { turn_count 1 triangle ≡ 1 }
    ensures pair_turns { turn_count 3 pair ≡ 2 }
    ensures written_twice { turn_count 3 (edge_of 0 0 1 0 ∷ edge_of 0 0 1 0 ∷ []) ≡ 2 }
    ensures pair_first { kept_of 3 0 pair ≡ edge_of 0 0 1 0 ∷ [] }
    ensures pair_second { kept_of 3 1 pair ≡ edge_of 0 1 1 1 ∷ [] }
    ensures seventeen_turns { turn_count 3 seventeen ≡ most_turns }
{}

/// A comparison by = of columns of two entries joins these entries. AND, OR and NOT join no entries. Neither does = with a literal, or = between two
/// columns of one entry.
pub fn what_joins_entries()
    ensures under_and { (members : List Cond) → equality_of (cond.And members) ≡ None }
    ensures under_or { (members : List Cond) → equality_of (cond.Or members) ≡ None }
    ensures under_not { (member : Cond) → equality_of (cond.Not member) ≡ None }
    ensures number { (left : Operand) (number : ℤ) → equality_of (cond.Compare op.Eq left (operand.Int number)) ≡ None }
    ensures text { (left : Operand) (text : List ℕ) → equality_of (cond.Compare op.Eq left (operand.Text text)) ≡ None }
    ensures number_left { (number : ℤ) (right : Operand) → equality_of (cond.Compare op.Eq (operand.Int number) right) ≡ None }
    ensures text_left { (text : List ℕ) (right : Operand) → equality_of (cond.Compare op.Eq (operand.Text text) right) ≡ None }
    ensures one_entry { (entry a b : ℕ) → equality_of (cond.Compare op.Eq (column_operand entry a) (column_operand entry b)) ≡ None }
    ensures two_entries { (left a right b : ℕ) → left ≢ right
        → equality_of (cond.Compare op.Eq (column_operand left a) (column_operand right b)) ≡ Some (edge_of left a right b) }
{}
