//! Laws of reduced scans. Each call does nothing.
ghost use Rattle.std.specs.Prelude.{◌≡◌, ◌<◌, ℕ, IsPermutation, List, length, map, slice_index};
ghost use Rattle.std.specs.List.{Contains};
ghost use Rattle.query_types.specs.declared.types.Query.{Query};
ghost use Rattle.query_types.specs.Named.{NamesItsEntries};
ghost use Rattle.sql_meaning.specs.Answers.{answer, conjuncts_of, entries_of, selected};
ghost use Rattle.sql_meaning.specs.Levels.{level_over, row_in};
ghost use Rattle.sql_meaning.specs.Tables.{Tables};
ghost use Rattle.level_bounds.specs.Orders.{IsOrderOfSet};
ghost use Rattle.level_bounds.specs.Scans.{level_over_entries};
ghost use Rattle.join_steps.specs.Lists.{list_at};
ghost use Rattle.reduced_scans.specs.Rounds.{reduced_of};
ghost use Rattle.reduced_scans.specs.Scans.{AreReducedScans, SatisfiesEqualities};

/// A query over its tables has exactly one family of reduced scans. A family has for each entry a list of some of its scanned rows.
pub fn one_reduction()
    ensures some { (query : Query) (tables : Tables) → (reduced : List (List ℕ)) × AreReducedScans query tables reduced }
    ensures one { (query : Query) (tables : Tables) (a b : List (List ℕ))
        → AreReducedScans query tables a → AreReducedScans query tables b → a ≡ b }
{}

/// Repeated rounds reach the reduced scans. A round removes all rows that lack a match. After n + 1 rounds, where n is the number of scanned rows, no
/// row lacks a match. A removed row is in no family in which each row has a match across each equality of its entry. So the reduced scans are exactly
/// the result of these rounds.
pub fn reduced_scans_are_by_rounds()
    ensures are { (query : Query) (tables : Tables) → AreReducedScans query tables (reduced_of query tables) }
    ensures no_others { (query : Query) (tables : Tables) (reduced : List (List ℕ)) → AreReducedScans query tables reduced
        → reduced ≡ reduced_of query tables }
{}

/// No row of the answer is lost. If scanned rows, one for each entry, satisfy all equalities together, each of them is a reduced row. So, in any
/// order of the entries, each choice of the last level has only reduced rows. The last level over the reduced scans is the same list of choices. The
/// outputs of these choices are the rows of the answer, with the same multiplicities.
pub fn no_row_of_the_answer_is_lost()
    ensures choices { (query : Query) (tables : Tables) (reduced : List (List ℕ)) (choice : List ℕ) → NamesItsEntries query
        → AreReducedScans query tables reduced → SatisfiesEqualities query tables choice
        → (entry : ℕ) → entry < length query.from → Contains (list_at reduced entry) (slice_index choice entry) }
    ensures rows { (query : Query) (tables : Tables) (reduced : List (List ℕ)) (order choice : List ℕ) → NamesItsEntries query
        → AreReducedScans query tables reduced → IsOrderOfSet (entries_of query) order → Contains (level_over_entries query tables order) choice
        → (entry : ℕ) → entry < length query.from → Contains (list_at reduced entry) (row_in order choice entry) }
    ensures level { (query : Query) (tables : Tables) (reduced : List (List ℕ)) (order : List ℕ) → NamesItsEntries query
        → AreReducedScans query tables reduced → IsOrderOfSet (entries_of query) order
        → level_over (conjuncts_of query tables) (list_at reduced) order ≡ level_over_entries query tables order }
    ensures answer { (query : Query) (tables : Tables) (reduced : List (List ℕ)) (order : List ℕ) → NamesItsEntries query
        → AreReducedScans query tables reduced → IsOrderOfSet (entries_of query) order
        → IsPermutation (map (λ choice. selected query tables (row_in order choice))
        (level_over (conjuncts_of query tables) (list_at reduced) order))
        (answer query tables) }
{}
