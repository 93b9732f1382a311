//! Laws of scans, levels and bounds. Each function has an empty body: its contract is the law.
ghost use Rattle.std.specs.Prelude.{◌≡◌, ◌↔◌, ◌+◌, ◌*◌, ◌^◌, ◌<◌, ◌≤◌, ◌==◌, ℕ, IsPermutation, IsSomeAnd, IsTrue, List, [], ◌∷◌, All};
ghost use Rattle.std.specs.Prelude.{Some, length, map, slice_get, slice_index_or, take};
ghost use Rattle.std.specs.List.{AllByRecursion, Contains, IsDistinct, filter, list_all, range_with_len};
ghost use Rattle.std.specs.Str.{IsUtf8};
ghost use Rattle.berge_tree.specs.declared.edges.Edge.{Edge};
ghost use Rattle.entry_sets.specs.Sets.{entries_of_set, set_of};
ghost use Rattle.query_types.specs.declared.types.ColumnRef.{ColumnRef};
ghost use Rattle.query_types.specs.declared.types.Cond.{Cond};
ghost use Rattle.query_types.specs.declared.types.Query.{Query};
ghost use Rattle.query_types.specs.Named.{NamesItsEntries, entries_named};
ghost use Rattle.join_graph.specs.Conjuncts.{equalities_of, equality_of, local_of, is_own_conjunct};
ghost use Rattle.join_graph.specs.Kept.{equalities_within};
ghost use Rattle.tree_bounds.specs.Scans.{SatisfiesScanned, scanned};
ghost use Rattle.tree_bounds.specs.SetBounds.{SetHasLists, bound_of_set};
ghost use Rattle.tree_bounds.specs.Tables.{ChoicesAreDifferent, SetDominates};
ghost use Rattle.tree_bounds.specs.TreeBounds.{EntryBounds};
ghost use Rattle.csv_tables.specs.declared.types.Database.{Database};
ghost use Rattle.csv_tables.specs.Pools.{TextsAreDifferent as AreDifferentTexts};
ghost use Rattle.sql_meaning.specs.Answers.{answer, conjunct_of, conjuncts_of, entries_of, selected};
ghost use Rattle.sql_meaning.specs.Conditions.{cond_holds};
ghost use Rattle.sql_meaning.specs.Databases.{IsColumnOf, IsDatabaseOf};
ghost use Rattle.sql_meaning.specs.Levels.{DependsOnNamed, Conjunct, level, level_of, is_own_conjunct as names_just_it, row_in, scan};
ghost use Rattle.sql_meaning.specs.Tables.{Tables, cells_of, row_counts, tables_of};
ghost use Rattle.level_bounds.specs.Equalities.{IsImplied};
ghost use Rattle.level_bounds.specs.Keys.{AreKeys, HaveDifferentCharacters, Keys, are_equal_at, cell_at};
ghost use Rattle.level_bounds.specs.Orders.{IsOrderOfSet, reordered};
ghost use Rattle.level_bounds.specs.Scans.{BoundsEachScan, BoundsScans, equalities_in, own_conjuncts_of, level_over_entries, query_scan};
ghost use Rattle.level_bounds.specs.WholeTables.{AreCompressed, keys_of, uncompressed};

/// The planner and the meaning of SQL agree on which conjuncts are an entry's own. The entry's scan has the rows for which all
/// of its own conjuncts hold; `local_of` has the numbers of these conjuncts.
pub fn scans_test_own_conjuncts()
    ensures same { (tables : Tables) (entry : ℕ) (cond : Cond) → names_just_it (conjunct_of tables cond) entry ≡ is_own_conjunct entry cond }
    ensures scan { (query : Query) (tables : Tables) (entry : ℕ)
        → query_scan query tables entry
        ≡ filter (λ row. list_all (cond_holds tables (λ e. row)) (own_conjuncts_of query entry)) (range_with_len 0 (row_counts tables entry)) }
    ensures by_number { (query : Query) (tables : Tables) (entry row : ℕ) → entry < length query.from
        → Contains (query_scan query tables entry) row
        ↔ ((row < row_counts tables entry) × ((k : ℕ) → Contains (slice_index_or (local_of query) entry []) k
        → IsSomeAnd (slice_get query.conjuncts k) (λ cond. IsTrue (cond_holds tables (λ e. row) cond)))) }
{}

/// Each equality that joins two entries is a conjunct. The conjunct names only these two entries, and it holds exactly if the two values are equal.
pub fn equalities_are_conjuncts()
    ensures stand { (query : Query) (e : Edge)
        → Contains (equalities_of query) e ↔ ((cond : Cond) × Contains query.conjuncts cond × (equality_of cond ≡ Some e)) }
    ensures name { (cond : Cond) (e : Edge) → equality_of cond ≡ Some e → entries_named cond ≡ e.left.entry ∷ e.right.entry ∷ [] }
    ensures hold { (tables : Tables) (row_of : ℕ → ℕ) (cond : Cond) (e : Edge) → equality_of cond ≡ Some e
        → cond_holds tables row_of cond ≡ are_equal_at tables e (row_of e.left.entry) (row_of e.right.entry) }
{}

/// If no two texts of a database are the same, its cells can serve as keys: rows that an equality joins have equal cells. The
/// keys of a whole column are the column's cells.
pub fn cells_are_keys()
    ensures cells { (query : Query) (db : Database) → IsDatabaseOf query db → HaveDifferentCharacters db.pool
        → AreKeys (tables_of db) (cell_at db) (equalities_of query) }
    ensures columns { (query : Query) (db : Database) (column : ColumnRef) → IsDatabaseOf query db → IsColumnOf db column
        → keys_of (tables_of db) (cell_at db) column.from column.column
        ≡ slice_index_or (cells_of db column.from).columns column.column [] }
    ensures texts { (texts : List (List ℕ)) → All IsUtf8 texts → AreDifferentTexts texts → HaveDifferentCharacters texts }
{}

/// A list of different entries is an order of their set, and so is each prefix of the list. If it has all n entries, it is
/// an order of all entries.
pub fn orders_are_of_their_sets()
    ensures prefixes { (order : List ℕ) (k : ℕ) → AllByRecursion (λ entry. entry < 16) order → IsDistinct ◌==◌ order
        → IsOrderOfSet (entries_of_set (set_of (take k order))) (take k order) }
    ensures all { (n : ℕ) (order : List ℕ) → AllByRecursion (λ entry. entry < n) order → IsDistinct ◌==◌ order → length order ≡ n
        → IsOrderOfSet (range_with_len 0 n) order }
{}

/// Take a level over the entries of a set, in any order. Its choices are all different, and they are choices of scanned rows. Each choice
/// satisfies all equalities of the set.
pub fn levels_are_choices_of_scanned_rows()
    ensures satisfy { (query : Query) (tables : Tables) (key : Keys) (subset : ℕ) (order : List ℕ)
        → AreKeys tables key (equalities_in query subset) → IsOrderOfSet (entries_of_set subset) order
        → AllByRecursion (SatisfiesScanned (query_scan query tables) key (entries_of_set subset) (equalities_in query subset))
        (map (row_in order) (level_over_entries query tables order)) }
    ensures different { (query : Query) (tables : Tables) (subset : ℕ) (order : List ℕ) → IsOrderOfSet (entries_of_set subset) order
        → ChoicesAreDifferent (entries_of_set subset) (map (row_in order) (level_over_entries query tables order)) }
{}

/// No bound is too low. If the bounds of the entries hold for their scans, a level over the entries of a set, in any order, has no more rows than
/// the set's bound.
pub fn levels_are_never_under()
    ensures database { (query : Query) (db : Database) (b : EntryBounds) (subset : ℕ) (order : List ℕ)
        → IsDatabaseOf query db → HaveDifferentCharacters db.pool → BoundsScans b query (tables_of db) (cell_at db) subset
        → IsOrderOfSet (entries_of_set subset) order
        → length (level_over_entries query (tables_of db) order) ≤ bound_of_set b (equalities_of query) subset }
    // for level k of an order of all entries; the level's set has the order's first k entries
    ensures levels { (query : Query) (db : Database) (b : EntryBounds) (order : List ℕ) (k : ℕ)
        → IsDatabaseOf query db → HaveDifferentCharacters db.pool → BoundsEachScan b query (tables_of db) (cell_at db)
        → IsOrderOfSet (entries_of query) order
        → length (level (conjuncts_of query (tables_of db)) (row_counts (tables_of db)) order k)
        ≤ bound_of_set b (equalities_of query) (set_of (take k order)) }
    // for any tables, and for any keys that are equal in rows that an equality joins
    ensures tables { (query : Query) (tables : Tables) (key : Keys) (b : EntryBounds) (subset : ℕ) (order : List ℕ)
        → AreKeys tables key (equalities_in query subset) → BoundsScans b query tables key subset
        → IsOrderOfSet (entries_of_set subset) order
        → length (level_over_entries query tables order) ≤ bound_of_set b (equalities_of query) subset }
    // for any conjuncts, if each equality of the set follows from one of them
    ensures conjuncts { (conjuncts : List Conjunct) (rows : ℕ → ℕ) (key : Keys) (es : List Edge) (b : EntryBounds) (subset : ℕ)
        (order : List ℕ) → AllByRecursion DependsOnNamed conjuncts → AllByRecursion (IsImplied conjuncts rows key) (equalities_within subset es)
        → SetHasLists b es subset → SetDominates b (scanned (scan conjuncts rows) key) es subset
        → IsOrderOfSet (entries_of_set subset) order → length (level_of conjuncts rows order) ≤ bound_of_set b es subset }
{}

/// Bounds that hold for each scan of a query hold for the scans of every set of its entries.
pub fn each_scan_is_enough()
    ensures { (query : Query) (tables : Tables) (key : Keys) (b : EntryBounds) (subset : ℕ) → BoundsEachScan b query tables key
        → AllByRecursion (λ entry. entry < length query.from) (entries_of_set subset) → BoundsScans b query tables key subset }
{}

/// If the same entries are joined in another order, the level has the same choices. Only the order of its rows may differ.
pub fn levels_are_of_sets()
    ensures rearranged { (conjuncts : List Conjunct) (rows : ℕ → ℕ) (set order other : List ℕ)
        → IsOrderOfSet set order → IsOrderOfSet set other
        → IsPermutation (map (reordered order other) (level_of conjuncts rows order)) (level_of conjuncts rows other) }
    ensures as_many { (conjuncts : List Conjunct) (rows : ℕ → ℕ) (set order other : List ℕ)
        → IsOrderOfSet set order → IsOrderOfSet set other
        → length (level_of conjuncts rows order) ≡ length (level_of conjuncts rows other) }
{}

/// The last level of any order of all entries gives the query's answer. The outputs of its choices are the rows of the answer, each as often
/// as in the answer.
pub fn last_levels_are_the_answer()
    ensures tables { (query : Query) (tables : Tables) (order : List ℕ) → NamesItsEntries query → IsOrderOfSet (entries_of query) order
        → IsPermutation (map (λ choice. selected query tables (row_in order choice)) (level_over_entries query tables order))
        (answer query tables) }
    ensures database { (query : Query) (db : Database) (order : List ℕ) → IsDatabaseOf query db → IsOrderOfSet (entries_of query) order
        → IsPermutation (map (λ choice. selected query (tables_of db) (row_in order choice)) (level_over_entries query (tables_of db) order))
        (answer query (tables_of db)) }
{}

/// The scan of an entry without own conjuncts is its whole table. Bounds from compressed degree lists of whole tables hold
/// for these scans.
pub fn unfiltered_scans_are_whole_tables()
    ensures whole { (query : Query) (tables : Tables) (entry : ℕ) → own_conjuncts_of query entry ≡ []
        → query_scan query tables entry ≡ range_with_len 0 (row_counts tables entry) }
    ensures bounded { (query : Query) (tables : Tables) (key : Keys) (accuracy : ℕ) (b : EntryBounds) (subset : ℕ)
        → AllByRecursion (λ entry. own_conjuncts_of query entry ≡ []) (entries_of_set subset)
        → AreCompressed accuracy b tables key (equalities_of query) subset → BoundsScans b query tables key subset }
{}

/// Compressed lists raise a bound by little. At accuracy K, the bound of a set of n entries is at most ((K + 1) / K)^n times
/// its bound from the degree lists themselves. The law multiplies both sides by K^n.
pub fn compressed_bounds_are_near()
    ensures { (query : Query) (tables : Tables) (key : Keys) (accuracy : ℕ) (b : EntryBounds) (subset : ℕ)
        → AreCompressed accuracy b tables key (equalities_of query) subset
        → accuracy ^ length (entries_of_set subset) * bound_of_set b (equalities_of query) subset
        ≤ (accuracy + 1) ^ length (entries_of_set subset) * bound_of_set (uncompressed tables key) (equalities_of query) subset }
{}
