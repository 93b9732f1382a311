//! Laws of bounds and plans, if conjuncts are carried along references to keys. Each function does nothing; its contract is the law.
ghost use Rattle.std.specs.Prelude.{◌≡◌, ◌≢◌, ◌^◌, ◌<◌, ◌≤◌, ℕ, Ok, Err, length, slice_index};
ghost use Rattle.limits.specs.Profile.{most_budget, most_entries};
ghost use Rattle.plans.specs.declared.left_deep.Plan.{Plan};
ghost use Rattle.order_search.specs.declared.refusal.PlanError.TheVariants as error;
ghost use Rattle.schema_types.specs.declared.types.Schema.{Schema};
ghost use Rattle.query_types.specs.declared.types.Query.{Query};
ghost use Rattle.join_graph.specs.Conjuncts.{equalities_of};
ghost use Rattle.tree_bounds.specs.Columns.{EachNamedColumn};
ghost use Rattle.set_bounds.specs.Parts.{DependsOnPartsOnly};
ghost use Rattle.sql_meaning.specs.Tables.{Tables};
ghost use Rattle.level_bounds.specs.Keys.{Keys};
ghost use Rattle.join_steps.specs.Lists.{scans_of};
ghost use Rattle.join_steps.specs.Plans.{IsPlanOf};
ghost use Rattle.planning.specs.Bounds.{set_bounds_of};
ghost use Rattle.planning.specs.Standing.{BoundLevels, StandForLists};
ghost use Rattle.key_carriers.specs.DeclaredKeys.{DeclaredKeysHold};
ghost use Rattle.key_bounds.specs.Bounds.{bounds_by_keys, set_bounds_by_keys};
ghost use Rattle.key_bounds.specs.Plans.{planned_by_keys};

/// The bound of each set is at most its bound without carried conjuncts, whether the keys hold or not.
pub fn keys_only_lower()
    ensures { (schema : Schema) (query : Query) (tables : Tables) (accuracy subset : ℕ) → subset < 2 ^ length query.from
        → slice_index (set_bounds_by_keys schema query tables accuracy) subset ≤ slice_index (set_bounds_of query tables accuracy) subset }
{}

/// If the declared keys hold, no bound is too low. The bounds of entries in each set stand for the rows that may be in a choice for the set. No level
/// over the scans of a set's entries has more rows than the bound of the set. A plan by these bounds is a plan over the scans, and `planned_by_keys`
/// is never `NoMemory`. A row that refers to no row needs no exception: it is in no choice with a row of the other entry.
pub fn keys_are_never_under()
    ensures stand { (schema : Schema) (query : Query) (tables : Tables) (accuracy : ℕ) → DeclaredKeysHold schema query tables
        → (key : Keys) × StandForLists query tables (scans_of query tables) key (bounds_by_keys schema query tables accuracy) }
    ensures sets { (schema : Schema) (query : Query) (tables : Tables) (accuracy : ℕ) → DeclaredKeysHold schema query tables
        → BoundLevels query tables (scans_of query tables) (set_bounds_by_keys schema query tables accuracy) }
    ensures plans { (schema : Schema) (query : Query) (tables : Tables) (accuracy budget : ℕ) (plan : Plan) → DeclaredKeysHold schema query tables
        → length query.from ≤ most_entries → budget ≤ most_budget → planned_by_keys schema query tables accuracy budget ≡ Ok plan
        → IsPlanOf query tables (scans_of query tables) plan }
    ensures no_memory { (schema : Schema) (query : Query) (tables : Tables) (accuracy budget : ℕ)
        → planned_by_keys schema query tables accuracy budget ≢ Err error.NoMemory }
{}

/// Suppose that equalities name only FROM entries, and that a set consists of two parts that no equality joins. A part's bound is the same, whether
/// conjuncts are carried within the whole set or only within the part. The reason is that a carrier is joined with the entry to which it carries, so
/// both are in the same part.
pub fn keys_look_at_parts()
    ensures { (schema : Schema) (query : Query) (tables : Tables) (accuracy : ℕ)
        → EachNamedColumn (λ entry column. entry < length query.from) (equalities_of query)
        → DependsOnPartsOnly (bounds_by_keys schema query tables accuracy) (equalities_of query) }
{}
