//! A law on the bounds of a query. The call does nothing.
ghost use Rattle.std.specs.Prelude.{◌+◌, ◌*◌, ◌^◌, ◌<◌, ◌≤◌, ℕ, length, slice_index};
ghost use Rattle.entry_sets.specs.Sets.{entries_of_set};
ghost use Rattle.query_types.specs.declared.types.Query.{Query};
ghost use Rattle.join_graph.specs.Conjuncts.{equalities_of};
ghost use Rattle.tree_bounds.specs.SetBounds.{bound_of_set};
ghost use Rattle.sql_meaning.specs.Tables.{Tables};
ghost use Rattle.level_bounds.specs.Keys.{Keys};
ghost use Rattle.level_bounds.specs.WholeTables.{uncompressed};
ghost use Rattle.query_bounds.specs.Bounds.{set_bounds};
ghost use Rattle.query_bounds.specs.Statistics.{AreOfWholeTables, Statistics};

/// Bounds from compressed lists are near bounds from degree lists, if no conjunct names just one entry. A set of n entries has a bound from the
/// columns' compressed lists at accuracy K, and a bound from the columns' degree lists. K^n times the first bound is at most (K + 1)^n times the
/// second bound.
pub fn unfiltered_bounds_are_near()
    ensures { (query : Query) (known : Statistics) (tables : Tables) (key : Keys) (accuracy subset : ℕ)
        → AreOfWholeTables query known tables key accuracy → subset < 2 ^ length query.from
        → accuracy ^ length (entries_of_set subset) * slice_index (set_bounds query known) subset
        ≤ (accuracy + 1) ^ length (entries_of_set subset) * bound_of_set (uncompressed tables key) (equalities_of query) subset }
{}
