//! Laws of carried lists. Each function does nothing; its contract is the law.
ghost use Rattle.std.specs.Prelude.{◌≡◌, ◌≤◌, ℕ, length, map, sum};
ghost use Rattle.berge_tree.specs.declared.edges.Edge.{Edge};
ghost use Rattle.degree_sequences.specs.Domination.{DominatesKeys};
ghost use Rattle.degree_sequences.specs.Descending.{IsDescending};
ghost use Rattle.query_types.specs.declared.types.Query.{Query};
ghost use Rattle.sql_meaning.specs.Tables.{Tables};
ghost use Rattle.table_stats.specs.Keys.{SeparatesValues};
ghost use Rattle.key_carriers.specs.Widened.{rows_referring};
ghost use Rattle.key_stats.specs.Lists.{carried_list, carried_rows};

/// A carried list is in descending order, and it sums to the carried row bound. It dominates the keys of the rows that refer to a row of the
/// carrier's scan. The carried row bound is at least the number of these rows.
pub fn carried_lists_stand()
    ensures dominates { (query : Query) (tables : Tables) (accuracy : ℕ) (e : Edge) (column : ℕ) (key : ℕ → ℕ)
        → SeparatesValues tables e.left.entry column key
        → DominatesKeys (carried_list query tables accuracy e column) (map key (rows_referring query tables e)) }
    ensures fits { (query : Query) (tables : Tables) (e : Edge) → length (rows_referring query tables e) ≤ carried_rows query tables e }
    ensures descends { (query : Query) (tables : Tables) (accuracy : ℕ) (e : Edge) (column : ℕ) → IsDescending (carried_list query tables accuracy e column) }
    ensures sums { (query : Query) (tables : Tables) (accuracy : ℕ) (e : Edge) (column : ℕ)
        → sum (carried_list query tables accuracy e column) ≡ carried_rows query tables e }
{}
