//! Laws: what the lists dominate, and what they sum to. The functions do nothing; their contracts are the laws.
ghost use Rattle.std.specs.Prelude.{◌≡◌, ℕ, ◌≤◌, ◌&&◌, nat_le, Bool, List, length, map, Option, Some, if◌then◌else◌};
ghost use Rattle.std.specs.List.{sum, count_by};
ghost use Rattle.schema_types.specs.declared.types.Kind.{Kind};
ghost use Rattle.csv_tables.specs.Values.{Value};
ghost use Rattle.degree_sequences.specs.Degrees.{degree};
ghost use Rattle.degree_sequences.specs.Domination.{DominatesKeys};
ghost use Rattle.cond_stats.specs.Columns.{list_between, is_between};
ghost use Rattle.cond_stats.specs.Frequency.{remaining};
ghost use Rattle.cond_stats.specs.Leaves.{leaf_of, in_node};
ghost use Rattle.cond_stats.specs.Lists.{whole, rest, list_of_value, list_of_node, list_of_range, keys_with, greatest, is_frequent};
ghost use Rattle.cond_stats.specs.Rows.{filter_values, joined_keys, keys_where};

/// Each list dominates the joined keys of its rows (SafeBound, SIGMOD 2023).
pub fn lists_dominate()
    ensures whole { (accuracy : ℕ) (rows : List (ℕ × ℕ)) → DominatesKeys (whole accuracy rows) (joined_keys rows) }
    // whether the value is frequent or not, and is in a row or not
    ensures value { (accuracy : ℕ) (rows : List (ℕ × ℕ)) (value : ℕ)
        → DominatesKeys (list_of_value accuracy rows (Some value)) (keys_with value rows) }
    // the rows whose leaf is at least the low one and at most the high one
    ensures leaves { (at_most : ℕ → ℕ → Bool) (accuracy : ℕ) (rows : List (ℕ × ℕ)) (low high : ℕ) → low ≤ 31 → high ≤ 31
        → let leaf = leaf_of at_most (filter_values rows) in
        DominatesKeys (list_of_range at_most accuracy rows (Some low) (Some high))
        (keys_where (λ value. nat_le low (leaf value) && nat_le (leaf value) high) rows) }
    // the rows whose value is at least the low one and at most the high one; either may be missing
    ensures range { (texts : List (List ℕ)) (kind : Kind) (accuracy : ℕ) (rows : List (ℕ × ℕ)) (low high : Option Value)
        → DominatesKeys (list_between texts kind accuracy rows low high) (keys_where (is_between texts kind low high) rows) }
{}

/// Each list sums to a number of rows. This number is the same for every joined column.
pub fn lists_sum()
    ensures whole { (accuracy : ℕ) (rows : List (ℕ × ℕ)) → sum (whole accuracy rows) ≡ length rows }
    ensures frequent { (accuracy : ℕ) (rows : List (ℕ × ℕ)) (value : ℕ)
        → sum (list_of_value accuracy rows (Some value)) ≡
        (if is_frequent rows value then degree (filter_values rows) value else sum (rest accuracy rows)) }
    // the rest list sums to the number of rows of the most frequent value that has no list of its own
    ensures rest { (accuracy : ℕ) (rows : List (ℕ × ℕ))
        → sum (rest accuracy rows) ≡ greatest (map (degree (filter_values rows)) (remaining (filter_values rows))) }
    ensures node { (at_most : ℕ → ℕ → Bool) (accuracy : ℕ) (rows : List (ℕ × ℕ)) (size leaf : ℕ)
        → sum (list_of_node at_most accuracy rows size leaf) ≡
        count_by (λ value. in_node size leaf (leaf_of at_most (filter_values rows) value)) (filter_values rows) }
{}
