//! A law: what the list of a node dominates. The function does nothing; its contract is the law.
ghost use Rattle.std.specs.Prelude.{ℕ, Bool, List};
ghost use Rattle.degree_sequences.specs.Domination.{DominatesKeys};
ghost use Rattle.cond_stats.specs.Leaves.{in_node, leaf_of};
ghost use Rattle.cond_stats.specs.Lists.{list_of_node};
ghost use Rattle.cond_stats.specs.Rows.{filter_values, keys_where};

/// The list of a node dominates the joined keys of the rows whose leaf lies in the node (SafeBound, SIGMOD 2023). The node may have any size, and is
/// given by any of its leaves. The law `lists_dominate` of cond_stats says what the other lists dominate.
pub fn nodes_dominate()
    ensures { (at_most : ℕ → ℕ → Bool) (accuracy : ℕ) (rows : List (ℕ × ℕ)) (size leaf : ℕ)
        → DominatesKeys (list_of_node at_most accuracy rows size leaf)
        (keys_where (λ value. in_node size leaf (leaf_of at_most (filter_values rows) value)) rows) }
{}
