//! Laws about a column whose numbers are replaced by other numbers: degrees, frequent numbers, cuts and leaves follow, and no list changes.
//! Each function does nothing; its contract is the law.
ghost use Rattle.std.specs.Prelude.{◌≡◌, ◌↔◌, ℕ, Bool, List, Option, Some, Contains, length, map};
ghost use Rattle.std.specs.List.{filter, zip};
ghost use Rattle.degree_sequences.specs.Degrees.{degree, degree_list};
ghost use Rattle.degree_sequences.specs.Domination.{DominatesKeys};
ghost use Rattle.cond_stats.specs.Frequency.{frequent, remaining};
ghost use Rattle.cond_stats.specs.Leaves.{cuts, last_leaf_where};
ghost use Rattle.cond_stats.specs.Lists.{compressed_degrees, list_of_node, list_of_range, list_of_value, rest};
ghost use Rattle.cond_stats.specs.Rows.{filter_values, joined_keys, keys_where};
ghost use Rattle.relabelling_laws.specs.Relabelling.{AreEqualAlike, IsMissing, IsOneToOne, KeepsOrder, PassAlike, MatchAlike};

/// A new number occurs in a column as often as the old number did. The frequent numbers of the new column are the new numbers of the old
/// column's frequent numbers.
pub fn columns_are_relabelled()
    ensures degree { (f : ℕ → ℕ) (column : List ℕ) (value : ℕ) → IsOneToOne f column → Contains column value
        → degree (map f column) (f value) ≡ degree column value }
    ensures degrees { (f : ℕ → ℕ) (column : List ℕ) → IsOneToOne f column → degree_list (map f column) ≡ degree_list column }
    ensures frequent { (f : ℕ → ℕ) (column : List ℕ) → IsOneToOne f column → frequent (map f column) ≡ map f (frequent column) }
    ensures remaining { (f : ℕ → ℕ) (column : List ℕ) → IsOneToOne f column → remaining (map f column) ≡ map f (remaining column) }
{}

/// Cuts are the numbers at which leaves begin. Suppose that the new numbers compare as the old numbers do. Then the cuts of the new column are the
/// new numbers of the old cuts. If a test of the new numbers passes where a test of the old numbers does, both tests give the same leaf.
pub fn leaves_are_relabelled()
    ensures cuts { (at_most new_at_most : ℕ → ℕ → Bool) (f : ℕ → ℕ) (column : List ℕ) → KeepsOrder at_most new_at_most f column
        → cuts new_at_most (map f column) ≡ map f (cuts at_most column) }
    ensures leaf { (at_most new_at_most : ℕ → ℕ → Bool) (f : ℕ → ℕ) (column : List ℕ) (passes new_passes : ℕ → Bool)
        → KeepsOrder at_most new_at_most f column → PassAlike passes new_passes f column
        → last_leaf_where new_at_most (map f column) new_passes ≡ last_leaf_where at_most column passes }
{}

/// The lists of a filter column and a joined column don't change if the numbers of both columns are replaced.
pub fn lists_do_not_change()
    ensures whole { (accuracy : ℕ) (g : ℕ → ℕ) (joined : List ℕ) → IsOneToOne g joined
        → compressed_degrees accuracy (map g joined) ≡ compressed_degrees accuracy joined }
    // the list of a value that a row has
    ensures value { (accuracy : ℕ) (f g : ℕ → ℕ) (column joined : List ℕ) (value : ℕ)
        → IsOneToOne f column → IsOneToOne g joined → Contains column value
        → list_of_value accuracy (zip (map f column) (map g joined)) (Some (f value))
        ≡ list_of_value accuracy (zip column joined) (Some value) }
    // the list of a value that no row has, whatever its old number and its new number are
    ensures absent { (accuracy : ℕ) (f g : ℕ → ℕ) (column joined : List ℕ) (new_value value : Option ℕ)
        → IsOneToOne f column → IsOneToOne g joined → IsMissing (map f column) new_value → IsMissing column value
        → list_of_value accuracy (zip (map f column) (map g joined)) new_value ≡ list_of_value accuracy (zip column joined) value }
    // the list of any value, which is `value` in the old numbers and `new_value` in the new numbers
    ensures any_value { (accuracy : ℕ) (f g : ℕ → ℕ) (column joined : List ℕ) (new_value value : Option ℕ)
        → IsOneToOne f column → IsOneToOne g joined → MatchAlike f column new_value value
        → list_of_value accuracy (zip (map f column) (map g joined)) new_value ≡ list_of_value accuracy (zip column joined) value }
    ensures rest { (accuracy : ℕ) (f g : ℕ → ℕ) (column joined : List ℕ) → IsOneToOne f column → IsOneToOne g joined
        → rest accuracy (zip (map f column) (map g joined)) ≡ rest accuracy (zip column joined) }
    // the lists of nodes and ranges, if the new filter values compare as the old values do
    ensures node { (at_most new_at_most : ℕ → ℕ → Bool) (accuracy : ℕ) (f g : ℕ → ℕ) (column joined : List ℕ) (size leaf : ℕ)
        → KeepsOrder at_most new_at_most f column → IsOneToOne g joined
        → list_of_node new_at_most accuracy (zip (map f column) (map g joined)) size leaf
        ≡ list_of_node at_most accuracy (zip column joined) size leaf }
    ensures range { (at_most new_at_most : ℕ → ℕ → Bool) (accuracy : ℕ) (f g : ℕ → ℕ) (column joined : List ℕ) (low high : Option ℕ)
        → KeepsOrder at_most new_at_most f column → IsOneToOne g joined
        → list_of_range new_at_most accuracy (zip (map f column) (map g joined)) low high
        ≡ list_of_range at_most accuracy (zip column joined) low high }
{}

/// A value that no row has, or that has no number, has the rest list.
pub fn missing_values_have_the_rest_list()
    ensures { (accuracy : ℕ) (column joined : List ℕ) (value : Option ℕ) → IsMissing column value
        → list_of_value accuracy (zip column joined) value ≡ rest accuracy (zip column joined) }
{}

/// A list dominates keys if and only if it dominates other keys that are equal for the same pairs of rows. Both lists of keys have the same
/// degree list.
pub fn keys_are_relabelled()
    ensures column { (list : List ℕ) (f : ℕ → ℕ) (keys : List ℕ) → IsOneToOne f keys
        → DominatesKeys list (map f keys) ↔ DominatesKeys list keys }
    ensures rows { (list : List ℕ) (key other_key : ℕ → ℕ) (rows : List ℕ) → AreEqualAlike key other_key rows
        → DominatesKeys list (map key rows) ↔ DominatesKeys list (map other_key rows) }
    // the keys of the rows that pass a test
    ensures passing { (list : List ℕ) (key other_key : ℕ → ℕ) (rows : List ℕ) (passes : ℕ → Bool) → AreEqualAlike key other_key rows
        → DominatesKeys list (map key (filter passes rows)) ↔ DominatesKeys list (map other_key (filter passes rows)) }
    ensures degrees { (key other_key : ℕ → ℕ) (rows : List ℕ) → AreEqualAlike key other_key rows
        → degree_list (map key rows) ≡ degree_list (map other_key rows) }
{}

/// Suppose that a test of a new filter number passes exactly if a test of the old number does. Then both tests select the same rows. The joined keys
/// of these rows are the new numbers of the old joined keys.
pub fn passing_rows_are_relabelled()
    ensures passing { (f g : ℕ → ℕ) (column joined : List ℕ) (passes new_passes : ℕ → Bool) → PassAlike passes new_passes f column
        → keys_where new_passes (zip (map f column) (map g joined)) ≡ map g (keys_where passes (zip column joined)) }
    // both columns and the test are given by rows
    ensures rows { (value key : ℕ → ℕ) (rows : List ℕ) (passes new_passes : ℕ → Bool) → PassAlike passes new_passes value rows
        → keys_where new_passes (zip (map value rows) (map key rows)) ≡ map key (filter passes rows) }
    ensures values { (column joined : List ℕ) → length column ≡ length joined → filter_values (zip column joined) ≡ column }
    ensures keys { (column joined : List ℕ) → length column ≡ length joined → joined_keys (zip column joined) ≡ joined }
{}
