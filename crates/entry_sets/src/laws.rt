//! Laws of the definitions. Each function does nothing, and its contract is the law.
ghost use Rattle.std.specs.Prelude.{◌≡◌, ◌↔◌, ◌<◌, [], ◌∷◌, ℕ, true, false};
ghost use Rattle.std.specs.Int.{bit_at};
ghost use Rattle.std.specs.List.{Contains};
ghost use Rattle.std.specs.List.Sorted.{IsStrictlyIncreasing};
ghost use Rattle.limits.specs.Profile.{greatest_entries};
ghost use Rattle.entry_sets.specs.Naming.{is_only_named, are_within};
ghost use Rattle.entry_sets.specs.Sets.{entries_of_set, has_entry, set_of};

/// The list of a set's entries has exactly these entries, in ascending order.
pub fn a_set_has_its_entries()
    ensures has { (set entry : ℕ) → Contains (entries_of_set set) entry ↔ (has_entry set entry ≡ true) }
    ensures bits { (set entry : ℕ) → Contains (entries_of_set set) entry ↔ ((entry < greatest_entries) × (bit_at set entry ≡ 1)) }
    ensures ascend { (set : ℕ) → IsStrictlyIncreasing (entries_of_set set) }
{}

/// What the definitions give for small sets.
pub fn examples()
    ensures set { set_of (0 ∷ 2 ∷ []) ≡ 5 }
    ensures has { has_entry 5 2 ≡ true }
    ensures has_not { has_entry 5 1 ≡ false }
    ensures entries { entries_of_set 5 ≡ 0 ∷ 2 ∷ [] }
    ensures none { entries_of_set 0 ≡ [] }
    ensures twice { is_only_named (1 ∷ 1 ∷ []) 1 ≡ true }
    ensures another { is_only_named (1 ∷ 2 ∷ []) 1 ≡ false }
    ensures nothing { is_only_named [] 1 ≡ false }
    ensures within { are_within (1 ∷ 2 ∷ []) (2 ∷ 3 ∷ 1 ∷ []) ≡ true }
{}
