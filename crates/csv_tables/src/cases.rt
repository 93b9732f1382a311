//! Examples of this crate's definitions.
ghost use Rattle.std.specs.Prelude.{◌≡◌, ◌∷◌, ◌^◌, ◌-◌, [], None, Some, codes, neg_ℤ, pos};
ghost use Rattle.schema_types.specs.declared.types.Kind.TheVariants as kind;
ghost use Rattle.csv_tables.specs.Header.{column_place};
ghost use Rattle.csv_tables.specs.Keys.{first_repeat};
ghost use Rattle.csv_tables.specs.Numbers.{bits_of, number_of};
ghost use Rattle.csv_tables.specs.Records.{records_of};
ghost use Rattle.csv_tables.specs.Values.{Int, value_of_field};

/// Examples, proved by computation. The call does nothing.
pub fn examples()
    ensures plus { number_of (codes "+007") ≡ Some (pos 7) }
    ensures least { number_of (codes "-9223372036854775808") ≡ Some (neg_ℤ (pos (2 ^ 63))) }
    ensures past { number_of (codes "9223372036854775808") ≡ None }
    ensures blank { number_of (codes " 1") ≡ None }
    ensures sign { number_of (codes "-") ≡ None }
    ensures cell { bits_of (neg_ℤ (pos 1)) ≡ 2 ^ 64 - 1 }
    ensures value { value_of_field kind.Int (codes "5") ≡ Some (Int (pos 5)) }

    // X and 1 are each followed by CR and LF, 2 by the end of the text.
    ensures records { records_of (88 ∷ 13 ∷ 10 ∷ 49 ∷ 13 ∷ 10 ∷ 50 ∷ [])
        ≡ (codes "X" ∷ []) ∷ (codes "1" ∷ []) ∷ (codes "2" ∷ []) ∷ [] }
    ensures place { column_place (codes "X") (codes "Y" ∷ codes "x" ∷ []) ≡ Some 1 }
    ensures twice { column_place (codes "X") (codes "X" ∷ codes "x" ∷ []) ≡ None }

    // The key's values 4, 5, 4: the third record repeats the first.
    ensures repeat { first_repeat (0 ∷ []) ((Int (pos 4) ∷ []) ∷ (Int (pos 5) ∷ []) ∷ (Int (pos 4) ∷ []) ∷ [])
        ≡ Some (record { later = 3; earlier = 1 }) }
    ensures none { first_repeat (0 ∷ 1 ∷ []) ((Int (pos 4) ∷ Int (pos 1) ∷ []) ∷ (Int (pos 4) ∷ Int (pos 2) ∷ []) ∷ []) ≡ None }
{}
