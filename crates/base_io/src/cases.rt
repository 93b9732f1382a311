//! Examples of this crate's definitions.
ghost use Rattle.std.specs.Prelude.{◌≡◌, ◌∷◌, ◌^◌, ◌-◌, [], Some, None};
ghost use Rattle.base_io.specs.Causes.{Rose, one_more};
ghost use Rattle.base_io.specs.Files.{Absent, Unknown, Present, answer_about};
ghost use Rattle.base_io.specs.Sinks.{appended};

/// Examples, proved by computation. The call does nothing.
pub fn examples()
    // If two files have one name, the first file counts.
    ensures first { answer_about (Some ((82 ∷ [], 1 ∷ []) ∷ (82 ∷ [], 2 ∷ []) ∷ [])) (82 ∷ []) ≡ Present (1 ∷ []) }
    ensures empty { answer_about (Some ((82 ∷ [], []) ∷ [])) (82 ∷ []) ≡ Present [] }
    ensures absent { answer_about (Some ((82 ∷ [], 1 ∷ []) ∷ [])) (83 ∷ []) ≡ Absent }
    ensures untold { answer_about None (82 ∷ []) ≡ Unknown }
    ensures grew { appended (Some (1 ∷ [])) (2 ∷ 3 ∷ []) ≡ Some (1 ∷ 2 ∷ 3 ∷ []) }
    ensures last { one_more (2 ^ 64 - 1) ≡ 2 ^ 64 - 1 }
    ensures rose { Rose 4 5 }
    ensures counts_as_risen { Rose (2 ^ 64 - 1) (2 ^ 64 - 1) }
    ensures equal_not_risen { Rose 4 4 → ⊥ }
{}
