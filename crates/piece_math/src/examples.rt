//! An example of pieces and the list that they stand for.
ghost use Rattle.std.specs.Prelude.{◌≡◌, ◌∷◌, []};
ghost use Rattle.piece_math.specs.Expanded.{expanded};

/// Two fours and a one.
pub fn expansion()
    ensures { expanded (record { value = 4; count = 2 } ∷ record { value = 1; count = 1 } ∷ []) ≡ 4 ∷ 4 ∷ 1 ∷ [] }
{}
