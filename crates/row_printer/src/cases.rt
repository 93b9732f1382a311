//! Examples of this crate's definitions.
ghost use Rattle.std.specs.Prelude.{◌≡◌, ◌∷◌, [], codes};
ghost use Rattle.row_printer.specs.Fields.{record_text};

/// Examples, proved by computation. The call does nothing.
pub fn examples()
    ensures plain { record_text (codes "1" ∷ codes "a b" ∷ []) ≡ codes "1,a b\r\n" }
    ensures quoted { record_text (codes "a,b" ∷ codes "1" ∷ []) ≡ codes "\"a,b\",1\r\n" }
    ensures doubled { record_text (codes "a\"b" ∷ []) ≡ codes "\"a\"\"b\"\r\n" }
    ensures lines { record_text (codes "a\nb" ∷ codes "c\rd" ∷ []) ≡ codes "\"a\nb\",\"c\rd\"\r\n" }
    ensures lone { record_text ([] ∷ []) ≡ codes "\"\"\r\n" }
    ensures empty { record_text ([] ∷ [] ∷ []) ≡ codes ",\r\n" }
{}
