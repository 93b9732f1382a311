//! Laws of the text of every statistics file. These functions do nothing.
ghost use Rattle.std.specs.Prelude.{ℕ, ℤ, ◌^◌, ◌<◌, ◌≤◌, List, decimal, FitsSigned};
ghost use Rattle.schema_types.specs.declared.types.Schema.{Schema};
ghost use Rattle.std.specs.Int.{w64};
ghost use Rattle.std.specs.Fmt.{signed_decimal};
ghost use Rattle.limits.specs.Profile.{most_rows};
ghost use Rattle.stats_file.specs.Bytes.{AreBytes, ConsistOfBytes};
ghost use Rattle.stats_file.specs.declared.types.StatsFile.{StatsFile};
ghost use Rattle.stats_file.specs.FileText.{file_lines};
ghost use Rattle.stats_file.specs.Grammar.{IsHexWord, IsListWord, IsNumeral, IsSignedNumeral, IsText};
ghost use Rattle.stats_file.specs.Lines.{hex_text, runs_text};
ghost use Rattle.stats_file.specs.Rules.{IsList, KeepsRules};
ghost use Rattle.stats_file.specs.Runs.{runs_of};

/// The numbers, values and names that a file's text is made of are words of the grammar.
pub fn words_are_grammatical()
    ensures numbers { (n : ℕ) → n < 2 ^ 64 → IsNumeral (decimal n) }
    ensures signed { (z : ℤ) → FitsSigned w64 z → IsSignedNumeral (signed_decimal z) }
    ensures bytes { (bytes : List ℕ) → AreBytes bytes → IsHexWord (hex_text bytes) }
    ensures lists { (rows : ℕ) (list : List ℕ) → rows ≤ most_rows → IsList rows list → IsListWord (runs_text (runs_of list)) }
{}

/// The lines of a file that keeps the rules are a text of the grammar.
pub fn texts_are_grammatical()
    ensures { (schema : Schema) (file : StatsFile)
        → ConsistOfBytes schema file → KeepsRules schema file → IsText (file_lines schema file) }
{}
