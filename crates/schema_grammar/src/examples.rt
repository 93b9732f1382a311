//! Examples: the tables that small texts spell, and the bytes of syntax errors.
ghost use Rattle.std.specs.Prelude.{[], ◌∷◌};
ghost use Rattle.ll_grammars.specs.Places.{IsSyntaxErrorAt};
ghost use Rattle.schema_grammar.specs.Examples.{unfinished_text, zero_length, table_of_whole, whole_text};
ghost use Rattle.schema_grammar.specs.Grammar.{SchemaText};

/// `CREATE TABLE R (X INT UNIQUE);` spells one table. `CREATE TABLE R (` ends too early, so its syntax error is at its end, byte 16. The syntax error
/// of `CREATE TABLE R (X VARCHAR(0))` is at the zero, byte 26. The syntax error of the empty text is at byte 0.
pub fn small_texts()
    ensures spells { SchemaText whole_text (table_of_whole ∷ []) }
    ensures needs_more { IsSyntaxErrorAt SchemaText unfinished_text 16 16 }
    ensures has_zero_length { IsSyntaxErrorAt SchemaText zero_length 29 26 }
    ensures is_empty { IsSyntaxErrorAt SchemaText [] 0 0 }
{}
