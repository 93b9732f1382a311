//! Laws about the results of reading texts. These functions do nothing.
ghost use Rattle.std.specs.Prelude.{◌≡◌, ◌≢◌, ◌⊎◌, ℕ, List, Result, Ok, Err};
ghost use Rattle.schema_types.specs.declared.types.Schema.{Schema};
ghost use Rattle.schema_types.specs.Texts.{IsSchemaOf};
ghost use Rattle.schema_types.specs.Validity.{IsValid};
ghost use Rattle.stats_file.specs.declared.types.StatsError.{StatsError};
ghost use Rattle.stats_file.specs.declared.types.StatsError.TheVariants as error;
ghost use Rattle.stats_file.specs.declared.types.StatsFile.{StatsFile};
ghost use Rattle.stats_file.specs.Answers.{IsAllowedResult};
ghost use Rattle.stats_file.specs.FileText.{file_text};
ghost use Rattle.stats_file.specs.Rules.{KeepsRules};
ghost use Rattle.stats_reading.specs.Names.{HasByteColumns};
ghost use Rattle.stats_answers.specs.StatsTexts.{stats_answer};

/// The schema must be valid, and its column names must consist of bytes. Then a text has one result, `stats_answer`, apart from the result that
/// memory ran out. If the result is a statistics file, this file keeps the rules and has this text. If a file keeps the rules, the result for its
/// text is this file.
pub fn stats_texts()
    ensures allowed { (schema : Schema) (text : List ℕ) → IsValid schema → IsAllowedResult schema text (stats_answer schema text) }
    ensures no_other_result { (schema : Schema) (text : List ℕ) (answer : Result StatsFile StatsError)
        → IsValid schema → HasByteColumns schema → IsAllowedResult schema text answer
        → (answer ≡ Err error.NoMemory) ⊎ (answer ≡ stats_answer schema text) }
    ensures never_out_of_memory { (schema : Schema) (text : List ℕ) → stats_answer schema text ≢ Err error.NoMemory }
    ensures result_keeps_rules { (schema : Schema) (text : List ℕ) (file : StatsFile) → IsValid schema → stats_answer schema text ≡ Ok file
        → KeepsRules schema file × (text ≡ file_text schema file) }
    ensures written_file_is_read { (schema : Schema) (file : StatsFile) → IsValid schema → HasByteColumns schema → KeepsRules schema file
        → stats_answer schema (file_text schema file) ≡ Ok file }
{}

/// In a schema that was read from a text, the names of columns consist of bytes.
pub fn schemas_have_byte_columns()
    ensures { (text : List ℕ) (schema : Schema) → IsSchemaOf text (Ok schema) → HasByteColumns schema }
{}
