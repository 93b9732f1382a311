//! Laws about statistics files and their texts.
ghost use Rattle.std.specs.Prelude.{◌≡◌, ◌⊎◌, Result, Ok, Err};
ghost use Rattle.schema_types.specs.declared.types.Schema.{Schema};
ghost use Rattle.schema_types.specs.Validity.{IsValid};
ghost use Rattle.stats_file.specs.declared.types.StatsError.{StatsError};
ghost use Rattle.stats_file.specs.declared.types.StatsError.TheVariants as error;
ghost use Rattle.stats_file.specs.declared.types.StatsFile.{StatsFile};
ghost use Rattle.stats_file.specs.Answers.{IsAllowedResult};
ghost use Rattle.stats_file.specs.FileText.{file_text};
ghost use Rattle.stats_file.specs.Rules.{KeepsRules};
ghost use Rattle.stats_reading.specs.Names.{HasByteColumns};

/// Two files with the same text are equal.
pub fn a_text_spells_one_file()
    ensures { (schema : Schema) (a b : StatsFile) → IsValid schema → KeepsRules schema a → KeepsRules schema b
        → file_text schema a ≡ file_text schema b → a ≡ b }
{}

/// If the text of a file is read, the result is this file, or that memory ran out. So the text is never refused. The law requires that the schema's
/// column names consist of bytes. By the rules for files, all other names and values consist of bytes.
pub fn a_written_file_is_read()
    ensures { (schema : Schema) (file : StatsFile) (answer : Result StatsFile StatsError)
        → IsValid schema → HasByteColumns schema → KeepsRules schema file
        → IsAllowedResult schema (file_text schema file) answer → (answer ≡ Ok file) ⊎ (answer ≡ Err error.NoMemory) }
{}
