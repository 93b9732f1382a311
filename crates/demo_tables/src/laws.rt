//! Laws of the shop's files. Each function does nothing, and its contract is the law.
ghost use Rattle.std.specs.Prelude.{◌≡◌, ℕ, Ok, codes};
ghost use Rattle.limits.specs.Profile.{most_text};
ghost use Rattle.schema_types.specs.declared.types.Schema.{Schema};
ghost use Rattle.query_types.specs.Validity.{IsQueryOf};
ghost use Rattle.query_types.specs.declared.types.Query.{Query};
ghost use Rattle.text_answers.specs.SchemaTexts.{schema_answer};
ghost use Rattle.outcomes.specs.Reads.{MissesNothing};
ghost use Rattle.outcomes.specs.declared.names.FileId.TheVariants as file;
ghost use Rattle.table_files.specs.Stage.{tables_stage};
ghost use Rattle.table_files.specs.TableFile.{read};
ghost use Rattle.demo_files.specs.Files.{demo_files};
ghost use Rattle.demo_files.specs.Texts.{query_text, schema_text};
ghost use Rattle.demo_tables.specs.ShopSchema.{shop_schema};

/// The schema text of the shop is accepted, and declares its four tables.
pub fn the_schema_is_read()
    ensures { schema_answer schema_text ≡ Ok shop_schema }
{}

/// `demo_files` has the schema file, the query file, and the file of each table that a query over the shop's schema names.
pub fn no_file_is_absent()
    ensures schema { (number : ℕ) → read file.Schema most_text (codes "schema.sql") (demo_files number) ≡ Ok schema_text }
    ensures query { (number : ℕ) → read file.Query most_text (codes "query.sql") (demo_files number) ≡ Ok query_text }
    ensures tables { (number : ℕ) (schema : Schema) (query : Query) → schema_answer schema_text ≡ Ok schema → IsQueryOf schema query
        → MissesNothing (tables_stage schema query.from (demo_files number)) }
{}
