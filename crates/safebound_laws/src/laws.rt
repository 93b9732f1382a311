//! Laws about every run. A call does nothing; its contract is the law.
ghost use Rattle.std.specs.Prelude.{◌≡◌, ◌≢◌, ◌∷◌, [], ℕ, List, Err, IfOk, None, Ok, Some, codes};
ghost use Rattle.base_io.specs.Files.{Files};
ghost use Rattle.csv_tables.specs.Files.{rows_of_file};
ghost use Rattle.csv_tables.specs.Rows.{Row};
ghost use Rattle.stats_file_bounds.specs.Entries.{KeepsRulesOfSome};
ghost use Rattle.stats_file_bounds.specs.Found.{first_missing};
ghost use Rattle.stats_file_of_query.specs.Standing.{StandsFor};
ghost use Rattle.csv_tables.specs.declared.types.TableError.TheVariants as table_error;
ghost use Rattle.order_search.specs.declared.refusal.PlanError.TheVariants as plan_error;
ghost use Rattle.query_types.specs.Named.{NamesItsEntries};
ghost use Rattle.query_types.specs.Validity.{IsQueryOf};
ghost use Rattle.query_types.specs.declared.types.Query.{Query};
ghost use Rattle.schema_types.specs.declared.errors.SchemaError.TheVariants as schema_error;
ghost use Rattle.schema_types.specs.declared.types.Schema.{Schema};
ghost use Rattle.schema_types.specs.declared.types.Table.{Table};
ghost use Rattle.sql_meaning.specs.Tables.{Tables};
ghost use Rattle.query_names.specs.declared.errors.QueryError.TheVariants as query_error;
ghost use Rattle.stats_answers.specs.StatsTexts.{stats_answer};
ghost use Rattle.table_files.specs.EntryTables.{tables_in};
ghost use Rattle.table_files.specs.Stage.{tables_stage};
ghost use Rattle.stats_file.specs.declared.types.StatsError.TheVariants as stats_error;
ghost use Rattle.stats_file.specs.declared.types.StatsFile.{StatsFile};
ghost use Rattle.text_answers.specs.QueryTexts.{query_answer};
ghost use Rattle.text_answers.specs.SchemaTexts.{schema_answer};
ghost use Rattle.safebound_words.specs.Answer.{command_of};
ghost use Rattle.safebound_words.specs.Commands.{demo_of};
ghost use Rattle.prepared_runs.specs.RunOutcome.{KeepsItsLimit, NoBoundIsTooLow, PrintsTheAnswer};
ghost use Rattle.prepared_runs.specs.Shapes.{planned_by};
ghost use Rattle.prepared_runs.specs.Sources.{SourceNeeds, BoundsAndLists, bounds_and_lists_by, sourced_of_file};
ghost use Rattle.prepared_runs.specs.StatsFiles.{plan_from_file_asked};
ghost use Rattle.safebound_words.specs.declared.command.PlanTerms.{PlanTerms};
ghost use Rattle.prepared_runs.specs.Standing.{IsSource};
ghost use Rattle.prepared_runs.specs.Verdict.{verdict};
ghost use Rattle.safebound_words.specs.declared.command.ListSource.{ListSource};
ghost use Rattle.safebound_words.specs.declared.command.Shape.{Shape};

/// The words of a command line and the files determine a verdict: a refusal or an outcome. An outcome has no bound that is too low. If a plan
/// comes from a statistics file, its bounds hold for all tables for which that file stands. A new statistics file stands for the tables from
/// which it was made. If an outcome prints rows, they are the answer of the query. A plan's buffers take no more bytes than the limit of
/// memory, if there is one.
pub fn run_law()
    ensures bounds { (words : List (List ℕ)) (files : Files) → IfOk (verdict words files) NoBoundIsTooLow }
    ensures rows { (words : List (List ℕ)) (files : Files) → IfOk (verdict words files) PrintsTheAnswer }
    ensures limits { (words : List (List ℕ)) (files : Files) → IfOk (verdict words files) KeepsItsLimit }
{}

/// Over the same files, `demo NUMBER` has the same verdict as `audit schema.sql query.sql`.
pub fn demo_is_an_audit()
    ensures { (number : ℕ) (words : List (List ℕ)) (files : Files) → command_of words ≡ Some (demo_of number)
        → verdict words files ≡ verdict (codes "audit" ∷ codes "schema.sql" ∷ codes "query.sql" ∷ []) files }
{}

/// A `ListSource` gives bounds, and the rows that are joined. At every accuracy, each bound is at least the number of rows that it bounds. If
/// only the given rows are joined, no row of the answer is lost. The source `Keyed` carries conditions along declared keys, so it needs tables
/// in which the declared keys hold. They hold in all tables that were read from files. A statistics file gives bounds and rows in the same
/// way, for all tables for which it stands.
pub fn sources_are_sound()
    ensures stand { (source : ListSource) (schema : Schema) (query : Query) (tables : Tables) → SourceNeeds source schema query tables
        → IsSource query tables (bounds_and_lists_by source schema query tables) }
    ensures read { (source : ListSource) (schema : Schema) (query : Query) (files : Files) (rows : List (List Row)) → IsQueryOf schema query
        → tables_stage schema query.from files ≡ Ok rows → SourceNeeds source schema query (tables_in rows) }
    ensures files { (query : Query) (file : StatsFile) → NamesItsEntries query → KeepsRulesOfSome file → first_missing query file ≡ None
        → (tables : Tables) → StandsFor query file tables → IsSource query tables (sourced_of_file query file tables) }
{}

/// The program may run out of memory, but the definitions that specify it never give the error `NoMemory`. This holds for reading a schema, a query,
/// statistics and a table. It holds for a plan of any `ListSource` and shape, and for a plan from a statistics file. So each refusal of the verdict
/// is about the words, the files or the plan.
pub fn definitions_never_give_no_memory()
    ensures schemas { (text : List ℕ) → schema_answer text ≢ Err schema_error.NoMemory }
    ensures queries { (schema : Schema) (text : List ℕ) → query_answer schema text ≢ Err query_error.NoMemory }
    ensures tables { (table : Table) (bytes : List ℕ) → rows_of_file table bytes ≢ Err table_error.NoMemory }
    ensures plans { (shape : Shape) (given : BoundsAndLists) (accuracy budget : ℕ)
        → planned_by shape given accuracy budget ≢ Err plan_error.NoMemory }
    ensures statistics { (schema : Schema) (text : List ℕ) → stats_answer schema text ≢ Err stats_error.NoMemory }
    ensures filed_plans { (terms : PlanTerms) (query : Query) (file : StatsFile)
        → plan_from_file_asked terms query file ≢ Err plan_error.NoMemory }
{}
