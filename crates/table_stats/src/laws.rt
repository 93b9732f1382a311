//! Laws of the statistics of tables. No law computes anything: its contract is the theorem.
ghost use Rattle.std.specs.Prelude.{◌≡◌, ℕ, List, Option, length};
ghost use Rattle.std.specs.List.{zip};
ghost use Rattle.berge_tree.specs.declared.edges.Edge.{Edge};
ghost use Rattle.csv_tables.specs.Values.{Value};
ghost use Rattle.csv_tables.specs.declared.types.Database.{Database};
ghost use Rattle.query_types.specs.declared.types.ColumnRef.{ColumnRef};
ghost use Rattle.cond_stats.specs.Columns.{list_between as list_of_cells_between};
ghost use Rattle.cond_stats.specs.Lists.{compressed_degrees, list_of_value};
ghost use Rattle.filtered_lists.specs.Standing.{CountsStandFor, ListsDescend, ListsStandFor, SumTo};
ghost use Rattle.level_bounds.specs.Keys.{AreKeys, HaveDifferentCharacters, Keys};
ghost use Rattle.sql_meaning.specs.Databases.{AreTables, IsColumnOf};
ghost use Rattle.sql_meaning.specs.Tables.{Tables, row_counts, tables_of};
ghost use Rattle.table_stats.specs.Cells.{IsCellFor, cells_of_column, kind_of_column};
ghost use Rattle.table_stats.specs.Columns.{column_values};
ghost use Rattle.table_stats.specs.Keys.{SeparatesListed, SeparatesValues};
ghost use Rattle.table_stats.specs.Statistics.{column_lists, entry_counts, lists_over};

/// The lists and the numbers of rows stand for the tables. This is so for any keys that tell which values of the joined column are equal.
pub fn statistics_stand_for_tables()
    ensures lists { (tables : Tables) (accuracy entry column : ℕ) (key : ℕ → ℕ) → SeparatesValues tables entry column key
        → ListsStandFor (column_lists tables accuracy entry column) tables entry key }
    ensures counts { (tables : Tables) (entry : ℕ) → CountsStandFor (entry_counts tables entry) tables entry }
    // the joined values needn't be a column of the table: any list with one value for each row of the table is possible
    ensures any_joined_list { (tables : Tables) (accuracy entry : ℕ) (joined_values : List Value) (key : ℕ → ℕ)
        → length joined_values ≡ row_counts tables entry → SeparatesListed joined_values key
        → ListsStandFor (lists_over accuracy (column_values tables entry) joined_values) tables entry key }
{}

/// Each list is in descending order, and sums to the number of rows for the same condition. So all joined columns have the same sums.
pub fn lists_sum_to_counts()
    ensures sums { (tables : Tables) (accuracy entry column : ℕ)
        → SumTo (column_lists tables accuracy entry column) (entry_counts tables entry) }
    ensures descends { (tables : Tables) (accuracy entry column : ℕ) → ListsDescend (column_lists tables accuracy entry column) }
    ensures sums_beside { (tables : Tables) (accuracy entry : ℕ) (joined_values : List Value) → length joined_values ≡ row_counts tables entry
        → SumTo (lists_over accuracy (column_values tables entry) joined_values) (entry_counts tables entry) }
    ensures falls_beside { (tables : Tables) (accuracy entry : ℕ) (joined_values : List Value)
        → ListsDescend (lists_over accuracy (column_values tables entry) joined_values) }
{}

/// Keys exist: there is a number for each row of each table in each column. Two keys are equal exactly if the values are.
pub fn tables_have_keys()
    ensures { (tables : Tables) → (key : Keys) × ((entry column : ℕ) → SeparatesValues tables entry column (key entry column))
        × ((es : List Edge) → AreKeys tables key es) }
{}

/// Columns of cells have the same lists as the values for which the cells stand. This needs that no two texts of the pool have the same characters.
pub fn cells_have_the_same_lists()
    ensures whole { (db : Database) (joined : ColumnRef) (accuracy : ℕ)
        → AreTables db → HaveDifferentCharacters db.pool → IsColumnOf db joined
        → compressed_degrees accuracy (cells_of_column db joined)
        ≡ (column_lists (tables_of db) accuracy joined.from joined.column).whole }
    ensures equal { (db : Database) (filter joined : ColumnRef) (accuracy : ℕ) (value : Value) (cell : Option ℕ)
        → AreTables db → HaveDifferentCharacters db.pool → IsColumnOf db filter → IsColumnOf db joined → filter.from ≡ joined.from
        → IsCellFor db.pool (kind_of_column db filter) value cell
        → list_of_value accuracy (zip (cells_of_column db filter) (cells_of_column db joined)) cell
        ≡ (column_lists (tables_of db) accuracy joined.from joined.column).equal filter.column value }
    ensures range { (db : Database) (filter joined : ColumnRef) (accuracy : ℕ) (low high : Option Value)
        → AreTables db → HaveDifferentCharacters db.pool → IsColumnOf db filter → IsColumnOf db joined → filter.from ≡ joined.from
        → list_of_cells_between db.pool (kind_of_column db filter) accuracy
        (zip (cells_of_column db filter) (cells_of_column db joined)) low high
        ≡ (column_lists (tables_of db) accuracy joined.from joined.column).range
        (record { column = filter.column; low = low; high = high }) }
{}
