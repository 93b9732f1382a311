//! Limits of texts, tables, queries and plans: constants for the code, and definitions for contracts.
//!
//! The code says `MOST_ROWS`, and a contract says `most_rows`, which `specs/Profile.antt` defines. A value of the type `Accuracy` is always within
//! its limits.
#![tactic(auto)]

ghost use Rattle.std.specs.Prelude.{◌≡◌};
ghost use Rattle.limits.specs.Profile as profile;

mod accuracy;

pub use accuracy::Accuracy;

/// How many bytes a schema text or a query text has at most.
pub const MOST_TEXT: u32 = 1_048_576;

/// How many bytes a table's file has at most.
pub const MOST_FILE: u32 = 67_108_864;

/// How many tables a schema has at most.
pub const MOST_TABLES: usize = 64;

/// How many columns a table has at most.
pub const MOST_COLUMNS: usize = 64;

/// The greatest number of characters that a column of texts may declare.
pub const MOST_LENGTH: u64 = 1_000_000;

/// How many rows a table has at most.
pub const MOST_ROWS: u32 = 4_000_000;

/// How many FROM entries a query has at most.
pub const MOST_ENTRIES: usize = 12;

/// How many entries a set has at most. Calls that bound sets or search for plans accept no more entries, even if a program allows more.
pub const GREATEST_ENTRIES: usize = 16;

/// In how many turns a set of entries is bounded at most.
pub const MOST_TURNS: usize = 16;

/// How many values an IN list has at most.
pub const MOST_VALUES: usize = 1000;

/// How many conjuncts a query has at most.
pub const MOST_CONJUNCTS: usize = 256;

/// How many outputs a query has at most.
pub const MOST_OUTPUTS: usize = 1024;

/// The least budget, in rows.
pub const LEAST_BUDGET: u64 = 1;

/// The greatest budget, in rows.
pub const MOST_BUDGET: u64 = 20_000_000;

/// The most rows that a table may have in any call of the library on lists, bounds or compression.
pub const GREATEST_ROWS: u64 = 1 << 48;

/// The greatest budget that any search of the library accepts, in rows.
pub const GREATEST_BUDGET: u64 = 1 << 59;

/// The greatest memory limit that a command may set for a plan's buffers, in bytes.
pub const MOST_MEMORY: u64 = 1 << 40;

/// The default budget, in rows.
pub const DEFAULT_BUDGET: u64 = 1_000_000;

/// The least accuracy of compressed lists.
pub const LEAST_ACCURACY: u8 = 1;

/// The greatest accuracy of compressed lists.
pub const MOST_ACCURACY: u8 = 64;

/// The default accuracy.
pub const DEFAULT_ACCURACY: u8 = 1;

/// The greatest 128-bit number. As a bound it means this number or more.
pub const TOP_BOUND: u128 = u128::MAX;

/// Proves that each constant equals the definition of the same name in specs/Profile. The call does nothing.
pub fn limits_are_named()
    ensures texts { MOST_TEXT ≡ profile.most_text }
    ensures files { MOST_FILE ≡ profile.most_file }
    ensures tables { (MOST_TABLES ≡ profile.most_tables) × (MOST_COLUMNS ≡ profile.most_columns) × (MOST_LENGTH ≡ profile.most_length) }
    ensures rows { MOST_ROWS ≡ profile.most_rows }
    ensures entries { (MOST_ENTRIES ≡ profile.most_entries) × (GREATEST_ENTRIES ≡ profile.greatest_entries) }
    ensures turns { MOST_TURNS ≡ profile.most_turns }
    ensures memory { MOST_MEMORY ≡ profile.most_memory }
    ensures queries { (MOST_VALUES ≡ profile.most_values) × (MOST_CONJUNCTS ≡ profile.most_conjuncts)
        × (MOST_OUTPUTS ≡ profile.most_outputs) }
    ensures budget { (LEAST_BUDGET ≡ profile.least_budget) × (MOST_BUDGET ≡ profile.most_budget) × (DEFAULT_BUDGET ≡ profile.default_budget) }
    ensures greatest { (GREATEST_ROWS ≡ profile.greatest_rows) × (GREATEST_BUDGET ≡ profile.greatest_budget) }
    ensures accuracy { (LEAST_ACCURACY ≡ profile.least_accuracy) × (MOST_ACCURACY ≡ profile.most_accuracy)
        × (DEFAULT_ACCURACY ≡ profile.default_accuracy) }
    ensures bound { TOP_BOUND ≡ profile.top_bound }
{}
