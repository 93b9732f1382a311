//! The records of this crate are those of the crate `csv`.
ghost use Rattle.std.specs.Prelude.{◌≡◌, ℕ, List, false};
ghost use Rattle.csv.specs.Reading.{default_config, records};
ghost use Rattle.plain_records.specs.Plain.{has_quote, plain_records};

/// For bytes without a quotation mark, the records of this crate are those that the crate `csv` reads. The call does nothing.
pub fn plain_records_are_records()
    ensures { (bytes : List ℕ) → has_quote bytes ≡ false → records default_config bytes ≡ plain_records bytes }
{}
