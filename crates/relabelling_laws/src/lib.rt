//! Laws about numbers that stand for a column's values: what stays the same if these numbers are replaced by others. The lists of a filter
//! column and a joined column depend only on which numbers are equal, and on how the filter column's numbers compare.
//!
//! In: two columns, and one-to-one functions that replace their numbers. Out: laws; no code runs. So a value may be represented by its cell,
//! by the first row that has it, or by any key that differs for different values. The lists are the same.
//!
//! - Degrees and leaves don't change. Frequent values and cuts are the new numbers of the old frequent values and cuts.
//! - No list changes: neither the list of all rows, nor the lists of a value that a row has, of a value that no row has, of a node and of a range.
//! - A list that dominates keys dominates all keys that are equal for the same pairs of rows.
//!
//! The laws use `IsOneToOne`, `KeepsOrder`, `PassAlike`, `MatchAlike` and `AreEqualAlike` (in `specs/Relabelling.antt`).
//!
//! ```text
//! laws::lists_do_not_change();
//! // its clause `value`, where f and g are one to one on the two columns, and a row has the value v:
//! // list_of_value k (zip (map f column) (map g joined)) (Some (f v)) ≡ list_of_value k (zip column joined) (Some v)
//! ```
#![tactic(auto)]

pub mod laws;
