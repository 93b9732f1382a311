//! Reads single words of a statistics file: whether the grammar allows a word, and which value it spells.
//!
//! In: a word, without the blanks before and after it. Out: whether the word is a word of the grammar, or the value that it spells.
//!
//! Contracts use `Spells` (in `specs/Words.antt`) and the words in stats_file's `specs/Grammar.antt`.
//!
//! ```text
//! let rows = number(word, u64::from(MOST_ROWS));
//! ```
#![tactic(auto)]

mod hex;
mod lists;
mod numbers;
mod splits;
mod values;

pub use hex::{hex_bytes, is_hex_of, is_hex_word};
pub use lists::{is_list_word, list};
pub use numbers::{is_numeral, is_signed_numeral, number, signed_number};
pub use splits::split_at_byte;
pub use values::{datum, is_value_word};
