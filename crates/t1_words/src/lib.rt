//! Words of a font's program, as an interpreter of PostScript takes them: Type 1 Font Format 1.1, chapter 2.
#![tactic(auto)]

mod headers;
mod laws;
mod numbers;
mod pairs;
mod readers;
#[cfg(test)]
mod tests;
mod words;

pub use headers::{begins_as_type1, has_high_byte};
pub use laws::{numbers_are_numbers, pairs_are_nested, words_are_tokens};
pub use numbers::is_number;
pub use pairs::{is_paired, is_unpaired};
pub use readers::reads_charstrings;
pub use words::{is_known, wants_definition};
