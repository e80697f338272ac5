//! What an interpreter of PostScript meets in the texts of a font: brackets without a partner, words that nothing defines, readers of
//! charstrings that are none. Type 1 Font Format 1.1, chapter 2.
#![tactic(auto)]

mod earlier;
mod faults;
mod given;
mod private_dictionary;
mod reader;

pub use faults::{Placed, RowFaults, row_faults};
pub use private_dictionary::has_private_dictionary;
