//! The summary of a run over many fonts: how many fonts were found clean, faulty and so on, and how many lines were
//! reported of each rule.
//!
//! A [`Tally`] counts, and [`summary`] writes the numbers.
//!
//! What is promised, for all tallies:
//!
//! - A tally has the numbers of the fonts and lines that were added. A number stays at 2^64 - 1 once it is there.
//! - A summary has the rules with the most lines first, and those with equally many in the order of their codes.
//! - A text is written whole, or the device failed and a prefix of the text went out.
//!
//! Nothing here takes memory.
//!
//! ```
//! let mut tally = Tally::new();
//! tally.add(FontClass::Clean);
//! tally.add(FontClass::Faulty);
//! tally.add_line(Rule::F01);
//! // 2 fonts: 1 clean, 1 with faults, 0 refused, 0 not checked
//! //       1 F01 no end segment (should)
//! summary(&tally, None, false, &mut sink)?;
//! ```
#![tactic(auto)]

mod found;
mod laws;
mod lines;
mod ranking;
mod tally;

pub use found::FontClass;
pub use laws::{counts_add_up, rules_have_one_ranking, tallies_count};
pub use lines::summary;
pub use tally::Tally;
