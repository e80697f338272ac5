//! Tests of what t1check returns and prints, by public items of t1_answer and t1_run alone.
//!
//! These tests show what proofs don't: that calls succeed, that the definitions say what the specification of the
//! program means, and what texts say. Expected values are worked out by hand.
//!
//! They are above the library since a crate with tests is proved twice, with them and without.
#![tactic(auto)]

#[cfg(test)]
mod command_line;
#[cfg(test)]
mod cut_files;
#[cfg(test)]
mod devices;
#[cfg(test)]
mod explaining;
#[cfg(test)]
mod files;
#[cfg(test)]
mod passing_failures;
#[cfg(test)]
mod refusals;
#[cfg(test)]
mod runs;
#[cfg(test)]
mod scale;
#[cfg(test)]
mod shared;
#[cfg(test)]
mod waivers;
