//! Tests of what a host is handed over, by public items of t1_pieces alone: that calls succeed, and what texts say. Expected values are
//! worked out by hand.
//!
//! They are above the library since a crate with tests is proved twice, with them and without.
#![tactic(auto)]

#[cfg(test)]
mod documents;
#[cfg(test)]
mod entries;
#[cfg(test)]
mod lines;
#[cfg(test)]
mod pictures;
