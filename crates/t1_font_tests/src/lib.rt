//! Tests of the libraries from the devices up to the font and its charstrings, by their public items alone: one module a
//! library.
//!
//! These tests show what proofs don't: that calls succeed, and what texts say. They also show that the definitions
//! say what the standard and this program's own reading of it mean. Expected values are worked out by hand, or come
//! from another program.
//!
//! | module | tests of |
//! |---|---|
//! | `io` | t1_io |
//! | `seal` | t1_seal |
//! | `samples` | t1_samples |
//! | `scan` | t1_scan |
//! | `font` | t1_font |
//! | `charstrings` | t1_char |
//!
//! They are above the libraries since a crate with tests is proved twice, with them and without.
#![tactic(auto)]

#[cfg(test)]
mod charstrings;
#[cfg(test)]
mod font;
#[cfg(test)]
mod io;
#[cfg(test)]
mod samples;
#[cfg(test)]
mod scan;
#[cfg(test)]
mod seal;
