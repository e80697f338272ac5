//! Tests of rules and reports: of t1_report, and of t1_rules on fonts and on charstrings.
//!
//! Here is what proofs don't show: that calls succeed, that the definitions say what the standard and this program's own
//! reading of it mean, and what texts say. Expected values are worked out by hand.
//!
//! A row of a table has a font in words and the faults of its report, in short. `A 12 K06, A 5>6 14 P01` is rule K06 at
//! step 12 of glyph A, and P01 at step 14. That step is in Subr 6, which Subr 5 called. `BlueValues 1 Z07` is Z07
//! at index 1 of that key. A font that breaks no rule has the empty text. `reports` takes this from the report's
//! own lines, whose numbers and texts it compares. Whole lines are where a test is about lines, or about their
//! numbers. Rows are texts that one function reads, so that a row costs next to no proof.
//!
//! | module | tests of |
//! |---|---|
//! | `rules` | the rule book, and rules on fonts |
//! | `arguments`, `calls`, `paths`, `stems`, `replacements` | rules on tokens, calls, paths and hints |
//! | `flex`, `flex_ends`, `current_point`, `othersubrs` | rules on flex and OtherSubrs |
//! | `seac`, `sidebearings`, `components` | rules on accented characters |
//! | `editions`, `third_edition`, `fourth_edition`, `limit` | the editions of the rule book, what the third and the fourth add, and the limit of steps |
//! | `drawing`, `outlines`, `segments`, `touched_stems`, `glyph_ends` | the fourth edition's rules on what is drawn |
//! | `order`, `lines` | order and lines of faults |
//! | `machines`, `marks`, `units`, `waivers` | machines; faults one at a time, from any mark on, of one unit, and with waivers |
//! | `hostile` | fonts that are made to take long |
//!
//! `fonts`, `answers`, `reports` and `walks` are what they share. They are above the libraries since a crate with tests is
//! proved twice, with them and without.
#![tactic(auto)]

#[cfg(test)]
mod answers;
#[cfg(test)]
mod arguments;
#[cfg(test)]
mod calls;
#[cfg(test)]
mod components;
#[cfg(test)]
mod current_point;
#[cfg(test)]
mod drawing;
#[cfg(test)]
mod editions;
#[cfg(test)]
mod flex;
#[cfg(test)]
mod flex_ends;
#[cfg(test)]
mod fonts;
#[cfg(test)]
mod fourth_edition;
#[cfg(test)]
mod glyph_ends;
#[cfg(test)]
mod hostile;
#[cfg(test)]
mod limit;
#[cfg(test)]
mod lines;
#[cfg(test)]
mod machines;
#[cfg(test)]
mod marks;
#[cfg(test)]
mod order;
#[cfg(test)]
mod othersubrs;
#[cfg(test)]
mod outlines;
#[cfg(test)]
mod paths;
#[cfg(test)]
mod replacements;
#[cfg(test)]
mod reports;
#[cfg(test)]
mod rules;
#[cfg(test)]
mod seac;
#[cfg(test)]
mod segments;
#[cfg(test)]
mod sidebearings;
#[cfg(test)]
mod stems;
#[cfg(test)]
mod third_edition;
#[cfg(test)]
mod touched_stems;
#[cfg(test)]
mod units;
#[cfg(test)]
mod waivers;
#[cfg(test)]
mod walks;
