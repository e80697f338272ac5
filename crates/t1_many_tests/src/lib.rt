//! Tests of checks of many fonts, by public items of t1_many, t1_known, t1_waiving and t1_answer_all alone: which files are
//! opened, how far they are read, and what a run returns. tests/tools has what is written of fonts, in each form. Expected
//! values are worked out by hand.
//!
//! [`files`] has the files that a test's fonts are in, and [`fonts`] the fonts.
#![tactic(auto)]

#[cfg(test)]
mod answers;
#[cfg(test)]
mod files;
#[cfg(test)]
mod fonts;
#[cfg(test)]
mod known_reading;
#[cfg(test)]
mod opening;
#[cfg(test)]
mod reads;
#[cfg(test)]
mod rows;
