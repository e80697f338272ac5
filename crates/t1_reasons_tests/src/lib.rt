//! Tests of reasons: why a rule is broken, of t1_reasons and t1_reason_texts, and why a font is refused, of t1_font;
//! by their public items alone.
//!
//! A row of a table has a made font, a place, a rule and the reason that is wanted there. Numbers are at the edge: where a row
//! has a reason, the next one is mostly the same without it. Expected values are worked out by hand.
//!
//! | module | tests of |
//! |---|---|
//! | `steps` | reasons at the steps of a glyph, by both editions, in any order |
//! | `drawing` | reasons of the rules on the drawing, which the fourth edition adds |
//! | `entries` | reasons at the entries of a font |
//! | `third_edition` | reasons of the rules that the third edition adds |
//! | `text_rules` | reasons of the rules on a font's texts, which the fourth edition adds, and their texts |
//! | `places` | what these share |
//! | `texts` | the texts of reasons |
//! | `refusals` | the texts of refusals, and of errors of t1_seal and t1_font, which derive them |
#![tactic(auto)]

#[cfg(test)]
mod drawing;
#[cfg(test)]
mod entries;
#[cfg(test)]
mod places;
#[cfg(test)]
mod refusals;
#[cfg(test)]
mod steps;
#[cfg(test)]
mod text_rules;
#[cfg(test)]
mod texts;
#[cfg(test)]
mod third_edition;
