//! The text of each reason: one line in the font's units and plain words.
//!
//! [`ReasonText`] writes it by `Display`. It is a function of the font, the rule and the reason alone: `reason_text` in
//! `specs/Texts.antt`. [`says_more`] is false of the reasons that have none.
//!
//! ```
//! let text = ReasonText {
//!     font: &font,
//!     rule: Rule::H03,
//!     reason: Reason::Stem { stem },
//! };
//! println!(rt; "   {text}")?; // at -15
//! ```
//!
//! Numbers are exact decimals, nothing is rounded or cut ([`numbers_are_written_exactly`]): [`coordinate`] and [`value`] give a
//! number its unit, and `Display` writes it with as many decimal places as it has.
//!
//! ```
//! println!(rt; "{} {}", coordinate(-98304), value(39_625_000))?; // -1.5 0.039625
//! ```
#![tactic(auto)]

mod decimals;
mod drawing_texts;
mod fields;
mod font_texts;
mod laws;
mod names;
mod seac_texts;
mod step_texts;
mod text;
mod word_texts;
mod words;
mod zone_texts;

pub use decimals::{Coordinates, Exact, Unit, coordinate, value};
pub use drawing_texts::axis_word;
pub use fields::{Field, Fields, Named, fields_of};
pub use font_texts::encoded_name;
pub use laws::{numbers_are_written_exactly, reason_texts_are_one_line};
pub use names::hexadecimal_digit;
pub use step_texts::TokenText;
pub use text::{ReasonText, ShortText, says_more, short_text, shown_text};
pub use word_texts::{first_bytes, first_line, word_at};
