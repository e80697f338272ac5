//! What the lines say that t1check writes: a fault, a waiver that isn't used, a refusal; and how they are spelled.
//!
//! A [`Line`] says it. A fault has its number in the report, its rule and its place: a key of the font and an index; a glyph's
//! name, the Subrs that are being executed and the step; or a waiver. A refusal has its code. [`fault_line`] says it of a fault.
//! [`cut`] cuts a text in two at a byte.
//!
//! What is promised:
//!
//! - What `t1_report::write_fault` writes of a fault is spelled as the line of its number, place and rule.
//! - A text is that of one fault: its number, its place and its rule.
//! - Glyphs and waivers that were read have names without blanks and delimiters.
//! - Each refusal has one reason, and each reason but running out of memory one refusal.
//!
//! ```
//! match t1_lines::cut(b' ', b"A P01") {
//!     Some((name, code)) => println!(rt; "{:?} {:?}", name, code)?,
//!     None => println!(rt; "no blank")?,
//! }
//! ```
#![tactic(auto)]

mod faults;
mod laws;
mod line;
mod words;

pub use faults::{fault_line, place_of};
pub use laws::{
    a_line_tells_one_fault, each_refusal_has_a_code, faults_are_small, faults_are_written_as_lines,
    fonts_have_names, waivers_have_names,
};
pub use line::{FaultLine, Line, Place};
pub use words::cut;
