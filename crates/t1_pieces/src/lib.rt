//! A font's report and pictures for a host that isn't Rattle: from bytes to bytes, a report piece by piece.
//!
//! [`lines`] hands over as many whole lines as a room holds, as text or as objects of JSON, and goes on from a
//! [`Mark`](t1_report::Mark) at the next call. [`document`] hands over a document of SARIF in the same way, from a place
//! ([`Reached`]) on, [`picture`] the picture of a glyph, and [`entry_numbers`] the numbers of an entry that is a list.
//! What is made of the bytes of a font and of waivers is what t1check makes of them, by the same definitions.
//!
//! What is promised, for all bytes:
//!
//! - For rooms that hold each line of the report, the pieces joined are the report ([`pieces_are_the_report`]). For those
//!   that hold each part of a document, they are the document ([`pieces_are_the_document`]).
//! - A room that doesn't hold the next line or part leaves the mark, or the place, as it was. The size of what comes next is
//!   returned.
//! - Of the same bytes t1check, asked for a whole report with waivers, writes the same lines, or refuses the font or the waivers
//!   by the same code and text ([`t1check_writes_the_same`]).
//! - A picture is the one that t1draw makes, of a whole glyph, up to a step, or of a fault by its number in the report.
//! - Memory doesn't grow with the number of lines.
#![tactic(auto)]

mod document_writer;
mod documents;
mod drawing;
mod entries;
mod filling;
mod filling_documents;
mod form;
mod laws;
mod piece;
mod reading;
mod request;
mod room;
mod stage;
mod writer;

pub use documents::{DocumentRequest, document};
pub use drawing::picture;
pub use entries::entry_numbers;
pub use form::Form;
pub use laws::{pieces_are_the_document, pieces_are_the_report, t1check_writes_the_same};
pub use piece::{Missing, Piece};
pub use reading::lines;
pub use request::Request;
pub use stage::{Reached, Stage};
