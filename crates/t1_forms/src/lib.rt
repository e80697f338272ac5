//! What t1check and t1check-all report, in the forms that other programs read: lines of JSON, SARIF 2.1.0, the commands by which
//! a workflow of GitHub reports a fault, and JUnit's form.
//!
//! A [`Told`] is what is reported: a fault, a refusal, or why a font wasn't checked, with the font's name and the reason where
//! there is one. [`write_object`] writes it as an object in a line of its own, [`Sarif`] as a result in a document,
//! [`write_command`] as a command, [`JUnit`] in the case of its font. The object alone has a reason's numbers, as members of
//! their own. [`Text`] is a device that keeps in memory what is written.
//!
//! What is promised, for all bytes:
//!
//! - The line of JSON is the compact text of the object that is meant, and nothing else. What is reported differently has
//!   different objects.
//! - A command of GitHub is the text that its definition says. What it shows stays in its place, and is read back as it was.
//! - A document of SARIF is the text that its definition says: runs, each with the pages that it was given, a result for each
//!   line, and the fonts that weren't checked.
//! - A document of JUnit's form is the text that its definition says.
//!
//! Memory doesn't grow with what is written, but for fonts that weren't checked, of which a document of SARIF keeps at most a
//! thousand, and for the lines of one font in JUnit's form. This is shown by tests alone.
//!
//! ```
//! let told = Told {
//!     font: Some(b"a.pfb".as_slice()),
//!     what: What::Line(Line::Refusal(RefusalCode::E04)),
//!     line: b"refused: E04 no eexec".as_slice(),
//!     reason: None,
//! };
//! write_object(alloc, &mut out, &told)?;
//! ```
#![tactic(auto)]

mod characters;
mod commands;
mod error;
mod junit;
mod laws;
mod members;
mod names;
mod objects;
mod page;
mod reason;
mod sarif;
mod sarif_laws;
mod sarif_objects;
mod text;
mod told;
mod version;
mod xml;

pub use characters::{Characters, push_characters};
pub use commands::{write_command, write_rule_command};
pub use error::FormatError;
pub use junit::JUnit;
pub use laws::{
    commands_are_read_back, different_tellings_have_different_objects, shown_names_are_words,
};
pub use names::{push_escaped, shown};
pub use objects::{object, write_font, write_object};
pub use page::{Page, Pages};
pub use reason::{OwnReason, ToldReason, as_told};
pub use sarif::{RESULT_COUNTS, Sarif};
pub use sarif_laws::{
    all_is_told_in_documents, documents_are_of_their_runs, fingerprints_stay, results_are_read_back,
};
pub use text::Text;
pub use told::{Told, What};
pub use version::VERSION;
pub use xml::{legible, push_xml};
