//! Waivers that are written beside fonts: each line of a glyph is waived, and the lines of the font itself are
//! reported.
//!
//! [`waivers_text`] writes the waivers of one font's report. By a [`WriteWaivers`],
//! [`check_all`](t1_many::check_all) reports the other lines in a form and keeps the waivers of each font; [`tell_too_many`] names the
//! fonts that have more than are read.
//!
//! What is promised:
//!
//! - A font's text has one line `NAME RULE` for each glyph and each reported rule that it breaks, in the order of their
//!   first lines.
//! - [`written_texts_are_read`]: t1check reads the text as exactly these waivers.
//! - [`written_waivers_leave_no_glyph_line`]: with them, by the same edition, no line of these rules is left in a
//!   glyph, and no waiver is unused.
//!
//! ```
//! check_all(alloc, names, WaiverFiles::LeftAside, &mut files, Edition::One, &mut waiving)?;
//! let too_many = tell_too_many(&mut errors, &waiving.kept)?;
//! for font in waiving.kept.fonts() { .. }
//! ```
#![tactic(auto)]

mod glyph_lines;
mod kept;
mod laws;
mod too_many;
mod waiving;
mod writing;

pub use glyph_lines::OutsideGlyphs;
pub use kept::{FontWaivers, Kept};
pub use laws::{written_texts_are_read, written_waivers_leave_no_glyph_line};
pub use too_many::tell_too_many;
pub use waiving::WriteWaivers;
pub use writing::waivers_text;
