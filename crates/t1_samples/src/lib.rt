//! Type 1 fonts for tests, built as bytes: Adobe Type 1 Font Format 1.1, chapters 2, 5 and 7, and Adobe
//! Technical Note 5040. Only tests call it; the program doesn't.
//!
//! - [`Sample`] writes the clear text and the private text of a small font with the one glyph `.notdef`,
//!   and with what a test adds: keys, an Encoding, Subrs, glyphs.
//! - [`FontFile`] puts two texts into a file, PFB or PFA, the private text encrypted.
//! - [`assembled`] makes a charstring of words, as a trace writes them; [`eexec`] and [`charstring`] encrypt.
//! - [`opened`] and [`font_of`] read a font back; [`long_glyph`] has one of many steps.
//! - [`add_fault`] lists the rules that a font breaks, as the tables of all tests do.
//! - [`Fuse`] is a device that fails at a chosen place or moves a few bytes a call, by its [`Limit`].
//!
//! What is promised: what is encrypted is what the standard's formula says, and deciphering it yields the bytes
//! again. Each call returns, and fails only when out of memory. `opened` and `font_of` also fail where t1_font
//! refuses the bytes, `assembled` at a word that is neither.
//!
//! ```
//! let file = Sample::new(alloc)?
//!     .key(b"/BlueValues [0 25] def")?
//!     .subr(5, b"\x0b")?
//!     .glyph(b"A", b"\x8b\xf8\x88\x0d\x0e")?
//!     .pfb()?;
//! ```
#![tactic(auto)]

mod assembly;
mod cipher;
mod faults;
mod file;
mod fuse;
mod limit;
mod long;
mod reading;
mod sample;

pub use assembly::assembled;
pub use cipher::{charstring, eexec};
pub use faults::add_fault;
pub use file::{END_SEGMENT, FontFile, TRAILER};
pub use fuse::Fuse;
pub use limit::Limit;
pub use long::{add_times, long_glyph};
pub use reading::{boxed, font_of, opened};
pub use sample::{CLEAR, Charstrings, NOTDEF, Sample};
