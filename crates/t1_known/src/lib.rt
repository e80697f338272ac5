//! A file of known faults: how often faults of a kind are known of a font.
//!
//! [`KnownFaults::read`] reads its rows, as `3 H02 glyph A fonts/a.pfb`, and [`KnownFaults::count_of`] says how often
//! faults of a kind are known of a font. Of the fonts whose reports were made, each a [`Reading`](t1_many::Reading), [`write_mismatches`]
//! writes which rows what was found differs from, and [`write_updated`] writes a new file, whose rows [`count_rows`] counts.
//!
//! Promised:
//!
//! - What is read is each row of the text in its order, or the first line at fault, and nothing else
//!   ([`a_text_is_read_one_way`]).
//! - Rows that were written are read back ([`rows_are_read_back`]).
//! - So are those of an update: no line of a font that was read goes beyond them, and no row differs
//!   ([`updates_are_read_back`]).
//! - What is written depends only on the rows, the readings and the rules that are reported. Memory runs out before the
//!   first byte or not at all.
#![tactic(auto)]

mod digits;
mod known;
mod laws;
mod lines;
mod lookups;
mod mismatches;
mod readings;
mod updating;

pub use known::{KnownFaults, Line, NotKnown};
pub use laws::{
    a_text_is_read_one_way, lines_are_readable, reports_are_readable, rows_are_read_back,
    updates_are_read_back,
};
pub use lines::count_rows;
pub use mismatches::write_mismatches;
pub use updating::write_updated;
