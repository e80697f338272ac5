//! What is reported of fonts.

use crate::reason::ToldReason;
use t1_lines::Line;

/// What is reported, with its line.
#[derive(Drop)]
pub struct Told<'a> {
    /// The font's name; none where what is reported is of no font.
    pub font: Option<&'a [u8]>,
    /// What t1check reports of the font.
    pub what: What<'a>,
    /// The line of t1check, without the font's name and without its end.
    pub line: &'a [u8],
    /// Why the place is broken, where that is reported too.
    pub reason: Option<ToldReason<'a>>,
}

/// What t1check reports of a font.
#[derive(Debug, PartialEq, Eq, Drop)]
pub enum What<'a> {
    /// A fault, a waiver that isn't used, or a refusal.
    Line(Line<'a>),
    /// Why the font wasn't checked.
    Unchecked(&'a [u8]),
}
