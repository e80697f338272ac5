//! What pictures are drawn of.

use t1_font::Font;
use t1_report::Waivers;
use t1_rules::Sidebearings;

/// A font, with what it takes to draw its glyphs and to find their faults.
#[derive(Clone, Copy)]
pub(crate) struct Sheet<'a> {
    /// The font.
    pub(crate) font: &'a Font<'a>,
    /// Its components of accented characters, by the edition that counts.
    pub(crate) sidebearings: &'a Sidebearings,
    /// What isn't reported as a fault.
    pub(crate) waivers: &'a Waivers<'a>,
}
