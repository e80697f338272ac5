//! Why a waiver isn't used.

ghost use Rattle.std.specs.Prelude.{◌≡◌};
ghost use Rattle.t1_reasons.specs.UnusedWaivers.{unused_reason};

use t1_font::Font;
use t1_rules::glyph_named;

/// Why a waiver isn't used: U01.
#[derive(Clone, Copy, Debug, PartialEq, Eq)]
pub enum Unused {
    /// No glyph has the waiver's name.
    NoGlyph,
    /// The glyph of this number has that name, and breaks the waiver's rule at no step.
    Unbroken { glyph: usize },
}

/// Returns why a waiver of the glyph of a name isn't used, where it isn't.
pub fn unused_reason(font: &Font<'_>, name: &[u8]) -> Unused
    ensures { result ≡ unused_reason font.now name.now }
{
    match glyph_named(font, name) {
        Some(glyph) => Unused::Unbroken { glyph },
        None => Unused::NoGlyph,
    }
}
