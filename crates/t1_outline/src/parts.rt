//! Which glyphs a picture is made of, and where they are: Type 1 Font Format 1.1, chapter 6 (seac).

ghost use Rattle.std.specs.Prelude.{◌≡◌};
ghost use Rattle.t1_outline.specs.Parts.{IsIn, seac_part_at, seac_part_named};

use t1_font::Font;
use t1_rules::{Point, glyph_named, standard_name};

/// Where a glyph's own origin is.
pub const ORIGIN: Point = Point { x: 0, y: 0 };

/// A part of a picture.
#[derive(Clone, Copy, Debug, PartialEq, Eq)]
pub struct Part {
    /// The place of the glyph that is drawn, by its own steps.
    pub glyph: usize,
    /// Where its origin is.
    pub origin: Point,
}

/// A component of a seac.
#[derive(Clone, Copy, Debug, PartialEq, Eq)]
pub enum SeacPart {
    /// A glyph of the font.
    There(Part),
    /// K01: its code isn't a whole number from 0 to 255.
    NoCode,
    /// K02: StandardEncoding has no name for its code.
    NoName(u8),
    /// K03: no glyph has the name of its code.
    NoGlyph(u8),
}

/// The components of a seac.
#[derive(Clone, Copy, Debug, PartialEq, Eq)]
pub struct SeacParts {
    pub base: SeacPart,
    pub accent: SeacPart,
}

/// What a code names, with its origin at a point.
pub(crate) fn seac_part_at(font: &Font<'_>, code: Option<u8>, origin: Point) -> SeacPart
    ensures value { result ≡ seac_part_at font.now code origin }
    ensures within { IsIn font.now result }
{
    match code {
        Some(code) => seac_part_named(font, code, standard_name(code), origin),
        None => SeacPart::NoCode,
    }
}

/// What a name names, by its code; nothing without letters.
fn seac_part_named(font: &Font<'_>, code: u8, name: &str, origin: Point) -> SeacPart
    ensures value { result ≡ seac_part_named font.now code origin name.now }
    ensures within { IsIn font.now result }
{
    if name.is_empty() {
        return SeacPart::NoName(code);
    }
    match glyph_named(font, name.as_bytes()) {
        Some(glyph) => SeacPart::There(Part { glyph, origin }),
        None => SeacPart::NoGlyph(code),
    }
}
