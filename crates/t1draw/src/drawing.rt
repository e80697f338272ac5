//! Pictures of a sheet's glyphs.

ghost use Rattle.std.specs.Prelude.{◌<◌, IfOk, IfSome, length, string_bytes};
ghost use Rattle.t1_picture.specs.Extents.{CanBeShown};
ghost use Rattle.t1_picture.specs.Pictures.{IsPictureOf};
ghost use Rattle.t1_picture.specs.Subjects.{fault_in, shown_value};
ghost use Rattle.t1draw.specs.Draws.{subject};
ghost use Rattle.t1draw.specs.Private.Sheets.{IsSound, edition_of, font_of, waivers_of};

use crate::sheet::Sheet;
use std::alloc::{AllocError, Global};
use t1_picture::{Shown, View, picture};

/// The picture of a glyph, by its place, of which so much is shown.
pub(crate) fn drawn(
    alloc: Global,
    sheet: &Sheet<'_>,
    glyph: usize,
    shown: Shown,
) -> Result<String, AllocError>
    requires sound { IsSound sheet.now }
    requires glyph { glyph < length sheet.now.font.now.glyphs }
    requires fault { IfSome (fault_in (shown_value shown)) (CanBeShown (font_of sheet.now) (waivers_of sheet.now) glyph) }
    ensures { IfOk result (λ text. IsPictureOf
        (subject (font_of sheet.now) (edition_of sheet.now) (waivers_of sheet.now) glyph (shown_value shown)) (string_bytes text)) }
{
    let view = View {
        font: sheet.font,
        sidebearings: sheet.sidebearings,
        waivers: sheet.waivers,
        glyph,
        shown,
    };
    picture(alloc, &view)
}
