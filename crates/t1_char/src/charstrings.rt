//! The charstrings of a font: Type 1 Font Format 1.1, chapters 2, 7 and 8.

ghost use Rattle.std.specs.Prelude.{◌≡◌};
ghost use Rattle.t1_char.specs.Charstrings.{code_at, tokens_in};
ghost use Rattle.t1_char.specs.Private.Cursors.{tokens_left};

use crate::cursor::Cursor;
use t1_font::Font;

/// The charstring of a glyph, by its place.
pub(crate) fn code_at<'a>(font: &'a Font<'a>, glyph: usize) -> &'a [u8]
    ensures { result.now ≡ code_at font.now glyph }
{
    match font.glyphs().get_index(glyph) {
        Some((_, code)) => *code,
        None => &[],
    }
}

/// A cursor at the start of one of the font's charstrings, after its random bytes.
pub(crate) fn cursor_at<'a>(font: &'a Font<'a>, code: &'a [u8]) -> Cursor<'a>
    ensures { tokens_left result ≡ tokens_in font.now code.entry.now }
{
    Cursor::start(code, font.len_iv())
}
