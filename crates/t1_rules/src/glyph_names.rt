//! Glyphs by their names: Type 1 Font Format 1.1, chapter 2 (CharStrings).

ghost use Rattle.std.specs.Prelude.{◌≡◌, ◌<◌, IfSome, length};
ghost use Rattle.t1_rules.specs.Components.{glyph_named};

use t1_font::Font;

/// The place of the glyph of a name in the font's CharStrings.
pub fn glyph_named(font: &Font<'_>, name: &[u8]) -> Option<usize>
    ensures place { result ≡ glyph_named font.now name.now }
    ensures within { IfSome result (λ glyph. glyph < length font.now.glyphs) }
{
    font.glyphs().get_index_of(&name)
}
