//! Laws above the definitions: each is the contract of a function that does nothing.

ghost use Rattle.t1_waiving.specs.Laws.{NoGlyphLineIsLeft, NoWaiverIsUnused, WrittenTextsAreRead};

/// With the waivers that are written beside a font, by the same edition, no line of the reported rules is left in a
/// glyph. No waiver is unused, if no two glyphs have one name, as in each font that is read.
pub fn written_waivers_leave_no_glyph_line()
    ensures lines { NoGlyphLineIsLeft }
    ensures waivers { NoWaiverIsUnused }
{}

/// The text of waivers that is written of a font's report is read as exactly these. This needs regular names of its
/// glyphs, as each font that is read has.
pub fn written_texts_are_read()
    ensures { WrittenTextsAreRead }
{}
