//! Laws of the refusals, on calls that do nothing. Some say which refusals each part of a file can have.
//! Others are of private texts in the usual form that break off or hold one wrong thing.

ghost use Rattle.t1_font.specs.Laws.BrokenTexts.{EndsTooSoon, GlyphCutOff, GlyphTooLong, SmallTextsBreak, SubrCutOff, SubrNumberFirst, SubrTooLong, UnclosedToken};
ghost use Rattle.t1_font.specs.Laws.Parts.{NeverForMemory, RefusedByPart};
ghost use Rattle.t1_font.specs.Laws.Refusals.{ClearReadRefusals, ClearRefusals, FontAfterRefusals, FontReadRefusals, PrivateRefusals};

/// A file is refused for its segments by E01, E02 or E03; for its clear text by E04, E07 or E13; for its
/// encrypted section by E06; for its private text by E07 to E12. So no bytes are refused as out of memory.
#[tactic(auto, using(crate::proofs::PartsRefused::refused_by_part, crate::proofs::PartsRefused::never_for_memory))]
pub fn each_part_has_its_refusals()
    ensures parts { RefusedByPart }
    ensures memory { NeverForMemory }
{}

/// Whatever its bytes, a clear text is refused for nothing but E04, E07 or E13, and a private text for
/// nothing but E07 to E12. So running out of memory is no refusal of a text.
pub fn refusals_of_texts()
    ensures clear { ClearRefusals }
    ensures clear_read { ClearReadRefusals }
    ensures private { PrivateRefusals }
    ensures font_read { FontReadRefusals }
    ensures font_after { FontAfterRefusals }
{}

/// Where the text ends: E10 after `/lenIV`; E08 in the head of the Subrs and after the number of one; and
/// E09 elsewhere. A charstring that is cut off is E08 for a Subr and E09 for a glyph.
pub fn early_ends()
    ensures tokens { EndsTooSoon }
    ensures subrs { SubrCutOff }
    ensures glyphs { GlyphCutOff }
{}

/// Wherever a token is due, one that isn't closed is E07.
pub fn unclosed_tokens()
    ensures { UnclosedToken }
{}

/// A charstring's count past 65,535 is E11, of a glyph, and of a Subr whose number is good; a Subr's number
/// that isn't whole from 0 is E08, whatever its count.
pub fn long_charstrings()
    ensures subrs { SubrTooLong }
    ensures glyphs { GlyphTooLong }
    ensures number { SubrNumberFirst }
{}

/// Small texts, written out, are refused so.
pub fn small_broken_texts()
    ensures { SmallTextsBreak }
{}
