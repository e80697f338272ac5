//! Laws above the definitions: each is the contract of a function that does nothing.

ghost use Rattle.t1_many.specs.Laws.{ATextIsOneRow, CodesPickTheirRule, KindsNameTheirRules, LettersPickTheirRules, LinesHaveKinds, NoLineIsBeyond, NoRowDiffers, PartsAreTheWhole, PlainIsFlushed, PlainIsWritten, WrittenWaiversAreRead};

/// A code picks its rule alone, and the letters of a code pick the rules whose codes have these letters.
pub fn codes_pick_their_rules()
    ensures code { CodesPickTheirRule }
    ensures letters { LettersPickTheirRules }
{}

/// A row of known faults has one reading: its text is that of no other row. The kind of a line's fault is one that a
/// row can have, and begins with the code of the rule.
pub fn a_text_is_one_row()
    ensures kinds { LinesHaveKinds }
    ensures codes { KindsNameTheirRules }
    ensures rows { ATextIsOneRow }
{}

/// What the plain form takes is printed, all of it, one thing after the other, and after the last font it is flushed.
/// If a write fails, a prefix of it was printed.
#[tactic(auto, using(crate::proofs::PlainLines::written, crate::proofs::PlainLines::flushed))]
pub fn plain_lines_are_written()
    ensures written { PlainIsWritten }
    ensures flushed { PlainIsFlushed }
{}

/// The parts of a list, one after the other, are the list.
#[tactic(auto, using(crate::proofs::Parts::whole))]
pub fn parts_are_the_whole()
    ensures { PartsAreTheWhole }
{}

/// Once what was found was made the known faults, the same fonts have no line beyond them, and no row differs.
#[tactic(auto, using(crate::proofs::Quiet::no_line, crate::proofs::Quiet::no_row))]
pub fn an_update_is_quiet()
    ensures lines { NoLineIsBeyond }
    ensures rows { NoRowDiffers }
{}

/// The text of waivers that is written of lines is read as exactly these: each pair of a glyph's name and a rule, once.
#[tactic(auto, using(crate::proofs::WaiversRead::written_are_read))]
pub fn written_waivers_are_read()
    ensures { WrittenWaiversAreRead }
{}
