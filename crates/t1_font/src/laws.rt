//! Laws of the definitions, each on a call that does nothing.

ghost use Rattle.t1_font.specs.Laws.Blanks.{BlanksAgree};
ghost use Rattle.t1_font.specs.Laws.Keys.{DifferentStay, FontsHaveDistinctKeys, NoneStandsTwice, TwiceIsAgain};
ghost use Rattle.t1_font.specs.Laws.Notes.{ClearStaysWithoutNotes, FontsHaveTheirNotes, FontsStayWithoutNotes, PrivateStaysWithoutNotes, ValuesStayWithoutNotes};
ghost use Rattle.t1_font.specs.Laws.Rows.{RowsGoAsTheReader};
ghost use Rattle.t1_font.specs.Laws.Statements.{OneMore, ReadAsStated};
ghost use Rattle.t1_font.specs.declared.mode.ClearMode.{ClearMode};
ghost use Rattle.t1_font.specs.declared.mode.PrivateMode.{PrivateMode};
ghost use Rattle.t1_font.specs.Laws.Example.{SmallFontIsUsual};
ghost use Rattle.t1_font.specs.Laws.UsualTexts.{AdditionsInClear, AdditionsInPrivate, BlanksPass, BlanksPassInPrivate, DupPassesInCodes, ReadsUsualClear, ReadsUsualFonts, ReadsUsualPrivate, WordsPass, WordsPassInCodes, WordsPassInGlyphs, WordsPassInPrivate, WordsPassInSubrs};

/// One statement more changes the value of all as the program does: a key that is there keeps its
/// place and takes the later value, and a new one goes last.
#[tactic(auto, using(crate::proofs::Stating::value_step))]
pub fn one_more_statement()
    ensures { OneMore }
{}

/// A text is read, while a value is kept, as what is looked up afterwards in all that it states.
pub fn reading_by_statements()
    ensures clear { ReadAsStated ClearMode }
    ensures private { ReadAsStated PrivateMode }
{}

/// Subrs, glyphs and codes whose numbers or names are all different are the font's just as they are
/// stated, in their order.
#[tactic(auto, using(crate::proofs::DifferentKeys::different_stay))]
pub fn different_keys()
    ensures { DifferentStay }
{}

/// No Subr's number, no glyph's name and no code occurs twice in the value of what is stated, nor in a font that is
/// read.
pub fn keys_stand_once()
    ensures stated { NoneStandsTwice }
    ensures read { FontsHaveDistinctKeys }
{}

/// The Subrs and the glyphs that a font has as stated twice are those that were stated twice or more.
pub fn repeated_keys()
    ensures { TwiceIsAgain }
{}

/// A clear text in the usual form is read with just the values and codes that it states: plain keys
/// with values of one token; a standard Encoding, or a custom one of `dup` code name `put` groups and
/// `def`; tokens between; and the word `eexec`.
#[tactic(auto, using(crate::proofs::ClearItemsRead::reads_usual_clear))]
pub fn usual_clear_texts()
    ensures { ReadsUsualClear }
{}

/// A private text in the usual form is read with just the keys, Subrs and glyphs that it states: plain
/// keys with values of one token; Subrs and CharStrings whose RD, NP and ND are any words; tokens
/// between; and the word `end`.
#[tactic(auto, using(crate::proofs::PrivateRead::reads_usual_private))]
pub fn usual_private_texts()
    ensures { ReadsUsualPrivate }
{}

/// A font whose clear text and private text are in the usual form has the value of what both state.
#[tactic(auto, using(crate::proofs::EntriesAlone::reads_usual_fonts))]
pub fn usual_fonts()
    ensures { ReadsUsualFonts }
{}

/// A small font, written out, is in the usual form.
#[tactic(auto, using(crate::proofs::UsualExample::small_font_is_usual))]
pub fn small_usual_font()
    ensures { SmallFontIsUsual }
{}

/// Texts in the usual form with the same entries leave the same value: blanks, comments with the end of their line, and
/// tokens that state nothing, wherever they are between, change nothing.
pub fn idle_additions()
    ensures clear { AdditionsInClear }
    ensures private { AdditionsInPrivate }
{}

/// In any text, wherever a token is due, blanks and comments with the end of their line change nothing
/// of what is stated.
#[tactic(auto, using(crate::proofs::Steps::blanks_pass, crate::proofs::Steps::blanks_pass_in_private))]
pub fn blanks_between_entries()
    ensures clear { BlanksPass }
    ensures private { BlanksPassInPrivate }
{}

/// In any text, words between entries, with the blanks and comments before them, change nothing of what is stated: all
/// but `eexec` in the clear text; but `eexec`, `def` and a `dup` that begins a group in a custom encoding; any in the
/// private text, but `dup` among the Subrs and `end` among the glyphs.
pub fn words_between_entries()
    ensures clear { WordsPass }
    ensures codes { WordsPassInCodes }
    ensures dup { DupPassesInCodes }
    ensures private { WordsPassInPrivate }
    ensures subrs { WordsPassInSubrs }
    ensures glyphs { WordsPassInGlyphs }
{}

/// The bytes that may be between hexadecimal digits of an encrypted section are the blanks between tokens.
pub fn blanks_of_sections_and_tokens()
    ensures { BlanksAgree }
{}

/// Keys that are noted change the values of noted keys alone: where none is, a text is refused just as it is, or read to the same
/// place, and states the same but for these keys; and the font is the same but that they have no value. So a file that is
/// read without them is refused just as it is, or its font is the same but for these values.
pub fn noted_keys_change_nothing_else()
    ensures clear { ClearStaysWithoutNotes }
    ensures private { PrivateStaysWithoutNotes }
    ensures values { ValuesStayWithoutNotes }
    ensures all { FontsHaveTheirNotes }
    ensures fonts { FontsStayWithoutNotes }
{}

/// The rows of the texts go as the reader goes: a turn that it takes after whatever was stated is the turn of the row.
#[tactic(auto, using(crate::proofs::RowTurns::rows_go_as_the_reader))]
pub fn rows_of_texts()
    ensures { RowsGoAsTheReader }
{}
