//! Laws above the definitions: each is the contract of a function that does nothing.

ghost use Rattle.t1_forms.specs.Laws.{AnObjectTellsOneLine, CommandsAreReadBack, DifferentTellingsHaveDifferentObjects, PartsStayInCommands, ShownNamesAreWords};

/// A name, as it is shown, is a word for it, so that what a legend, an object or a line shows can be given to t1draw as GLYPH. No
/// two names are shown alike, and each name has a word.
#[tactic(auto, using(crate::proofs::ShownWords::shown_words))]
pub fn shown_names_are_words()
    ensures { ShownNamesAreWords }
{}

/// What is reported differently has different objects: an object says again which font, which place and which rule it is of, or which
/// refusal, or why the font wasn't checked; and the text and the object of the reason.
pub fn different_tellings_have_different_objects()
    ensures alike { DifferentTellingsHaveDifferentObjects }
    ensures same { AnObjectTellsOneLine }
{}

/// What a command of GitHub shows, whatever bytes are in it, neither ends the command nor a property, and is read back as it was.
pub fn commands_are_read_back()
    ensures read { CommandsAreReadBack }
    ensures parts { PartsStayInCommands }
{}
