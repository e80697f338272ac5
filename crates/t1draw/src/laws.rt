//! Laws above the definitions: each is the contract of a function that does nothing, but for calling the law on which it rests.

ghost use Rattle.t1draw.specs.Laws.{HasAnAnswer, HasNoOtherAnswer, SpelledNamesArePlain, SpelledNamesDiffer};

use t1_font::limits_of_fonts;
use t1_picture::a_subject_has_one_picture;

/// The words of the command line, where they give options, the bytes of a font's file and the text of the waivers decide the
/// answer: the picture, to its last byte, or why there is none.
pub fn a_file_has_one_answer()
    ensures some { HasAnAnswer }
    ensures no_other { HasNoOtherAnswer }
{
    a_subject_has_one_picture();
    limits_of_fonts();
}

/// Two names of glyphs are spelled in two ways in the names of files, and with small letters, digits, `_` and `=` alone: so no two are one where capitals
/// don't count, and none leads out of the folder.
#[tactic(auto, using(crate::proofs::Spelled::spelled_differ, crate::proofs::Spelled::spelled_plain))]
pub fn names_are_spelled_apart()
    ensures apart { SpelledNamesDiffer }
    ensures plain { SpelledNamesArePlain }
{}
