//! Laws of pictures. A call of one does nothing but call the laws that it rests on: a proof cites what it ensures.

ghost use Rattle.t1_picture.specs.Laws.{AmpersandsBeginEntities, ArrowsAreThoseOfItsParts, FontFaultsShowAllSteps, GlyphFaultsShowTheirSteps, HasNoOtherPicture, HasPicture, LegibleTextsAreFit, OneFaultIsMarked, OutlineIsThatOfItsParts, TextsHaveNoMarkup, WholePartsAreOutlines};
ghost use Rattle.t1_picture.specs.NamedCauses.{MarksAreOfFaults};

use t1_report::faults_of_a_unit_are_the_reports;

/// A font of at most 65,535 glyphs, a glyph of it, at most 1,048,576 waivers, an edition and what is shown have a picture, and no two.
/// What [`picture`](crate::picture) gives is a function of these.
pub fn a_subject_has_one_picture()
    ensures some { HasPicture }
    ensures no_other { HasNoOtherPicture }
{
    faults_of_a_unit_are_the_reports();
}

/// The outline of a picture is that of the glyph, up to the last step drawn, and then that of each component of its seac that is
/// there; and where all steps of a part are drawn, its outline is that of t1_outline. The arrows are those of the subpaths of these.
pub fn outlines_are_drawn()
    ensures parts { OutlineIsThatOfItsParts }
    ensures arrows { ArrowsAreThoseOfItsParts }
    ensures whole { WholePartsAreOutlines }
{}

/// A fault that is shown alone is drawn with all steps where it is one of the font, and else up to its own step; then it alone is
/// marked.
pub fn a_fault_is_drawn_up_to_its_step()
    ensures font { FontFaultsShowAllSteps }
    ensures glyph { GlyphFaultsShowTheirSteps }
    ensures marked { OneFaultIsMarked }
{}

/// The stems, zones, points, boxes, lines, curves, coordinates and components that are marked are exactly those that the reasons of the
/// faults shown name, and the zones at which faults of the font are. Subpaths have arrows exactly where such a reason tells their area.
pub fn marks_are_what_reasons_name()
    ensures { MarksAreOfFaults }
{}

/// No text of a font ends an element of the picture or a value in double quotes: as it is written there, it has no `<`, `>` and
/// `"`, and each `&` begins an entity. Nor has it a character that XML can't hold.
pub fn texts_stay_in_their_elements()
    ensures markup { TextsHaveNoMarkup }
    ensures entities { AmpersandsBeginEntities }
    ensures fit { LegibleTextsAreFit }
{}
