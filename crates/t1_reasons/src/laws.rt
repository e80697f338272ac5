//! Laws of reasons, each on a call that does nothing.

ghost use Rattle.t1_reasons.specs.CharstringReasons.{EndsAreFollowedAsTold};
ghost use Rattle.t1_reasons.specs.DrawingLaws.{DrawingReasonsAreAgainstTheirRules, LeftStemsAreSet, NearestEndsAreNearest};
ghost use Rattle.t1_reasons.specs.FaultReasons.{FaultsHaveReasons, ReportedPlacesHaveReasons};
ghost use Rattle.t1_reasons.specs.GlyphReasons.{ShortCharstringsAreShorter};
ghost use Rattle.t1_reasons.specs.NamedStems.{NamedStemsAreSet};
ghost use Rattle.t1_reasons.specs.NamedSteps.{LastStepsAreTheBooks, LastThreeStemsAreTheBooks, NamedStepsAreOfTheirKinds, NothingWasClearedYet};
ghost use Rattle.t1_reasons.specs.PathStarts.{PathsBeginWhereThePenWasLeft, PathsEndWhereThePenWasLeft};
ghost use Rattle.t1_reasons.specs.Remedies.{FuzzDoesForAll, FuzzDoesForBoth, NumbersDo, ScaleDoesForAll};
ghost use Rattle.t1_reasons.specs.UnusedWaivers.{WaiversAreUnusedForAReason};
ghost use Rattle.t1_reasons.specs.Reported.{ReportedFaultsHaveReasons};
ghost use Rattle.t1_reasons.specs.Laws.{FontReasonsAreAgainstTheirRules, FontsBreakWhereThereIsAReason, HintSetsAreThoseOfTheBook, OthersCompareNumbers, OthersCompareNumbersInFonts, ReasonsAreAgainstTheirRules, ScalesDo, StepsBreakWhereThereIsAReason, ToldStepsAreTheLast};

/// A step breaks a rule exactly where it has a reason.
#[tactic(auto, using(crate::proofs::LawProofs::broken_where_reason))]
pub fn steps_break_where_there_is_a_reason()
    ensures { StepsBreakWhereThereIsAReason }
{}

/// A reason is one of what the rule compares, and is against the rule by its own numbers. The rules that compare nothing
/// are those of a list.
pub fn reasons_are_against_their_rules()
    ensures against { ReasonsAreAgainstTheirRules }
    ensures others { OthersCompareNumbers }
{}

/// A reason of a rule on the drawing is against the rule by its own numbers. The stem that H08 names is set at a step, and the end that it names
/// is the nearest of what is drawn after that.
pub fn drawing_reasons_are_against_their_rules()
    ensures against { DrawingReasonsAreAgainstTheirRules }
    ensures set { LeftStemsAreSet }
    ensures nearest { NearestEndsAreNearest }
{}

/// A font breaks a rule exactly where it has a reason.
#[tactic(auto, using(crate::proofs::FontLaws::fonts_broken_where_reason))]
pub fn fonts_break_where_there_is_a_reason()
    ensures { FontsBreakWhereThereIsAReason }
{}

/// A font's reason is one of what the rule compares, and is against the rule by its own numbers. The rules that compare
/// nothing are those of a list.
pub fn font_reasons_are_against_their_rules()
    ensures against { FontReasonsAreAgainstTheirRules }
    ensures others { OthersCompareNumbersInFonts }
{}

/// The BlueScale that would do for a zone does, and no greater one.
#[tactic(auto, using(crate::proofs::FontLaws::scales_do))]
pub fn scales_do()
    ensures { ScalesDo }
{}

/// The hint sets whose stems have steps are those of the rule book.
#[tactic(auto, using(crate::proofs::Hints::plain_hints))]
pub fn hint_sets_are_those_of_the_book()
    ensures { HintSetsAreThoseOfTheBook }
{}

/// The report has a fault at a step of a glyph exactly where there is a reason, be it waived or not.
#[tactic(auto, using(crate::proofs::FaultLaws::faults_have_reasons))]
pub fn faults_have_reasons()
    ensures { FaultsHaveReasons }
{}

/// Each fault that a report has of the font or of a glyph has a reason.
#[tactic(auto, using(crate::proofs::FaultLaws::reported_places_have_reasons))]
pub fn reported_places_have_reasons()
    ensures { ReportedPlacesHaveReasons }
{}

/// Each fault of a report has a reason: in the font, in a glyph, or of a waiver that isn't used.
#[tactic(auto, using(crate::proofs::FaultLaws::reported_faults_have_reasons))]
pub fn reported_faults_have_reasons()
    ensures { ReportedFaultsHaveReasons }
{}

/// The BlueScale that would do does for all zones of a font, and no greater one.
pub fn scale_does_for_all()
    ensures { ScaleDoesForAll }
{}

/// The counts, the range, the point and the number that rules on charstrings ask for do, and nothing beyond them.
#[tactic(auto, using(crate::proofs::RemedyLaws::numbers_do))]
pub fn numbers_do()
    ensures { NumbersDo }
{}

/// A waiver isn't used exactly where its reason holds: no glyph has its name, or the glyph breaks its rule nowhere.
pub fn waivers_are_unused_for_a_reason()
    ensures { WaiversAreUnusedForAReason }
{}

/// The step that a reason names is the last of its kind before the place. Where it names none, there was none.
pub fn told_steps_are_the_last()
    ensures { ToldStepsAreTheLast }
{}

/// The path that a reason of P02 names begins where the move or the closepath before it left the pen.
pub fn paths_begin_where_the_pen_was_left()
    ensures { PathsBeginWhereThePenWasLeft }
{}

/// The other end of the path that a reason of P02 names is where the last step that drew left the pen.
#[tactic(auto, using(crate::proofs::PathStarts::paths_end))]
pub fn paths_end_where_the_pen_was_left()
    ensures { PathsEndWhereThePenWasLeft }
{}

/// The step that a reason names is the last one of the kind that its rule speaks of. Where it names none, there was none.
/// Where W03 has a reason, no clearing command came before: the step that it names is the last call.
#[tactic(auto, using(crate::proofs::NamedSteps::named_steps, crate::proofs::NamedSteps::nothing_was_cleared))]
pub fn named_steps_are_of_their_kinds()
    ensures kinds { NamedStepsAreOfTheirKinds }
    ensures cleared { NothingWasClearedYet }
{}

/// The last step of a kind, by its number, is the one that the rule book calls the last.
#[tactic(auto, using(crate::proofs::NamedSteps::last_steps))]
pub fn last_steps_are_the_books()
    ensures { LastStepsAreTheBooks }
{}

/// The three stems that a reason of H07 compares with are those that the rule book calls the last.
#[tactic(auto, using(crate::proofs::LastCommands::last_three_is))]
pub fn last_three_stems_are_the_books()
    ensures { LastThreeStemsAreTheBooks }
{}

/// Of the two stems that a reason of H02 names, one is the step's own. The other was set in the same direction, at the
/// step named with it, and is of the hint set or the step's own too. H06 names the first stem of the last step with the
/// other command of the direction, H07 the stem that the last step with the same command has in the place of the own one.
#[tactic(auto, using(crate::proofs::NamedStems::named_stems))]
pub fn named_stems_are_set()
    ensures { NamedStemsAreSet }
{}

/// The BlueFuzz that would do does for all zones beside one another, and no greater one.
pub fn fuzz_does_for_all()
    ensures { FuzzDoesForAll }
{}

/// The BlueFuzz that would do for all low zones beside high ones does, and no greater one.
#[tactic(auto, using(crate::proofs::RemedyLaws::fuzz_does_for_both))]
pub fn fuzz_does_for_both()
    ensures { FuzzDoesForBoth }
{}

/// What the reason of GE02 names is what comes behind the step in its charstring.
#[tactic(auto, using(crate::proofs::Endings::ends_are_followed_as_told))]
pub fn ends_are_followed_as_told()
    ensures { EndsAreFollowedAsTold }
{}

/// What a reason of C01 tells is against it: the charstring has fewer bytes than lenIV says.
pub fn short_charstrings_are_shorter()
    ensures { ShortCharstringsAreShorter }
{}
