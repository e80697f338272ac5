//! Laws of drawings: what follows from the definitions.

ghost use Rattle.t1_drawing.specs.Laws.{CurvesWithinTheirEndsAreFine, CurvesWithoutExtremesGoBeyond, DrawnSegmentsCanBeSeen, FlatCurvesAreOnALine, PolygonsHaveTheAreaOfTheirCorners, StepsAddWhatTheyDraw, TurnedSubpathsHaveTheOppositeArea};
ghost use Rattle.t1_drawing.specs.RuleLaws.{DrawingRuleNumbersAreInOrder, DrawingRulesComeLast, NumbersDrawNothing};
ghost use Rattle.t1_drawing.specs.StemLaws.{StemsStay, UntouchedStemsLieOff};

/// The rules on the drawing have the numbers from 102 to 112, and a number on the stack breaks none of them.
#[tactic(auto, using(crate::proofs::RuleNumbers::numbers_are_in_order, crate::proofs::RuleNumbers::drawing_rules_come_last, crate::proofs::Numbers::no_fault_at_number))]
pub fn drawing_rules_come_last()
    ensures numbers { DrawingRuleNumbersAreInOrder }
    ensures last { DrawingRulesComeLast }
    ensures stack { NumbersDrawNothing }
{}

/// P10 is no false alarm: somewhere such a curve is three units or more beyond both of its ends. A curve whose control
/// points are in the box of its ends doesn't break it.
#[tactic(auto, using(crate::proofs::CurveLaws::curves_within_their_ends_are_fine))]
pub fn curves_without_extremes_go_beyond()
    ensures beyond { CurvesWithoutExtremesGoBeyond }
    ensures within { CurvesWithinTheirEndsAreFine }
{}

/// All points of a curve that breaks P09 are on the straight line through its ends.
#[tactic(auto, using(crate::proofs::FlatLaws::flat_curves_are_on_a_line))]
pub fn flat_curves_are_on_a_line()
    ensures { FlatCurvesAreOnALine }
{}

/// The area of P05 is that of the polygon where a subpath has lines alone. A subpath that is run the other way has the
/// opposite area.
#[tactic(auto, using(crate::proofs::AreaLaws::polygons_have_the_area_of_their_corners, crate::proofs::AreaLaws::turned_subpaths_have_the_opposite_area))]
pub fn turned_subpaths_have_the_opposite_area()
    ensures polygons { PolygonsHaveTheAreaOfTheirCorners }
    ensures turned { TurnedSubpathsHaveTheOppositeArea }
{}

/// What a step draws can be seen by a watcher that saw what the steps before it drew.
#[tactic(auto, using(crate::proofs::NearLaws::drawn_segments_can_be_seen, crate::proofs::NearLaws::steps_add_what_they_draw))]
pub fn drawn_segments_can_be_seen()
    ensures seen { DrawnSegmentsCanBeSeen }
    ensures added { StepsAddWhatTheyDraw }
{}

/// Of a stem that nothing touches, no line and no curve that is drawn after it was set begins or ends within ten units of an edge.
pub fn untouched_stems_lie_off()
    ensures { UntouchedStemsLieOff }
{}

/// A stem stays one of the glyph's, also past a hint replacement.
#[tactic(auto, using(crate::proofs::StemLaws::stems_stay))]
pub fn stems_stay()
    ensures { StemsStay }
{}
