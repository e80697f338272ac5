//! Laws of outlines: what follows from the definitions.

ghost use Rattle.t1_outline.specs.Laws.Flexes.{FlexesAreTwoCurves, OtherFlexesDrawNothing, WholeFlexesAreDrawn};
ghost use Rattle.t1_outline.specs.Laws.Fronts.{FrontsDrawFronts};
ghost use Rattle.t1_outline.specs.Laws.Glyphs.{GlyphsAreClosed, GlyphsBeginAtMoves};
ghost use Rattle.t1_outline.specs.Laws.Parts.{AccentsStandByTheirSidebearings, GlyphsWithoutSeacAreOnePart, SeacsDrawBaseAndAccent};
ghost use Rattle.t1_outline.specs.Laws.Paths.{DrawnSubpathsAreClosed, RulesAskIsOpen, SubpathsBeginAtMoves};
ghost use Rattle.t1_outline.specs.Laws.Points.{StepsEndAtTheCurrentPoint};
ghost use Rattle.t1_outline.specs.Laws.ShortForms.{ShortFormsDrawAlike, ShortStepsDrawAlike};

/// Each short form of a line or a curve draws from any point what the full one draws. A step that has a short form, of
/// a move too, draws after any steps what it draws with the full one.
pub fn short_forms_draw_alike()
    ensures strokes { ShortFormsDrawAlike }
    ensures steps { ShortStepsDrawAlike }
{}

/// A prefix of the steps draws a prefix of what they draw.
#[tactic(auto, using(crate::proofs::Fronts::fronts_draw_fronts))]
pub fn fronts_draw_fronts()
    ensures { FrontsDrawFronts }
{}

/// That something is open is what P02 and P03 ask.
pub fn rules_ask_is_open()
    ensures { RulesAskIsOpen }
{}

/// Where P01 isn't broken, subpaths begin at moves.
#[tactic(auto, using(crate::proofs::Subpaths::subpaths_begin_at_moves))]
pub fn subpaths_begin_at_moves()
    ensures { SubpathsBeginAtMoves }
{}

/// In a glyph without P01 each subpath begins at a move outside flex.
#[tactic(auto, using(crate::proofs::Glyphs::glyphs_begin_at_moves))]
pub fn glyphs_begin_at_moves()
    ensures { GlyphsBeginAtMoves }
{}

/// In a glyph without P02 that ends within the limit each subpath that draws is closed.
#[tactic(auto, using(crate::proofs::Glyphs::glyphs_are_closed))]
pub fn glyphs_are_closed()
    ensures { GlyphsAreClosed }
{}

/// But for closepath, the last segment of a step ends at the current point of the rules.
#[tactic(auto, using(crate::proofs::Points::steps_end_at_the_current_point))]
pub fn steps_end_at_the_current_point()
    ensures { StepsEndAtTheCurrentPoint }
{}

/// Where P02 isn't broken, no line or curve is left open at a move outside flex or at the end.
#[tactic(auto, using(crate::proofs::Closed::drawn_subpaths_are_closed))]
pub fn drawn_subpaths_are_closed()
    ensures { DrawnSubpathsAreClosed }
{}

/// Just a flex of seven pairs is drawn: it draws two curves, and any other nothing.
#[tactic(auto, using(crate::proofs::WholeFlexes::whole_flexes_are_drawn, crate::proofs::WholeFlexes::flexes_are_two_curves, crate::proofs::WholeFlexes::other_flexes_draw_nothing))]
pub fn whole_flexes_are_drawn()
    ensures whole { WholeFlexesAreDrawn }
    ensures curves { FlexesAreTwoCurves }
    ensures others { OtherFlexesDrawNothing }
{}

/// A glyph without seac is its picture's only part. After a seac whose codes name glyphs there are three. The accent's
/// left sidebearing point is by that of the glyph.
#[tactic(auto, using(crate::proofs::PictureParts::accents_stand_by_their_sidebearings))]
pub fn seacs_draw_their_components()
    ensures none { GlyphsWithoutSeacAreOnePart }
    ensures both { SeacsDrawBaseAndAccent }
    ensures accent { AccentsStandByTheirSidebearings }
{}
