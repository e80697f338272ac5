//! The steps of a glyph, one after another: what each breaks of the rules on the drawing.

ghost use Rattle.std.specs.Prelude.{◌≡◌, ◌<◌, ◌||◌, true, ℕ, Option, Some, List, [], ◌∷◌, ◌++◌, length};
ghost use Rattle.t1_char.specs.declared.edition.Edition.{Edition as Editions};
ghost use Rattle.t1_char.specs.Editions.{has_latest_rules};
ghost use Rattle.t1_char.specs.Steps.{StepView};
ghost use Rattle.t1_char.specs.StepValues.{step_view};
ghost use Rattle.t1_drawing.specs.declared.font_box.FontBox.{FontBox as Boxes};
ghost use Rattle.t1_drawing.specs.DrawingRules.{breaks_own, drawing_rules, ends_clockwise, ends_glyph, ends_untouched, is_endchar};
ghost use Rattle.t1_drawing.specs.Private.Joined.{are_none, drawing_faults};
ghost use Rattle.t1_drawing.specs.Private.Plain.{DrawsAlone, SetsAlone, TurnsAlone, draws_nothing, is_silent};
ghost use Rattle.t1_drawing.specs.Private.Standing.{BothStandFor, DrawingStandsFor, LatestDrawingStandsFor, SegmentsStandFor, TouchesStandFor};
ghost use Rattle.t1_drawing.specs.Areas.{drawn_area};
ghost use Rattle.t1_drawing.specs.Drawings.{traced};
ghost use Rattle.t1_drawing.specs.Touching.{first_untouched};
ghost use Rattle.t1_drawing.specs.Strokes.{segments_of};
ghost use Rattle.t1_outline.specs.Laws.Points.{end_of};
ghost use Rattle.t1_outline.specs.Outlines.{drawn};
ghost use Rattle.t1_rules.specs.Mask.{has};
ghost use Rattle.t1_rules.specs.Private.Standing.{WatchesStandFor};
ghost use Rattle.t1_rules.specs.StepRules.{breaks, step_rules};
ghost use Rattle.t1_rules.specs.StepRules.Flex.{current_point};
ghost use Rattle.t1_rules.specs.Watches.{most_steps};

use crate::faults::SegmentFaults;
use crate::font_box::FontBox;
use crate::moves::MoveWatcher;
use crate::points::end_of;
use crate::segments::{SegmentWatcher, TracedSegments};
use crate::stem_edges::{sets_adjacent, sets_negative_width};
use crate::touching::{TouchWatcher, UntouchedStem};
use t1_char::{CharToken, Command, Step, is_callothersubr, is_end};
use t1_outline::{Around, Nib, Segment, Segments, spoils_flex};
use t1_rules::{Mask, Rule, Watch, Watches, closes, is_line, is_move};

/// Which rules on the drawing a step breaks.
#[derive(Clone, Copy)]
pub(crate) struct DrawingFaults {
    /// P04 and P06 to P10: what its segments break.
    segments: SegmentFaults,
    /// P05.
    ends_clockwise: bool,
    /// P11.
    moves_again: bool,
    /// H08.
    ends_untouched: bool,
    /// H09.
    sets_adjacent: bool,
    /// H10.
    sets_negative_width: bool,
}

impl DrawingFaults {
    /// Whether the step breaks none.
    #[inline(always)]
    fn are_none(self) -> bool
        ensures { result ≡ are_none self }
    {
        !(self.segments.are_some()
            | self.ends_clockwise
            | self.moves_again
            | self.ends_untouched
            | self.sets_adjacent
            | self.sets_negative_width)
    }
}

/// The rules that a step breaks, and its segments.
#[derive(Drop)]
struct Seen {
    broken: Mask,
    drawn: Segments,
}

/// What a step breaks, and what it draws.
#[derive(Drop)]
pub struct TracedStep {
    /// The rules that it breaks.
    pub broken: Mask,
    /// Its segments, each with what it breaks.
    pub segments: TracedSegments,
}

/// Watches for P04 to P11 and H08 to H10, from the first step of a glyph on, beside [`Watches`].
#[derive(Drop)]
pub struct DrawingWatcher {
    nib: Nib,
    segments: SegmentWatcher,
    moves: MoveWatcher,
    touches: TouchWatcher,
}

impl DrawingWatcher {
    /// Before the first step. Without a box nothing is outside it.
    pub fn start(font_box: Option<FontBox>) -> DrawingWatcher
        ensures { DrawingStandsFor font_box result [] }
    {
        DrawingWatcher {
            nib: Nib::start(),
            segments: SegmentWatcher::start(font_box),
            moves: MoveWatcher::start(),
            touches: TouchWatcher::start(),
        }
    }

    /// Before the first step again, in place: what it holds of stems isn't overwritten.
    pub fn start_again(&mut self, font_box: Option<FontBox>)
        ensures { DrawingStandsFor font_box self.new [] }
    {
        self.nib = Nib::start();
        self.segments = SegmentWatcher::start(font_box);
        self.moves = MoveWatcher::start();
        self.touches.start_again();
    }

    /// Shows the next step to the other watchers too, which have seen the same steps. Returns which of their rules and of
    /// those on the drawing it breaks, given the steps that were seen before.
    pub fn see(&mut self, watches: &mut Watches, step: &Step) -> Mask
        requires { (edition : Editions) × ((box : Option Boxes) × ((before : List StepView) ×
            (WatchesStandFor edition watches.old before × (DrawingStandsFor box self.old before × (length before < most_steps))))) }
        ensures watches { (edition : Editions) (before : List StepView) →
            WatchesStandFor edition watches.old before → length before < most_steps →
            WatchesStandFor edition watches.new (before ++ step_view step.now ∷ []) }
        ensures stands { (edition : Editions) (box : Option Boxes) (before : List StepView) →
            WatchesStandFor edition watches.old before → DrawingStandsFor box self.old before → length before < most_steps →
            DrawingStandsFor box self.new (before ++ step_view step.now ∷ []) }
        ensures answer { (edition : Editions) (box : Option Boxes) (before : List StepView) →
            WatchesStandFor edition watches.old before → DrawingStandsFor box self.old before → length before < most_steps →
            (n : ℕ) → has result n
            ≡ (breaks (step_rules edition) n before (step_view step.now) || breaks (drawing_rules box) n before (step_view step.now)) }
    {
        if watches.is_in_flex() {
            return self.see_any(watches, step);
        }
        if is_silent(step.token) {
            return watches.see(step);
        }
        match self.nib.stroke(step, watches.point()) {
            Some(segment) => self.see_stroke(watches, step, segment),
            None => {
                if self.nib.begins_or_closes(step) {
                    self.see_turn(watches, step)
                } else if draws_nothing(step.token) {
                    self.see_setting(watches, step)
                } else {
                    self.see_any(watches, step)
                }
            }
        }
    }

    /// The same of a step that draws nothing, outside flex: it may set stems or a sidebearing, or end the glyph.
    #[inline(never)]
    fn see_setting(&mut self, watches: &mut Watches, step: &Step) -> Mask
        requires { (edition : Editions) × ((box : Option Boxes) × ((before : List StepView) ×
            SetsAlone edition box watches.old self.old before (step_view step.now))) }
        ensures watches { (edition : Editions) (before : List StepView) →
            WatchesStandFor edition watches.old before → length before < most_steps →
            WatchesStandFor edition watches.new (before ++ step_view step.now ∷ []) }
        ensures stands { (edition : Editions) (box : Option Boxes) (before : List StepView) →
            SetsAlone edition box watches.old self.old before (step_view step.now) →
            DrawingStandsFor box self.new (before ++ step_view step.now ∷ []) }
        ensures answer { (edition : Editions) (box : Option Boxes) (before : List StepView) →
            SetsAlone edition box watches.old self.old before (step_view step.now) →
            (n : ℕ) → has result n
            ≡ (breaks (step_rules edition) n before (step_view step.now) || breaks (drawing_rules box) n before (step_view step.now)) }
    {
        let sets_adjacent = sets_adjacent(step, watches.across(), watches.upright());
        let ends_clockwise = ends_clockwise(step, &self.segments);
        let ends_untouched = ends_untouched(step, &self.touches);
        let broken = watches.see(step);
        self.touches.see(step, &[]);
        broken.join(rules_in(DrawingFaults {
            segments: SegmentFaults::none(),
            ends_clockwise,
            moves_again: false,
            ends_untouched,
            sets_adjacent,
            sets_negative_width: sets_negative_width(step),
        }))
    }

    /// The same of a step that begins or closes a subpath, outside flex.
    #[inline(never)]
    fn see_turn(&mut self, watches: &mut Watches, step: &Step) -> Mask
        requires { (edition : Editions) × ((box : Option Boxes) × ((before : List StepView) ×
            TurnsAlone edition box watches.old self.old before (step_view step.now))) }
        ensures watches { (edition : Editions) (before : List StepView) →
            WatchesStandFor edition watches.old before → length before < most_steps →
            WatchesStandFor edition watches.new (before ++ step_view step.now ∷ []) }
        ensures stands { (edition : Editions) (box : Option Boxes) (before : List StepView) →
            TurnsAlone edition box watches.old self.old before (step_view step.now) →
            DrawingStandsFor box self.new (before ++ step_view step.now ∷ []) }
        ensures answer { (edition : Editions) (box : Option Boxes) (before : List StepView) →
            TurnsAlone edition box watches.old self.old before (step_view step.now) →
            (n : ℕ) → has result n
            ≡ (breaks (step_rules edition) n before (step_view step.now) || breaks (drawing_rules box) n before (step_view step.now)) }
    {
        let moves_again = self.moves.see(step, false);
        let broken = watches.see(step);
        let segment = self.nib.begin_or_close(step, watches.point());
        let segments = self.segments.see_one(segment);
        self.touches.see_stroke(step, segment);
        broken.join(rules_in(DrawingFaults {
            segments,
            ends_clockwise: false,
            moves_again,
            ends_untouched: false,
            sets_adjacent: false,
            sets_negative_width: false,
        }))
    }

    /// The same of a line or a curve that is all that its step draws, outside flex: most steps that draw are such steps.
    #[inline(always)]
    fn see_stroke(&mut self, watches: &mut Watches, step: &Step, segment: Segment) -> Mask
        requires alone { (edition : Editions) × ((box : Option Boxes) × ((before : List StepView) ×
            DrawsAlone edition box watches.old self.old before (step_view step.now) segment)) }
        requires end { (edition : Editions) (before : List StepView) → WatchesStandFor edition watches.old before →
            end_of segment ≡ Some (current_point (before ++ step_view step.now ∷ [])) }
        ensures watches { (edition : Editions) (before : List StepView) →
            WatchesStandFor edition watches.old before → length before < most_steps →
            WatchesStandFor edition watches.new (before ++ step_view step.now ∷ []) }
        ensures stands { (edition : Editions) (box : Option Boxes) (before : List StepView) →
            DrawsAlone edition box watches.old self.old before (step_view step.now) segment →
            DrawingStandsFor box self.new (before ++ step_view step.now ∷ []) }
        ensures answer { (edition : Editions) (box : Option Boxes) (before : List StepView) →
            DrawsAlone edition box watches.old self.old before (step_view step.now) segment →
            (n : ℕ) → has result n
            ≡ (breaks (step_rules edition) n before (step_view step.now) || breaks (drawing_rules box) n before (step_view step.now)) }
    {
        let _moves_again = self.moves.see(step, false);
        let end = end_of(segment).unwrap_or(watches.point());
        let broken = watches.see_stroke(step, end);
        let segments = self.segments.see_one(segment);
        self.touches.see_stroke(step, segment);
        broken.join(rules_in(DrawingFaults {
            segments,
            ends_clockwise: false,
            moves_again: false,
            ends_untouched: false,
            sets_adjacent: false,
            sets_negative_width: false,
        }))
    }

    /// The same of any step.
    #[inline(never)]
    fn see_any(&mut self, watches: &mut Watches, step: &Step) -> Mask
        requires { (edition : Editions) × ((box : Option Boxes) × ((before : List StepView) ×
            (WatchesStandFor edition watches.old before × (DrawingStandsFor box self.old before × (length before < most_steps))))) }
        ensures watches { (edition : Editions) (before : List StepView) →
            WatchesStandFor edition watches.old before → length before < most_steps →
            WatchesStandFor edition watches.new (before ++ step_view step.now ∷ []) }
        ensures stands { (edition : Editions) (box : Option Boxes) (before : List StepView) →
            WatchesStandFor edition watches.old before → DrawingStandsFor box self.old before → length before < most_steps →
            DrawingStandsFor box self.new (before ++ step_view step.now ∷ []) }
        ensures answer { (edition : Editions) (box : Option Boxes) (before : List StepView) →
            WatchesStandFor edition watches.old before → DrawingStandsFor box self.old before → length before < most_steps →
            (n : ℕ) → has result n
            ≡ (breaks (step_rules edition) n before (step_view step.now) || breaks (drawing_rules box) n before (step_view step.now)) }
    {
        self.see_drawn(watches, step).broken
    }

    /// The same, with what the step draws.
    #[inline(always)]
    fn see_drawn(&mut self, watches: &mut Watches, step: &Step) -> Seen
        requires { (edition : Editions) × ((box : Option Boxes) × ((before : List StepView) ×
            (WatchesStandFor edition watches.old before × (DrawingStandsFor box self.old before × (length before < most_steps))))) }
        ensures watches { (edition : Editions) (before : List StepView) →
            WatchesStandFor edition watches.old before → length before < most_steps →
            WatchesStandFor edition watches.new (before ++ step_view step.now ∷ []) }
        ensures stands { (edition : Editions) (box : Option Boxes) (before : List StepView) →
            WatchesStandFor edition watches.old before → DrawingStandsFor box self.old before → length before < most_steps →
            DrawingStandsFor box self.new (before ++ step_view step.now ∷ []) }
        ensures answer { (edition : Editions) (box : Option Boxes) (before : List StepView) →
            WatchesStandFor edition watches.old before → DrawingStandsFor box self.old before → length before < most_steps →
            (n : ℕ) → has result.broken n
            ≡ (breaks (step_rules edition) n before (step_view step.now) || breaks (drawing_rules box) n before (step_view step.now)) }
        ensures drawn { (edition : Editions) (box : Option Boxes) (before : List StepView) →
            WatchesStandFor edition watches.old before → DrawingStandsFor box self.old before → length before < most_steps →
            result.drawn.items ≡ drawn before (step_view step.now) }
    {
        let start = watches.point();
        let is_in_flex = watches.is_in_flex();
        let sets_adjacent = sets_adjacent(step, watches.across(), watches.upright());
        let ends_clockwise = ends_clockwise(step, &self.segments);
        let ends_untouched = ends_untouched(step, &self.touches);
        let moves_again = self.moves.see(step, is_in_flex);
        let broken = watches.see(step);
        let around = Around {
            start,
            end: watches.point(),
            is_in_flex,
            spoils_flex: spoils_flex(broken),
        };
        let drawn = self.nib.draw(step, around);
        let segments = self.segments.see(drawn.as_slice());
        self.touches.see(step, drawn.as_slice());
        let own = rules_in(DrawingFaults {
            segments,
            ends_clockwise,
            moves_again,
            ends_untouched,
            sets_adjacent,
            sets_negative_width: sets_negative_width(step),
        });
        Seen {
            broken: broken.join(own),
            drawn,
        }
    }

    /// The same, with what the step draws, and what each of its segments breaks.
    pub fn trace(&mut self, watches: &mut Watches, step: &Step) -> TracedStep
        requires { (edition : Editions) × ((box : Option Boxes) × ((before : List StepView) ×
            (WatchesStandFor edition watches.old before × (DrawingStandsFor box self.old before × (length before < most_steps))))) }
        ensures watches { (edition : Editions) (before : List StepView) →
            WatchesStandFor edition watches.old before → length before < most_steps →
            WatchesStandFor edition watches.new (before ++ step_view step.now ∷ []) }
        ensures stands { (edition : Editions) (box : Option Boxes) (before : List StepView) →
            WatchesStandFor edition watches.old before → DrawingStandsFor box self.old before → length before < most_steps →
            DrawingStandsFor box self.new (before ++ step_view step.now ∷ []) }
        ensures answer { (edition : Editions) (box : Option Boxes) (before : List StepView) →
            WatchesStandFor edition watches.old before → DrawingStandsFor box self.old before → length before < most_steps →
            (n : ℕ) → has result.broken n
            ≡ (breaks (step_rules edition) n before (step_view step.now) || breaks (drawing_rules box) n before (step_view step.now)) }
        ensures traced { (edition : Editions) (box : Option Boxes) (before : List StepView) →
            WatchesStandFor edition watches.old before → DrawingStandsFor box self.old before → length before < most_steps →
            result.segments.items ≡ traced box (segments_of before) (drawn before (step_view step.now)) }
    {
        let before = self.segments;
        let seen = self.see_drawn(watches, step);
        TracedStep {
            broken: seen.broken,
            segments: before.traced(seen.drawn.as_slice()),
        }
    }
}

impl DrawingWatcher {
    /// Twenty times the signed area of what the steps so far draw, in squares of 1/65536: P05 asks for it at the end of a glyph. None where a
    /// coordinate is farther from 0 than 32000 units.
    pub fn area(&self) -> Option<i128>
        requires { (box : Option Boxes) × ((before : List StepView) × DrawingStandsFor box self.now before) }
        ensures { (box : Option Boxes) (before : List StepView) → DrawingStandsFor box self.now before →
            result ≡ drawn_area (segments_of before) }
    {
        self.segments.area()
    }

    /// The first stem so far that nothing touches, those that lie across before upright ones, and how many more there are: H08 asks for
    /// it at the end of a glyph.
    pub fn untouched(&self) -> Option<UntouchedStem>
        ensures { (box : Option Boxes) (before : List StepView) → DrawingStandsFor box self.now before →
            result ≡ first_untouched before }
    {
        self.touches.first_untouched()
    }

    /// The same as [`DrawingWatcher::see`] where `draws` says that the edition has rules on the drawing; else shows the step to the other
    /// watchers alone.
    #[inline(always)]
    pub fn see_where(&mut self, draws: bool, watches: &mut Watches, step: &Step) -> Mask
        requires { (edition : Editions) × ((box : Option Boxes) × ((before : List StepView) ×
            (BothStandFor edition box draws watches.old self.old before × (length before < most_steps)))) }
        ensures watches { (edition : Editions) (before : List StepView) →
            WatchesStandFor edition watches.old before → length before < most_steps →
            WatchesStandFor edition watches.new (before ++ step_view step.now ∷ []) }
        ensures stands { (edition : Editions) (box : Option Boxes) (before : List StepView) →
            BothStandFor edition box draws watches.old self.old before → length before < most_steps →
            LatestDrawingStandsFor edition box self.new (before ++ step_view step.now ∷ []) }
        ensures answer { (edition : Editions) (box : Option Boxes) (before : List StepView) →
            BothStandFor edition box draws watches.old self.old before → length before < most_steps →
            (n : ℕ) → has result n ≡ breaks_own edition box n before (step_view step.now) }
    {
        if draws {
            self.see(watches, step)
        } else {
            watches.see_as(step.token, step)
        }
    }

    /// The same as [`DrawingWatcher::trace`] where `draws` says that the edition has rules on the drawing; else shows the step to the other
    /// watchers alone, and no segments.
    pub fn trace_where(&mut self, draws: bool, watches: &mut Watches, step: &Step) -> TracedStep
        requires { (edition : Editions) × ((box : Option Boxes) × ((before : List StepView) ×
            (BothStandFor edition box draws watches.old self.old before × (length before < most_steps)))) }
        ensures watches { (edition : Editions) (before : List StepView) →
            WatchesStandFor edition watches.old before → length before < most_steps →
            WatchesStandFor edition watches.new (before ++ step_view step.now ∷ []) }
        ensures stands { (edition : Editions) (box : Option Boxes) (before : List StepView) →
            BothStandFor edition box draws watches.old self.old before → length before < most_steps →
            LatestDrawingStandsFor edition box self.new (before ++ step_view step.now ∷ []) }
        ensures answer { (edition : Editions) (box : Option Boxes) (before : List StepView) →
            BothStandFor edition box draws watches.old self.old before → length before < most_steps →
            (n : ℕ) → has result.broken n ≡ breaks_own edition box n before (step_view step.now) }
        ensures traced { (edition : Editions) (box : Option Boxes) (before : List StepView) →
            BothStandFor edition box draws watches.old self.old before → length before < most_steps → has_latest_rules edition ≡ true →
            result.segments.items ≡ traced box (segments_of before) (drawn before (step_view step.now)) }
    {
        if draws {
            self.trace(watches, step)
        } else {
            TracedStep {
                broken: watches.see(step),
                segments: TracedSegments::new(),
            }
        }
    }
}

/// Whether a step is the end of its glyph.
fn ends_glyph(step: &Step) -> bool
    ensures { result ≡ ends_glyph (step_view step.now) }
{
    is_endchar(step.token) | (is_end(step.token) & step.path.is_empty())
}

/// Whether a step breaks P05.
fn ends_clockwise(step: &Step, segments: &SegmentWatcher) -> bool
    requires { (box : Option Boxes) × ((before : List StepView) × SegmentsStandFor box segments.now (segments_of before)) }
    ensures { (box : Option Boxes) (before : List StepView) → SegmentsStandFor box segments.now (segments_of before) →
        result ≡ ends_clockwise before (step_view step.now) }
{
    ends_glyph(step) && segments.runs_clockwise()
}

/// Whether a step breaks H08.
fn ends_untouched(step: &Step, touches: &TouchWatcher) -> bool
    ensures { (before : List StepView) → TouchesStandFor touches.now before → result ≡ ends_untouched before (step_view step.now) }
{
    ends_glyph(step) && touches.leaves_untouched()
}

/// Whether a token draws nothing and sets nothing that this watches.
#[inline(always)]
fn is_silent(token: CharToken) -> bool
    ensures { result ≡ is_silent token }
{
    match token {
        CharToken::Number(_) => true,
        CharToken::Command(command) => match command {
            Command::Callsubr
            | Command::Return
            | Command::Pop
            | Command::Div
            | Command::Dotsection
            | Command::Setcurrentpoint => true,
            _ => false,
        },
        _ => false,
    }
}

/// Whether a token draws nothing, and calls no OtherSubr.
fn draws_nothing(token: CharToken) -> bool
    ensures { result ≡ draws_nothing token }
{
    !(is_move(token) | is_line(token) | closes(token) | is_callothersubr(token))
}

fn is_endchar(token: CharToken) -> bool
    ensures { result ≡ is_endchar token }
{
    matches!(token, CharToken::Command(Command::Endchar))
}

/// The rules that a step breaks.
#[inline(always)]
fn rules_in(faults: DrawingFaults) -> Mask
    ensures { (box : Option Boxes) (before : List StepView) (step : StepView) → faults ≡ drawing_faults box before step →
        (n : ℕ) → has result n ≡ breaks (drawing_rules box) n before step }
{
    if faults.are_none() {
        Mask::empty()
    } else {
        all_rules_in(faults)
    }
}

/// The same, one after another.
#[inline(never)]
#[tactic(auto, unfolding(crate::specs::DrawingRules::drawing_rules))]
fn all_rules_in(faults: DrawingFaults) -> Mask
    ensures { (box : Option Boxes) (before : List StepView) (step : StepView) → faults ≡ drawing_faults box before step →
        (n : ℕ) → has result n ≡ breaks (drawing_rules box) n before step }
{
    Mask::empty()
        .with(Rule::H10, faults.sets_negative_width)
        .with(Rule::H09, faults.sets_adjacent)
        .with(Rule::H08, faults.ends_untouched)
        .with(Rule::P11, faults.moves_again)
        .with(Rule::P10, faults.segments.lacks_extreme)
        .with(Rule::P09, faults.segments.is_flat)
        .with(Rule::P08, faults.segments.goes_straight_on)
        .with(Rule::P07, faults.segments.turns_back)
        .with(Rule::P06, faults.segments.has_no_length)
        .with(Rule::P05, faults.ends_clockwise)
        .with(Rule::P04, faults.segments.is_outside)
}
