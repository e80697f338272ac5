//! What steps draw, by what the rules' watchers say of each: Type 1 Font Format 1.1, chapters 6 and 8.

ghost use Rattle.std.specs.Prelude.{◌≡◌, ◌<◌, ◌&&◌, ◌||◌, not, false, true, ℕ, IfSome, Some, List, [], ◌∷◌, ◌++◌};
ghost use Rattle.t1_char.specs.Steps.{StepView};
ghost use Rattle.t1_char.specs.StepValues.{step_view};
ghost use Rattle.t1_outline.specs.Laws.Points.{end_of};
ghost use Rattle.t1_outline.specs.Nibs.{IsAround};
ghost use Rattle.t1_outline.specs.Outlines.{begins_or_closes, drawn, drawn_by, stroke};
ghost use Rattle.t1_outline.specs.Private.Standing.{NibStandsFor};
ghost use Rattle.t1_outline.specs.Private.Drawing.{drawn_in, ends_whole, makes_subpath_in, moves_outside};
ghost use Rattle.t1_rules.specs.StepRules.Flex.{current_point};
ghost use Rattle.t1_rules.specs.StepRules.Paths.{in_flex};
ghost use Rattle.t1_rules.specs.StepRules.Tokens.{closes, is_line};
ghost use Rattle.t1_rules.specs.Watches.{IsNear, most_steps};

use crate::flex_run::FlexRun;
use crate::segment::{Segment, Segments, one, with_opening};
use crate::strokes::stroke;
use arrayvec::ArrayVec;
use t1_char::Step;
use t1_rules::{Point, closes, is_line, is_move};

/// What the rules' watchers say of a step.
#[derive(Clone, Copy, Debug, PartialEq, Eq)]
pub struct Around {
    /// The current point before it.
    pub start: Point,
    /// The current point after it.
    pub end: Point,
    /// Whether a flex was started before it, and not ended since.
    pub is_in_flex: bool,
    /// Whether it breaks X01, X03 or X04, as [`spoils_flex`](crate::spoils_flex) says: then a flex isn't drawn.
    pub spoils_flex: bool,
}

/// Sees the steps of a glyph one after another, from the first on, beside the rules' watchers, and returns what each
/// draws.
#[derive(Drop)]
pub struct Nib {
    run: FlexRun,
    /// Whether a subpath was begun, and not closed since.
    has_subpath: bool,
}

impl Nib {
    /// Before the first step.
    pub fn start() -> Nib
        ensures { NibStandsFor result [] }
    {
        Nib {
            run: FlexRun::start(),
            has_subpath: false,
        }
    }

    /// The line or the curve that the next step draws, given where the current point is before it, where that is all that changes: outside
    /// flex, and where a subpath was begun. The nib needn't see such a step.
    #[inline(always)]
    pub fn stroke(&self, step: &Step, start: Point) -> Option<Segment>
        requires { (n : ℕ) × (IsNear n start × (n < most_steps)) }
        ensures line { IfSome result (λ segment. is_line step.now.token ≡ true) }
        ensures end { (before : List StepView) → start ≡ current_point before →
            IfSome result (λ segment. end_of segment ≡ Some (current_point (before ++ step_view step.now ∷ []))) }
        ensures drawn { (before : List StepView) → NibStandsFor self.now before → start ≡ current_point before → in_flex before ≡ false →
            IfSome result (λ segment. drawn before (step_view step.now) ≡ segment ∷ []) }
        ensures stands { (before : List StepView) → NibStandsFor self.now before → in_flex before ≡ false →
            IfSome result (λ segment. NibStandsFor self.now (before ++ step_view step.now ∷ [])) }
    {
        if self.has_subpath {
            stroke(start, step)
        } else {
            None
        }
    }

    /// Whether the next step begins a subpath, or closes one that is there, if it is outside flex: then it draws nothing else.
    #[inline(always)]
    pub fn begins_or_closes(&self, step: &Step) -> bool
        ensures { (before : List StepView) → NibStandsFor self.now before → result ≡ begins_or_closes before (step_view step.now) }
    {
        is_move(step.token) | (closes(step.token) & self.has_subpath)
    }

    /// What a move or a closepath outside flex draws, given where the current point is after it, if it begins or closes a subpath.
    #[inline(always)]
    pub fn begin_or_close(&mut self, step: &Step, end: Point) -> Segment
        ensures drawn { (before : List StepView) → NibStandsFor self.old before → in_flex before ≡ false →
            begins_or_closes before (step_view step.now) ≡ true → end ≡ current_point (before ++ step_view step.now ∷ []) →
            drawn before (step_view step.now) ≡ result ∷ [] }
        ensures stands { (before : List StepView) → NibStandsFor self.old before → in_flex before ≡ false →
            begins_or_closes before (step_view step.now) ≡ true →
            NibStandsFor self.new (before ++ step_view step.now ∷ []) }
    {
        self.has_subpath = is_move(step.token);
        if self.has_subpath {
            Segment::Move(end)
        } else {
            Segment::Close
        }
    }

    /// What the next step draws, given the steps that were seen before.
    pub fn draw(&mut self, step: &Step, around: Around) -> Segments
        requires { (n : ℕ) × (IsNear n around.start × (n < most_steps)) }
        ensures drawn { (before : List StepView) →
            NibStandsFor self.old before → IsAround before (step_view step.now) around → result.items ≡ drawn before (step_view step.now) }
        ensures stands { (before : List StepView) →
            NibStandsFor self.old before → IsAround before (step_view step.now) around →
            NibStandsFor self.new (before ++ step_view step.now ∷ []) }
    {
        self.run.see(step, around);
        let segments = segments(step, around, &self.run, self.has_subpath);
        let makes = makes_subpath(step, around.is_in_flex, &self.run);
        self.has_subpath = makes | (self.has_subpath & !closes(step.token));
        segments
    }
}

/// What a step draws: by the current points before it and after it, whether it is in flex, and whether there is a
/// subpath.
fn segments(step: &Step, around: Around, run: &FlexRun, there: bool) -> Segments
    requires { (n : ℕ) × (IsNear n around.start × (n < most_steps)) }
    ensures { result.items
        ≡ drawn_in (step_view step.now) around.start around.end around.is_in_flex run.now.spoiled run.now.places.items there }
{
    if moves_outside(step, around.is_in_flex) {
        one(Segment::Move(around.end))
    } else if ends_whole(step, around.is_in_flex, run) {
        run.curves(there)
    } else {
        line_or_close(step, around.start, there)
    }
}

/// A line or a curve, or where the subpath is closed.
fn line_or_close(step: &Step, start: Point, there: bool) -> Segments
    requires { (n : ℕ) × (IsNear n start × (n < most_steps)) }
    ensures { result.items ≡ drawn_by there start (closes step.now.token) (stroke start (step_view step.now)) }
{
    if let Some(stroke) = stroke(start, step) {
        with_opening(there, start, &[stroke])
    } else if closes(step.token) & there {
        one(Segment::Close)
    } else {
        ArrayVec::new()
    }
}

fn moves_outside(step: &Step, in_flex: bool) -> bool
    ensures { result ≡ moves_outside in_flex (step_view step.now) }
{
    is_move(step.token) & !in_flex
}

/// Whether the step ends a flex that is drawn.
fn ends_whole(step: &Step, in_flex: bool, run: &FlexRun) -> bool
    ensures { result ≡ ends_whole in_flex run.now.spoiled (step_view step.now) }
{
    step.ends_flex() & in_flex & !run.is_spoiled()
}

/// Whether there is a subpath after the step, if it doesn't close it.
fn makes_subpath(step: &Step, in_flex: bool, run: &FlexRun) -> bool
    ensures { result ≡ makes_subpath_in (step_view step.now) in_flex run.now.spoiled }
{
    moves_outside(step, in_flex) | (is_line(step.token) | ends_whole(step, in_flex, run))
}
