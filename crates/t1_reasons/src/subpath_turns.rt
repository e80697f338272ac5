//! Which subpaths of a drawing run clockwise, P05: Type 1 Font Format 1.1, chapter 3.

ghost use Rattle.std.specs.Prelude.{◌≡◌, ◌<◌, ◌+◌, List, [], ◌∷◌, ◌++◌, length};
ghost use Rattle.std.specs.List.{list_any};
ghost use Rattle.t1_char.specs.Steps.{StepView};
ghost use Rattle.t1_drawing.specs.Areas.{drawn_area};
ghost use Rattle.t1_drawing.specs.Strokes.{segments_of};
ghost use Rattle.t1_reasons.specs.Private.Searching.{TurnsSearched, begun, with_last, with_one};
ghost use Rattle.t1_reasons.specs.SubpathTurns.{begins_subpath, lessens, moves, turns_of};
ghost use Rattle.t1_rules.specs.Watches.{most_steps};

use crate::reason::SubpathTurns;
use t1_drawing::TracedSegment;
use t1_outline::Segment;

/// The step that begins a subpath, and twenty times the area of what is drawn before, in squares of 1/65536.
#[derive(Clone, Copy, Debug, PartialEq, Eq)]
pub(crate) struct Beginning {
    step: u32,
    area: Option<i128>,
}

/// Looks for the subpaths that run clockwise.
#[derive(Clone, Copy, Debug, PartialEq, Eq)]
pub(crate) struct TurnSearch {
    /// How many subpaths there are, and which of those before the last one run clockwise.
    turns: SubpathTurns,
    last: Option<Beginning>,
    /// Twenty times the area of what is drawn.
    area: Option<i128>,
}

impl TurnSearch {
    /// Before the first step.
    pub(crate) fn start() -> TurnSearch
        ensures { TurnsSearched result [] }
    {
        TurnSearch {
            turns: SubpathTurns {
                subpaths: 0,
                clockwise: 0,
                first: 0,
            },
            last: None,
            area: Some(0),
        }
    }

    /// Goes past the step of a number, by what it draws, and twenty times the area of all that is drawn with it.
    pub(crate) fn see(&mut self, number: u32, segments: &[TracedSegment], area: Option<i128>)
        requires { (before : List StepView) × (TurnsSearched self.old before × (length before < most_steps)) }
        ensures { (before : List StepView) (step : StepView) → TurnsSearched self.old before → length before < most_steps →
            number ≡ length before + 1 → list_any (λ s. moves s.segment) segments.now ≡ begins_subpath before step →
            area ≡ drawn_area (segments_of (before ++ step ∷ [])) → TurnsSearched self.new (before ++ step ∷ []) }
    {
        if has_move(segments) {
            self.begin(number, area);
        } else {
            self.area = area;
        }
    }

    /// Begins a subpath, after which the area is this.
    fn begin(&mut self, number: u32, area: Option<i128>)
        requires subpaths { self.old.turns.subpaths < most_steps }
        requires clockwise { self.old.turns.clockwise < most_steps }
        ensures { self.new ≡ begun number area self.old }
    {
        let turns = self.turns();
        *self = TurnSearch {
            turns: SubpathTurns {
                subpaths: turns.subpaths + 1,
                ..turns
            },
            last: Some(Beginning {
                step: number,
                area: self.area,
            }),
            area,
        };
    }

    /// What is found, where the last subpath ends here.
    pub(crate) fn turns(&self) -> SubpathTurns
        requires { self.now.turns.clockwise < most_steps }
        ensures { result ≡ with_last self.now.turns self.now.last self.now.area }
    {
        match self.last {
            Some(subpath) if lessens(subpath.area, self.area) => with_one(self.turns, subpath.step),
            _ => self.turns,
        }
    }
}

/// Whether one of them is a move.
fn has_move(segments: &[TracedSegment]) -> bool
    ensures { result ≡ list_any (λ s. moves s.segment) segments.now }
{
    segments
        .iter()
        .any(|traced| matches!(traced.segment, Segment::Move(_)))
}

/// Whether an area is less after a subpath than before it.
fn lessens(before: Option<i128>, after: Option<i128>) -> bool
    ensures { result ≡ lessens before after }
{
    match (before, after) {
        (Some(before), Some(after)) => after < before,
        _ => false,
    }
}

/// One more that runs clockwise.
fn with_one(turns: SubpathTurns, step: u32) -> SubpathTurns
    requires { turns.clockwise < most_steps }
    ensures { result ≡ with_one turns step }
{
    SubpathTurns {
        subpaths: turns.subpaths,
        clockwise: turns.clockwise + 1,
        first: if turns.clockwise == 0 {
            step
        } else {
            turns.first
        },
    }
}
