//! Where a stem that nothing touches is set, and what is drawn nearest to it, H08: Type 1 Font Format 1.1, chapter 5.

ghost use Rattle.std.specs.Prelude.{◌≡◌, ◌+◌, ◌+ℤ◌, if◌then◌else◌, is_some, List, [], ◌∷◌, ◌++◌, length};
ghost use Rattle.std.specs.List.{flat_map, fold, list_any};
ghost use Rattle.std.specs.Ordering.{int_eq};
ghost use Rattle.t1_char.specs.Steps.{StepView};
ghost use Rattle.t1_char.specs.StepValues.{step_view};
ghost use Rattle.t1_drawing.specs.declared.touching.UntouchedStem.{UntouchedStem as Stems};
ghost use Rattle.t1_drawing.specs.Private.Watching.{point_on};
ghost use Rattle.t1_drawing.specs.Touching.{coordinate, high_edge, low_edge};
ghost use Rattle.t1_reasons.specs.DrawingReasons.{stem_told};
ghost use Rattle.t1_reasons.specs.Private.Searching.{StemSearched};
ghost use Rattle.t1_reasons.specs.StemSearches.{distance, ends_at, ends_of_traced, has_edges, nearer, nearer_end, sets_from, stroke_end};
ghost use Rattle.t1_rules.specs.StepRules.Stems.{stems_of};
ghost use Rattle.t1_rules.specs.StepRules.Tokens.{is_hsbw};

use crate::reason::Reason;
use t1_char::{CharToken, Command, Step};
use t1_drawing::{Direction, TracedSegment, UntouchedStem};
use t1_outline::Segment;
use t1_rules::{
    Point, Stem, is_triple, lies_across, sets_width, stands_upright, stem_at, three_stems,
};

/// Looks for the first step that sets a stem, and for what later steps draw nearest to it.
#[derive(Clone, Copy, Debug, PartialEq, Eq)]
pub(crate) struct StemSearch {
    stem: UntouchedStem,
    /// Edges are counted from there.
    sidebearing: Point,
    step: Option<u32>,
    nearest: Option<i64>,
}

impl StemSearch {
    /// Before the first step.
    pub(crate) fn start(stem: UntouchedStem) -> StemSearch
        ensures { StemSearched stem result [] }
    {
        StemSearch {
            stem,
            sidebearing: Point { x: 0, y: 0 },
            step: None,
            nearest: None,
        }
    }

    /// Goes past the step of a number, by what it draws.
    pub(crate) fn see(&mut self, number: u32, step: &Step, segments: &[TracedSegment])
        ensures { (stem : Stems) (before : List StepView) → StemSearched stem self.old before → number ≡ length before + 1 →
            flat_map (ends_of_traced stem.direction) segments.now ≡ ends_at stem.direction before (step_view step.now) →
            StemSearched stem self.new (before ++ step_view step.now ∷ []) }
    {
        self.nearest = self.nearest_after(segments);
        self.step = self.step.or(self.is_set_by(step).then_some(number));
        self.sidebearing = sidebearing_after(self.sidebearing, step);
    }

    /// What is found.
    pub(crate) fn told(&self) -> Reason
        ensures { result ≡ stem_told self.now.stem self.now.step self.now.nearest }
    {
        Reason::Untouched {
            stem: self.stem,
            step: self.step.unwrap_or(0),
            nearest: self.nearest,
        }
    }

    /// Whether a step sets the stem.
    fn is_set_by(&self, step: &Step) -> bool
        ensures { result ≡ sets_from self.now.stem self.now.sidebearing (step_view step.now) }
    {
        let is_of_direction = match self.stem.direction {
            Direction::Across => lies_across(step.token),
            Direction::Upright => stands_upright(step.token),
        };
        is_of_direction && self.is_one_of(step)
    }

    /// Whether it is one of a step's stems, if these lie in its direction.
    fn is_one_of(&self, step: &Step) -> bool
        ensures { result ≡ list_any (has_edges self.now.stem (coordinate self.now.stem.direction self.now.sidebearing)) (stems_of (step_view step.now)) }
    {
        if is_triple(step.token) {
            let [one, two, three] = three_stems(step);
            self.has_edges(one) | self.has_edges(two) | self.has_edges(three)
        } else {
            self.has_edges(stem_at(step, 0))
        }
    }

    /// Whether a stem that lies in its direction has its edges.
    fn has_edges(&self, own: Stem) -> bool
        ensures { result ≡ has_edges self.now.stem (coordinate self.now.stem.direction self.now.sidebearing) own }
    {
        let start = self.stem.direction.coordinate(self.sidebearing);
        is_at(self.stem.low, low_edge(start, own)) & is_at(self.stem.high, high_edge(start, own))
    }

    /// The nearest end, with those of a step's segments if the stem is set before it.
    fn nearest_after(&self, segments: &[TracedSegment]) -> Option<i64>
        ensures { result ≡ (if is_some self.now.step
            then fold (nearer_end self.now.stem) self.now.nearest segments.now else self.now.nearest) }
    {
        if self.step.is_some() {
            self.nearest_with(segments)
        } else {
            self.nearest
        }
    }

    /// The nearest end, with those of segments more.
    fn nearest_with(&self, segments: &[TracedSegment]) -> Option<i64>
        ensures { result ≡ fold (nearer_end self.now.stem) self.now.nearest segments.now }
    {
        let mut best = self.nearest;
        for traced in segments {
            best = self.nearer_end(best, traced);
        }
        best
    }

    /// The nearest end, with those of a segment more.
    fn nearer_end(&self, best: Option<i64>, traced: &TracedSegment) -> Option<i64>
        ensures { result ≡ nearer_end self.now.stem best traced.now }
    {
        match (traced.start, stroke_end(traced.segment)) {
            (Some(start), Some(end)) => self.nearer(
                self.nearer(best, self.stem.direction.coordinate(start)),
                self.stem.direction.coordinate(end),
            ),
            _ => best,
        }
    }

    /// The nearer of two places, the first where both are equally near.
    fn nearer(&self, best: Option<i64>, place: i64) -> Option<i64>
        ensures { result ≡ nearer self.now.stem best place }
    {
        match best {
            Some(best) if self.distance(place) >= self.distance(best) => Some(best),
            _ => Some(place),
        }
    }

    /// How far a place is from the nearer edge.
    fn distance(&self, place: i64) -> u64
        ensures { result ≡ distance self.now.stem place }
    {
        place
            .abs_diff(self.stem.low)
            .min(place.abs_diff(self.stem.high))
    }
}

fn is_at(edge: i64, place: i128) -> bool
    ensures { result ≡ int_eq edge place }
{
    i128::from(edge) == place
}

/// Where a stem begins that counts from a place.
fn begin(start: i64, stem: Stem) -> i128
    ensures { result ≡ start +ℤ stem.position }
{
    i128::from(start) + i128::from(stem.position)
}

/// Where it ends.
fn end(start: i64, stem: Stem) -> i128
    ensures { result ≡ (start +ℤ stem.position) +ℤ stem.width }
{
    i128::from(start) + i128::from(stem.position) + i128::from(stem.width)
}

/// The lower or the left edge.
fn low_edge(start: i64, stem: Stem) -> i128
    ensures { result ≡ low_edge start stem }
{
    begin(start, stem).min(end(start, stem))
}

/// The upper or the right one.
fn high_edge(start: i64, stem: Stem) -> i128
    ensures { result ≡ high_edge start stem }
{
    begin(start, stem).max(end(start, stem))
}

/// Where a line or a curve ends.
fn stroke_end(segment: Segment) -> Option<Point>
    ensures { result ≡ stroke_end segment }
{
    match segment {
        Segment::Line(end) | Segment::Curve(_, _, end) => Some(end),
        Segment::Move(_) | Segment::Close => None,
    }
}

/// The sidebearing point after a step.
fn sidebearing_after(point: Point, step: &Step) -> Point
    ensures { result ≡ point_on point (step_view step.now) }
{
    if !sets_width(step.token) {
        return point;
    }
    let y = if is_hsbw(step.token) {
        0
    } else {
        step.argument(1)
    };
    Point {
        x: i64::from(step.argument(0)),
        y: i64::from(y),
    }
}

/// Whether a token is hsbw, which has no y.
fn is_hsbw(token: CharToken) -> bool
    ensures { result ≡ is_hsbw token }
{
    matches!(token, CharToken::Command(Command::Hsbw))
}
