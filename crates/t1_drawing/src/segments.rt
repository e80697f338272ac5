//! The segments of a glyph, those of one step after another.

ghost use Rattle.std.specs.Prelude.{◌≡◌, ◌<◌, ◌≤◌, Option, List, [], ◌∷◌, ◌++◌, length};
ghost use Rattle.t1_outline.specs.declared.segment.Segment.{Segment as Segments};
ghost use Rattle.t1_drawing.specs.declared.font_box.FontBox.{FontBox as Boxes};
ghost use Rattle.t1_drawing.specs.Areas.{drawn_area, runs_clockwise};
ghost use Rattle.t1_drawing.specs.Bounds.{CanBeDrawn, most_drawn};
ghost use Rattle.t1_drawing.specs.Drawings.{faults_at, faults_in, traced};
ghost use Rattle.t1_drawing.specs.Private.Standing.{SegmentsStandFor};

use crate::area::{Area, drawn_area, is_clockwise, see_in};
use crate::curves::{is_flat, lacks_extreme};
use crate::faults::SegmentFaults;
use crate::font_box::{FontBox, Limits, ends_outside};
use crate::lines::{goes_straight_on, has_no_length, turns_back};
use crate::points::{end_of, line_start};
use arrayvec::ArrayVec;
use t1_outline::{MOST_SEGMENTS, Segment};
use t1_rules::Point;

/// Watches for P04 to P10, as far as segments alone decide.
#[derive(Clone, Copy, Debug, PartialEq, Eq)]
pub(crate) struct SegmentWatcher {
    limits: Option<Limits>,
    /// Whether a line or a curve ended outside it.
    was_outside: bool,
    /// Where the last segment ended, unless it is closepath: there the next line or curve begins.
    start: Option<Point>,
    /// Where the last segment began, if it is a line.
    line_start: Option<Point>,
    /// The signed area; none once a point was too far from the origin.
    area: Option<Area>,
}

/// A segment that a step draws, where it and the line right before it begin, and which rules it breaks.
#[derive(Clone, Copy, Debug, Default, PartialEq, Eq)]
pub struct TracedSegment {
    /// Where the line right before it begins, if there is one.
    pub line_start: Option<Point>,
    /// Where it begins, if something that isn't closepath is right before it.
    pub start: Option<Point>,
    pub segment: Segment,
    pub faults: SegmentFaults,
}

/// What a step draws, in order.
pub type TracedSegments = ArrayVec<TracedSegment, MOST_SEGMENTS>;

/// Keeps a further segment, as far as a step draws so many.
fn keep(segments: &mut TracedSegments, segment: TracedSegment)
    ensures { length segments.old.items < most_drawn → segments.new.items ≡ segments.old.items ++ segment ∷ [] }
{
    if segments.len() < MOST_SEGMENTS {
        segments.push(segment);
    }
}

impl SegmentWatcher {
    /// Before the first segment. Without a box nothing is outside.
    pub(crate) fn start(font_box: Option<FontBox>) -> SegmentWatcher
        ensures { SegmentsStandFor font_box result [] }
    {
        SegmentWatcher {
            limits: Limits::of(font_box),
            was_outside: false,
            start: None,
            line_start: None,
            area: Some(Area::start()),
        }
    }

    /// Sees what a step draws, given that it saw what the steps before drew. Returns what the step breaks.
    pub(crate) fn see(&mut self, here: &[Segment]) -> SegmentFaults
        requires { (box : Option Boxes) × ((before : List Segments) ×
            (SegmentsStandFor box self.old before × CanBeDrawn before here.now)) }
        ensures faults { (box : Option Boxes) (before : List Segments) →
            SegmentsStandFor box self.old before → CanBeDrawn before here.now →
            result ≡ faults_in box before here.now }
        ensures stands { (box : Option Boxes) (before : List Segments) →
            SegmentsStandFor box self.old before → CanBeDrawn before here.now →
            SegmentsStandFor box self.new (before ++ here.now) }
    {
        let mut faults = SegmentFaults::none();
        for segment in here {
            faults = faults.join(self.see_one(*segment));
        }
        faults
    }

    /// What a step draws, each segment with what it breaks, given what the steps before drew; of more segments than a step draws the
    /// first ones.
    pub(crate) fn traced(self, here: &[Segment]) -> TracedSegments
        requires { (box : Option Boxes) × ((before : List Segments) ×
            (SegmentsStandFor box self before × CanBeDrawn before here.now)) }
        ensures { (box : Option Boxes) (before : List Segments) →
            SegmentsStandFor box self before → CanBeDrawn before here.now → length here.now ≤ most_drawn →
            result.items ≡ traced box before here.now }
    {
        let mut watcher = self;
        let mut segments = ArrayVec::new();
        for segment in here {
            let (line_start, start) = (watcher.line_start, watcher.start);
            let faults = watcher.see_one(*segment);
            let traced = TracedSegment {
                line_start,
                start,
                segment: *segment,
                faults,
            };
            keep(&mut segments, traced);
        }
        segments
    }

    /// P05: whether the subpaths together run clockwise, at the end of the glyph.
    pub(crate) fn runs_clockwise(&self) -> bool
        requires { (box : Option Boxes) × ((before : List Segments) × SegmentsStandFor box self.now before) }
        ensures { (box : Option Boxes) (before : List Segments) →
            SegmentsStandFor box self.now before → result ≡ runs_clockwise before }
    {
        is_clockwise(self.area)
    }

    /// Twenty times the signed area, if all points are close enough to the origin.
    pub(crate) fn area(&self) -> Option<i128>
        requires { (box : Option Boxes) × ((before : List Segments) × SegmentsStandFor box self.now before) }
        ensures { (box : Option Boxes) (before : List Segments) →
            SegmentsStandFor box self.now before → result ≡ drawn_area before }
    {
        drawn_area(self.area)
    }

    /// Sees one segment.
    #[inline(always)]
    pub(crate) fn see_one(&mut self, segment: Segment) -> SegmentFaults
        requires { (box : Option Boxes) × ((before : List Segments) ×
            (SegmentsStandFor box self.old before × CanBeDrawn before (segment ∷ []))) }
        ensures faults { (box : Option Boxes) (before : List Segments) →
            SegmentsStandFor box self.old before → CanBeDrawn before (segment ∷ []) →
            result ≡ faults_at box before segment }
        ensures stands { (box : Option Boxes) (before : List Segments) →
            SegmentsStandFor box self.old before → CanBeDrawn before (segment ∷ []) →
            SegmentsStandFor box self.new (before ++ segment ∷ []) }
    {
        let ends_outside = ends_outside(self.limits, segment);
        let faults = SegmentFaults {
            is_outside: ends_outside & !self.was_outside,
            has_no_length: has_no_length(self.start, segment),
            turns_back: turns_back(self.line_start, self.start, segment),
            goes_straight_on: goes_straight_on(self.line_start, self.start, segment),
            is_flat: is_flat(self.start, segment),
            lacks_extreme: lacks_extreme(self.start, segment),
        };
        self.was_outside = self.was_outside | ends_outside;
        self.line_start = line_start(self.start, segment);
        self.start = end_of(segment);
        see_in(&mut self.area, segment);
        faults
    }
}
