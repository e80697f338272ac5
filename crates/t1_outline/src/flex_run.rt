//! A flex, from its start on: Type 1 Font Format 1.1, chapter 8.

ghost use Rattle.std.specs.Prelude.{◌≡◌, ◌&&◌, ◌||◌, not, false, [], ◌∷◌, ◌++◌, take};
ghost use Rattle.t1_char.specs.Arguments.{is_flex_start};
ghost use Rattle.t1_char.specs.StepValues.{step_view};
ghost use Rattle.t1_outline.specs.Outlines.{flex_curves};
ghost use Rattle.t1_outline.specs.Private.Drawing.{places_kept};

use crate::nib::Around;
use crate::segment::{Segment, Segments, with_opening};
use arrayvec::ArrayVec;
use t1_char::Step;
use t1_rules::Point;

/// How many places a flex has: that of its start, and those of its seven points.
const PLACES: usize = 8;

/// The flex that was started last: where it started and got its points, and whether it is spoiled.
#[derive(Drop)]
pub(crate) struct FlexRun {
    places: ArrayVec<Point, PLACES>,
    spoiled: bool,
}

impl FlexRun {
    /// Before the first step.
    pub(crate) fn start() -> FlexRun
        ensures places { result.places.items ≡ [] }
        ensures spoiled { result.spoiled ≡ false }
    {
        FlexRun {
            places: ArrayVec::new(),
            spoiled: false,
        }
    }

    /// Sees a step.
    pub(crate) fn see(&mut self, step: &Step, around: Around)
        ensures places { self.new.places.items ≡ places_kept self.old.places.items around.start (step_view step.now) }
        ensures spoiled { self.new.spoiled
            ≡ (around.spoils_flex || (self.old.spoiled && not (is_flex_start (step_view step.now) && not around.is_in_flex))) }
    {
        let starts = step.starts_flex();
        self.spoiled = around.spoils_flex | (self.spoiled & !(starts & !around.is_in_flex));
        if starts {
            self.places.clear();
            self.places.push(around.start);
        } else if step.gives_flex_point() {
            keep(&mut self.places, around.start);
        }
    }

    /// Whether it can't be drawn any more.
    pub(crate) fn is_spoiled(&self) -> bool
        ensures { result ≡ self.now.spoiled }
    {
        self.spoiled
    }

    /// The two curves, through the places of the points but the first, which is the reference point.
    pub(crate) fn curves(&self, there: bool) -> Segments
        ensures { result.items ≡ flex_curves there self.now.places.items }
    {
        if let [start, _, a, b, c, d, e, f] = self.places.as_slice() {
            let first = Segment::Curve(*a, *b, *c);
            let second = Segment::Curve(*d, *e, *f);
            with_opening(there, *start, &[first, second])
        } else {
            ArrayVec::new()
        }
    }
}

/// Keeps a place, while there are fewer than eight: a flex of more isn't drawn.
fn keep(places: &mut ArrayVec<Point, PLACES>, point: Point)
    ensures { places.new.items ≡ take 8 (places.old.items ++ point ∷ []) }
{
    if !places.is_full() {
        places.push(point);
    }
}
