//! Segments of an outline.

ghost use Rattle.std.specs.Prelude.{◌≡◌, ◌≤◌, [], ◌∷◌, length};
ghost use Rattle.t1_outline.specs.Outlines.{with_opening};

use arrayvec::ArrayVec;
use t1_rules::Point;

/// A segment of an outline. Lines and curves begin where the segment before them ends.
#[derive(Clone, Copy, Debug, PartialEq, Eq)]
pub enum Segment {
    /// A subpath begins here.
    Move(Point),
    /// A straight line to this point.
    Line(Point),
    /// A Bézier curve: its two control points, and its end.
    Curve(Point, Point, Point),
    /// The subpath is closed by a straight line to its first point.
    Close,
}

/// How many segments one step draws at most: a flex without a subpath begins one and draws two curves.
pub const MOST_SEGMENTS: usize = 3;

/// What one step draws, in the order in which it is drawn.
pub type Segments = ArrayVec<Segment, MOST_SEGMENTS>;

// What a list without segments keeps in its places.
impl Default for Segment {
    fn default() -> Segment {
        Segment::Close
    }
}

/// A list of one segment.
pub(crate) fn one(segment: Segment) -> Segments
    ensures { result.items ≡ segment ∷ [] }
{
    let mut segments = ArrayVec::new();
    segments.push(segment);
    segments
}

/// Lines and curves, which begin a subpath where there is none.
pub(crate) fn with_opening(there: bool, start: Point, strokes: &[Segment]) -> Segments
    requires { length strokes.now ≤ 2 }
    ensures { result.items ≡ with_opening there start strokes.now }
{
    let mut segments = ArrayVec::new();
    if !there {
        segments.push(Segment::Move(start));
    }
    // This can't fail: there is room for a move and two curves.
    let _fits = segments.try_extend_from_slice(strokes);
    segments
}
