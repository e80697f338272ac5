//! The subpath that is being drawn.

ghost use Rattle.std.specs.Prelude.{◌≡◌};
ghost use Rattle.t1_picture.specs.Subpaths.{begun_at, behind, drawn_to, gone_on, has_length_with, leads_to, no_subpath, placed, point_or, same_point};

use t1_outline::{ORIGIN, Segment};
use t1_rules::Point;

/// Where a subpath began, and how far it was drawn.
#[derive(Clone, Copy, Debug, PartialEq, Eq)]
pub(crate) struct Subpath {
    /// Its first point.
    pub(crate) first: Point,
    /// Its last point.
    pub(crate) end: Point,
    /// Whether a line or a curve of it was drawn, and it wasn't closed.
    pub(crate) is_drawn: bool,
    /// Whether a line or a curve of some length was.
    pub(crate) has_length: bool,
}

impl Subpath {
    /// None is begun.
    pub(crate) fn new() -> Subpath
        ensures { result ≡ no_subpath }
    {
        Subpath::at(ORIGIN)
    }

    /// One is begun at a point.
    pub(crate) fn at(start: Point) -> Subpath
        ensures { result ≡ begun_at start }
    {
        Subpath {
            first: start,
            end: start,
            is_drawn: false,
            has_length: false,
        }
    }

    /// Goes on by a segment.
    pub(crate) fn go_on(&mut self, segment: Segment)
        ensures { self.new ≡ gone_on self.old segment }
    {
        *self = match segment {
            Segment::Move(to) => Subpath::at(to),
            Segment::Line(to) | Segment::Curve(_, _, to) => self.drawn_to(segment, to),
            Segment::Close => Subpath::at(self.first),
        };
    }

    /// It, with a line or a curve more, which ends at a point.
    fn drawn_to(&self, segment: Segment, end: Point) -> Subpath
        ensures { result ≡ drawn_to self.now segment end }
    {
        Subpath {
            first: self.first,
            end,
            is_drawn: true,
            has_length: self.has_length_with(segment),
        }
    }

    /// Whether a line or a curve of some length was drawn, or this one is one.
    fn has_length_with(&self, segment: Segment) -> bool
        ensures { result ≡ has_length_with self.now segment }
    {
        self.has_length | leads_to(self.first, segment).is_some()
    }
}

/// Where a line or a curve leads: to the first of its points that isn't where its subpath begins. It has no length, if there is none.
pub(crate) fn leads_to(first: Point, segment: Segment) -> Option<Point>
    ensures { result ≡ leads_to first segment }
{
    match segment {
        Segment::Line(to) => point_or(first, to, None),
        Segment::Curve(one, two, to) => {
            let last = point_or(first, to, None);
            point_or(first, one, point_or(first, two, last))
        }
        Segment::Move(_) | Segment::Close => None,
    }
}

/// A point, if it isn't where a subpath begins; else another one, if there is one.
fn point_or(first: Point, point: Point, other: Option<Point>) -> Option<Point>
    ensures { result ≡ point_or first point other }
{
    if is_same(first, point) {
        other
    } else {
        Some(point)
    }
}

pub(crate) fn is_same(one: Point, other: Point) -> bool
    ensures { result ≡ same_point one other }
{
    one.x == other.x && one.y == other.y
}

/// A point relative to another one.
pub(crate) fn behind(origin: Point, point: Point) -> Point
    ensures { result ≡ behind origin point }
{
    Point {
        x: origin.x.saturating_add(point.x),
        y: origin.y.saturating_add(point.y),
    }
}

/// A segment of a glyph whose origin is at a point.
pub(crate) fn placed(origin: Point, segment: Segment) -> Segment
    ensures { result ≡ placed origin segment }
{
    match segment {
        Segment::Move(to) => Segment::Move(behind(origin, to)),
        Segment::Line(to) => Segment::Line(behind(origin, to)),
        Segment::Curve(first, second, to) => Segment::Curve(
            behind(origin, first),
            behind(origin, second),
            behind(origin, to),
        ),
        Segment::Close => Segment::Close,
    }
}
