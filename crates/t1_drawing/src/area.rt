//! The signed area of a drawing, segment by segment: Type 1 Font Format 1.1, chapter 3.

ghost use Rattle.std.specs.Prelude.{◌≡◌, ◌*◌, ◌<◌, ◌≤◌, ◌+ℤ◌, true, List, [], ◌∷◌, ◌++◌, length};
ghost use Rattle.t1_outline.specs.declared.segment.Segment.{Segment as Segments};
ghost use Rattle.t1_rules.specs.Watches.{IsWithin};
ghost use Rattle.t1_drawing.specs.Areas.{curve_area, drawn_area, is_close, is_close_coordinate, is_drawn_close, line_area, runs_clockwise, widest};
ghost use Rattle.t1_drawing.specs.Bounds.{most_segments};
ghost use Rattle.t1_drawing.specs.Points.{cross, way};
ghost use Rattle.t1_drawing.specs.Private.Areas.{AreClose, IsClose, IsDrawnClose, IsWide, area_after, beyond_chord, most_area, most_cross, most_wide_cross, together};
ghost use Rattle.t1_drawing.specs.Private.Standing.{AreaStandsFor, SomeAreaStandsFor};

use crate::points::{cross, way};
use t1_char::GREATEST;
use t1_outline::{ORIGIN, Segment};
use t1_rules::Point;

/// The signed area of the segments so far, in units of 1/65536 from side to side.
#[derive(Clone, Copy, Debug, PartialEq, Eq)]
pub(crate) struct Area {
    /// Where the subpath began.
    began: Point,
    /// Where the last segment ended.
    end: Point,
    /// Twenty times the area, but for the line that closes the last subpath.
    twentyfold: i128,
}

impl Area {
    /// Before the first segment.
    pub(crate) fn start() -> Area
        ensures { AreaStandsFor result [] }
    {
        Area {
            began: ORIGIN,
            end: ORIGIN,
            twentyfold: 0,
        }
    }

    /// Goes on by a further segment.
    fn see(&mut self, segment: Segment)
        requires began { IsClose self.old.began }
        requires end { IsClose self.old.end }
        requires within { IsWithin (most_segments * most_area) self.old.twentyfold }
        requires segment { IsDrawnClose segment }
        ensures { self.new ≡ area_after self.old segment }
    {
        match segment {
            Segment::Move(point) => {
                self.twentyfold = self.closed();
                self.began = point;
                self.end = point;
            }
            Segment::Line(end) => self.lead_to(end, line_area(self.end, end)),
            Segment::Curve(one, two, end) => {
                self.lead_to(end, curve_area(self.end, one, two, end));
            }
            Segment::Close => {
                self.twentyfold = self.closed();
                self.end = self.began;
            }
        }
    }

    /// Goes on by a line or a curve to a point, which has so much area.
    fn lead_to(&mut self, end: Point, more: i128)
        requires within { IsWithin (most_segments * most_area) self.old.twentyfold }
        requires more { IsWithin most_area more }
        ensures { self.new ≡ record { began = self.old.began; end = end; twentyfold = self.old.twentyfold +ℤ more } }
    {
        self.twentyfold = sum(self.twentyfold, more);
        self.end = end;
    }

    /// Twenty times the area, with the line that closes the last subpath.
    fn closed(self) -> i128
        requires began { IsClose self.began }
        requires end { IsClose self.end }
        requires within { IsWithin (most_segments * most_area) self.twentyfold }
        ensures { result ≡ self.twentyfold +ℤ line_area self.end self.began }
    {
        sum(self.twentyfold, line_area(self.end, self.began))
    }
}

/// Goes on by a further segment; there is no area once a point is too far from the origin.
pub(crate) fn see_in(area: &mut Option<Area>, segment: Segment)
    requires { (before : List Segments) × (SomeAreaStandsFor area.old before × (length before < most_segments)) }
    ensures { (before : List Segments) → SomeAreaStandsFor area.old before → length before < most_segments →
        SomeAreaStandsFor area.new (before ++ segment ∷ []) }
{
    if !is_drawn_close(segment) {
        *area = None;
        return;
    }
    if let Some(area) = area {
        area.see(segment);
    }
}

/// Twenty times the area of all segments, if all points are close enough to the origin.
pub(crate) fn drawn_area(area: Option<Area>) -> Option<i128>
    requires { (before : List Segments) × (SomeAreaStandsFor area before × (length before ≤ most_segments)) }
    ensures { (before : List Segments) → SomeAreaStandsFor area before → length before ≤ most_segments →
        result ≡ drawn_area before }
{
    match area {
        Some(area) => Some(area.closed()),
        None => None,
    }
}

/// P05: whether there is an area, and it is below 0.
pub(crate) fn is_clockwise(area: Option<Area>) -> bool
    requires { (before : List Segments) × (SomeAreaStandsFor area before × (length before ≤ most_segments)) }
    ensures { (before : List Segments) → SomeAreaStandsFor area before → length before ≤ most_segments →
        result ≡ runs_clockwise before }
{
    match area {
        Some(area) => area.closed() < 0,
        None => false,
    }
}

/// Whether a coordinate is at most 32000 units from 0.
fn is_close_coordinate(place: i64) -> bool
    ensures { result ≡ is_close_coordinate place }
{
    (-GREATEST <= place) & (place <= GREATEST)
}

fn is_close(point: Point) -> bool
    ensures value { result ≡ is_close point }
    ensures close { result ≡ true → IsClose point }
{
    is_close_coordinate(point.x) & is_close_coordinate(point.y)
}

/// Whether all points of a segment are close enough to the origin.
fn is_drawn_close(segment: Segment) -> bool
    ensures value { result ≡ is_drawn_close segment }
    ensures close { result ≡ true → IsDrawnClose segment }
{
    match segment {
        Segment::Move(point) => is_close(point),
        Segment::Line(end) => is_close(end),
        Segment::Curve(one, two, end) => is_close(one) & is_close(two) & is_close(end),
        Segment::Close => true,
    }
}

/// The area so far, and that of a segment.
fn sum(area: i128, more: i128) -> i128
    requires area { IsWithin (most_segments * most_area) area }
    requires more { IsWithin most_area more }
    ensures { result ≡ area +ℤ more }
{
    area + more
}

fn close_cross(one: Point, other: Point) -> i128
    requires one { IsClose one }
    requires other { IsClose other }
    ensures value { result ≡ cross one other }
    ensures within { IsWithin most_cross result }
{
    cross(one, other)
}

/// Twenty times the area between the origin and a line.
#[tactic(auto, unfolding(crate::specs::Areas::line_area))]
fn line_area(start: Point, end: Point) -> i128
    requires start { IsClose start }
    requires end { IsClose end }
    ensures value { result ≡ line_area start end }
    ensures within { IsWithin most_area result }
{
    10 * close_cross(start, end)
}

/// Twenty times the area between the origin and a curve: that of its chord, and that between the two, which takes fewer products
/// than the sum by the points themselves.
fn curve_area(start: Point, one: Point, two: Point, end: Point) -> i128
    requires { AreClose start one two end }
    ensures value { result ≡ curve_area start one two end }
    ensures within { IsWithin most_area result }
{
    sum(beyond_chord_of(start, one, two, end), line_area(start, end))
}

/// Twenty times the area between a curve and its chord.
fn beyond_chord_of(start: Point, one: Point, two: Point, end: Point) -> i128
    requires { AreClose start one two end }
    ensures value { result ≡ beyond_chord (way start one) (way start two) (way start end) }
    ensures within { IsWithin (6 * most_wide_cross) result }
{
    beyond_chord(
        close_way(start, one),
        close_way(start, two),
        close_way(start, end),
    )
}

/// The same by the ways from the curve's start to its other points.
fn beyond_chord(one: Point, two: Point, end: Point) -> i128
    requires one { IsWide 2 one }
    requires two { IsWide 2 two }
    requires end { IsWide 2 end }
    ensures value { result ≡ beyond_chord one two end }
    ensures within { IsWithin (6 * most_wide_cross) result }
{
    3 * (cross_of_sum(one, two, end) + cross_of_sum(two, end, end))
}

/// The way between two points that are close to the origin.
fn close_way(start: Point, end: Point) -> Point
    requires start { IsClose start }
    requires end { IsClose end }
    ensures value { result ≡ way start end }
    ensures wide { IsWide 2 result }
{
    way(start, end)
}

/// Two ways, one after the other.
fn together(one: Point, other: Point) -> Point
    requires one { IsWide 2 one }
    requires other { IsWide 2 other }
    ensures value { result ≡ together one other }
    ensures wide { IsWide 4 result }
{
    Point {
        x: plus(one.x, other.x),
        y: plus(one.y, other.y),
    }
}

fn plus(one: i64, other: i64) -> i64
    requires one { IsWithin (2 * widest) one }
    requires other { IsWithin (2 * widest) other }
    ensures value { result ≡ one +ℤ other }
    ensures within { IsWithin (4 * widest) result }
{
    one + other
}

/// The cross product of a way and two others together.
fn cross_of_sum(way: Point, one: Point, other: Point) -> i128
    requires way { IsWide 2 way }
    requires one { IsWide 2 one }
    requires other { IsWide 2 other }
    ensures value { result ≡ cross way (together one other) }
    ensures within { IsWithin most_wide_cross result }
{
    wide_cross(way, together(one, other))
}

fn wide_cross(one: Point, other: Point) -> i128
    requires one { IsWide 4 one }
    requires other { IsWide 4 other }
    ensures value { result ≡ cross one other }
    ensures within { IsWithin most_wide_cross result }
{
    cross(one, other)
}
