//! Points and the ways between them, exactly: in units of 1/65536, and products in squares of these.

ghost use Rattle.std.specs.Prelude.{◌≡◌, ◌*◌, ◌^◌, ◌+ℤ◌, ◌-ℤ◌, ◌*ℤ◌, pos, IfSome};
ghost use Rattle.std.specs.Ordering.{int_eq};
ghost use Rattle.t1_outline.specs.Laws.Points.{end_of};
ghost use Rattle.t1_rules.specs.Watches.{IsNear, IsWithin, reach};
ghost use Rattle.t1_drawing.specs.Bounds.{IsDrawnNear, most_ways};
ghost use Rattle.t1_drawing.specs.Points.{cross, dot, is_on_line, is_same, way};
ghost use Rattle.t1_drawing.specs.Segments.{line_start_in};

use t1_outline::Segment;
use t1_rules::Point;

pub(crate) fn is_same(one: Point, other: Point) -> bool
    ensures { result ≡ is_same one other }
{
    (one.x == other.x) & (one.y == other.y)
}

/// How far a coordinate is from another.
fn difference(start: i64, end: i64) -> i64
    requires start { IsWithin (most_ways * reach) start }
    requires end { IsWithin (most_ways * reach) end }
    ensures value { result ≡ end -ℤ start }
    ensures within { IsWithin (2 * most_ways * reach) result }
{
    end - start
}

/// The way from one point to another: where it leads from the origin.
pub(crate) fn way(start: Point, end: Point) -> Point
    requires start { IsNear most_ways start }
    requires end { IsNear most_ways end }
    ensures value { result ≡ way start end }
    ensures near { IsNear (2 * most_ways) result }
{
    Point {
        x: difference(start.x, end.x),
        y: difference(start.y, end.y),
    }
}

/// The product of two coordinates of ways.
fn product(one: i64, other: i64) -> i128
    requires one { IsWithin (2 * most_ways * reach) one }
    requires other { IsWithin (2 * most_ways * reach) other }
    ensures value { result ≡ one *ℤ other }
    ensures within { IsWithin (2 ^ 120) result }
{
    let first = i128::from(one);
    let second = i128::from(other);
    first * second
}

fn less(one: i128, other: i128) -> i128
    requires one { IsWithin (2 ^ 120) one }
    requires other { IsWithin (2 ^ 120) other }
    ensures { result ≡ one -ℤ other }
{
    one - other
}

fn plus(one: i128, other: i128) -> i128
    requires one { IsWithin (2 ^ 120) one }
    requires other { IsWithin (2 ^ 120) other }
    ensures { result ≡ one +ℤ other }
{
    one + other
}

/// The cross product of two ways. It is above 0 where the second one leads to the left of the first.
#[tactic(auto, unfolding(crate::specs::Points::cross))]
pub(crate) fn cross(one: Point, other: Point) -> i128
    requires one { IsNear (2 * most_ways) one }
    requires other { IsNear (2 * most_ways) other }
    ensures { result ≡ cross one other }
{
    less(product(one.x, other.y), product(one.y, other.x))
}

/// The dot product of two ways.
#[tactic(auto, unfolding(crate::specs::Points::dot))]
pub(crate) fn dot(one: Point, other: Point) -> i128
    requires one { IsNear (2 * most_ways) one }
    requires other { IsNear (2 * most_ways) other }
    ensures { result ≡ dot one other }
{
    plus(product(one.x, other.x), product(one.y, other.y))
}

/// Whether a point is on the straight line through two others.
pub(crate) fn is_on_line(start: Point, end: Point, point: Point) -> bool
    requires start { IsNear most_ways start }
    requires end { IsNear most_ways end }
    requires point { IsNear most_ways point }
    ensures { result ≡ is_on_line start end point }
{
    is_straight(way(start, end), way(start, point))
}

/// Whether two ways are on one straight line.
pub(crate) fn is_straight(one: Point, other: Point) -> bool
    requires one { IsNear (2 * most_ways) one }
    requires other { IsNear (2 * most_ways) other }
    ensures { result ≡ int_eq (cross one other) (pos 0) }
{
    cross(one, other) == 0
}

/// Where a segment ends, unless it is closepath.
pub fn end_of(segment: Segment) -> Option<Point>
    ensures value { result ≡ end_of segment }
    ensures near { IsDrawnNear segment → IfSome result (IsNear most_ways) }
{
    match segment {
        Segment::Move(point) => Some(point),
        Segment::Line(end) => Some(end),
        Segment::Curve(_, _, end) => Some(end),
        Segment::Close => None,
    }
}

/// Where a segment begins, if it is a line.
pub(crate) fn line_start(start: Option<Point>, segment: Segment) -> Option<Point>
    ensures value { result ≡ line_start_in start segment }
    ensures near { IfSome start (IsNear most_ways) → IfSome result (IsNear most_ways) }
{
    match segment {
        Segment::Line(_) => start,
        _ => None,
    }
}
