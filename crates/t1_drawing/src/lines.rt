//! Segments of no length, and lines that should be one: Type 1 Font Format 1.1, chapter 3.

ghost use Rattle.std.specs.Prelude.{◌≡◌, ◌*◌, IfSome};
ghost use Rattle.t1_rules.specs.Watches.{IsNear};
ghost use Rattle.t1_drawing.specs.Bounds.{IsDrawnNear, most_ways};
ghost use Rattle.t1_drawing.specs.Lines.{has_no_length_from, leads_back, leads_on, two_lines};

use crate::points::{dot, is_same, is_straight, way};
use t1_outline::Segment;
use t1_rules::Point;

/// P06: whether all points of a line or a curve are equal.
pub(crate) fn has_no_length(start: Option<Point>, segment: Segment) -> bool
    ensures { result ≡ has_no_length_from start segment }
{
    let Some(start) = start else {
        return false;
    };
    match segment {
        Segment::Line(end) => is_same(start, end),
        Segment::Curve(one, two, end) => {
            is_same(start, one) & is_same(start, two) & is_same(start, end)
        }
        _ => false,
    }
}

/// Whether a way leads straight back after another.
fn leads_back(one: Point, other: Point) -> bool
    requires one { IsNear (2 * most_ways) one }
    requires other { IsNear (2 * most_ways) other }
    ensures { result ≡ leads_back one other }
{
    is_straight(one, other) && dot(one, other) < 0
}

/// Whether it leads straight on.
fn leads_on(one: Point, other: Point) -> bool
    requires one { IsNear (2 * most_ways) one }
    requires other { IsNear (2 * most_ways) other }
    ensures { result ≡ leads_on one other }
{
    is_straight(one, other) && dot(one, other) > 0
}

/// P07: whether a line turns back on the line right before it, by where the two lines begin.
pub(crate) fn turns_back(first: Option<Point>, second: Option<Point>, segment: Segment) -> bool
    requires first { IfSome first (IsNear most_ways) }
    requires second { IfSome second (IsNear most_ways) }
    requires segment { IsDrawnNear segment }
    ensures { result ≡ two_lines leads_back first second segment }
{
    let (Some(first), Some(second), Segment::Line(end)) = (first, second, segment) else {
        return false;
    };
    leads_back(way(first, second), way(second, end))
}

/// P08: whether a line goes straight on from the line right before it.
pub(crate) fn goes_straight_on(
    first: Option<Point>,
    second: Option<Point>,
    segment: Segment,
) -> bool
    requires first { IfSome first (IsNear most_ways) }
    requires second { IfSome second (IsNear most_ways) }
    requires segment { IsDrawnNear segment }
    ensures { result ≡ two_lines leads_on first second segment }
{
    let (Some(first), Some(second), Segment::Line(end)) = (first, second, segment) else {
        return false;
    };
    leads_on(way(first, second), way(second, end))
}
