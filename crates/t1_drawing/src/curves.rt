//! Curves that are straight, and curves that go beyond their ends: Type 1 Font Format 1.1, chapter 3.

ghost use Rattle.std.specs.Prelude.{◌≡◌, ◌^◌, ◌+ℤ◌, ◌*ℤ◌, int_le, pos, IfSome};
ghost use Rattle.t1_rules.specs.Watches.{IsNear, IsWithin};
ghost use Rattle.t1_drawing.specs.Bounds.{IsDrawnNear, most_ways};
ghost use Rattle.t1_drawing.specs.Curves.{at_half, at_quarter, goes_beyond, is_beyond, is_beyond_at_half, is_beyond_at_quarter, is_flat_from, lacks_extreme_from, three_units};
ghost use Rattle.std.specs.Int.{int_max, int_min};
ghost use Rattle.t1_drawing.specs.Private.Between.{are_between};
ghost use Rattle.t1_drawing.specs.Touching.{is_between};

use crate::points::{is_on_line, is_same};
use crate::touching::is_between;
use t1_char::UNIT;
use t1_outline::Segment;
use t1_rules::Point;

/// Three units of character space, in units of 1/65536, 64 times.
const THREE_UNITS: i128 = 64 * (3 * UNIT as i128);

/// P09: whether a curve's ends are two points, with its control points on the straight line through them.
pub(crate) fn is_flat(start: Option<Point>, segment: Segment) -> bool
    requires start { IfSome start (IsNear most_ways) }
    requires segment { IsDrawnNear segment }
    ensures { result ≡ is_flat_from start segment }
{
    let (Some(start), Segment::Curve(one, two, end)) = (start, segment) else {
        return false;
    };
    !is_same(start, end) && (is_on_line(start, end, one) && is_on_line(start, end, two))
}

/// P10: whether a curve has an extreme between its ends.
pub(crate) fn lacks_extreme(start: Option<Point>, segment: Segment) -> bool
    ensures { result ≡ lacks_extreme_from start segment }
{
    let (Some(start), Segment::Curve(one, two, end)) = (start, segment) else {
        return false;
    };
    goes_beyond(start.x, one.x, two.x, end.x) | goes_beyond(start.y, one.y, two.y, end.y)
}

/// Whether a coordinate is three units or more beyond both ends at 1/4, 1/2 or 3/4 of the curve's parameter.
fn goes_beyond(start: i64, one: i64, two: i64, end: i64) -> bool
    ensures { result ≡ goes_beyond start one two end }
{
    // Most curves stay between their ends.
    if are_between(start, one, two, end) {
        return false;
    }
    is_beyond_at_quarter(start, one, two, end)
        | is_beyond_at_half(start, one, two, end)
        | is_beyond_at_quarter(end, two, one, start)
}

/// Whether the coordinates of both control points are between those of the ends.
fn are_between(start: i64, one: i64, two: i64, end: i64) -> bool
    ensures { result ≡ are_between start one two end }
{
    is_within(start, one, end) & is_within(start, two, end)
}

/// Whether a coordinate is between those of the ends.
fn is_within(start: i64, place: i64, end: i64) -> bool
    ensures { result ≡ is_between (int_min start end) place (int_max start end) }
{
    is_between(start.min(end), place, start.max(end))
}

fn is_beyond_at_quarter(start: i64, one: i64, two: i64, end: i64) -> bool
    ensures { result ≡ is_beyond_at_quarter start one two end }
{
    is_beyond(start, end, at_quarter(start, one, two, end))
}

fn is_beyond_at_half(start: i64, one: i64, two: i64, end: i64) -> bool
    ensures { result ≡ is_beyond_at_half start one two end }
{
    is_beyond(start, end, at_half(start, one, two, end))
}

/// Whether a coordinate of a curve, 64 times, is three units or more above those of both ends, or below both.
#[tactic(auto, unfolding(crate::specs::Curves::is_beyond))]
pub fn is_beyond(start: i64, end: i64, place: i128) -> bool
    requires { IsWithin (2 ^ 80) place }
    ensures { result ≡ is_beyond start end place }
{
    let start = sixty_fourfold(start);
    let end = sixty_fourfold(end);
    (is_above(start, place) & is_above(end, place))
        | (is_above(place, start) & is_above(place, end))
}

fn sixty_fourfold(coordinate: i64) -> i128
    ensures value { result ≡ pos 64 *ℤ coordinate }
    ensures within { IsWithin (2 ^ 80) result }
{
    64 * i128::from(coordinate)
}

/// Whether a place is three units or more above another. Both are 64 times what they are.
fn is_above(other: i128, place: i128) -> bool
    requires { IsWithin (2 ^ 80) other }
    ensures { result ≡ int_le (other +ℤ pos three_units) place }
{
    other + THREE_UNITS <= place
}

/// 64 times the coordinate of a curve at 1/4 of its parameter, by those of its start, its control points and its end.
#[tactic(auto, unfolding(crate::specs::Curves::at_quarter))]
pub fn at_quarter(start: i64, one: i64, two: i64, end: i64) -> i128
    ensures value { result ≡ at_quarter start one two end }
    ensures within { IsWithin (2 ^ 80) result }
{
    sum(twenty_sevenfold(start, one), nine_and_one(two, end))
}

/// 64 times that at 1/2.
#[tactic(auto, unfolding(crate::specs::Curves::at_half))]
pub fn at_half(start: i64, one: i64, two: i64, end: i64) -> i128
    ensures value { result ≡ at_half start one two end }
    ensures within { IsWithin (2 ^ 80) result }
{
    sum(eightfold(start, end), twenty_fourfold(one, two))
}

fn twenty_sevenfold(one: i64, other: i64) -> i128
    ensures value { result ≡ pos 27 *ℤ (one +ℤ other) }
    ensures within { IsWithin (2 ^ 79) result }
{
    27 * (i128::from(one) + i128::from(other))
}

fn eightfold(one: i64, other: i64) -> i128
    ensures value { result ≡ pos 8 *ℤ (one +ℤ other) }
    ensures within { IsWithin (2 ^ 79) result }
{
    8 * (i128::from(one) + i128::from(other))
}

fn twenty_fourfold(one: i64, other: i64) -> i128
    ensures value { result ≡ pos 24 *ℤ (one +ℤ other) }
    ensures within { IsWithin (2 ^ 79) result }
{
    24 * (i128::from(one) + i128::from(other))
}

fn nine_and_one(one: i64, other: i64) -> i128
    ensures value { result ≡ pos 9 *ℤ one +ℤ other }
    ensures within { IsWithin (2 ^ 79) result }
{
    9 * i128::from(one) + i128::from(other)
}

fn sum(one: i128, other: i128) -> i128
    requires one { IsWithin (2 ^ 79) one }
    requires other { IsWithin (2 ^ 79) other }
    ensures value { result ≡ one +ℤ other }
    ensures within { IsWithin (2 ^ 80) result }
{
    one + other
}
