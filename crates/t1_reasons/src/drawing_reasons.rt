//! Reasons of the rules on the drawing: Type 1 Font Format 1.1, chapters 2, 3 and 5.

ghost use Rattle.std.specs.Prelude.{◌≡◌, find};
ghost use Rattle.t1_reasons.specs.DrawingReasons.{are_beyond, area_of_drawing, beyond_at, beyond_of, beyonds_along, breaks_rule, fault_of, first_beyond, or_nothing, outside_of, told_of_segment, told_of_segments};

use crate::reason::{Reason, SubpathTurns};
use t1_drawing::{
    Direction, FontBox, SegmentFaults, TracedSegment, at_half, at_quarter, end_of, is_beyond,
};
use t1_outline::Segment;
use t1_rules::{Point, Rule};

/// A reason, or that there is nothing more to tell.
pub(crate) fn or_nothing(reason: Option<Reason>) -> Reason
    ensures { result ≡ or_nothing reason }
{
    reason.unwrap_or(Reason::Nothing)
}

/// The area of a drawing, if it is asked for, and which of its subpaths run clockwise.
pub(crate) fn area_of_drawing(area: Option<i128>, turns: SubpathTurns) -> Reason
    ensures { result ≡ area_of_drawing area turns }
{
    match area {
        Some(twentyfold) => Reason::Area { twentyfold, turns },
        None => Reason::Nothing,
    }
}

/// What a rule tells of the first of a step's segments that breaks it.
pub(crate) fn told_of_segments(
    font_box: Option<FontBox>,
    rule: Rule,
    segments: &[TracedSegment],
) -> Reason
    ensures { result ≡ told_of_segments font_box rule segments.now }
{
    match first_such(rule, segments) {
        Some(segment) => told_of_segment(font_box, rule, segment),
        None => Reason::Nothing,
    }
}

/// The first of some segments that breaks a rule.
fn first_such(rule: Rule, segments: &[TracedSegment]) -> Option<TracedSegment>
    ensures { result ≡ find (breaks_rule rule) segments.now }
{
    let mut rest = segments;
    while let [segment, others @ ..] = rest {
        if fault_of(rule, segment.faults) {
            return Some(*segment);
        }
        rest = others;
    }
    None
}

/// Whether a rule speaks of one of the faults of a segment.
fn fault_of(rule: Rule, faults: SegmentFaults) -> bool
    ensures { result ≡ fault_of rule faults }
{
    match rule {
        Rule::P04 => faults.is_outside,
        Rule::P06 => faults.has_no_length,
        Rule::P07 => faults.turns_back,
        Rule::P08 => faults.goes_straight_on,
        Rule::P09 => faults.is_flat,
        Rule::P10 => faults.lacks_extreme,
        _ => false,
    }
}

/// What a rule tells of a segment that breaks it.
fn told_of_segment(font_box: Option<FontBox>, rule: Rule, traced: TracedSegment) -> Reason
    ensures { result ≡ told_of_segment font_box rule traced }
{
    match rule {
        Rule::P04 => outside_of(font_box, end_of(traced.segment)),
        Rule::P10 => beyond_of(traced.start, traced.segment),
        _ => Reason::Stroke {
            line_start: traced.line_start,
            start: traced.start,
            segment: traced.segment,
        },
    }
}

/// A point outside FontBBox.
fn outside_of(font_box: Option<FontBox>, point: Option<Point>) -> Reason
    ensures { result ≡ outside_of font_box point }
{
    match (font_box, point) {
        (Some(font_box), Some(point)) => Reason::Outside { point, font_box },
        _ => Reason::Nothing,
    }
}

/// The first coordinate of a curve that is beyond both of its ends, if there is one.
fn beyond_of(start: Option<Point>, segment: Segment) -> Reason
    ensures { result ≡ beyond_of start segment }
{
    match (start, segment) {
        (Some(start), Segment::Curve(one, two, end)) => or_nothing(beyond(start, one, two, end)),
        _ => Reason::Nothing,
    }
}

/// The same by the points of a curve, x before y.
fn beyond(start: Point, one: Point, two: Point, end: Point) -> Option<Reason>
    ensures { result ≡ first_beyond start one two end }
{
    beyond_along(Direction::Upright, start.x, one.x, two.x, end.x).or(beyond_along(
        Direction::Across,
        start.y,
        one.y,
        two.y,
        end.y,
    ))
}

/// The same of one coordinate, at 1/4, 1/2 and 3/4 of the curve's parameter.
fn beyond_along(direction: Direction, start: i64, one: i64, two: i64, end: i64) -> Option<Reason>
    ensures { result ≡ find are_beyond (beyonds_along direction start one two end) }
{
    let quarter = at_quarter(start, one, two, end);
    let half = at_half(start, one, two, end);
    let three_quarters = at_quarter(end, two, one, start);
    if is_beyond(start, end, quarter) {
        Some(beyond_at(direction, 1, start, end, quarter))
    } else if is_beyond(start, end, half) {
        Some(beyond_at(direction, 2, start, end, half))
    } else if is_beyond(start, end, three_quarters) {
        Some(beyond_at(direction, 3, start, end, three_quarters))
    } else {
        None
    }
}

/// A coordinate at so many quarters, 64 times.
fn beyond_at(direction: Direction, quarters: u8, start: i64, end: i64, place: i128) -> Reason
    ensures { result ≡ beyond_at direction quarters start end place }
{
    Reason::Beyond {
        direction,
        quarters,
        place,
        start,
        end,
    }
}
