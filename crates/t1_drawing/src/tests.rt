//! Drawings as lists of segments. Expected values are worked out by hand.

ghost use Rattle.std.specs.Prelude.{◌≡◌, true, []};
ghost use Rattle.std.specs.List.{All};
ghost use Rattle.t1_rules.specs.Watches.{IsNear};
ghost use Rattle.t1_drawing.specs.Bounds.{CanBeDrawn, IsDrawnNear, most_ways};
ghost use Rattle.t1_drawing.specs.Private.Standing.{SegmentsStandFor};

use crate::faults::SegmentFaults;
use crate::font_box::FontBox;
use crate::segments::SegmentWatcher;
use t1_outline::Segment;
use t1_outline::Segment::{Close, Curve, Line, Move};
use t1_rules::Point;

const CLEAN: SegmentFaults = SegmentFaults {
    is_outside: false,
    has_no_length: false,
    turns_back: false,
    goes_straight_on: false,
    is_flat: false,
    lacks_extreme: false,
};

/// FontBBox {0 0 1000 1000}.
const BOX: FontBox = FontBox {
    left: 0,
    bottom: 0,
    right: 1_000_000_000_000,
    top: 1_000_000_000_000,
};

/// A point in units of character space.
fn at(x: i32, y: i32) -> Point {
    Point {
        x: i64::from(x) * 65536,
        y: i64::from(y) * 65536,
    }
}

/// A point so many 65536ths of a unit above another.
fn above(x: i32, y: i32, parts: i32) -> Point {
    Point {
        x: i64::from(x) * 65536,
        y: i64::from(y) * 65536 + i64::from(parts),
    }
}

/// A point so many 65536ths of a unit to the right of another.
fn right_of(x: i32, y: i32, parts: i32) -> Point {
    Point {
        x: i64::from(x) * 65536 + i64::from(parts),
        y: i64::from(y) * 65536,
    }
}

fn is_near(point: Point) -> bool
    ensures { result ≡ true → IsNear most_ways point }
{
    let far = 1_000_000_000_000_000;
    (-far < point.x) & (point.x < far) & (-far < point.y) & (point.y < far)
}

fn is_drawn_near(segment: Segment) -> bool
    ensures { result ≡ true → IsDrawnNear segment }
{
    match segment {
        Move(point) | Line(point) => is_near(point),
        Curve(one, two, end) => is_near(one) & is_near(two) & is_near(end),
        Close => true,
    }
}

fn are_drawn_near(segments: &[Segment]) -> bool
    ensures { result ≡ true → All IsDrawnNear segments.now }
{
    segments.iter().all(|segment| is_drawn_near(*segment))
}

/// A watcher that saw what the steps before drew.
fn seen(font_box: Option<FontBox>, before: &[Segment]) -> SegmentWatcher
    requires { CanBeDrawn [] before.now }
    ensures { SegmentsStandFor font_box result before.now }
{
    let mut watcher = SegmentWatcher::start(font_box);
    let _faults = watcher.see(before);
    watcher
}

/// What a step breaks after what the steps before drew, if all of it can be drawn.
fn faults_after(
    font_box: Option<FontBox>,
    before: &[Segment],
    here: &[Segment],
) -> Option<SegmentFaults> {
    let are_few = (before.len() < 1000) & (here.len() < 1000);
    if !are_few || !are_drawn_near(before) || !are_drawn_near(here) {
        return None;
    }
    let mut watcher = seen(font_box, before);
    Some(watcher.see(here))
}

/// What a step breaks.
fn faults(before: &[Segment], here: &[Segment]) -> Option<SegmentFaults> {
    faults_after(Some(BOX), before, here)
}

/// Whether a drawing runs clockwise.
fn is_clockwise(segments: &[Segment]) -> bool {
    if segments.len() >= 1000 || !are_drawn_near(segments) {
        return false;
    }
    seen(None, segments).runs_clockwise()
}

#[test]
fn a_box_is_clean(rt: HostRuntime) {
    let start = [Move(at(100, 100))];
    let one = [Line(at(200, 100))];
    let lines = [Line(at(200, 200)), Line(at(100, 200)), Close];
    assert!(rt; faults(&[], &start) == Some(CLEAN));
    assert!(rt; faults(&start, &one) == Some(CLEAN));
    assert!(rt; faults(&[start[0], one[0]], &lines) == Some(CLEAN));
    assert!(rt; !is_clockwise(&[start[0], one[0], lines[0], lines[1], lines[2]]));
}

#[test]
fn lines_after_lines(rt: HostRuntime) {
    let before = [Move(at(100, 100)), Line(at(150, 100))];
    let straight_on = SegmentFaults {
        goes_straight_on: true,
        ..CLEAN
    };
    let back = SegmentFaults {
        turns_back: true,
        ..CLEAN
    };
    assert!(rt; faults(&before, &[Line(at(200, 100))]) == Some(straight_on));
    assert!(rt; faults(&before, &[Line(above(200, 100, 1))]) == Some(CLEAN));
    assert!(rt; faults(&before, &[Line(at(120, 100))]) == Some(back));
    assert!(rt; faults(&before, &[Line(above(120, 100, 1))]) == Some(CLEAN));
}

#[test]
fn moves_and_curves_part_lines(rt: HostRuntime) {
    let moved = [Move(at(100, 100)), Line(at(150, 100)), Move(at(150, 100))];
    let curved = [
        Move(at(100, 100)),
        Line(at(150, 100)),
        Curve(at(160, 110), at(170, 110), at(180, 100)),
    ];
    let closed = [Move(at(100, 100)), Line(at(150, 100)), Close];
    assert!(rt; faults(&moved, &[Line(at(200, 100))]) == Some(CLEAN));
    assert!(rt; faults(&curved, &[Line(at(200, 100))]) == Some(CLEAN));
    assert!(rt; faults(&closed, &[Line(at(200, 100))]) == Some(CLEAN));
}

#[test]
fn segments_of_no_length(rt: HostRuntime) {
    let before = [Move(at(100, 100))];
    let empty = SegmentFaults {
        has_no_length: true,
        ..CLEAN
    };
    let point = at(100, 100);
    assert!(rt; faults(&before, &[Line(point)]) == Some(empty));
    assert!(rt; faults(&before, &[Curve(point, point, point)]) == Some(empty));
    assert!(rt; faults(&before, &[Curve(point, at(101, 100), point)]) == Some(CLEAN));
    // The next line has no line of a length before it.
    let with_empty = [before[0], Line(point)];
    assert!(rt; faults(&with_empty, &[Line(at(200, 100))]) == Some(CLEAN));
}

#[test]
fn flat_curves(rt: HostRuntime) {
    let before = [Move(at(100, 100))];
    let flat = SegmentFaults {
        is_flat: true,
        ..CLEAN
    };
    let straight = Curve(at(110, 100), at(130, 100), at(160, 100));
    let bent = Curve(at(110, 100), above(130, 100, 1), at(160, 100));
    let also_bent = Curve(above(110, 100, -1), at(130, 100), at(160, 100));
    assert!(rt; faults(&before, &[straight]) == Some(flat));
    assert!(rt; faults(&before, &[bent]) == Some(CLEAN));
    assert!(rt; faults(&before, &[also_bent]) == Some(CLEAN));
    // Its ends are one point.
    let back = Curve(at(101, 100), at(102, 100), at(100, 100));
    assert!(rt; faults(&before, &[back]) == Some(CLEAN));
}

#[test]
fn curves_without_extremes(rt: HostRuntime) {
    let lacks = SegmentFaults {
        lacks_extreme: true,
        ..CLEAN
    };
    // At the middle y is (100 + 3 * 200 + 3 * 200 + 100) / 8 = 175.
    let before = [Move(at(100, 100)), Line(at(200, 100))];
    let high = Curve(at(200, 200), at(100, 200), at(100, 100));
    assert!(rt; faults(&before, &[high]) == Some(lacks));
    // Just three units above both ends at the middle, and a little less.
    let start = [Move(at(100, 100))];
    let three = Curve(at(120, 104), at(180, 104), at(200, 100));
    let less = Curve(at(120, 104), above(180, 104, -1), at(200, 100));
    assert!(rt; faults(&start, &[three]) == Some(lacks));
    assert!(rt; faults(&start, &[less]) == Some(CLEAN));
    // The same below, and from side to side.
    let below = Curve(at(120, 96), at(180, 96), at(200, 100));
    let less_below = Curve(at(120, 96), above(180, 96, 1), at(200, 100));
    assert!(rt; faults(&start, &[below]) == Some(lacks));
    assert!(rt; faults(&start, &[less_below]) == Some(CLEAN));
    let right = Curve(at(104, 120), at(104, 180), at(100, 200));
    let less_right = Curve(right_of(104, 120, -1), at(104, 180), at(100, 200));
    assert!(rt; faults(&start, &[right]) == Some(lacks));
    assert!(rt; faults(&start, &[less_right]) == Some(CLEAN));
    // At 1/4 it is (27 * 100 + 27 * 108 + 9 * 100 + 99) / 64 = 103 and 23/64, at the middle (100 + 3 * 108 + 3 * 100 + 99) / 8 = 102 and 7/8.
    let early = Curve(at(110, 108), at(150, 100), at(200, 99));
    assert!(rt; faults(&start, &[early]) == Some(lacks));
    // Its control points are far above, and the curve is not: at the middle it is 102 and 5/8.
    let control = Curve(at(120, 107), at(180, 100), at(200, 100));
    assert!(rt; faults(&start, &[control]) == Some(CLEAN));
}

#[test]
fn a_flex(rt: HostRuntime) {
    let before = [Move(at(100, 0))];
    let first = Curve(at(120, 0), at(130, 3), at(150, 3));
    let second = Curve(at(170, 3), at(180, 0), at(200, 0));
    assert!(rt; faults(&before, &[first, second]) == Some(CLEAN));
    // Its middle is outside. At 1/2 the y of its curves is -36, which isn't beyond both 0 and -297.
    let outside = SegmentFaults {
        is_outside: true,
        ..CLEAN
    };
    let low = Curve(at(120, 0), at(130, 3), at(150, -297));
    assert!(rt; faults(&before, &[low, second]) == Some(outside));
    // Both curves lack an extreme: one fault of the step.
    let lacks = SegmentFaults {
        lacks_extreme: true,
        ..CLEAN
    };
    let wide = Curve(at(100, 80), at(150, 80), at(150, 0));
    let as_wide = Curve(at(150, 80), at(200, 80), at(200, 0));
    assert!(rt; faults(&before, &[wide, as_wide]) == Some(lacks));
}

#[test]
fn points_outside(rt: HostRuntime) {
    let outside = SegmentFaults {
        is_outside: true,
        ..CLEAN
    };
    let before = [Move(at(950, 100))];
    let past = [Line(at(1001, 100))];
    assert!(rt; faults(&before, &past) == Some(outside));
    assert!(rt; faults(&before, &[Line(right_of(1001, 100, -1))]) == Some(CLEAN));
    assert!(rt; faults(&before, &[Line(at(950, 1001))]) == Some(outside));
    assert!(rt; faults(&before, &[Line(at(-1, 300))]) == Some(outside));
    assert!(rt; faults(&before, &[Line(right_of(-1, 300, 1))]) == Some(CLEAN));
    assert!(rt; faults(&before, &[Line(at(940, -1))]) == Some(outside));
    // The first alone is reported, a move isn't, nor a control point.
    assert!(rt; faults(&[before[0], past[0]], &[Line(at(1001, 300))]) == Some(CLEAN));
    assert!(rt; faults(&before, &[Move(at(2000, 2000))]) == Some(CLEAN));
    let control = Curve(at(960, 1002), at(970, 990), at(980, 995));
    assert!(rt; faults(&before, &[control]) == Some(CLEAN));
}

#[test]
fn boxes(rt: HostRuntime) {
    let billion = 1_000_000_000;
    assert!(rt; FontBox::of(&[0, 0, 1000 * billion, 1000 * billion]) == Some(BOX));
    assert!(rt; FontBox::of(&[0, 0, 0, 0]).is_none());
    assert!(rt; FontBox::of(&[0, 0, 0, 1]).is_some());
    assert!(rt; FontBox::of(&[1, 0, 0, 1]).is_none());
    assert!(rt; FontBox::of(&[0, 1, 1, 0]).is_none());
    assert!(rt; FontBox::of(&[0, 0, 1]).is_none());
    assert!(rt; FontBox::of(&[0, 0, 1, 1, 1]).is_none());
}

#[test]
fn clockwise(rt: HostRuntime) {
    let corners = [
        Move(at(100, 100)),
        Line(at(100, 200)),
        Line(at(200, 200)),
        Line(at(200, 100)),
        Close,
    ];
    assert!(rt; is_clockwise(&corners));
    assert!(rt; is_clockwise(&corners[..4]));
    // Anticlockwise by its closing line alone: without it twenty times the area would be 20 * -4950 in place of 20 * 50.
    let open = [Move(at(1000, 10)), Line(at(990, 10)), Line(at(1000, 0))];
    assert!(rt; !is_clockwise(&open));
    let two = [
        Move(at(1000, 10)),
        Line(at(990, 10)),
        Line(at(1000, 0)),
        Move(at(0, 0)),
    ];
    assert!(rt; !is_clockwise(&two));
    // From the curve's start to its end and back there is no area: all of it is between the curve and that line.
    let arch = [
        Move(at(0, 0)),
        Curve(at(0, 100), at(100, 100), at(100, 0)),
        Close,
    ];
    let bowl = [
        Move(at(0, 0)),
        Curve(at(0, -100), at(100, -100), at(100, 0)),
        Close,
    ];
    assert!(rt; is_clockwise(&arch));
    assert!(rt; !is_clockwise(&bowl));
}

#[test]
fn far_points_have_no_direction(rt: HostRuntime) {
    let widest = [Move(at(0, 0)), Line(at(0, 32000)), Line(at(100, 0)), Close];
    let wider = [
        Move(at(0, 0)),
        Line(above(0, 32000, 1)),
        Line(at(100, 0)),
        Close,
    ];
    let moved = [
        Move(at(0, 0)),
        Line(at(0, 100)),
        Line(at(100, 0)),
        Move(at(-32001, 0)),
    ];
    let controlled = [
        Move(at(0, 0)),
        Curve(at(0, 100), at(32001, 100), at(100, 0)),
        Close,
    ];
    assert!(rt; is_clockwise(&widest));
    assert!(rt; !is_clockwise(&wider));
    assert!(rt; is_clockwise(&moved[..3]));
    assert!(rt; !is_clockwise(&moved));
    assert!(rt; !is_clockwise(&controlled));
}
