//! Which stems lines and curves touch: Type 1 Font Format 1.1, chapter 5. Numbers are units of character space, and expected values are worked out by
//! hand.

use crate::direction::Direction;
use crate::stem_edges::{are_some_adjacent, one_is_negative};
use crate::touching::{TouchWatcher, add};
use t1_char::UNIT;
use t1_outline::Segment;
use t1_rules::{MOST_STEMS, Point, Stem};

/// A coordinate of so many units.
fn units(count: i32) -> i64 {
    i64::from(count) * UNIT
}

fn at(x: i32, y: i32) -> Point {
    Point {
        x: units(x),
        y: units(y),
    }
}

/// What is drawn.
#[derive(Clone, Copy, Debug)]
enum Kind {
    /// To 200 100.
    Line,
    /// From 0 0 to 100 0, by 0 100 and 100 100: up to 75 at its middle.
    Curve,
    Move,
    Close,
}

impl Kind {
    fn segment(self) -> Segment {
        match self {
            Kind::Line => Segment::Line(at(200, 100)),
            Kind::Curve => Segment::Curve(at(0, 100), at(100, 100), at(100, 0)),
            Kind::Move => Segment::Move(at(200, 100)),
            Kind::Close => Segment::Close,
        }
    }
}

/// What is drawn, from x and y that are this number both, edges of a stem, and whether one of them is touched.
type Row = (Direction, i32, Kind, i32, i32, bool);

const ROWS: &[Row] = &[
    (Direction::Across, 100, Kind::Line, 100, 200, true),
    (Direction::Across, 100, Kind::Line, 300, 320, false),
    // Eleven units off, and ten.
    (Direction::Across, 100, Kind::Line, 89, 289, false),
    (Direction::Across, 100, Kind::Line, 90, 290, true),
    (Direction::Across, 100, Kind::Line, 0, 90, true),
    (Direction::Across, 100, Kind::Line, 111, 300, false),
    (Direction::Across, 100, Kind::Line, 110, 300, true),
    // By both ends of the line.
    (Direction::Upright, 100, Kind::Line, 189, 400, false),
    (Direction::Upright, 100, Kind::Line, 190, 400, true),
    (Direction::Upright, 100, Kind::Line, 110, 400, true),
    (Direction::Upright, 100, Kind::Line, 150, 400, false),
    // Where the curve may have its extreme, ends included.
    (Direction::Across, 0, Kind::Curve, 50, 400, true),
    (Direction::Across, 0, Kind::Curve, 100, 400, true),
    (Direction::Across, 0, Kind::Curve, 101, 400, false),
    (Direction::Across, 0, Kind::Curve, -300, -11, false),
    (Direction::Across, 0, Kind::Curve, -300, -10, true),
    // Its points don't go beyond its ends in x.
    (Direction::Upright, 0, Kind::Curve, 50, 400, false),
    // What draws nothing.
    (Direction::Across, 100, Kind::Move, 100, 200, false),
    (Direction::Across, 100, Kind::Close, 100, 200, false),
];

#[test]
fn edges_that_are_touched(rt: HostRuntime) {
    for (direction, start, kind, low, high, wanted) in ROWS {
        let found = match direction.extent(Some(at(*start, *start)), &kind.segment()) {
            Some(extent) => extent.reach().touches_one(units(*low), units(*high)),
            None => false,
        };
        assert_eq!(rt; found, *wanted, "{kind:?} {low} {high}");
    }
}

/// After closepath no line begins.
#[test]
fn lines_without_a_start(rt: HostRuntime) {
    assert!(rt;
        Direction::Across
            .extent(None, &Kind::Line.segment())
            .is_none()
    );
}

#[test]
fn stems_are_touched_after_they_were_set(rt: HostRuntime) {
    let mut watcher = TouchWatcher::start();
    add(&mut watcher.across, units(100), units(200));
    watcher.across_done = false;
    watcher.upright_done = false;
    // Nothing is drawn yet.
    assert!(rt; !watcher.leaves_untouched());
    watcher.draw_all(&[Segment::Move(at(100, 300)), Segment::Line(at(100, 400))]);
    assert!(rt; watcher.leaves_untouched());
    watcher.draw_all(&[Segment::Line(at(100, 195))]);
    assert!(rt; !watcher.leaves_untouched());
    // A stem that is set later isn't touched by what was drawn before, but by the next line from there.
    add(&mut watcher.upright, units(100), units(150));
    watcher.across_done = false;
    watcher.upright_done = false;
    assert!(rt; watcher.leaves_untouched());
    watcher.draw_all(&[Segment::Line(at(300, 195))]);
    assert!(rt; !watcher.leaves_untouched());
}

/// Each pair of edges counts once, and there are 96 at most.
#[test]
fn stems_of_a_glyph(rt: HostRuntime) {
    let mut watcher = TouchWatcher::start();
    for number in 0..200_i32 {
        add(&mut watcher.across, units(number), units(300));
        add(&mut watcher.upright, 0, UNIT);
    }
    assert_eq!(rt; watcher.across.len(), MOST_STEMS);
    assert_eq!(rt; watcher.upright.len(), 1);
}

/// Positions and widths of stems that a step sets, of one that is in force, and whether two of them share an edge.
type Stems = (&'static [(i32, i32)], (i32, i32), bool);

const STEMS: &[Stems] = &[
    (&[(50, 50)], (0, 50), true),
    (&[(0, 50)], (50, 50), true),
    (&[(51, 50)], (0, 50), false),
    (&[(49, 50)], (0, 50), false),
    // A negative width leads from the upper edge to the lower one.
    (&[(100, -50)], (0, 50), true),
    // Without a width, or of one edge.
    (&[(50, 0)], (0, 50), false),
    (&[(70, -20)], (0, 50), false),
    (&[(71, -21)], (0, 50), false),
    (&[(72, -22)], (0, 50), true),
    // Two of the three that a step sets.
    (&[(0, 10), (20, 10), (30, 10)], (500, 10), true),
    (&[(0, 10), (20, 10), (40, 10)], (500, 10), false),
    (&[(0, 10), (20, 10), (40, 10)], (50, 10), true),
];

fn stem(parts: (i32, i32)) -> Stem {
    let (position, width) = parts;
    Stem {
        position: position.wrapping_mul(65_536),
        width: width.wrapping_mul(65_536),
    }
}

/// The stems of a step, one or three.
fn own(parts: &[(i32, i32)]) -> [Stem; 3] {
    match parts {
        [one, two, three] => [stem(*one), stem(*two), stem(*three)],
        [one, ..] => [stem(*one), Stem::default(), Stem::default()],
        [] => [Stem::default(), Stem::default(), Stem::default()],
    }
}

#[test]
fn stems_that_share_an_edge(rt: HostRuntime) {
    for (parts, other, wanted) in STEMS {
        let found = are_some_adjacent(&own(parts), &[stem(*other)]);
        assert_eq!(rt; found, *wanted, "{parts:?} {other:?}");
    }
}

/// Widths of a stem, and whether it breaks H10.
const WIDTHS: &[(i32, bool)] = &[
    (-100, true),
    (-1, true),
    (0, false),
    (1, false),
    (-19, true),
    (-20, false),
    (-21, false),
    (-22, true),
];

#[test]
fn stems_of_negative_width(rt: HostRuntime) {
    for (width, wanted) in WIDTHS {
        let found = one_is_negative(&own(&[(200, 10), (0, 10), (100, *width)]));
        assert_eq!(rt; found, *wanted, "{width}");
    }
}
