//! What the fourth edition says of single lines and curves, P06 to P10, on both sides of each limit: Type 1 Font Format 1.1, chapter 3.

use crate::drawing::{Drawn, IN_BOX, assert_drawn};
use std::test::Fail;

/// Segments of no length, and lines after one.
const LENGTHS: &[Drawn] = &[
    (
        "100 100 rmoveto 0 0 rlineto 100 hlineto 100 vlineto closepath endchar",
        "",
        "A 9 P06",
    ),
    (
        "100 100 rmoveto 50 hlineto 0 hlineto 50 hlineto 100 vlineto closepath endchar",
        "",
        "A 10 P06",
    ),
    (
        "100 100 rmoveto 0 0 0 0 0 0 rrcurveto 100 hlineto 100 vlineto closepath endchar",
        "",
        "A 13 P06",
    ),
    (
        "100 100 rmoveto 100 hlineto 100 vlineto -100 hlineto -100 vlineto closepath endchar",
        "",
        "",
    ),
    // The current point is set elsewhere, and the line leads to where the last one ended.
    (
        "100 100 rmoveto 50 hlineto 150 200 setcurrentpoint -100 vlineto 100 vlineto -50 hlineto closepath endchar",
        "A 11 X06",
        "A 11 X06, A 13 P06",
    ),
];

/// Lines right behind lines. A move, a curve or a closepath parts them, and the line of closepath is none.
const LINES: &[Drawn] = &[
    (
        "100 100 rmoveto 10 20 rlineto 20 40 rlineto -100 hlineto closepath endchar",
        "",
        "A 12 P08",
    ),
    (
        "100 100 rmoveto 10 20 rlineto 20 41 rlineto -100 hlineto closepath endchar",
        "",
        "",
    ),
    (
        "100 100 rmoveto 20 40 rlineto -10 -20 rlineto -50 50 rlineto closepath endchar",
        "",
        "A 12 P07",
    ),
    (
        "100 100 rmoveto 50 hlineto 0 hmoveto 50 hlineto 100 vlineto closepath endchar",
        "A 10 P02",
        "A 10 P02",
    ),
    (
        "150 100 rmoveto 50 hlineto 0 hmoveto -50 hlineto -100 vlineto closepath endchar",
        "A 10 P02",
        "A 10 P02",
    ),
    (
        "100 100 rmoveto 50 hlineto 20 0 20 5 10 -5 rrcurveto 50 hlineto 100 vlineto closepath endchar",
        "",
        "",
    ),
    (
        "100 100 rmoveto 50 hlineto 20 0 20 5 10 -5 rrcurveto -30 hlineto 100 vlineto closepath endchar",
        "",
        "",
    ),
    (
        "100 100 rmoveto 50 hlineto closepath 0 hmoveto 50 hlineto 100 vlineto closepath endchar",
        "",
        "",
    ),
    (
        "100 100 rmoveto 50 hlineto closepath 50 hlineto 100 vlineto closepath endchar",
        "A 11 P01, A 13 P01",
        "A 11 P01, A 13 P01",
    ),
    (
        "100 100 rmoveto 100 hlineto 100 vlineto -100 hlineto -50 vlineto closepath endchar",
        "",
        "",
    ),
];

/// What draws nothing doesn't part lines.
const LINES_WITH_MORE_BETWEEN: &[Drawn] = &[
    (
        "100 100 rmoveto 50 hlineto 100 100 hstem 50 hlineto 100 vlineto -100 hlineto closepath endchar",
        "A 11 H01",
        "A 11 H01, A 13 P08",
    ),
    (
        "100 100 rmoveto 50 hlineto dotsection -20 hlineto 100 vlineto closepath endchar",
        "",
        "A 11 P07",
    ),
    (
        "100 100 rmoveto 50 hlineto 5 1 3 callothersubr pop callsubr 50 hlineto 100 vlineto -100 hlineto closepath endchar",
        "",
        "A 17 P08",
    ),
    (
        "100 100 rmoveto 50 hlineto 150 100 setcurrentpoint 50 hlineto 100 vlineto -100 hlineto closepath endchar",
        "A 11 X06",
        "A 11 X06, A 13 P08",
    ),
];

#[test]
fn lines_after_lines(rt: HostRuntime) -> Result<(), Fail> {
    assert_drawn(&rt, rt.alloc(), IN_BOX, LENGTHS)?;
    assert_drawn(&rt, rt.alloc(), IN_BOX, LINES)?;
    assert_drawn(&rt, rt.alloc(), IN_BOX, LINES_WITH_MORE_BETWEEN)
}

/// Control points on the straight line through a curve's ends, which are two points.
const FLAT_CURVES: &[Drawn] = &[
    (
        "100 100 rmoveto 10 20 10 20 10 20 rrcurveto -30 hlineto closepath endchar",
        "",
        "A 13 P09",
    ),
    (
        "100 100 rmoveto 0 0 30 0 0 0 rrcurveto 100 vlineto closepath endchar",
        "",
        "A 13 P09",
    ),
    (
        "100 100 rmoveto 10 0 30 0 -10 0 rrcurveto 100 vlineto closepath endchar",
        "",
        "A 13 P09",
    ),
    (
        "100 100 rmoveto 10 0 10 1 10 -1 rrcurveto 100 vlineto closepath endchar",
        "",
        "",
    ),
    (
        "100 100 rmoveto 10 1 10 -1 10 0 rrcurveto 100 vlineto closepath endchar",
        "",
        "",
    ),
    (
        "100 100 rmoveto 10 0 10 0 -20 0 rrcurveto 100 hlineto 100 vlineto closepath endchar",
        "",
        "A 13 P10",
    ),
];

#[test]
fn flat_curves(rt: HostRuntime) -> Result<(), Fail> {
    assert_drawn(&rt, rt.alloc(), IN_BOX, FLAT_CURVES)
}

/// Curves that are exactly three units above both ends at 1/2, at 1/4 and at 3/4, and a little less.
const HEIGHTS: &[Drawn] = &[
    (
        "100 100 rmoveto 10 4 10 0 10 -4 rrcurveto 100 vlineto -30 hlineto closepath endchar",
        "",
        "A 13 P10",
    ),
    (
        "100 100 rmoveto 10 4 10 -1 65536 div 10 -262143 65536 div rrcurveto 100 vlineto -30 hlineto closepath endchar",
        "",
        "",
    ),
    (
        "100 100 rmoveto 10 7 10 -6 10 -7 rrcurveto 100 vlineto -30 hlineto closepath endchar",
        "",
        "A 13 P10",
    ),
    (
        "100 100 rmoveto 10 7 10 -6 10 -8 rrcurveto 100 vlineto -30 hlineto closepath endchar",
        "",
        "",
    ),
    (
        "100 100 rmoveto 10 7 10 6 10 -7 rrcurveto 100 vlineto -30 hlineto closepath endchar",
        "",
        "A 13 P10",
    ),
    (
        "100 100 rmoveto 10 8 10 6 10 -7 rrcurveto 100 vlineto -30 hlineto closepath endchar",
        "",
        "",
    ),
    // Control points three units above.
    (
        "100 100 rmoveto 10 3 10 0 10 -3 rrcurveto 100 vlineto -30 hlineto closepath endchar",
        "",
        "",
    ),
];

/// The same below both ends, to the right of both and to the left, and by the other curves.
const WAYS: &[Drawn] = &[
    (
        "100 100 rmoveto 10 -4 10 0 10 4 rrcurveto 100 vlineto -30 hlineto closepath endchar",
        "",
        "A 13 P10",
    ),
    (
        "100 100 rmoveto 30 hlineto 4 10 0 10 -4 10 rrcurveto -30 hlineto closepath endchar",
        "",
        "A 15 P10",
    ),
    (
        "100 100 rmoveto 30 hlineto 30 vlineto -30 hlineto -4 -10 0 -10 4 -10 rrcurveto closepath endchar",
        "",
        "A 19 P10",
    ),
    (
        "100 100 rmoveto 30 hlineto 30 vlineto -30 hlineto -3 -10 0 -10 3 -10 rrcurveto closepath endchar",
        "",
        "",
    ),
    (
        "100 100 rmoveto 10 10 8 -8 hvcurveto 100 vlineto -20 hlineto closepath endchar",
        "",
        "A 11 P10",
    ),
    (
        "100 100 rmoveto 30 hlineto 10 8 10 -8 vhcurveto -30 hlineto closepath endchar",
        "",
        "A 13 P10",
    ),
];

#[test]
fn curves_without_a_point_at_an_extreme(rt: HostRuntime) -> Result<(), Fail> {
    assert_drawn(&rt, rt.alloc(), IN_BOX, HEIGHTS)?;
    assert_drawn(&rt, rt.alloc(), IN_BOX, WAYS)
}
