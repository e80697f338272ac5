//! What the fourth edition says of an outline's place and direction, P04 and P05, on both sides of each limit: Type 1 Font Format 1.1,
//! chapters 2 and 3.

use crate::drawing::{Drawn, IN_BOX, assert_drawn};
use std::alloc::Global;
use std::process::Abort;
use std::test::Fail;

/// A unit outside of each side, and half a unit; of the right side also 1/65536 less than a unit. Where a line or a curve ends
/// counts, and no move and no control point.
const SIDES: &[Drawn] = &[
    (
        "950 100 rmoveto 3342335 65536 div hlineto 100 vlineto -50 hlineto closepath endchar",
        "",
        "",
    ),
    (
        "-1 100 rmoveto 100 hlineto 100 vlineto -100 hlineto closepath endchar",
        "",
        "A 12 P04",
    ),
    (
        "-1 2 div 100 rmoveto 100 hlineto 100 vlineto -100 hlineto closepath endchar",
        "",
        "",
    ),
    (
        "100 901 rmoveto 100 hlineto 100 vlineto -100 hlineto closepath endchar",
        "",
        "A 10 P04",
    ),
    (
        "100 1801 2 div rmoveto 100 hlineto 100 vlineto -100 hlineto closepath endchar",
        "",
        "",
    ),
    (
        "100 -1 rmoveto 100 hlineto 100 vlineto -100 hlineto closepath endchar",
        "",
        "A 8 P04",
    ),
    (
        "100 -1 2 div rmoveto 100 hlineto 100 vlineto -100 hlineto closepath endchar",
        "",
        "",
    ),
    (
        "950 100 rmoveto 51 0 0 20 0 30 rrcurveto -51 hlineto closepath endchar",
        "",
        "A 13 P04",
    ),
    (
        "1000 100 rmoveto 3 20 0 60 -3 20 rrcurveto -100 hlineto -100 vlineto closepath endchar",
        "",
        "",
    ),
    (
        "-50 100 rmoveto 150 hlineto 100 vlineto -100 hlineto closepath endchar",
        "",
        "",
    ),
    ("2000 2000 rmoveto endchar", "", ""),
];

#[test]
fn sides_of_the_box(rt: HostRuntime) -> Result<(), Fail> {
    assert_drawn(&rt, rt.alloc(), IN_BOX, SIDES)
}

/// A square from 100 100 to 200 200.
const SQUARE: &str =
    " | A: 0 500 hsbw 100 100 rmoveto 100 hlineto 100 vlineto -100 hlineto closepath endchar";

/// A font with the square, which begins at x 950 and is 101/2 wide.
const AT_THE_RIGHT: &str =
    " | A: 0 500 hsbw 950 100 rmoveto 101 2 div hlineto 100 vlineto -101 2 div hlineto closepath endchar";

/// Boxes of such a font: four numbers that aren't all 0, and a lower left corner and an upper right one.
const BOXES: &[Drawn] = &[
    ("/FontBBox {0 0 0 0} def", "", ""),
    ("/FontBBox {0 0 0 1000} def", "", "A 8 P04"),
    ("/FontBBox {100 100 100 100} def", "", "A 8 P04"),
    (
        "/FontBBox {300 0 199 1000} def",
        "FontBBox 0 F17",
        "FontBBox 0 F17",
    ),
    (
        "/FontBBox {0 300 1000 199} def",
        "FontBBox 1 F17",
        "FontBBox 1 F17",
    ),
    (
        "/FontBBox {0 0 100} def",
        "FontBBox 0 F16",
        "FontBBox 0 F16",
    ),
    (
        "/FontBBox {0 0 100 100 0} def",
        "FontBBox 0 F16",
        "FontBBox 0 F16",
    ),
    ("/FontBBox 100 def", "FontBBox 0 F16", "FontBBox 0 F16"),
    ("", "FontBBox 0 F16", "FontBBox 0 F16"),
];

/// Boxes with a fraction.
const EXACT_BOXES: &[Drawn] = &[
    ("/FontBBox {0 0 999.5 1000} def", "", "A 10 P04"),
    ("/FontBBox {0 0 999.500000001 1000} def", "", ""),
];

/// Fonts with each of these entries and this glyph have the faults beside them.
fn assert_boxes(rt: &impl Abort, alloc: Global, glyph: &str, boxes: &[Drawn]) -> Result<(), Fail> {
    for (font_box, third, fourth) in boxes {
        let parts = format!(in alloc; "{font_box}{glyph}")?;
        assert_drawn(rt, alloc, parts.as_str(), &[("", *third, *fourth)])?;
    }
    Ok(())
}

#[test]
fn boxes_of_the_font(rt: HostRuntime) -> Result<(), Fail> {
    assert_boxes(&rt, rt.alloc(), SQUARE, BOXES)?;
    assert_boxes(&rt, rt.alloc(), AT_THE_RIGHT, EXACT_BOXES)
}

/// The line that would close a subpath counts, a curve isn't its chord, and the areas of all subpaths are added.
const DIRECTIONS: &[Drawn] = &[
    (
        "200 100 rmoveto -80 20 rlineto -20 80 rlineto endchar",
        "A 13 P02",
        "A 13 P02, A 13 P05",
    ),
    (
        "100 200 rmoveto 20 -80 rlineto 80 -20 rlineto endchar",
        "A 13 P02",
        "A 13 P02",
    ),
    (
        "100 100 rmoveto 0 50 50 50 50 0 rrcurveto closepath endchar",
        "",
        "A 15 P05",
    ),
    (
        "200 200 rmoveto -50 0 -50 -50 0 -50 rrcurveto closepath endchar",
        "",
        "",
    ),
    (
        "100 100 rmoveto 300 hlineto 300 vlineto -300 hlineto closepath \
         100 -200 rmoveto 100 vlineto 100 hlineto -100 vlineto closepath endchar",
        "",
        "",
    ),
    (
        "100 100 rmoveto 300 vlineto 300 hlineto -300 vlineto closepath \
         -200 100 rmoveto 100 hlineto 100 vlineto -100 hlineto closepath endchar",
        "",
        "A 24 P05",
    ),
    ("100 100 rmoveto 100 hlineto closepath endchar", "", ""),
];

#[test]
fn directions_of_outlines(rt: HostRuntime) -> Result<(), Fail> {
    assert_drawn(&rt, rt.alloc(), IN_BOX, DIRECTIONS)
}

/// A box that nothing leaves.
const IN_A_LARGE_BOX: &str = "/FontBBox {-99999 -99999 99999 99999} def | A: 0 500 hsbw ";

/// Outlines that run clockwise, up to 32000 and past it: by where a line ends, by a lone move, by a control point.
const FAR_OUTLINES: &[Drawn] = &[
    (
        "31900 100 rmoveto 100 vlineto 100 hlineto -100 vlineto closepath endchar",
        "",
        "A 14 P05",
    ),
    (
        "31900 100 rmoveto 100 vlineto 101 hlineto -100 vlineto closepath endchar",
        "",
        "",
    ),
    (
        "-31900 100 rmoveto -100 hlineto 100 vlineto 100 hlineto closepath endchar",
        "",
        "A 14 P05",
    ),
    (
        "-31900 100 rmoveto -101 hlineto 100 vlineto 101 hlineto closepath endchar",
        "",
        "",
    ),
    (
        "100 31900 rmoveto 100 vlineto 100 hlineto -100 vlineto closepath endchar",
        "",
        "A 14 P05",
    ),
    (
        "100 31900 rmoveto 101 vlineto 100 hlineto -101 vlineto closepath endchar",
        "",
        "",
    ),
    (
        "100 -31900 rmoveto 100 hlineto -100 vlineto -100 hlineto closepath endchar",
        "",
        "A 14 P05",
    ),
    (
        "100 -31900 rmoveto 100 hlineto -101 vlineto -100 hlineto closepath endchar",
        "",
        "",
    ),
    (
        "100 100 rmoveto 100 vlineto 100 hlineto -100 vlineto closepath 31800 hmoveto endchar",
        "",
        "A 16 P05",
    ),
    (
        "100 100 rmoveto 100 vlineto 100 hlineto -100 vlineto closepath 31801 hmoveto endchar",
        "",
        "",
    ),
    (
        "31900 100 rmoveto 100 vlineto 100 0 0 -50 0 -50 rrcurveto closepath endchar",
        "",
        "A 17 P05",
    ),
    (
        "31900 100 rmoveto 100 vlineto 100 0 1 -50 -1 -50 rrcurveto closepath endchar",
        "",
        "",
    ),
];

#[test]
fn outlines_that_are_far_away(rt: HostRuntime) -> Result<(), Fail> {
    assert_drawn(&rt, rt.alloc(), IN_A_LARGE_BOX, FAR_OUTLINES)
}
