//! What the fourth edition says of stems, H08 to H10: that something is drawn at each, that two don't share an edge, and that no
//! width is negative. Type 1 Font Format 1.1, chapters 5 and 6. Each is broken, and then just isn't.

use crate::drawing::{Drawn, IN_BOX, assert_drawn};
use std::alloc::Global;
use std::process::Abort;
use std::test::Fail;

/// Fonts with these stems ahead of a square from 100 100 to 200 200.
fn assert_stems(rt: &impl Abort, alloc: Global, rows: &[Drawn]) -> Result<(), Fail> {
    for (stems, third, fourth) in rows {
        let parts = format!(in alloc;
            "{IN_BOX}{stems} 100 100 rmoveto 100 hlineto 100 vlineto -100 hlineto closepath endchar"
        )?;
        assert_drawn(rt, alloc, parts.as_str(), &[("", *third, *fourth)])?;
    }
    Ok(())
}

/// An edge lies ten units off or less, or both lie eleven off or more: below the square, above it, and around it.
const EDGES: &[Drawn] = &[
    ("100 100 hstem", "", ""),
    ("300 20 hstem", "", "A 17 H08"),
    ("89 200 hstem", "", "A 17 H08"),
    ("90 200 hstem", "", ""),
    ("69 20 hstem", "", "A 17 H08"),
    ("70 20 hstem", "", ""),
    ("210 20 hstem", "", ""),
    ("211 20 hstem", "", "A 17 H08"),
    ("210 20 vstem", "", ""),
    ("211 20 vstem", "", "A 17 H08"),
    ("111 78 vstem", "", "A 17 H08"),
    ("110 78 vstem", "", ""),
];

/// A ghost hint has two edges here.
const GHOSTS: &[Drawn] = &[
    ("120 -20 hstem", "", ""),
    ("121 -21 hstem", "", ""),
    ("90 -20 hstem", "", ""),
    ("89 -20 hstem", "", "A 17 H08"),
    ("231 -20 vstem", "", "A 17 H08"),
    ("231 -21 vstem", "", ""),
];

#[test]
fn stems_beside_a_square(rt: HostRuntime) -> Result<(), Fail> {
    assert_stems(&rt, rt.alloc(), EDGES)?;
    assert_stems(&rt, rt.alloc(), GHOSTS)
}

/// Where a curve may have its extreme, between an end and its outermost point; between its ends it has none.
const CURVES: &[Drawn] = &[
    (
        "112 20 hstem 100 100 rmoveto 10 12 10 -22 10 -33 rrcurveto 70 43 rlineto closepath endchar",
        "",
        "",
    ),
    (
        "113 20 hstem 100 100 rmoveto 10 12 10 -22 10 -33 rrcurveto 70 43 rlineto closepath endchar",
        "",
        "A 21 H08",
    ),
    (
        "68 20 hstem 100 100 rmoveto 10 -12 10 22 10 33 rrcurveto -30 hlineto closepath endchar",
        "",
        "",
    ),
    (
        "67 20 hstem 100 100 rmoveto 10 -12 10 22 10 33 rrcurveto -30 hlineto closepath endchar",
        "",
        "A 20 H08",
    ),
    (
        "112 20 vstem 100 100 rmoveto 12 10 -22 10 -33 10 rrcurveto -30 vlineto closepath endchar",
        "",
        "",
    ),
    (
        "113 20 vstem 100 100 rmoveto 12 10 -22 10 -33 10 rrcurveto -30 vlineto closepath endchar",
        "",
        "A 20 H08",
    ),
    (
        "150 10 hstem 100 100 rmoveto 100 hlineto 0 50 -50 50 -50 0 rrcurveto closepath endchar",
        "",
        "A 20 H08",
    ),
];

#[test]
fn stems_beside_curves(rt: HostRuntime) -> Result<(), Fail> {
    assert_drawn(&rt, rt.alloc(), IN_BOX, CURVES)
}

/// The words are a glyph A, behind its width. Subr 5 sets a stem, from 100 to 120.
const WITH_STEM: &str = "/FontBBox {0 0 1000 1000} def | 5: 100 20 hstem return | A: 0 500 hsbw ";

/// What is drawn after a stem touches it; the line of closepath doesn't. A hint replacement takes no stem away, and a pair of
/// edges that is set again is no other stem.
const LATER_STEMS: &[Drawn] = &[
    (
        "100 100 rmoveto 100 hlineto 100 vlineto -100 hlineto closepath 100 100 hstem endchar",
        "A 16 H01",
        "A 16 H01, A 17 H08",
    ),
    (
        "100 100 rmoveto 100 hlineto 5 1 3 callothersubr pop callsubr 100 vlineto -100 hlineto closepath endchar",
        "",
        "",
    ),
    (
        "100 100 rmoveto 100 hlineto 100 vlineto 5 1 3 callothersubr pop callsubr -100 hlineto closepath endchar",
        "",
        "A 24 H08",
    ),
    (
        "300 20 hstem 5 1 3 callothersubr pop callsubr \
         100 100 rmoveto 100 hlineto 100 vlineto -100 hlineto closepath endchar",
        "",
        "A 27 H08",
    ),
    (
        "100 20 hstem 100 100 rmoveto 100 hlineto 100 vlineto -100 hlineto closepath \
         5 1 3 callothersubr pop callsubr endchar",
        "",
        "",
    ),
    (
        "120 -20 hstem 100 100 rmoveto 100 hlineto 100 vlineto -100 hlineto closepath \
         5 1 3 callothersubr pop callsubr endchar",
        "",
        "",
    ),
];

#[test]
fn stems_that_are_set_later(rt: HostRuntime) -> Result<(), Fail> {
    assert_drawn(&rt, rt.alloc(), WITH_STEM, LATER_STEMS)
}

/// The words are a whole glyph A.
const WHOLE: &str = "/FontBBox {0 0 1000 1000} def | A: ";

/// Edges count from the sidebearing that is set before the stem, where there is one. hsbw says no y.
const SIDEBEARINGS: &[Drawn] = &[
    (
        "50 500 hsbw 50 20 vstem 50 100 rmoveto 100 hlineto 100 vlineto -100 hlineto closepath endchar",
        "",
        "",
    ),
    (
        "50 500 hsbw 100 20 vstem 50 100 rmoveto 100 hlineto 100 vlineto -100 hlineto closepath endchar",
        "",
        "A 17 H08",
    ),
    (
        "50 500 hsbw 30 20 hstem 50 100 rmoveto 100 hlineto 100 vlineto -100 hlineto closepath endchar",
        "",
        "A 17 H08",
    ),
    (
        "0 50 500 0 sbw 50 20 hstem 100 50 rmoveto 100 hlineto 100 vlineto -100 hlineto closepath endchar",
        "",
        "",
    ),
    (
        "0 50 500 0 sbw 100 20 hstem 100 50 rmoveto 100 hlineto 100 vlineto -100 hlineto closepath endchar",
        "",
        "A 19 H08",
    ),
    (
        "0 500 hsbw 100 20 vstem 50 500 hsbw 50 20 vstem 50 100 rmoveto 100 hlineto 100 vlineto -100 hlineto closepath endchar",
        "A 9 W02",
        "A 9 W02",
    ),
    (
        "0 500 hsbw 50 20 vstem 50 500 hsbw 50 100 rmoveto 100 hlineto 100 vlineto -100 hlineto closepath endchar",
        "A 9 W02",
        "A 9 W02, A 20 H08",
    ),
    (
        "100 20 vstem 50 500 hsbw 50 100 rmoveto 100 hlineto 100 vlineto -100 hlineto closepath endchar",
        "A 3 W01, A 6 W02",
        "A 3 W01, A 6 W02",
    ),
];

#[test]
fn stems_and_sidebearings(rt: HostRuntime) -> Result<(), Fail> {
    assert_drawn(&rt, rt.alloc(), WHOLE, SIDEBEARINGS)
}

/// The words are a glyph A. Subr 4 has 94 stems from 0 to 187, each of them a unit wide and a unit above the one before, and Subr
/// 5 the 95th. Subr 3 draws up to 200, by lines that end 20 units above one another.
const WITH_MANY_STEMS: &str = "/FontBBox {0 0 1000 1000} def | \
3: 100 0 rmoveto {5 10 20 rlineto -10 20 rlineto} -50 hlineto closepath endchar return |\
4: 0 1 hstem 2 1 hstem 4 1 hstem 6 1 hstem 8 1 hstem 10 1 hstem 12 1 hstem 14 1 hstem \
16 1 hstem 18 1 hstem 20 1 hstem 22 1 hstem 24 1 hstem 26 1 hstem 28 1 hstem 30 1 hstem \
32 1 hstem 34 1 hstem 36 1 hstem 38 1 hstem 40 1 hstem 42 1 hstem 44 1 hstem 46 1 hstem \
48 1 hstem 50 1 hstem 52 1 hstem 54 1 hstem 56 1 hstem 58 1 hstem 60 1 hstem 62 1 hstem \
64 1 hstem 66 1 hstem 68 1 hstem 70 1 hstem 72 1 hstem 74 1 hstem 76 1 hstem 78 1 hstem \
80 1 hstem 82 1 hstem 84 1 hstem 86 1 hstem 88 1 hstem 90 1 hstem 92 1 hstem 94 1 hstem \
96 1 hstem 98 1 hstem 100 1 hstem 102 1 hstem 104 1 hstem 106 1 hstem 108 1 hstem 110 1 hstem \
112 1 hstem 114 1 hstem 116 1 hstem 118 1 hstem 120 1 hstem 122 1 hstem 124 1 hstem 126 1 hstem \
128 1 hstem 130 1 hstem 132 1 hstem 134 1 hstem 136 1 hstem 138 1 hstem 140 1 hstem 142 1 hstem \
144 1 hstem 146 1 hstem 148 1 hstem 150 1 hstem 152 1 hstem 154 1 hstem 156 1 hstem 158 1 hstem \
160 1 hstem 162 1 hstem 164 1 hstem 166 1 hstem 168 1 hstem 170 1 hstem 172 1 hstem 174 1 hstem \
176 1 hstem 178 1 hstem 180 1 hstem 182 1 hstem 184 1 hstem 186 1 hstem return |\
5: 188 1 hstem return |\
A: 0 500 hsbw ";

/// The first 96 stems of a direction count, each pair of edges once.
const MANY_STEMS: &[Drawn] = &[
    ("4 callsubr 5 callsubr 190 1 hstem 3 callsubr", "", ""),
    (
        "4 callsubr 5 callsubr 600 20 hstem 3 callsubr",
        "",
        "A 3 336 H08",
    ),
    (
        "4 callsubr 5 callsubr 190 1 hstem 600 20 hstem 3 callsubr",
        "",
        "",
    ),
    (
        "4 callsubr 5 callsubr 5 1 3 callothersubr pop callsubr 600 20 hstem 3 callsubr",
        "",
        "A 3 346 H08",
    ),
    (
        "4 callsubr 5 callsubr 190 1 hstem 600 20 vstem 3 callsubr",
        "",
        "A 3 339 H08",
    ),
];

#[test]
fn many_stems(rt: HostRuntime) -> Result<(), Fail> {
    assert_drawn(&rt, rt.alloc(), WITH_MANY_STEMS, MANY_STEMS)
}

/// The upper edge of a stem is the lower one of another: of an earlier command, of a later one, and of the same one.
const SHARED_EDGES: &[Drawn] = &[
    ("0 50 hstem 50 50 hstem", "", "A 9 H09, A 20 H08"),
    ("100 50 hstem 150 50 hstem", "", "A 9 H09"),
    ("150 50 vstem 100 50 vstem", "", "A 9 H09"),
    ("100 50 hstem 151 49 hstem", "", ""),
    ("100 50 hstem 150 50 vstem", "", ""),
    ("100 50 150 50 200 50 hstem3", "", "A 10 H09"),
    ("100 50 150 50 200 50 vstem3", "", "A 10 H09"),
    (
        "150 50 208 20 100 50 hstem3",
        "A 10 H04",
        "A 10 H04, A 10 H09",
    ),
    ("100 30 hstem 190 20 hstem 130 60 hstem", "", "A 12 H09"),
    ("150 -50 hstem 150 50 hstem", "", "A 6 H10, A 9 H09"),
];

/// A stem of width 0, -20 or -21 shares none.
const EDGES_OF_GHOSTS: &[Drawn] = &[
    ("100 80 hstem 180 20 hstem", "", "A 9 H09"),
    ("100 80 hstem 200 -20 hstem", "", ""),
    ("100 79 hstem 200 -21 hstem", "", ""),
    ("200 -20 hstem 100 80 hstem", "", ""),
    ("100 81 hstem 200 -19 hstem", "", "A 9 H09, A 9 H10"),
    ("100 100 hstem 200 0 hstem", "A 9 H03", "A 9 H03"),
];

#[test]
fn stems_that_share_an_edge(rt: HostRuntime) -> Result<(), Fail> {
    assert_stems(&rt, rt.alloc(), SHARED_EDGES)?;
    assert_stems(&rt, rt.alloc(), EDGES_OF_GHOSTS)
}

/// Subr 5 sets a stem from 150 to 200, called or as a replacement. The sidebearing doesn't count.
const SHARED_WITH_A_SUBR: &[Drawn] = &[
    (
        "0 500 hsbw 100 50 vstem 5 callsubr 100 100 rmoveto 100 hlineto 100 vlineto -100 hlineto closepath endchar",
        "",
        "A 5 11 H09",
    ),
    (
        "0 500 hsbw 100 50 vstem 5 1 3 callothersubr pop callsubr \
         100 100 rmoveto 100 hlineto 100 vlineto -100 hlineto closepath endchar",
        "",
        "",
    ),
    (
        "0 500 hsbw 100 50 vstem 50 500 hsbw 5 callsubr 50 100 rmoveto 100 hlineto 100 vlineto -100 hlineto closepath endchar",
        "A 9 W02",
        "A 9 W02, A 5 14 H09",
    ),
];

/// The words are a whole glyph A.
const WITH_UPRIGHT_STEM: &str = "/FontBBox {0 0 1000 1000} def | 5: 150 50 vstem return | A: ";

#[test]
fn stems_that_share_an_edge_with_those_of_a_subr(rt: HostRuntime) -> Result<(), Fail> {
    assert_drawn(&rt, rt.alloc(), WITH_UPRIGHT_STEM, SHARED_WITH_A_SUBR)
}

/// Widths below 0 that aren't those of ghost hints, of one command and of three.
const WIDTHS: &[Drawn] = &[
    ("200 -100 hstem", "", "A 6 H10"),
    ("200 -100 vstem", "", "A 6 H10"),
    ("119 -19 hstem", "", "A 6 H10"),
    ("120 -20 hstem", "", ""),
    ("120 -41 2 div hstem", "", "A 8 H10"),
    ("121 -21 hstem", "", ""),
    ("122 -22 hstem", "", "A 6 H10"),
    ("100 0 hstem", "A 6 H03", "A 6 H03"),
    ("102 -2 106 -2 110 -2 hstem3", "", "A 10 H10"),
    ("102 -2 106 -2 110 -2 vstem3", "", "A 10 H10"),
];

#[test]
fn widths_below_zero(rt: HostRuntime) -> Result<(), Fail> {
    assert_stems(&rt, rt.alloc(), WIDTHS)
}
