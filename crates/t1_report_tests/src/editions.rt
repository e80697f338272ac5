//! The two editions of the rule book: stems of one edge (Type 1 Font Format 1.1, chapter 6), and how many steps are
//! checked. No chapter of the standard says how many.

use crate::answers::{Asked, Case, assert_after, assert_cases};
use crate::fonts::{IN_A, WITH_LONG_SUBRS, WITH_MANY_STEMS};
use std::alloc::Global;
use std::process::Abort;
use std::test::Fail;
use t1_char::Edition;

/// The last parts of a font, and the faults by the first edition and by the second.
type InEditions = (&'static str, &'static str, &'static str);

/// Fonts that begin so break the rules beside them.
fn assert_editions(
    rt: &impl Abort,
    alloc: Global,
    front: &str,
    rows: &[InEditions],
) -> Result<(), Fail> {
    for (words, first, second) in rows {
        assert_after(rt, alloc, front, words, Asked::Report(Edition::One), first)?;
        assert_after(rt, alloc, front, words, Asked::Report(Edition::Two), second)?;
    }
    Ok(())
}

/// What two stems that overlap are reported as.
const OVERLAP: &str = "A 9 H02";

/// A stem of one edge overlaps none before it, none after it and none of its own step.
const STEMS: &[InEditions] = &[
    ("0 500 hsbw 0 20 hstem 10 -20 hstem endchar", OVERLAP, ""),
    ("0 500 hsbw 0 20 hstem 10 -21 hstem endchar", OVERLAP, ""),
    ("0 500 hsbw 10 -21 vstem 0 20 vstem endchar", OVERLAP, ""),
    (
        "0 500 hsbw 0 20 hstem 10 -19 hstem endchar",
        OVERLAP,
        OVERLAP,
    ),
    (
        "0 500 hsbw 0 20 hstem 10 -22 hstem endchar",
        OVERLAP,
        OVERLAP,
    ),
    (
        "0 500 hsbw 0 20 hstem 10 -41 2 div hstem endchar",
        "A 11 H02",
        "A 11 H02",
    ),
    (
        "0 500 hsbw 0 -20 5 -20 10 -20 hstem3 endchar",
        "A 10 H02",
        "",
    ),
    (
        "0 500 hsbw 0 -20 4 -18 10 -20 hstem3 10 -19 hstem endchar",
        "A 10 H02, A 13 H02",
        "A 13 H02",
    ),
];

/// It counts among the 96, and is compared with none where it is the 97th.
const MANY_STEMS: &[InEditions] = &[
    (
        "0 500 hsbw 4 callsubr 94 1 hstem 300 -20 hstem 290 5 hstem endchar",
        "A 297 H02",
        "",
    ),
    (
        "0 500 hsbw 4 callsubr 94 1 hstem 300 -20 hstem 96 1 hstem 96 1 hstem endchar",
        "",
        "",
    ),
    (
        "0 500 hsbw 4 callsubr 94 1 hstem 95 1 hstem 300 -20 hstem 290 5 hstem endchar",
        "",
        "",
    ),
];

#[test]
fn stems_of_one_edge(rt: HostRuntime) -> Result<(), Fail> {
    assert_editions(&rt, rt.alloc(), IN_A, STEMS)?;
    assert_editions(&rt, rt.alloc(), WITH_MANY_STEMS, MANY_STEMS)
}

/// A component whose seac, or whose hsbw, is step 100,001.
const COMPONENTS: &[InEditions] = &[
    (
        "A: 0 500 hsbw endchar | B: 0 500 hsbw 0 callsubr dotsection dotsection 0 0 0 65 0 seac |\
C: 0 500 hsbw 0 0 0 65 66 seac",
        "B 100001 L01",
        "B 100001 K02, C 9 K04",
    ),
    (
        "B: 0 callsubr dotsection dotsection dotsection dotsection dotsection dotsection dotsection dotsection \
         7 500 hsbw endchar | C: 0 500 hsbw 8 0 0 66 66 seac",
        "B 0>2>3>4>5 11 W01, B 100001 L01, C 9 K07",
        "B 0>2>3>4>5 11 W01, B 100001 W02, C 9 K05",
    ),
];

#[test]
fn long_components(rt: HostRuntime) -> Result<(), Fail> {
    assert_editions(&rt, rt.alloc(), WITH_LONG_SUBRS, COMPONENTS)
}

/// Glyphs of 99,999 steps, 100,000, 100,001, and ten times as many; `.notdef` takes five turns. The report of the first
/// edition lists the steps of a glyph; by the second only a walk is requested.
const LENGTHS: &[Case] = &[
    (
        "5: {8330 dotsection} return | A: 0 500 hsbw {11 5 callsubr} {8332 dotsection} endchar",
        "",
        Asked::Report(Edition::One),
        "",
    ),
    (
        "5: {8330 dotsection} return | A: 0 500 hsbw {11 5 callsubr} {8332 dotsection} endchar",
        "",
        Asked::Walk(Edition::Two),
        "; 100005",
    ),
    (
        "5: {8330 dotsection} return | A: 0 500 hsbw {12 5 callsubr} endchar",
        "",
        Asked::Report(Edition::One),
        "",
    ),
    (
        "5: {8330 dotsection} return | A: 0 500 hsbw {12 5 callsubr} endchar",
        "",
        Asked::Walk(Edition::Two),
        "; 100006",
    ),
    (
        "5: {8330 dotsection} return | A: 0 500 hsbw {12 5 callsubr} {1 dotsection} endchar",
        "",
        Asked::Report(Edition::One),
        "A 100001 L01",
    ),
    (
        "5: {8330 dotsection} return | A: 0 500 hsbw {12 5 callsubr} {1 dotsection} endchar",
        "",
        Asked::Walk(Edition::Two),
        "; 100007",
    ),
    (
        "5: {8330 dotsection} return | A: 0 500 hsbw {120 5 callsubr} {35 dotsection} endchar",
        "",
        Asked::Report(Edition::One),
        "A 100001 L01",
    ),
    (
        "5: {8330 dotsection} return | A: 0 500 hsbw {120 5 callsubr} {35 dotsection} endchar",
        "",
        Asked::Walk(Edition::Two),
        "; 1000005",
    ),
    (
        "5: {8330 dotsection} return | A: 0 500 hsbw {120 5 callsubr} {36 dotsection} endchar",
        "",
        Asked::Report(Edition::One),
        "A 100001 L01",
    ),
    (
        "5: {8330 dotsection} return | A: 0 500 hsbw {120 5 callsubr} {36 dotsection} endchar",
        "",
        Asked::Walk(Edition::Two),
        "; 1000006",
    ),
    (
        "5: {8330 dotsection} return | A: 0 500 hsbw {120 5 callsubr} {37 dotsection} endchar",
        "",
        Asked::Report(Edition::One),
        "A 100001 L01",
    ),
    (
        "5: {8330 dotsection} return | A: 0 500 hsbw {120 5 callsubr} {37 dotsection} endchar",
        "",
        Asked::Walk(Edition::Two),
        "A 1000001 L01; 1000006",
    ),
];

#[test]
fn long_glyphs(rt: HostRuntime) -> Result<(), Fail> {
    assert_cases(&rt, rt.alloc(), LENGTHS)
}
