//! Where the fourth edition says something at a glyph's end, P05 and H08, and how its rules are waived: Type 1 Font Format 1.1,
//! chapters 3 and 5. No chapter of the standard has waivers.

use crate::answers::{Asked, Case, assert_cases};
use crate::drawing::{Drawn, IN_BOX, assert_drawn};
use std::test::Fail;
use t1_char::Edition;

/// A glyph without endchar ends with its bytes, at one step more. Where nothing is drawn no stem is asked for.
const ENDS: &[Drawn] = &[
    (
        "300 20 hstem 100 100 rmoveto 100 vlineto 100 hlineto -100 vlineto closepath endchar",
        "",
        "A 17 P05, A 17 H08",
    ),
    (
        "300 20 hstem 100 100 rmoveto 100 vlineto 100 hlineto -100 vlineto closepath",
        "A 17 GE01",
        "A 17 GE01, A 17 P05, A 17 H08",
    ),
    (
        "300 20 hstem 100 100 rmoveto 100 vlineto 100 hlineto -100 vlineto endchar",
        "A 16 P02",
        "A 16 P02, A 16 P05, A 16 H08",
    ),
    ("300 20 hstem endchar", "", ""),
    ("300 20 hstem 100 100 rmoveto endchar", "", ""),
    (
        "300 20 hstem 100 hmoveto 0 1 callothersubr 50 100 0 3 0 callothersubr pop pop setcurrentpoint endchar",
        "A 17 X04, A 21 P02",
        "A 17 X04, A 21 P02",
    ),
];

/// The words are a glyph A, behind its width. Subr 5 ends it.
const WITH_ENDCHAR: &str = "/FontBBox {0 0 1000 1000} def | 5: endchar return | A: 0 500 hsbw ";

const ENDS_IN_A_SUBR: &[Drawn] = &[(
    "300 20 hstem 100 100 rmoveto 100 vlineto 100 hlineto -100 vlineto closepath 5 callsubr",
    "",
    "A 5 19 P05, A 5 19 H08",
)];

/// The words are a glyph C, behind its width, that is made of A and B.
const ACCENTED: &str =
    "/FontBBox {0 0 1000 1000} def | A: 0 500 hsbw endchar | B: 7 500 hsbw endchar | C: 0 500 hsbw ";

/// A seac is no end of this kind.
const ENDS_WITH_SEAC: &[Drawn] = &[(
    "300 20 hstem 100 100 rmoveto 100 vlineto 100 hlineto -100 vlineto closepath 7 0 0 65 66 seac",
    "C 22 K06",
    "C 22 K06",
)];

#[test]
fn ends_of_glyphs(rt: HostRuntime) -> Result<(), Fail> {
    assert_drawn(&rt, rt.alloc(), IN_BOX, ENDS)?;
    assert_drawn(&rt, rt.alloc(), WITH_ENDCHAR, ENDS_IN_A_SUBR)?;
    assert_drawn(&rt, rt.alloc(), ACCENTED, ENDS_WITH_SEAC)
}

/// A glyph that runs clockwise, after 13 steps of it 120 calls of 8333 steps, and an endchar that is step 1,000,000 or the next one;
/// `.notdef` takes five turns.
const LONG_GLYPHS: &[Case] = &[
    (
        "key: /BlueValues [] def | key: /RD {string currentfile exch readstring pop} executeonly def | \
         key: /ND {noaccess def} executeonly def | key: /NP {noaccess put} executeonly def | \
         encoding: /Encoding StandardEncoding def /FontMatrix [0.001 0 0 0.001 0 0] def /FontBBox {0 0 1000 1000} def | \
         5: {8330 dotsection} return | \
         A: 0 500 hsbw 100 100 rmoveto 100 vlineto 100 hlineto -100 vlineto closepath {120 5 callsubr} {26 dotsection} endchar",
        "",
        Asked::Walk(Edition::Four),
        "A 1000000 P05; 1000006",
    ),
    (
        "key: /BlueValues [] def | key: /RD {string currentfile exch readstring pop} executeonly def | \
         key: /ND {noaccess def} executeonly def | key: /NP {noaccess put} executeonly def | \
         encoding: /Encoding StandardEncoding def /FontMatrix [0.001 0 0 0.001 0 0] def /FontBBox {0 0 1000 1000} def | \
         5: {8330 dotsection} return | \
         A: 0 500 hsbw 100 100 rmoveto 100 vlineto 100 hlineto -100 vlineto closepath {120 5 callsubr} {27 dotsection} endchar",
        "",
        Asked::Walk(Edition::Four),
        "A 1000001 L01; 1000006",
    ),
];

#[test]
fn long_glyphs(rt: HostRuntime) -> Result<(), Fail> {
    assert_cases(&rt, rt.alloc(), LONG_GLYPHS)
}

/// A glyph that breaks P05 and H08.
const FAULTY: &str =
    "key: /BlueValues [] def | key: /RD {string currentfile exch readstring pop} executeonly def | \
key: /ND {noaccess def} executeonly def | key: /NP {noaccess put} executeonly def | \
encoding: /Encoding StandardEncoding def /FontMatrix [0.001 0 0 0.001 0 0] def /FontBBox {0 0 1000 1000} def | \
A: 0 500 hsbw 300 20 hstem 100 100 rmoveto 100 vlineto 100 hlineto -100 vlineto closepath endchar";

/// Waivers that are used, and one that isn't.
const WAIVED: &[Case] = &[
    (FAULTY, "A H08", Asked::Report(Edition::Four), "A 17 P05"),
    (FAULTY, "A P05\nA H08", Asked::Report(Edition::Four), ""),
    (
        FAULTY,
        "A P05\nA P04",
        Asked::Report(Edition::Four),
        "A 17 H08, A P04 U01",
    ),
];

#[test]
fn rules_on_the_drawing_are_waived(rt: HostRuntime) -> Result<(), Fail> {
    assert_cases(&rt, rt.alloc(), WAIVED)
}
