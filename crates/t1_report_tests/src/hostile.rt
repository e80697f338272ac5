//! Fonts that are made to take long, to nest deep, or to be great: `report` and a walk return the same for each. The
//! limits are Type 1 Font Format 1.1, chapter 6, and the program's own.

use crate::answers::{Asked, Case, answer_to, assert_answer, assert_cases};
use crate::marks::TEN_SUBRS;
use std::alloc::{AllocError, Global};
use std::test::Fail;
use t1_char::Edition;
use t1_samples::{CLEAR, FontFile};

/// Ten Subrs of which each calls the next a hundred times, and a procedure that nests 32 deep.
const FAULTS: &[Case] = &[
    (
        TEN_SUBRS,
        "",
        Asked::Walk(Edition::One),
        "A 0>1>2>3>4>5>6>7>8>9 100001 L01; 100006",
    ),
    (
        TEN_SUBRS,
        "",
        Asked::Report(Edition::One),
        "A 0>1>2>3>4>5>6>7>8>9 100001 L01",
    ),
    (
        "key: /MinFeature {{{{{{{{{{{{{{{{{{{{{{{{{{{{{{{{}}}}}}}}}}}}}}}}}}}}}}}}}}}}}}}} def",
        "",
        Asked::Report(Edition::One),
        "MinFeature 0 F08",
    ),
];

#[test]
fn hostile_fonts_break_their_rules(rt: HostRuntime) -> Result<(), Fail> {
    assert_cases(&rt, rt.alloc(), FAULTS)
}

/// How many glyphs a font has at most.
const MOST_GLYPHS: u32 = 65_535;

/// The private text before the CharStrings' entries.
const FRONT: &[u8] = b"dup /Private 8 dict dup begin\n/password 5839 def\n/MinFeature {16 16} def\n\
/lenIV -1 def\n/Subrs 6 array\nND\n2 index /CharStrings 65535 dict dup begin\n";

/// The file of a font of the most empty glyphs, g0 and on, without .notdef.
fn most_empty_glyphs(alloc: Global) -> Result<Vec<u8>, AllocError> {
    let mut private = Vec::from_slice(alloc, FRONT)?;
    for number in 0..MOST_GLYPHS {
        add_empty_glyph(alloc, &mut private, number)?;
    }
    private.extend_from_slice(b"end\n")?;
    FontFile::of(CLEAR, private.as_slice()).pfb(alloc)
}

fn add_empty_glyph(alloc: Global, text: &mut Vec<u8>, number: u32) -> Result<(), AllocError> {
    let line = format!(in alloc; "/g{number} 0 RD  ND\n")?;
    text.extend_from_slice(line.as_bytes())
}

/// They are reported, and a walk returns them.
#[test]
fn the_most_glyphs(rt: HostRuntime) -> Result<(), Fail> {
    let file = most_empty_glyphs(rt.alloc())?;
    let found = answer_to(rt.alloc(), file.as_slice(), "", Asked::Report(Edition::One))?;
    assert!(rt; found.starts_with("CharStrings 0 F09, g0 1 GE01, g1 1 GE01, "));
    assert!(rt; found.ends_with(", g65534 1 GE01"));
    assert_eq!(rt; found.split(", ").count(), 65_536);
    Ok(())
}

/// Marks in that font, and six answers after each. Steps are requested twice for each glyph that is finished, and once
/// for the one in hand.
const IN_EMPTY_GLYPHS: &[(Asked, &str)] = &[
    (
        Asked::Turns(1, (0, 1_376_256, 9)),
        "2 GE01 1, 3 GE01 3, 4 GE01 5, 5 GE01 7, 6 GE01 9, 7 GE01 11, ",
    ),
    (
        Asked::Turns(32_769, (32_768, 1, 39)),
        "32770 GE01 3, 32771 GE01 5, 32772 GE01 7, 32773 GE01 9, 32774 GE01 11, 32775 GE01 13, ",
    ),
    (
        Asked::Turns(65_535, (65_535, 0, 0)),
        "65536 GE01 1, none 2, none 2, none 2, none 2, none 2, ",
    ),
    (
        Asked::Turns(65_536, (65_535, 1, 39)),
        "none 2, none 2, none 2, none 2, none 2, none 2, ",
    ),
    (
        Asked::Turns(65_536, (65_536, 0, 0)),
        "none 0, none 0, none 0, none 0, none 0, none 0, ",
    ),
];

#[test]
fn walks_from_marks_in_the_most_glyphs(rt: HostRuntime) -> Result<(), Fail> {
    let file = most_empty_glyphs(rt.alloc())?;
    for (asked, want) in IN_EMPTY_GLYPHS {
        let found = answer_to(rt.alloc(), file.as_slice(), "", *asked);
        assert_answer(&rt, found, want, *asked, "the most empty glyphs", "")?;
    }
    Ok(())
}
