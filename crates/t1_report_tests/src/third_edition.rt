//! The rules that the third edition adds: Type 1 Font Format 1.1, chapters 2, 5 and 6, and Technical Note 5015. The second
//! edition says nothing of these fonts, or what is told of one that says more.

use crate::answers::{Asked, Case, assert_after, assert_cases};
use std::alloc::Global;
use std::process::Abort;
use std::test::Fail;
use t1_char::Edition;

/// The last parts of a font, and the faults by the third edition.
type InThird = (&'static str, &'static str);

/// Fonts that begin so break the rules beside them in the third edition, and none in the second.
fn assert_third(rt: &impl Abort, alloc: Global, front: &str, rows: &[InThird]) -> Result<(), Fail> {
    for (words, third) in rows {
        assert_after(rt, alloc, front, words, Asked::Report(Edition::Two), "")?;
        assert_after(
            rt,
            alloc,
            front,
            words,
            Asked::Report(Edition::Three),
            third,
        )?;
    }
    Ok(())
}

/// The words are all that is given beside a glyph.
const ALONE: &str = "A: 0 500 hsbw endchar";

/// A font has to have three entries.
const ABSENT: &[InThird] = &[
    ("", "BlueValues 0 Z12, FontMatrix 0 F15, FontBBox 0 F16"),
    (
        " | key: /BlueValues [] def",
        "FontMatrix 0 F15, FontBBox 0 F16",
    ),
];

/// A font that has these entries. The words that follow are more of its clear text; a later entry of a name counts.
const SOUND: &str = "A: 0 500 hsbw endchar | key: /BlueValues [] def | \
encoding: /Encoding StandardEncoding def /FontMatrix [0.001 0 0 0.001 0 0] def \
/FontBBox {0 0 1000 1000} def ";

/// The same of such a font with one more part, of which the words are the end.
fn assert_part(rt: &impl Abort, alloc: Global, part: &str, rows: &[InThird]) -> Result<(), Fail> {
    let front = format!(in alloc; "{SOUND}{part}")?;
    assert_third(rt, alloc, front.as_str(), rows)
}

/// Entries of the clear text.
const CLEAR_ENTRIES: &[InThird] = &[
    ("", ""),
    ("/FontMatrix [0.001 0 0 0.001 0] def", "FontMatrix 0 F15"),
    (
        "/FontMatrix [0.001 0 0 0.001 0 0 0] def",
        "FontMatrix 0 F15",
    ),
    ("/FontMatrix [1e-3 0 0 0.001 0 0] def", "FontMatrix 0 F15"),
    ("/FontBBox {0 0 1000} def", "FontBBox 0 F16"),
    ("/FontBBox 1000 def", "FontBBox 0 F16"),
    ("/FontBBox [0 0 0 0] def", ""),
    ("/FontBBox {10 0 5 1000} def", "FontBBox 0 F17"),
    ("/FontBBox {0 10 1000 5} def", "FontBBox 1 F17"),
    (
        "/FontBBox {1 1 0.5 0.5} def",
        "FontBBox 0 F17, FontBBox 1 F17",
    ),
    ("/FontBBox {10 0 5 1000 1} def", "FontBBox 0 F16"),
    ("/XUID [] def", "XUID 0 F18"),
    ("/XUID 1000 def", "XUID 0 F18"),
    ("/XUID", "XUID 0 F18"),
    ("/XUID [1 12345678901] def", "XUID 0 F18"),
    (
        "/XUID [1000 -1 2.5 16777216] def",
        "XUID 1 F19, XUID 2 F19, XUID 3 F19",
    ),
    ("/XUID [0 16777215] def", ""),
    (
        "/XUID [0 0 0 0 0 0 0 0 0 0 0 0 0 0 0 -1 -1] def",
        "XUID 15 F19",
    ),
];

#[test]
fn entries_of_the_clear_text(rt: HostRuntime) -> Result<(), Fail> {
    assert_third(&rt, rt.alloc(), ALONE, ABSENT)?;
    assert_third(&rt, rt.alloc(), SOUND, CLEAR_ENTRIES)
}

/// Entries of the Private dictionary.
const PRIVATE_ENTRIES: &[InThird] = &[
    ("/LanguageGroup 0 def", ""),
    ("/LanguageGroup 1.0 def", ""),
    ("/LanguageGroup 2 def", "LanguageGroup 0 F20"),
    ("/LanguageGroup 0.5 def", "LanguageGroup 0 F20"),
    ("/LanguageGroup [0] def", "LanguageGroup 0 F20"),
    ("/StdVW [0.5] def", ""),
    ("/StdVW [-1] def", "StdVW 0 Z13"),
    (
        "/StdHW [0] def /StemSnapH [] def",
        "StdHW 0 Z13, StemSnapH 0 Z16",
    ),
    ("/StdVW [20] def /StemSnapV [] def", "StemSnapV 0 Z16"),
    ("/StdVW [20] def /StemSnapH [] def", ""),
    ("/StemSnapV [20 20 30] def", "StemSnapV 1 Z15"),
    (
        "/StemSnapH [20 20 20] def",
        "StemSnapH 1 Z15, StemSnapH 2 Z15",
    ),
    ("/BlueValues [-10.5 0] def", "BlueValues 0 Z14"),
    ("/OtherBlues [-20 -10.5] def", "OtherBlues 1 Z14"),
    (
        "/BlueScale 0.6 def /BlueShift -1 def /BlueFuzz 11 def",
        "BlueScale 0 Z17, BlueShift 0 Z18, BlueFuzz 0 Z19",
    ),
    (
        "/BlueScale 0 def /BlueShift 0.5 def /BlueFuzz 0.5 def",
        "BlueScale 0 Z17, BlueShift 0 Z18, BlueFuzz 0 Z19",
    ),
    (
        "/BlueScale 0.500000001 def /BlueFuzz -1 def",
        "BlueScale 0 Z17, BlueFuzz 0 Z19",
    ),
    ("/BlueScale 0.5 def /BlueShift 0 def /BlueFuzz 10 def", ""),
];

#[test]
fn entries_of_the_private_dictionary(rt: HostRuntime) -> Result<(), Fail> {
    assert_part(&rt, rt.alloc(), "| key: ", PRIVATE_ENTRIES)
}

/// A return counts wherever it is.
const SUBRS: &[InThird] = &[
    ("return", ""),
    ("endchar return", ""),
    ("return endchar", ""),
    ("endchar", "Subrs 5 F21"),
    ("5 callsubr", "Subrs 5 F21"),
    ("", "Subrs 5 F21"),
];

#[test]
fn subrs_without_return(rt: HostRuntime) -> Result<(), Fail> {
    assert_part(&rt, rt.alloc(), "| 5: ", SUBRS)
}

/// What a sound font has before its glyph A, whose charstring is the words that follow.
const GLYPH: &str = "key: /BlueValues [] def | \
encoding: /Encoding StandardEncoding def /FontMatrix [0.001 0 0 0.001 0 0] def \
/FontBBox {0 0 1000 1000} def | 5: return | A: ";

/// The same of glyphs, of which the words are the end.
fn assert_glyphs(
    rt: &impl Abort,
    alloc: Global,
    begin: &str,
    rows: &[InThird],
) -> Result<(), Fail> {
    let front = format!(in alloc; "{GLYPH}{begin}")?;
    assert_third(rt, alloc, front.as_str(), rows)
}

/// Stems of a width below half a unit, of one command and of three. One of no width is H03's.
const THIN: &[InThird] = &[
    ("0 1 3 div hstem endchar", "A 8 H05"),
    ("0 -1 3 div hstem endchar", "A 8 H05"),
    ("0 1 3 div vstem endchar", "A 8 H05"),
    ("0 1 2 div hstem endchar", ""),
    ("0 -1 2 div hstem endchar", ""),
    ("0 32767 65536 div hstem endchar", "A 8 H05"),
    ("0 1 4 div 10 1 4 div 20 1 4 div hstem3 endchar", "A 16 H05"),
    ("0 1 4 div 10 1 4 div 20 1 4 div vstem3 endchar", "A 16 H05"),
];

#[test]
fn thin_stems(rt: HostRuntime) -> Result<(), Fail> {
    assert_glyphs(&rt, rt.alloc(), "0 500 hsbw ", THIN)
}

/// Stems beside three of one command: the first of the second kind is told, in each direction.
const BESIDE: &[InThird] = &[
    ("0 20 hstem 100 20 150 20 200 20 hstem3 endchar", "A 13 H06"),
    ("100 20 150 20 200 20 hstem3 0 20 hstem endchar", "A 13 H06"),
    ("0 20 vstem 100 20 150 20 200 20 vstem3 endchar", "A 13 H06"),
    ("100 20 150 20 200 20 vstem3 0 20 vstem endchar", "A 13 H06"),
    ("0 20 hstem 100 20 150 20 200 20 vstem3 endchar", ""),
    ("0 20 hstem 50 20 hstem endchar", ""),
    (
        "0 20 hstem 100 20 150 20 200 20 hstem3 300 20 hstem endchar",
        "A 13 H06",
    ),
    (
        "0 20 hstem 5 1 3 callothersubr pop callsubr 100 20 150 20 200 20 hstem3 endchar",
        "A 20 H06",
    ),
    (
        "100 20 150 20 200 20 hstem3 5 1 3 callothersubr pop callsubr 0 20 hstem endchar",
        "A 20 H06",
    ),
];

#[test]
fn stems_beside_three(rt: HostRuntime) -> Result<(), Fail> {
    assert_glyphs(&rt, rt.alloc(), "0 500 hsbw ", BESIDE)
}

/// Three stems after `0 30 50 30 100 30`, which a hint replacement set aside: their spans count, and the last ones.
const ANOTHER: &[InThird] = &[
    ("0 30 60 30 120 30 hstem3 endchar", "A 24 H07"),
    ("0 30 50 30 100 30 hstem3 endchar", ""),
    ("30 -30 80 -30 130 -30 hstem3 endchar", ""),
    ("100 30 50 30 0 30 hstem3 endchar", "A 24 H07"),
    ("0 30 60 30 120 30 vstem3 endchar", ""),
    (
        "0 30 60 30 120 30 hstem3 5 1 3 callothersubr pop callsubr 0 30 60 30 120 30 hstem3 endchar",
        "A 24 H07",
    ),
    (
        "0 30 60 30 120 30 hstem3 5 1 3 callothersubr pop callsubr 0 30 50 30 100 30 hstem3 endchar",
        "A 24 H07, A 38 H07",
    ),
];

#[test]
fn other_three_stems(rt: HostRuntime) -> Result<(), Fail> {
    assert_glyphs(
        &rt,
        rt.alloc(),
        "0 500 hsbw 0 30 50 30 100 30 hstem3 5 1 3 callothersubr pop callsubr ",
        ANOTHER,
    )
}

/// Counter control: behind the width, one call after another, and an end.
const COUNTERS: &[InThird] = &[
    ("5 1 13 callothersubr endchar", ""),
    ("5 1 12 callothersubr 5 1 13 callothersubr endchar", ""),
    (
        "5 1 12 callothersubr 5 1 12 callothersubr 5 1 13 callothersubr endchar",
        "",
    ),
    ("7 5 2 13 callothersubr endchar", ""),
    ("5 callsubr 5 1 13 callothersubr endchar", ""),
    (
        "0 hmoveto 5 1 12 callothersubr endchar",
        "A 9 O05, A 10 O08",
    ),
    ("0 20 hstem 5 1 13 callothersubr endchar", "A 10 O05"),
    (
        "5 1 3 callothersubr pop callsubr 5 1 13 callothersubr endchar",
        "A 14 O05",
    ),
    (
        "0 hmoveto 9 hlineto 9 vlineto closepath 5 1 13 callothersubr endchar",
        "A 14 O05",
    ),
    (
        "5 1 13 callothersubr 5 1 13 callothersubr endchar",
        "A 11 O06",
    ),
    (
        "5 1 13 callothersubr 5 1 12 callothersubr 5 1 13 callothersubr endchar",
        "A 11 O06, A 15 O06",
    ),
    ("5 1 12 callothersubr endchar", "A 8 O08"),
    (
        "5 1 12 callothersubr 5 callsubr 0 20 hstem endchar",
        "A 13 O08",
    ),
    (
        "5 1 12 callothersubr 5 1 3 callothersubr pop callsubr endchar",
        "A 11 O08",
    ),
    (
        "5 1 12 callothersubr 0 hmoveto 9 hlineto 9 vlineto closepath endchar",
        "A 9 O08",
    ),
];

#[test]
fn counter_control(rt: HostRuntime) -> Result<(), Fail> {
    assert_glyphs(&rt, rt.alloc(), "0 500 hsbw ", COUNTERS)
}

/// What comes before the width.
const EARLY: &[InThird] = &[
    ("0 0 500 0 sbw 5 1 13 callothersubr endchar", ""),
    ("5 1 13 callothersubr 0 500 hsbw endchar", "A 4 O05"),
    (
        "5 1 3 callothersubr pop callsubr 0 500 hsbw endchar",
        "A 4 W03",
    ),
    (
        "5 1 3 callothersubr pop callsubr 5 1 3 callothersubr pop callsubr 0 0 500 0 sbw endchar",
        "A 4 W03, A 11 W03",
    ),
    ("0 500 hsbw 5 1 3 callothersubr pop callsubr endchar", ""),
];

#[test]
fn calls_before_the_width(rt: HostRuntime) -> Result<(), Fail> {
    assert_glyphs(&rt, rt.alloc(), "", EARLY)
}

/// What other rules tell of such a glyph stays in each edition.
const BESIDE_OTHERS: &[InBoth] = &[
    (
        "0 500 hsbw 7 5 1 13 callothersubr endchar",
        "A 9 C05",
        "A 8 O07, A 9 C05",
    ),
    ("0 500 hsbw 0 0 hstem endchar", "A 6 H03", "A 6 H03"),
    (
        "0 500 hsbw 0 0 hstem 9 20 60 20 100 20 hstem3 endchar",
        "A 6 H03, A 13 H04",
        "A 6 H03, A 13 H04, A 13 H06",
    ),
];

/// The last parts of a font, and the faults by the second edition and by the third.
type InBoth = (&'static str, &'static str, &'static str);

#[test]
fn beside_other_faults(rt: HostRuntime) -> Result<(), Fail> {
    for (words, second, third) in BESIDE_OTHERS {
        for (edition, faults) in [(Edition::Two, second), (Edition::Three, third)] {
            assert_after(
                &rt,
                rt.alloc(),
                GLYPH,
                words,
                Asked::Report(edition),
                faults,
            )?;
        }
    }
    Ok(())
}

/// A glyph that breaks H06.
const WAIVED: &str = "key: /BlueValues [] def | \
encoding: /Encoding StandardEncoding def /FontMatrix [0.001 0 0 0.001 0 0] def \
/FontBBox {0 0 1000 1000} def | A: 0 500 hsbw 0 20 hstem 100 20 150 20 200 20 hstem3 endchar";

/// Waivers of a later rule, that is used or not.
const WAIVERS: &[Case] = &[
    (WAIVED, "", Asked::Report(Edition::Three), "A 13 H06"),
    (WAIVED, "A H06", Asked::Report(Edition::Three), ""),
    (
        WAIVED,
        "A H07\nB H06",
        Asked::Report(Edition::Three),
        "A 13 H06, A H07 U01, B H06 U01",
    ),
];

#[test]
fn later_rules_are_waived(rt: HostRuntime) -> Result<(), Fail> {
    assert_cases(&rt, rt.alloc(), WAIVERS)
}
