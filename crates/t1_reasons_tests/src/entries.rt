//! Reasons at the entries of a font: Type 1 Font Format 1.1, chapters 2 and 5.

use crate::places::entry_reason;
use std::alloc::Global;
use std::process::Abort;
use std::test::Fail;
use t1_char::Edition;
use t1_font::{Encoding, Font};
use t1_reasons::{
    EntryKind, Found, Reason, Unused, fuzz_across, fuzz_that_does, scale_that_does, unused_reason,
};
use t1_rules::{Edges, Rule};
use t1_samples::{NOTDEF, Sample, font_of, opened};

/// One, in units of 10^-9.
const ONE: i64 = 1_000_000_000;

/// Lines of the Private dictionary; the rule, the key and the index that are asked for; and the reason.
type Row = (&'static str, Rule, u8, u32, Option<Reason>);

const ENTRIES: &[Row] = &[
    (
        "/UniqueID 16777216 def",
        Rule::F05,
        5,
        0,
        Some(Reason::Entry {
            found: Found::One {
                number: 16_777_216 * ONE,
            },
        }),
    ),
    ("/UniqueID 16777215 def", Rule::F05, 5, 0, None),
    // A radix number, the same.
    (
        "/UniqueID 16#1000000 def",
        Rule::F05,
        5,
        0,
        Some(Reason::Entry {
            found: Found::One {
                number: 16_777_216 * ONE,
            },
        }),
    ),
    ("/UniqueID 16#FFFFFF def", Rule::F05, 5, 0, None),
    (
        "/password 5838 def",
        Rule::F07,
        6,
        0,
        Some(Reason::Entry {
            found: Found::One { number: 5838 * ONE },
        }),
    ),
    (
        "/password [5839] def",
        Rule::F07,
        6,
        0,
        Some(Reason::Entry {
            found: Found::Several { count: 1 },
        }),
    ),
    ("/password 5839 def", Rule::F07, 6, 0, None),
    (
        "/MinFeature {16 17} def",
        Rule::F08,
        7,
        0,
        Some(Reason::Features {
            found: Found::Several { count: 2 },
            one: 16 * ONE,
            two: 17 * ONE,
        }),
    ),
    (
        "/MinFeature 16 def",
        Rule::F08,
        7,
        0,
        Some(Reason::Features {
            found: Found::One { number: 16 * ONE },
            one: 0,
            two: 0,
        }),
    ),
    ("/MinFeature [16 16] def", Rule::F08, 7, 0, None),
    (
        "/BlueScale [1] def",
        Rule::Z01,
        13,
        0,
        Some(Reason::Kind {
            found: Found::Several { count: 1 },
            wanted: EntryKind::Number,
        }),
    ),
    ("/BlueScale .04 def", Rule::Z01, 13, 0, None),
    (
        "/StdHW 31 def",
        Rule::Z01,
        16,
        0,
        Some(Reason::Kind {
            found: Found::One { number: 31 * ONE },
            wanted: EntryKind::Numbers,
        }),
    ),
    ("/StdHW [31] def", Rule::Z01, 16, 0, None),
    (
        "/BlueValues [0 1 5 6 10 11 15 16 20 21 25 26 30 31 35] def",
        Rule::Z02,
        9,
        14,
        Some(Reason::TooMany {
            count: 15,
            most: 14,
        }),
    ),
    (
        "/BlueValues [0 1 5 6 10 11 15 16 20 21 25 26 30 31 35] def",
        Rule::Z03,
        9,
        0,
        Some(Reason::Numbers { count: 15 }),
    ),
    // Fourteen numbers, as many as there may be: no odd count, and the last two of the seven zones are too near.
    (
        "/BlueValues [0 1 5 6 10 11 15 16 20 21 25 26 28 31] def",
        Rule::Z02,
        9,
        14,
        None,
    ),
    (
        "/BlueValues [0 1 5 6 10 11 15 16 20 21 25 26 28 31] def",
        Rule::Z03,
        9,
        0,
        None,
    ),
    (
        "/BlueValues [0 1 5 6 10 11 15 16 20 21 25 26 28 31] def",
        Rule::Z05,
        9,
        12,
        Some(Reason::Gap {
            upper: 26 * ONE,
            lower: 28 * ONE,
            distance: 3_000_000_000,
        }),
    ),
    (
        "/BlueValues [0 1 5 6 10 11 15 16 20 21 25 26 29 31] def",
        Rule::Z05,
        9,
        12,
        None,
    ),
    (
        "/BlueValues [0 -.000000001] def",
        Rule::Z04,
        9,
        1,
        Some(Reason::Following {
            before: 0,
            number: -1,
        }),
    ),
    ("/BlueValues [0 0] def", Rule::Z04, 9, 1, None),
    (
        "/BlueValues [0 5 7.999999999 10] def",
        Rule::Z05,
        9,
        2,
        Some(Reason::Gap {
            upper: 5 * ONE,
            lower: 7_999_999_999,
            distance: 3_000_000_000,
        }),
    ),
    ("/BlueValues [0 5 8 10] def", Rule::Z05, 9, 2, None),
    (
        "/BlueValues [-30 -27 -8 0] def /OtherBlues [-20 -10] def",
        Rule::Z06,
        10,
        0,
        Some(Reason::Zones {
            own: Edges {
                lower: -20 * ONE,
                upper: -10 * ONE,
            },
            other: Edges {
                lower: -8 * ONE,
                upper: 0 * ONE,
            },
            distance: 3_000_000_000,
        }),
    ),
    (
        "/BlueValues [-7 0] def /OtherBlues [-20 -10] def",
        Rule::Z06,
        10,
        0,
        None,
    ),
    // The last low zone and the last of six high ones.
    (
        "/BlueValues [0 9 100 110 200 210 300 310 400 410 500 510 600 610] def /OtherBlues [-50 -40 -30 -20 612 620] def",
        Rule::Z06,
        10,
        4,
        Some(Reason::Zones {
            own: Edges {
                lower: 612 * ONE,
                upper: 620 * ONE,
            },
            other: Edges {
                lower: 600 * ONE,
                upper: 610 * ONE,
            },
            distance: 3_000_000_000,
        }),
    ),
    (
        "/BlueValues [0 9 100 110 200 210 300 310 400 410 500 510 600 610] def /OtherBlues [-50 -40 -30 -20 613 620] def",
        Rule::Z06,
        10,
        4,
        None,
    ),
    // BlueScale is .039625 where nothing is said: 25 units are not too high, 26 are.
    ("/BlueValues [0 25] def", Rule::Z07, 9, 1, None),
    (
        "/BlueValues [0 26] def",
        Rule::Z07,
        9,
        1,
        Some(Reason::Zone {
            lower: 0,
            upper: 26 * ONE,
            scale: 39_625_000,
        }),
    ),
    (
        "/BlueValues [0 28] def /BlueScale .03572 def",
        Rule::Z07,
        9,
        1,
        Some(Reason::Zone {
            lower: 0,
            upper: 28 * ONE,
            scale: 35_720_000,
        }),
    ),
    (
        "/BlueValues [0 28] def /BlueScale .035714285 def",
        Rule::Z07,
        9,
        1,
        None,
    ),
    (
        "/StdHW [31 32] def",
        Rule::Z08,
        16,
        0,
        Some(Reason::Entry {
            found: Found::Several { count: 2 },
        }),
    ),
    ("/StdHW [31] def", Rule::Z08, 16, 0, None),
    (
        "/StemSnapH [1 2 3 4 5 6 7 8 9 10 11 12 13] def",
        Rule::Z09,
        18,
        12,
        Some(Reason::TooMany {
            count: 13,
            most: 12,
        }),
    ),
    (
        "/StemSnapH [1 2 3 4 5 6 7 8 9 10 11 12] def",
        Rule::Z09,
        18,
        12,
        None,
    ),
    (
        "/StdHW [31] def /StemSnapH [31 31] def",
        Rule::Z10,
        18,
        1,
        None,
    ),
    (
        "/StdHW [31] def /StemSnapH [31 30] def",
        Rule::Z10,
        18,
        1,
        Some(Reason::Following {
            before: 31 * ONE,
            number: 30 * ONE,
        }),
    ),
    (
        "/StdVW [31] def /StemSnapV [20 30 32 40] def",
        Rule::Z11,
        19,
        0,
        Some(Reason::Width {
            width: 31 * ONE,
            nearest: 30 * ONE,
        }),
    ),
    (
        "/StdVW [31] def /StemSnapV [20 30 31] def",
        Rule::Z11,
        19,
        0,
        None,
    ),
    (
        "/StdVW [31] def /StemSnapV [20 30 32] def",
        Rule::Z11,
        18,
        0,
        None,
    ),
];

/// The reason in a font with these lines.
fn reason_of(
    alloc: Global,
    lines: &str,
    rule: Rule,
    key: u8,
    index: u32,
) -> Result<Option<Reason>, Fail> {
    let sample = Sample::new(alloc)?.key(lines.as_bytes())?;
    entry_reason(alloc, &sample, rule, key, index, Edition::One)
}

#[test]
fn reasons_at_entries(rt: HostRuntime) -> Result<(), Fail> {
    for (lines, rule, key, index, reason) in ENTRIES {
        let found = reason_of(rt.alloc(), lines, *rule, *key, *index)?;
        assert!(rt; found == *reason, "{lines}");
    }
    Ok(())
}

/// Lines of the clear text, which has no Encoding but for these, and of the Private dictionary; the rule, the key and the index
/// that are asked for; and the reason. The font has the glyphs .notdef and, twice, B, and the Subrs 5, twice, and 6 in an array of six.
type ClearRow = (&'static str, &'static str, Rule, u8, u32, Option<Reason>);

const CLEAR_ENTRIES: &[ClearRow] = &[
    (
        "/FontType 1.000000001 def\n",
        "",
        Rule::F03,
        1,
        0,
        Some(Reason::Entry {
            found: Found::One { number: ONE + 1 },
        }),
    ),
    ("/FontType 1.0 def\n", "", Rule::F03, 1, 0, None),
    (
        "/PaintType 1 def\n",
        "",
        Rule::F04,
        2,
        0,
        Some(Reason::Entry {
            found: Found::One { number: ONE },
        }),
    ),
    ("/PaintType 2 def\n", "", Rule::F04, 2, 0, None),
    (
        "/UniqueID 5 def\n",
        "/UniqueID 6 def",
        Rule::F06,
        5,
        0,
        Some(Reason::Ids {
            clear: 5 * ONE,
            private: 6 * ONE,
        }),
    ),
    (
        "/UniqueID 6 def\n",
        "/UniqueID 6 def",
        Rule::F06,
        5,
        0,
        None,
    ),
    (
        "",
        "",
        Rule::F11,
        4,
        0,
        Some(Reason::Form {
            encoding: Encoding::Absent,
        }),
    ),
    (
        "/Encoding 5 def\n",
        "",
        Rule::F11,
        4,
        0,
        Some(Reason::Form {
            encoding: Encoding::Other,
        }),
    ),
    (
        "/Encoding StandardEncoding def\n",
        "",
        Rule::F11,
        4,
        0,
        None,
    ),
    (
        "/Encoding 256 array\ndup 65 /A put\ndup 66 /B put\nreadonly def\n",
        "",
        Rule::F13,
        4,
        65,
        Some(Reason::Code { code: 65 }),
    ),
    (
        "/Encoding 256 array\ndup 65 /A put\ndup 66 /B put\nreadonly def\n",
        "",
        Rule::F13,
        4,
        66,
        None,
    ),
    (
        "",
        "",
        Rule::F14,
        20,
        5,
        Some(Reason::SubrEntry {
            number: 5,
            twice: true,
            size: 6,
        }),
    ),
    (
        "",
        "",
        Rule::F14,
        20,
        6,
        Some(Reason::SubrEntry {
            number: 6,
            twice: false,
            size: 6,
        }),
    ),
    ("", "", Rule::F14, 20, 4, None),
    ("", "", Rule::F10, 21, 1, Some(Reason::Glyph { glyph: 1 })),
    ("", "", Rule::F10, 21, 0, None),
    ("", "", Rule::F09, 21, 0, None),
];

/// The font of a row.
fn sample_of(alloc: Global, clear: &str, lines: &str) -> Result<Sample, Fail> {
    Ok(
        Sample::new(alloc)?
            .encoding(clear.as_bytes())?
            .key(lines.as_bytes())?
            .subr(5, b"\x0b")?
            .subr(5, b"\x0b")?
            .subr(6, b"\x0b")?
            .glyph(b"B", NOTDEF)?
            .glyph(b"B", NOTDEF)?,
    )
}

/// A font of a row has its reason.
fn assert_clear(rt: &impl Abort, alloc: Global, row: &ClearRow) -> Result<(), Fail> {
    let (clear, lines, rule, key, index, reason) = *row;
    let sample = sample_of(alloc, clear, lines)?;
    let found = entry_reason(alloc, &sample, rule, key, index, Edition::One)?;
    assert!(rt; found == reason, "{clear} {lines}");
    Ok(())
}

#[test]
fn reasons_of_what_the_clear_text_says(rt: HostRuntime) -> Result<(), Fail> {
    for row in CLEAR_ENTRIES {
        assert_clear(&rt, rt.alloc(), row)?;
    }
    Ok(())
}

/// Zones, and the greatest BlueScale that does for them, BlueFuzz for those of a list, and BlueFuzz for low zones and high ones.
const REMEDIES: &[(&str, Option<i64>, Option<i64>, Option<i64>)] = &[
    ("/BlueValues [] def", None, None, None),
    ("/BlueValues [0 28] def", Some(35_714_285), None, None),
    (
        "/BlueValues [0 28 40 50] def /OtherBlues [-50 -20] def",
        Some(33_333_333),
        Some(5_500_000_000),
        Some(9_500_000_000),
    ),
    (
        "/BlueValues [0 5 5.5 10] def",
        Some(199_999_999),
        Some(-1),
        None,
    ),
    (
        "/FamilyBlues [0 5 6 10] def",
        Some(199_999_999),
        Some(0),
        None,
    ),
    (
        "/FamilyBlues [-1 9] def /FamilyOtherBlues [-22 -3 12 20] def",
        Some(52_631_578),
        Some(7_000_000_000),
        Some(500_000_000),
    ),
    (
        "/FamilyBlues [-1 9] def /FamilyOtherBlues [-22 -3 5 8] def",
        Some(52_631_578),
        Some(3_500_000_000),
        Some(-1),
    ),
];

/// What would do for the zones of a font with these lines.
fn assert_remedies(
    rt: &impl Abort,
    font: &Font<'_>,
    lines: &str,
    remedies: (Option<i64>, Option<i64>, Option<i64>),
) {
    let (scale, fuzz, across) = remedies;
    assert_eq!(rt; scale_that_does(font), scale, "{lines}");
    assert_eq!(rt; fuzz_that_does(font), fuzz, "{lines}");
    assert_eq!(rt; fuzz_across(font), across, "{lines}");
    assert_eq!(rt; unused_reason(font, b"A"), Unused::NoGlyph);
    assert_eq!(rt;
        unused_reason(font, b".notdef"),
        Unused::Unbroken { glyph: 0 }
    );
}

#[test]
fn what_would_do(rt: HostRuntime) -> Result<(), Fail> {
    for (lines, scale, fuzz, across) in REMEDIES {
        let sample = Sample::new(rt.alloc())?.key(lines.as_bytes())?;
        let mut file = opened(rt.alloc(), &sample)?;
        let font = font_of(rt.alloc(), &mut file)?;
        assert_remedies(&rt, &font, lines, (*scale, *fuzz, *across));
    }
    Ok(())
}
