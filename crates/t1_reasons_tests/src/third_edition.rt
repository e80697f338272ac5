//! Reasons of the rules that the third edition adds: Type 1 Font Format 1.1, chapters 2, 5 and 6, and Adobe Technical Note 5015.
//!
//! Each row is asked for in all three editions: the first two have none of these reasons.

use crate::places::{entry_reason, step_reason};
use std::alloc::Global;
use std::process::Abort;
use std::test::Fail;
use t1_char::{CharToken, Command, Edition};
use t1_reasons::{Found, Reason, SetStem};
use t1_rules::{Rule, Stem};
use t1_samples::{Sample, assembled};

/// One, in units of 10^-9.
const ONE: i64 = 1_000_000_000;

/// One, in units of 1/65536, in 32 bits and in 64.
const UNIT: i32 = 65_536;

const LONG: i64 = 65_536;

/// The numbers of keys in a report.
const BLUE_VALUES: u8 = 9;

const BLUE_SCALE: u8 = 13;

const BLUE_SHIFT: u8 = 14;

const BLUE_FUZZ: u8 = 15;

const STD_HW: u8 = 16;

const STD_VW: u8 = 17;

const STEM_SNAP_H: u8 = 18;

const STEM_SNAP_V: u8 = 19;

const SUBRS: u8 = 20;

const FONT_MATRIX: u8 = 22;

const FONT_BBOX: u8 = 23;

const XUID: u8 = 24;

const LANGUAGE_GROUP: u8 = 25;

/// Lines of the clear text and of the Private dictionary, the rule, the key that is asked for at its index 0, and what its entry is, where that is the
/// reason.
type FoundRow = (&'static str, &'static str, Rule, u8, Option<Found>);

const FOUND: &[FoundRow] = &[
    ("", "", Rule::F15, FONT_MATRIX, Some(Found::Absent)),
    (
        "/FontMatrix [0.001 0 0 0.001 0] def",
        "",
        Rule::F15,
        FONT_MATRIX,
        Some(Found::Several { count: 5 }),
    ),
    (
        "/FontMatrix [0.001 0 0 0.001 0 0 0] def",
        "",
        Rule::F15,
        FONT_MATRIX,
        Some(Found::Several { count: 7 }),
    ),
    (
        "/FontMatrix [1e-3 0 0 1e-3 0 0] def",
        "",
        Rule::F15,
        FONT_MATRIX,
        Some(Found::Other),
    ),
    (
        "/FontMatrix 0.001 def",
        "",
        Rule::F15,
        FONT_MATRIX,
        Some(Found::One { number: 1_000_000 }),
    ),
    (
        "/FontMatrix [0.001 0 0 0.001 0 0] def",
        "",
        Rule::F15,
        FONT_MATRIX,
        None,
    ),
    ("", "", Rule::F16, FONT_BBOX, Some(Found::Absent)),
    (
        "/FontBBox {0 0 1000} def",
        "",
        Rule::F16,
        FONT_BBOX,
        Some(Found::Several { count: 3 }),
    ),
    (
        "/FontBBox (0 0 1000 1000) def",
        "",
        Rule::F16,
        FONT_BBOX,
        Some(Found::Other),
    ),
    (
        "/FontBBox {0 0 1000 1000} def",
        "",
        Rule::F16,
        FONT_BBOX,
        None,
    ),
    (
        "/XUID [] def",
        "",
        Rule::F18,
        XUID,
        Some(Found::Several { count: 0 }),
    ),
    (
        "/XUID 1000 def",
        "",
        Rule::F18,
        XUID,
        Some(Found::One { number: 1000 * ONE }),
    ),
    (
        "/XUID [1000000000] def",
        "",
        Rule::F18,
        XUID,
        Some(Found::Other),
    ),
    ("/XUID [1000] def", "", Rule::F18, XUID, None),
    ("", "", Rule::F18, XUID, None),
    (
        "",
        "/LanguageGroup 2 def",
        Rule::F20,
        LANGUAGE_GROUP,
        Some(Found::One { number: 2 * ONE }),
    ),
    (
        "",
        "/LanguageGroup [1] def",
        Rule::F20,
        LANGUAGE_GROUP,
        Some(Found::Several { count: 1 }),
    ),
    ("", "/LanguageGroup 1 def", Rule::F20, LANGUAGE_GROUP, None),
    ("", "", Rule::F20, LANGUAGE_GROUP, None),
    ("", "", Rule::Z12, BLUE_VALUES, Some(Found::Absent)),
    ("", "/BlueValues [] def", Rule::Z12, BLUE_VALUES, None),
    (
        "",
        "/BlueScale 0.6 def",
        Rule::Z17,
        BLUE_SCALE,
        Some(Found::One {
            number: 600_000_000,
        }),
    ),
    (
        "",
        "/BlueScale 0.500000001 def",
        Rule::Z17,
        BLUE_SCALE,
        Some(Found::One {
            number: 500_000_001,
        }),
    ),
    ("", "/BlueScale 0.5 def", Rule::Z17, BLUE_SCALE, None),
    (
        "",
        "/BlueScale 0 def",
        Rule::Z17,
        BLUE_SCALE,
        Some(Found::One { number: 0 }),
    ),
    (
        "",
        "/BlueShift -1 def",
        Rule::Z18,
        BLUE_SHIFT,
        Some(Found::One { number: -ONE }),
    ),
    (
        "",
        "/BlueShift 7.5 def",
        Rule::Z18,
        BLUE_SHIFT,
        Some(Found::One {
            number: 7_500_000_000,
        }),
    ),
    ("", "/BlueShift 0 def", Rule::Z18, BLUE_SHIFT, None),
    (
        "",
        "/BlueFuzz 11 def",
        Rule::Z19,
        BLUE_FUZZ,
        Some(Found::One { number: 11 * ONE }),
    ),
    (
        "",
        "/BlueFuzz 0.5 def",
        Rule::Z19,
        BLUE_FUZZ,
        Some(Found::One {
            number: 500_000_000,
        }),
    ),
    ("", "/BlueFuzz 10 def", Rule::Z19, BLUE_FUZZ, None),
];

/// The same with any reason, and the index that is asked for.
type EntryRow = (&'static str, &'static str, Rule, u8, u32, Option<Reason>);

const ENTRIES: &[EntryRow] = &[
    (
        "/FontBBox {10 0 5 1000} def",
        "",
        Rule::F17,
        FONT_BBOX,
        0,
        Some(Reason::Corners {
            first: 10 * ONE,
            last: 5 * ONE,
        }),
    ),
    (
        "/FontBBox {10 0 5 1000} def",
        "",
        Rule::F17,
        FONT_BBOX,
        1,
        None,
    ),
    (
        "/FontBBox {0 -200.5 1000 -201} def",
        "",
        Rule::F17,
        FONT_BBOX,
        1,
        Some(Reason::Corners {
            first: -200_500_000_000,
            last: -201 * ONE,
        }),
    ),
    ("/FontBBox {5 0 5 0} def", "", Rule::F17, FONT_BBOX, 0, None),
    (
        "/XUID [1000 -1 2.5 16777216] def",
        "",
        Rule::F19,
        XUID,
        0,
        None,
    ),
    (
        "/XUID [1000 -1 2.5 16777216] def",
        "",
        Rule::F19,
        XUID,
        1,
        Some(Reason::Number { number: -ONE }),
    ),
    (
        "/XUID [1000 -1 2.5 16777216] def",
        "",
        Rule::F19,
        XUID,
        2,
        Some(Reason::Number {
            number: 2_500_000_000,
        }),
    ),
    (
        "/XUID [1000 -1 2.5 16777216] def",
        "",
        Rule::F19,
        XUID,
        3,
        Some(Reason::Number {
            number: 16_777_216 * ONE,
        }),
    ),
    ("/XUID [16777215] def", "", Rule::F19, XUID, 0, None),
    (
        "",
        "",
        Rule::F21,
        SUBRS,
        0,
        Some(Reason::LastToken {
            token: Some(CharToken::Command(Command::Endchar)),
        }),
    ),
    ("", "", Rule::F21, SUBRS, 1, None),
    (
        "",
        "",
        Rule::F21,
        SUBRS,
        2,
        Some(Reason::LastToken { token: None }),
    ),
    (
        "",
        "",
        Rule::F21,
        SUBRS,
        3,
        Some(Reason::LastToken {
            token: Some(CharToken::Number(5)),
        }),
    ),
    (
        "",
        "",
        Rule::F21,
        SUBRS,
        4,
        Some(Reason::LastToken {
            token: Some(CharToken::Cut),
        }),
    ),
    ("", "", Rule::F21, SUBRS, 5, None),
    (
        "",
        "/lenIV 1 def",
        Rule::F21,
        SUBRS,
        2,
        Some(Reason::LastToken {
            token: Some(CharToken::Short),
        }),
    ),
    (
        "",
        "/StdHW [0] def",
        Rule::Z13,
        STD_HW,
        0,
        Some(Reason::Number { number: 0 }),
    ),
    (
        "",
        "/StdVW [-20 20] def",
        Rule::Z13,
        STD_VW,
        0,
        Some(Reason::Number { number: -20 * ONE }),
    ),
    ("", "/StdVW [0.5] def", Rule::Z13, STD_VW, 0, None),
    (
        "",
        "/BlueValues [-10.5 0] def",
        Rule::Z14,
        BLUE_VALUES,
        0,
        Some(Reason::Number {
            number: -10_500_000_000,
        }),
    ),
    (
        "",
        "/BlueValues [-10.5 0] def",
        Rule::Z14,
        BLUE_VALUES,
        1,
        None,
    ),
    (
        "",
        "/StemSnapV [20 20 30] def",
        Rule::Z15,
        STEM_SNAP_V,
        1,
        Some(Reason::Following {
            before: 20 * ONE,
            number: 20 * ONE,
        }),
    ),
    (
        "",
        "/StemSnapV [20 20 30] def",
        Rule::Z15,
        STEM_SNAP_V,
        2,
        None,
    ),
    (
        "",
        "/StemSnapH [20 20 20] def",
        Rule::Z15,
        STEM_SNAP_H,
        2,
        Some(Reason::Following {
            before: 20 * ONE,
            number: 20 * ONE,
        }),
    ),
    (
        "",
        "/StdHW [0] def /StemSnapH [] def",
        Rule::Z16,
        STEM_SNAP_H,
        0,
        Some(Reason::Number { number: 0 }),
    ),
    (
        "",
        "/StdVW [31 32] def /StemSnapV [] def",
        Rule::Z16,
        STEM_SNAP_V,
        0,
        Some(Reason::Number { number: 31 * ONE }),
    ),
    (
        "",
        "/StdVW [31] def /StemSnapH [] def",
        Rule::Z16,
        STEM_SNAP_H,
        0,
        None,
    ),
    (
        "",
        "/StdVW [] def /StemSnapV [] def",
        Rule::Z16,
        STEM_SNAP_V,
        0,
        None,
    ),
];

/// Subrs 0 to 5: endchar, endchar and return, none, a number, a number that breaks off, and return.
const SUBR_BYTES: [(u32, &[u8]); 6] = [
    (0, b"\x0e"),
    (1, b"\x0e\x0b"),
    (2, b""),
    (3, b"\x90"),
    (4, b"\xff\x00"),
    (5, b"\x0b"),
];

/// The words of a glyph, the step and the rule that are asked for, and the reason.
type StepRow = (&'static str, u32, Rule, Option<Reason>);

const STEPS: &[StepRow] = &[
    // 1/3, cut to 21845/65536; and a half.
    (
        "0 500 hsbw 0 1 3 div hstem endchar",
        8,
        Rule::H05,
        Some(Reason::Stem {
            stem: Stem {
                position: 0,
                width: 21_845,
            },
        }),
    ),
    ("0 500 hsbw 0 1 2 div hstem endchar", 8, Rule::H05, None),
    (
        "0 500 hsbw 10 -1 3 div vstem endchar",
        8,
        Rule::H05,
        Some(Reason::Stem {
            stem: Stem {
                position: 10 * UNIT,
                width: -21_845,
            },
        }),
    ),
    ("0 500 hsbw 0 0 hstem endchar", 6, Rule::H05, None),
    // The second of three stems.
    (
        "0 500 hsbw 0 20 50 1 4 div 80 20 hstem3 endchar",
        12,
        Rule::H05,
        Some(Reason::Stem {
            stem: Stem {
                position: 50 * UNIT,
                width: 16_384,
            },
        }),
    ),
    (
        "0 500 hsbw 0 20 hstem 100 20 150 20 200 20 hstem3 endchar",
        13,
        Rule::H06,
        Some(Reason::Stems {
            own: Stem {
                position: 100 * UNIT,
                width: 20 * UNIT,
            },
            other: SetStem {
                stem: Stem {
                    position: 0,
                    width: 20 * UNIT,
                },
                step: 6,
            },
        }),
    ),
    (
        "0 500 hsbw 0 20 hstem 100 20 150 20 200 20 hstem3 endchar",
        6,
        Rule::H06,
        None,
    ),
    (
        "0 500 hsbw 0 20 hstem 100 20 150 20 200 20 vstem3 endchar",
        13,
        Rule::H06,
        None,
    ),
    // A later hstem has no such line.
    (
        "0 500 hsbw 100 20 150 20 200 20 vstem3 0 20 vstem 30 20 vstem endchar",
        13,
        Rule::H06,
        Some(Reason::Stems {
            own: Stem {
                position: 0,
                width: 20 * UNIT,
            },
            other: SetStem {
                stem: Stem {
                    position: 100 * UNIT,
                    width: 20 * UNIT,
                },
                step: 10,
            },
        }),
    ),
    (
        "0 500 hsbw 100 20 150 20 200 20 vstem3 0 20 vstem 30 20 vstem endchar",
        16,
        Rule::H06,
        None,
    ),
    (
        "0 500 hsbw 0 20 50 20 100 20 hstem3 5 1 3 callothersubr pop callsubr 0 20 60 20 120 20 hstem3 endchar",
        24,
        Rule::H07,
        Some(Reason::Stems {
            own: Stem {
                position: 60 * UNIT,
                width: 20 * UNIT,
            },
            other: SetStem {
                stem: Stem {
                    position: 50 * UNIT,
                    width: 20 * UNIT,
                },
                step: 10,
            },
        }),
    ),
    (
        "0 500 hsbw 0 20 50 20 100 20 hstem3 5 1 3 callothersubr pop callsubr 20 -20 50 20 100 20 hstem3 endchar",
        24,
        Rule::H07,
        None,
    ),
    (
        "0 500 hsbw 0 20 50 20 100 20 hstem3 5 1 3 callothersubr pop callsubr 0 20 50 20 100 20 vstem3 endchar",
        24,
        Rule::H07,
        None,
    ),
    (
        "0 500 hsbw 0 hmoveto 5 1 12 callothersubr endchar",
        9,
        Rule::O05,
        Some(Reason::Since { step: Some(5) }),
    ),
    (
        "0 500 hsbw 0 hmoveto 5 1 12 callothersubr endchar",
        10,
        Rule::O08,
        Some(Reason::Since { step: Some(9) }),
    ),
    (
        "5 1 13 callothersubr 0 500 hsbw endchar",
        4,
        Rule::O05,
        Some(Reason::Since { step: None }),
    ),
    (
        "0 500 hsbw 5 1 12 callothersubr 5 1 13 callothersubr endchar",
        7,
        Rule::O05,
        None,
    ),
    (
        "0 500 hsbw 5 1 12 callothersubr 5 1 13 callothersubr endchar",
        11,
        Rule::O05,
        None,
    ),
    (
        "0 500 hsbw 5 1 12 callothersubr 5 1 13 callothersubr endchar",
        11,
        Rule::O08,
        None,
    ),
    (
        "0 500 hsbw 5 1 12 callothersubr 5 1 13 callothersubr endchar",
        11,
        Rule::O06,
        None,
    ),
    (
        "0 500 hsbw 5 1 13 callothersubr 5 1 13 callothersubr endchar",
        11,
        Rule::O06,
        Some(Reason::Since { step: Some(7) }),
    ),
    (
        "0 500 hsbw 7 5 1 13 callothersubr endchar",
        8,
        Rule::O07,
        Some(Reason::Arguments {
            count: LONG,
            there: 2,
        }),
    ),
    (
        "0 500 hsbw 7 5 2 13 callothersubr endchar",
        8,
        Rule::O07,
        None,
    ),
    // A Subr is called between.
    (
        "0 500 hsbw 5 1 12 callothersubr 5 callsubr endchar",
        11,
        Rule::O08,
        Some(Reason::Since { step: Some(7) }),
    ),
    (
        "5 1 3 callothersubr pop callsubr 0 500 hsbw endchar",
        4,
        Rule::W03,
        Some(Reason::Since { step: None }),
    ),
    (
        "5 1 3 callothersubr 5 1 3 callothersubr pop callsubr 0 500 hsbw endchar",
        8,
        Rule::W03,
        Some(Reason::Since { step: Some(4) }),
    ),
    (
        "0 500 hsbw 5 1 3 callothersubr pop callsubr endchar",
        7,
        Rule::W03,
        None,
    ),
];

/// The editions before the third, and the third.
const EDITIONS: [Edition; 3] = [Edition::One, Edition::Two, Edition::Three];

/// A reason that the third edition alone has.
fn from_the_third(edition: Edition, reason: Option<Reason>) -> Option<Reason> {
    match edition {
        Edition::One | Edition::Two => None,
        Edition::Three | Edition::Four => reason,
    }
}

/// A font with the Subrs.
fn with_subrs(mut sample: Sample) -> Result<Sample, Fail> {
    for (number, bytes) in SUBR_BYTES {
        sample = sample.subr(number, bytes)?;
    }
    Ok(sample)
}

/// A font with these lines.
fn sample_of(alloc: Global, clear: &str, lines: &str) -> Result<Sample, Fail> {
    let encoding = format!(in alloc; "/Encoding StandardEncoding def\n{clear}\n")?;
    with_subrs(
        Sample::new(alloc)?
            .encoding(encoding.as_bytes())?
            .key(lines.as_bytes())?,
    )
}

/// A font with these lines has its reason at an entry in the third edition alone.
fn assert_entry(rt: &impl Abort, alloc: Global, row: &EntryRow) -> Result<(), Fail> {
    let (clear, lines, rule, key, index, want) = *row;
    let sample = sample_of(alloc, clear, lines)?;
    for edition in EDITIONS {
        let reason = entry_reason(alloc, &sample, rule, key, index, edition)?;
        assert!(rt; reason == from_the_third(edition, want), "{clear} {lines}");
    }
    Ok(())
}

/// The glyph T of a row has its reason in the third edition alone.
fn assert_step(rt: &impl Abort, alloc: Global, row: &StepRow) -> Result<(), Fail> {
    let (words, step, rule, want) = *row;
    let sample = with_subrs(Sample::new(alloc)?)?.glyph(b"T", assembled(alloc, words)?.as_slice())?;
    for edition in EDITIONS {
        let reason = step_reason(alloc, &sample, step, rule, edition)?;
        assert!(rt; reason == from_the_third(edition, want), "{words}");
    }
    Ok(())
}

#[test]
fn entries_have_reasons(rt: HostRuntime) -> Result<(), Fail> {
    for (clear, lines, rule, key, found) in FOUND {
        let want = match found {
            Some(found) => Some(Reason::Entry { found: *found }),
            None => None,
        };
        assert_entry(&rt, rt.alloc(), &(*clear, *lines, *rule, *key, 0, want))?;
    }
    for row in ENTRIES {
        assert_entry(&rt, rt.alloc(), row)?;
    }
    Ok(())
}

#[test]
fn steps_have_reasons(rt: HostRuntime) -> Result<(), Fail> {
    for row in STEPS {
        assert_step(&rt, rt.alloc(), row)?;
    }
    Ok(())
}
