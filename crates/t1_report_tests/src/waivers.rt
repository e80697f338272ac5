//! Waivers: how they are read, and what they leave of a report. No chapter of the standard has them.

use crate::answers::{Asked, Case, assert_cases};
use std::alloc::{AllocError, Global};
use std::test::Fail;
use t1_char::Edition;
use t1_report::{WaiverError, Waivers};
use t1_rules::{Rule, rule_code};

/// The pairs of waivers, each with a bar after it; a mark is before one that isn't among them.
fn pairs_of(alloc: Global, waivers: &Waivers<'_>) -> Result<Vec<u8>, AllocError> {
    let mut text = Vec::new(alloc);
    for place in 0..waivers.len() {
        if let Some((name, rule)) = waivers.pair(place) {
            let waived = waivers.waives(name, rule) && !waivers.waives(name, Rule::U01);
            push_pair(&mut text, name, rule, waived)?;
        }
    }
    if waivers.pair(waivers.len()).is_some() {
        text.push(b'!')?;
    }
    Ok(text)
}

/// Adds a pair, after a mark where it isn't waived.
fn push_pair(text: &mut Vec<u8>, name: &[u8], rule: Rule, waived: bool) -> Result<(), AllocError> {
    text.extend_from_slice(if waived { b"" } else { b"!" })?;
    text.extend_from_slice(name)?;
    text.extend_from_slice(b" ")?;
    text.extend_from_slice(rule_code(rule).as_bytes())?;
    text.extend_from_slice(b"|")
}

/// The pairs that a text is read as in an edition, if it is read.
fn pairs_in(alloc: Global, text: &[u8], edition: Edition) -> Result<Option<Vec<u8>>, AllocError> {
    if text.len() > 1_048_576 {
        return Ok(None);
    }
    match Waivers::read(alloc, text, edition) {
        Ok(waivers) => Ok(Some(pairs_of(alloc, &waivers)?)),
        Err(WaiverError::Malformed) => Ok(None),
        Err(WaiverError::Memory) => Err(AllocError),
    }
}

/// Whether a text is read as these pairs, or isn't read.
fn has_pairs(
    alloc: Global,
    text: &[u8],
    edition: Edition,
    pairs: Option<&[u8]>,
) -> Result<bool, AllocError> {
    let found = pairs_in(alloc, text, edition)?;
    Ok(found.as_deref() == pairs)
}

/// Texts, and the pairs in those that are read.
const TEXTS: &[(&[u8], Option<&[u8]>)] = &[
    (b"", Some(b"")),
    (b"\n\n", Some(b"")),
    (b"\r", Some(b"")),
    (b"\r\n\r\n", Some(b"")),
    (b"A GE01", Some(b"A GE01|")),
    (b"A GE01\n", Some(b"A GE01|")),
    (b"A GE01\r\n", Some(b"A GE01|")),
    (b"A GE01\r", Some(b"A GE01|")),
    (
        b"A GE01\nA C05\n\nB C05\nA C05\n",
        Some(b"A GE01|A C05|B C05|"),
    ),
    (b" GE01\n", Some(b" GE01|")),
    (b"\x80\xff GE01", Some(b"\x80\xff GE01|")),
    (b"A C01\nA L01", Some(b"A C01|A L01|")),
    (b"A K07\nA W01", Some(b"A K07|A W01|")),
    (b"A", None),
    (b" ", None),
    (b"A ", None),
    (b"A F01", None),
    (b"A Z11", None),
    (b"A U01", None),
    (b"A C10", None),
    (b"A ge01", None),
    (b"A GE01 ", None),
    (b"A  GE01", None),
    (b"A\tGE01", None),
    (b"A\0GE01", None),
    (b"/A GE01", None),
    (b"A B GE01", None),
    (b"A GE01\r\r\n", None),
    (b"A GE01\nB\n", None),
    (b"A GE01\n\0\n", None),
    (b"A GE01,", None),
];

#[test]
fn texts_are_waivers_or_not(rt: HostRuntime) -> Result<(), Fail> {
    for edition in [Edition::One, Edition::Two, Edition::Three, Edition::Four] {
        for (text, pairs) in TEXTS {
            assert!(rt; has_pairs(rt.alloc(), text, edition, *pairs)?, "{text:?}");
        }
    }
    Ok(())
}

/// Waivers of rules after number 70: the third edition has those on charstrings.
const LATER: &[(&[u8], Option<&[u8]>)] = &[
    (b"A H05\nA H06\nA H07", Some(b"A H05|A H06|A H07|")),
    (
        b"A O05\nA O06\nA O07\nA O08",
        Some(b"A O05|A O06|A O07|A O08|"),
    ),
    (b"A W03", Some(b"A W03|")),
    (b"A F15", None),
    (b"A F21", None),
    (b"A Z12", None),
    (b"A Z19", None),
    (b"A F22", None),
    (b"A F29", None),
];

#[test]
fn later_rules_are_waived_from_the_third_edition_on(rt: HostRuntime) -> Result<(), Fail> {
    for (text, pairs) in LATER {
        assert!(rt;
            has_pairs(rt.alloc(), text, Edition::Three, *pairs)?,
            "{text:?}"
        );
        assert!(rt;
            has_pairs(rt.alloc(), text, Edition::Four, *pairs)?,
            "{text:?}"
        );
        assert!(rt;
            has_pairs(rt.alloc(), text, Edition::Two, None)?,
            "{text:?}"
        );
        assert!(rt;
            has_pairs(rt.alloc(), text, Edition::One, None)?,
            "{text:?}"
        );
    }
    Ok(())
}

/// Waivers of rules after number 93: the fourth edition has those on what is drawn.
const LATEST: &[(&[u8], Option<&[u8]>)] = &[
    (b"A P04", Some(b"A P04|")),
    (b"A P05", Some(b"A P05|")),
    (b"A P06", Some(b"A P06|")),
    (b"A P07", Some(b"A P07|")),
    (b"A P08", Some(b"A P08|")),
    (b"A P09", Some(b"A P09|")),
    (b"A P10", Some(b"A P10|")),
    (b"A P11", Some(b"A P11|")),
    (b"A H08", Some(b"A H08|")),
    (b"A H09", Some(b"A H09|")),
    (b"A H10", Some(b"A H10|")),
    (b"A P12", None),
    (b"A H11", None),
];

/// Whether the first three editions take a text for no waivers.
fn is_later(alloc: Global, text: &[u8]) -> Result<bool, AllocError> {
    for edition in [Edition::One, Edition::Two, Edition::Three] {
        if !has_pairs(alloc, text, edition, None)? {
            return Ok(false);
        }
    }
    Ok(true)
}

#[test]
fn latest_rules_are_waived_in_the_fourth_edition(rt: HostRuntime) -> Result<(), Fail> {
    for (text, pairs) in LATEST {
        assert!(rt;
            has_pairs(rt.alloc(), text, Edition::Four, *pairs)?,
            "{text:?}"
        );
        assert!(rt; is_later(rt.alloc(), text)?, "{text:?}");
    }
    Ok(())
}

#[test]
fn no_waivers_have_no_pairs(rt: HostRuntime) {
    let none = Waivers::none();
    assert!(rt; none.len() == 0 && none.pair(0).is_none());
}

/// A font whose glyph A is empty.
const EMPTY: &str = "A:";

/// A font whose glyph A has four faults.
const FOUR_FAULTS: &str = "A: 32001 0 hmoveto closepath endchar";

/// Reports with waivers, and how often walks request steps: as often as for the glyphs, and up to the first use of each
/// waiver. The glyph `.notdef` takes five turns.
const REPORTS: &[Case] = &[
    (EMPTY, "A GE01\n", Asked::Report(Edition::One), ""),
    (EMPTY, "A GE01\n", Asked::Walk(Edition::One), "; 8"),
    (
        EMPTY,
        "A GE01\nA C05\nB C05\nA C05\n",
        Asked::Report(Edition::One),
        "A C05 U01, B C05 U01",
    ),
    (
        EMPTY,
        "A GE01\nA C05\nB C05\nA C05\n",
        Asked::Walk(Edition::One),
        "A C05 U01, B C05 U01; 10",
    ),
    (
        FOUR_FAULTS,
        "A C05",
        Asked::Report(Edition::One),
        "A 3 C07, A 3 W01, A 4 P03",
    ),
    (
        FOUR_FAULTS,
        "A C05",
        Asked::Walk(Edition::One),
        "A 3 C07, A 3 W01, A 4 P03; 14",
    ),
    (
        FOUR_FAULTS,
        "A P03\nA C05\nA W01\nA C07\n.notdef C05",
        Asked::Report(Edition::One),
        ".notdef C05 U01",
    ),
    (
        FOUR_FAULTS,
        "A P03\nA C05\nA W01\nA C07\n.notdef C05",
        Asked::Walk(Edition::One),
        ".notdef C05 U01; 29",
    ),
];

#[test]
fn reports_with_waivers(rt: HostRuntime) -> Result<(), Fail> {
    assert_cases(&rt, rt.alloc(), REPORTS)
}
