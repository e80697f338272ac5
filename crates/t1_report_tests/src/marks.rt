//! Walks from marks at a fault, between places where none is, and past every unit, step and rule. No chapter of the
//! standard has marks.

use crate::answers::{Asked, Case, assert_after, assert_cases};
use crate::walks::Place;
use std::alloc::Global;
use std::process::Abort;
use std::test::Fail;

/// A glyph of five steps and four faults.
const FOUR_FAULTS: &str = "A: 32001 0 hmoveto closepath endchar";

/// A font whose glyph A is empty.
const EMPTY: &str = "A:";

/// A font whose glyph A takes more than 10^20 steps, of which 100,001 are looked at, the last of them in the last Subr.
pub(super) const TEN_SUBRS: &str = "\
subrs: /Subrs 10 array | \
0: {100 1 callsubr} return | 1: {100 2 callsubr} return | 2: {100 3 callsubr} return | \
3: {100 4 callsubr} return | 4: {100 5 callsubr} return | 5: {100 6 callsubr} return | \
6: {100 7 callsubr} return | 7: {100 8 callsubr} return | 8: {100 9 callsubr} return | \
9: {100 dotsection} return | A: 0 500 hsbw 0 callsubr endchar";

/// Six answers after marks, each with how often steps were requested: from the mark's glyph on, and for the waivers from
/// the mark's on. Steps are requested five times for .notdef, and 100,001 times for a glyph whose calls go on after the
/// limit.
const TURNS: &[Case] = &[
    (
        FOUR_FAULTS,
        "",
        Asked::Turns(0, (0, 0, 0)),
        "1 C05 8, 2 C07 8, 3 W01 8, 4 P03 9, none 11, none 11, ",
    ),
    (
        FOUR_FAULTS,
        "",
        Asked::Turns(0, (2, 3, 31)),
        "1 C07 3, 2 W01 3, 3 P03 4, none 6, none 6, none 6, ",
    ),
    (
        FOUR_FAULTS,
        "",
        Asked::Turns(2, (2, 3, 32)),
        "3 W01 3, 4 P03 4, none 6, none 6, none 6, none 6, ",
    ),
    (
        FOUR_FAULTS,
        "",
        Asked::Turns(u64::MAX, (2, 3, 41)),
        "18446744073709551615 P03 4, none 6, none 6, none 6, none 6, none 6, ",
    ),
    (
        FOUR_FAULTS,
        "",
        Asked::Turns(7, (4_000_000_000, 0, 0)),
        "none 0, none 0, none 0, none 0, none 0, none 0, ",
    ),
    (
        FOUR_FAULTS,
        "",
        Asked::Turns(0, (1, 4_000_000_000, 255)),
        "1 C05 8, 2 C07 8, 3 W01 8, 4 P03 9, none 11, none 11, ",
    ),
    (
        FOUR_FAULTS,
        "",
        Asked::Turns(0, (0, 4_000_000_000, 255)),
        "1 C05 8, 2 C07 8, 3 W01 8, 4 P03 9, none 11, none 11, ",
    ),
    (
        EMPTY,
        "A GE01\nA C05\nB C05\nA C05\n",
        Asked::Turns(1, (3, 2, 70)),
        "2 U01 2, none 2, none 2, none 2, none 2, none 2, ",
    ),
    (
        EMPTY,
        "A GE01\nA C05\nB C05\nA C05\n",
        Asked::Turns(0, (3, 2, 69)),
        "1 U01 2, 2 U01 2, none 2, none 2, none 2, none 2, ",
    ),
    (
        EMPTY,
        "A GE01\nA C05\nB C05\nA C05\n",
        Asked::Turns(5, (3, 0, 0)),
        "6 U01 3, 7 U01 3, none 3, none 3, none 3, none 3, ",
    ),
    (
        EMPTY,
        "A GE01\nA C05\nB C05\nA C05\n",
        Asked::Turns(5, (3, 4, 0)),
        "none 0, none 0, none 0, none 0, none 0, none 0, ",
    ),
    (
        EMPTY,
        "A GE01\nA C05\nB C05\nA C05\n",
        Asked::Turns(5, (4, 0, 0)),
        "none 0, none 0, none 0, none 0, none 0, none 0, ",
    ),
    (
        EMPTY,
        "A GE01\n",
        Asked::Turns(7, (2, 1, 39)),
        "none 3, none 3, none 3, none 3, none 3, none 3, ",
    ),
    (
        EMPTY,
        "A C05\n",
        Asked::Turns(0, (0, 0, 0)),
        "1 GE01 6, 2 U01 9, none 9, none 9, none 9, none 9, ",
    ),
    (
        TEN_SUBRS,
        "",
        Asked::Turns(0, (0, 0, 0)),
        "1 L01 100006, none 100006, none 100006, none 100006, none 100006, none 100006, ",
    ),
    (
        TEN_SUBRS,
        "",
        Asked::Turns(0, (2, 100_001, 68)),
        "1 L01 100001, none 100001, none 100001, none 100001, none 100001, none 100001, ",
    ),
    (
        TEN_SUBRS,
        "",
        Asked::Turns(1, (2, 100_001, 69)),
        "none 100001, none 100001, none 100001, none 100001, none 100001, none 100001, ",
    ),
];

#[test]
fn walks_from_any_mark(rt: HostRuntime) -> Result<(), Fail> {
    assert_cases(&rt, rt.alloc(), TURNS)
}

/// A font of seven faults. It has Z07 of its BlueValues and Z01 of its StdHW; GE01 is of the empty glyph B. Glyph
/// A, which is unit 2 and has five steps, has C05, C07, W01 and P03. The glyph .notdef has four steps.
const SEVEN_FAULTS: &str = "\
key: /BlueValues [0 26] def /StdHW 30 def | A: 32001 0 hmoveto closepath endchar | B:";

/// The first answers after a mark of the font of seven faults, each with the mark after it.
fn assert_marks(
    rt: &impl Abort,
    alloc: Global,
    number: u64,
    place: Place,
    count: u32,
    want: &str,
) -> Result<(), Fail> {
    let asked = Asked::Marks(number, place, count);
    assert_after(rt, alloc, SEVEN_FAULTS, "", asked, want)
}

/// Places, and the two answers after the mark of each with number 5. The last step of the font's last key
/// is 1,441,791.
const PLACES: &[(&[Place], &str)] = &[
    (
        &[(0, 0, 0), (0, 589_824, 255), (0, 589_825, 20)],
        "Z07 6 0 589825 21, Z01 7 0 1048576 15, ",
    ),
    (
        &[(0, 589_825, 21), (0, 589_826, 0), (0, 1_048_576, 14)],
        "Z01 6 0 1048576 15, C05 7 2 3 30, ",
    ),
    (
        &[
            (0, 1_048_576, 15),
            (0, 1_048_576, 255),
            (0, 1_441_791, 255),
            (0, 1_441_792, 0),
            (0, 1_441_792, 255),
            (0, u32::MAX, 0),
            (1, 0, 0),
            (1, 4, 255),
            (1, 5, 0),
            (1, u32::MAX, 70),
            (2, 0, 255),
            (2, 2, 69),
            (2, 3, 0),
            (2, 3, 29),
        ],
        "C05 6 2 3 30, C07 7 2 3 32, ",
    ),
    (&[(2, 3, 30), (2, 3, 31)], "C07 6 2 3 32, W01 7 2 3 41, "),
    (&[(2, 3, 32), (2, 3, 40)], "W01 6 2 3 41, P03 7 2 4 45, "),
    (
        &[
            (2, 3, 41),
            (2, 3, 69),
            (2, 3, 70),
            (2, 3, 255),
            (2, 4, 0),
            (2, 4, 44),
        ],
        "P03 6 2 4 45, GE01 7 3 1 39, ",
    ),
    (
        &[
            (2, 4, 45),
            (2, 4, 69),
            (2, 4, 70),
            (2, 5, 0),
            (2, 6, 0),
            (2, 100_001, 69),
            (2, u32::MAX, 255),
            (3, 0, 255),
            (3, 1, 0),
            (3, 1, 38),
        ],
        "GE01 6 3 1 39, none 6 3 1 39, ",
    ),
];

#[test]
fn walks_from_any_place(rt: HostRuntime) -> Result<(), Fail> {
    for (places, want) in PLACES {
        for place in places.iter() {
            assert_marks(&rt, rt.alloc(), 5, *place, 2, want)?;
        }
    }
    Ok(())
}

/// Numbers of marks, and the two answers after each: a number stays at the greatest.
const NUMBERS: &[(u64, &str)] = &[
    (0, "P03 1 2 4 45, GE01 2 3 1 39, "),
    (
        18_446_744_073_709_551_613,
        "P03 18446744073709551614 2 4 45, GE01 18446744073709551615 3 1 39, ",
    ),
    (
        18_446_744_073_709_551_614,
        "P03 18446744073709551615 2 4 45, GE01 18446744073709551615 3 1 39, ",
    ),
    (
        18_446_744_073_709_551_615,
        "P03 18446744073709551615 2 4 45, GE01 18446744073709551615 3 1 39, ",
    ),
];

#[test]
fn walks_from_any_number(rt: HostRuntime) -> Result<(), Fail> {
    for (number, want) in NUMBERS {
        assert_marks(&rt, rt.alloc(), *number, (2, 4, 44), 2, want)?;
    }
    Ok(())
}

/// Places at the last fault and after it: past its rule, its step, its glyph, and all units.
const PAST: &[Place] = &[
    (3, 1, 39),
    (3, 1, 40),
    (3, 1, 69),
    (3, 1, 70),
    (3, 1, 255),
    (3, 2, 0),
    (3, 100_001, 69),
    (3, u32::MAX, 255),
    (4, 0, 0),
    (4, 0, 69),
    (4, 1, 70),
    (4, u32::MAX, 255),
    (65_535, 1, 0),
    (65_536, 0, 0),
    (u32::MAX, 0, 0),
    (u32::MAX, 1, 69),
    (u32::MAX, u32::MAX, 70),
    (u32::MAX, u32::MAX, 255),
];

/// Numbers of the marks there.
const MARK_NUMBERS: &[u64] = &[0, 7, u64::MAX];

/// After such a mark no fault is returned, three times, and the mark stays.
fn assert_last(rt: &impl Abort, alloc: Global, number: u64, place: Place) -> Result<(), Fail> {
    let (unit, step, rule) = place;
    let none = format!(in alloc; "none {number} {unit} {step} {rule}, ")?;
    let want = format!(in alloc; "{none}{none}{none}")?;
    assert_marks(rt, alloc, number, place, 3, want.as_str())
}

#[test]
fn walks_from_past_the_last_fault(rt: HostRuntime) -> Result<(), Fail> {
    for place in PAST {
        for number in MARK_NUMBERS {
            assert_last(&rt, rt.alloc(), *number, *place)?;
        }
    }
    Ok(())
}
