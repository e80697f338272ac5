//! The faults of one unit, one at a time, numbered from 1 in the unit. No chapter of the standard has units.

ghost use Rattle.t1_rules.specs.Components.{AreOf};

use crate::answers::{Asked, Case, assert_cases};
use crate::walks::with_turns;
use std::alloc::{AllocError, Global};
use std::test::Fail;
use t1_char::Edition;
use t1_font::Font;
use t1_report::{Fault, UnitFaults, Waivers};
use t1_rules::Sidebearings;

/// How many faults a unit of these tests has at most.
const MOST_FAULTS: u32 = 16;

/// The faults of a unit up to the answer that there is none more, which is returned again, and how often steps were
/// requested.
fn all_returned<'a>(
    alloc: Global,
    font: &'a Font<'a>,
    sidebearings: &'a Sidebearings,
    waivers: &'a Waivers<'a>,
    unit: u32,
) -> Result<(Vec<Fault>, u64), Fail>
    requires { AreOf font.now sidebearings.now }
{
    let mut given = UnitFaults::of(font, sidebearings, waivers, unit);
    if given.turns() != 0 {
        return Err(Fail::from("steps were requested before the first call"));
    }
    let faults = returned_by(alloc, &mut given);
    with_turns(faults, given.next().is_some(), given.turns())
}

/// The faults of a unit up to the answer that there is none more.
fn returned_by(alloc: Global, given: &mut UnitFaults<'_>) -> Result<Vec<Fault>, AllocError> {
    let mut faults = Vec::new(alloc);
    for _call in 0..=MOST_FAULTS {
        match given.next() {
            Some(fault) => faults.push(fault)?,
            None => break,
        }
    }
    Ok(faults)
}

/// The same of a font.
pub(super) fn faults_of_unit(
    alloc: Global,
    font: &Font<'_>,
    waivers: &Waivers<'_>,
    edition: Edition,
    unit: u32,
) -> Result<(Vec<Fault>, u64), Fail> {
    let sidebearings = Sidebearings::prepare(alloc, font, edition)?;
    all_returned(alloc, &*font, &sidebearings, &*waivers, unit)
}

/// Zones with four faults, Subr 5 that draws where nothing has moved, and after `.notdef` glyph A with four faults at two
/// steps, B without one, and C with three, one of them in Subr 5.
const FOUR_GLYPHS: &str = "\
key: /BlueValues [0 26 40 50 60 55 70 80 90 100 110 120 130 140 150] def | \
5: 5 hlineto return | A: 32001 0 hmoveto closepath endchar | B: 0 500 hsbw endchar | \
C: 0 500 hsbw 5 callsubr closepath 5 hlineto closepath pop endchar";

/// A stem of one edge lies in another: they overlap in edition 1 alone. W01 is broken in both.
const EDGES: &str = "A: 0 20 hstem 10 -20 hstem endchar | B: endchar";

/// Each unit, its faults, and how often steps were requested, once more than the glyph has steps. The units are the font,
/// the four glyphs, the waivers, and units after these.
const UNITS: &[Case] = &[
    (
        FOUR_GLYPHS,
        "",
        Asked::Unit(0, Edition::One),
        "BlueValues 0 Z03, BlueValues 1 Z07, BlueValues 5 Z04, BlueValues 14 Z02; 0",
    ),
    (FOUR_GLYPHS, "", Asked::Unit(1, Edition::One), "; 5"),
    (
        FOUR_GLYPHS,
        "",
        Asked::Unit(2, Edition::One),
        "A 3 C05, A 3 C07, A 3 W01, A 4 P03; 6",
    ),
    (FOUR_GLYPHS, "", Asked::Unit(3, Edition::One), "; 5"),
    (
        FOUR_GLYPHS,
        "",
        Asked::Unit(4, Edition::One),
        "C 5 7 P01, C 11 P01, C 13 O04; 15",
    ),
    (FOUR_GLYPHS, "", Asked::Unit(5, Edition::One), "; 0"),
    (FOUR_GLYPHS, "", Asked::Unit(6, Edition::One), "; 0"),
    (
        FOUR_GLYPHS,
        "",
        Asked::Unit(4_294_967_295, Edition::One),
        "; 0",
    ),
];

#[test]
fn each_unit_has_its_faults(rt: HostRuntime) -> Result<(), Fail> {
    assert_cases(&rt, rt.alloc(), UNITS)
}

/// Unit 2 is glyph A, of seven steps, and 4 is the waivers'. For one that is used, steps are requested up to its first
/// use.
const WAIVED: &[Case] = &[
    (
        EDGES,
        "",
        Asked::Unit(2, Edition::One),
        "A 3 W01, A 6 H02; 8",
    ),
    (EDGES, "", Asked::Unit(2, Edition::Two), "A 3 W01; 8"),
    (
        EDGES,
        "A W01\nB P03\n",
        Asked::Unit(2, Edition::One),
        "A 6 H02; 8",
    ),
    (EDGES, "A W01\nB P03\n", Asked::Unit(2, Edition::Two), "; 8"),
    (EDGES, "A H02\n", Asked::Unit(2, Edition::One), "A 3 W01; 8"),
    (EDGES, "A H02\n", Asked::Unit(2, Edition::Two), "A 3 W01; 8"),
    (EDGES, "A H02\nA W01\n", Asked::Unit(2, Edition::One), "; 8"),
    (EDGES, "A H02\nA W01\n", Asked::Unit(2, Edition::Two), "; 8"),
    (
        EDGES,
        "A H02\nB W01\nB P03\nA P03\n",
        Asked::Unit(4, Edition::One),
        "B P03 U01, A P03 U01; 17",
    ),
    (
        EDGES,
        "A H02\nB W01\nB P03\nA P03\n",
        Asked::Unit(4, Edition::Two),
        "A H02 U01, B P03 U01, A P03 U01; 19",
    ),
    (EDGES, "A P03\n", Asked::Unit(3, Edition::One), "B 1 W01; 2"),
    (EDGES, "A P03\n", Asked::Unit(3, Edition::Two), "B 1 W01; 2"),
    (EDGES, "A P03\n", Asked::Unit(0, Edition::One), "; 0"),
    (EDGES, "A P03\n", Asked::Unit(0, Edition::Two), "; 0"),
    (EDGES, "A P03\n", Asked::Unit(5, Edition::One), "; 0"),
    (EDGES, "A P03\n", Asked::Unit(5, Edition::Two), "; 0"),
];

#[test]
fn waivers_leave_faults_of_a_unit(rt: HostRuntime) -> Result<(), Fail> {
    assert_cases(&rt, rt.alloc(), WAIVED)
}
