//! Rules on the CharStrings: Type 1 Font Format 1.1, chapter 2.

use super::faults::{Part, assert_faults};
use std::test::Fail;

/// The glyphs in the CharStrings.
const GLYPHS: Part = Part::Private(
    "/password 5839 def /MinFeature {16 16} def /CharStrings 3 dict dup begin ",
    " end",
);

/// The glyphs in the CharStrings, and the faults of a font with them.
const GIVEN: &[(&str, &str)] = &[
    ("/.notdef 0 RD  ND /A 0 RD  ND /B 0 RD  ND", ""),
    ("/A 0 RD  ND", "CharStrings 0 F09"),
    (
        "/.notdef 0 RD  ND /A 0 RD  ND /A 0 RD  ND",
        "CharStrings 1 F10",
    ),
    (
        "/A 0 RD  ND /B 0 RD  ND /A 0 RD  ND",
        "CharStrings 0 F09, CharStrings 0 F10",
    ),
];

/// Glyphs count from 0, in the order of their first appearance.
#[test]
fn glyphs_given_twice(rt: HostRuntime) -> Result<(), Fail> {
    assert_faults(&rt, rt.alloc(), GLYPHS, GIVEN)
}
