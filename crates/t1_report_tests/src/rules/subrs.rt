//! Rules on the Subrs: Type 1 Font Format 1.1, chapters 2 and 8.

use super::faults::{Part, assert_faults};
use std::test::Fail;

/// The size and the Subrs after the word `/Subrs`.
const SUBRS: Part = Part::Private(
    "/password 5839 def /MinFeature {16 16} def /Subrs ",
    " ND /CharStrings 2 dict dup begin /.notdef 0 RD  ND /A 0 RD  ND end",
);

/// The size and the Subrs, and the faults of a font with them.
const GIVEN: &[(&str, &str)] = &[
    ("2 array dup 0 0 RD  NP dup 1 0 RD  NP", ""),
    ("2 array dup 2 0 RD  NP", "Subrs 2 F14"),
    ("2 array dup 1 0 RD  NP dup 1 0 RD  NP", "Subrs 1 F14"),
    (
        "1 array dup 300 0 RD  NP dup 0 0 RD  NP dup 0 0 RD  NP",
        "Subrs 0 F14, Subrs 300 F14",
    ),
];

#[test]
fn subrs_given_twice_or_past_the_array(rt: HostRuntime) -> Result<(), Fail> {
    assert_faults(&rt, rt.alloc(), SUBRS, GIVEN)
}
