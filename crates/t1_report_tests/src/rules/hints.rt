//! Rules on numbers of the Private dictionary: Type 1 Font Format 1.1, chapter 5.

use super::faults::{ENTRIES, assert_faults};
use std::test::Fail;

/// Entries for hints, and the faults of a font with them.
const KINDS: &[(&str, &str)] = &[
    ("", ""),
    ("/BlueValues 5 def", "BlueValues 0 Z01"),
    ("/FamilyOtherBlues (5) def", "FamilyOtherBlues 0 Z01"),
    ("/BlueScale [1] def", "BlueScale 0 Z01"),
    ("/BlueShift /seven def", "BlueShift 0 Z01"),
    ("/StdHW [30} ] def", "StdHW 0 Z01"),
    ("/StdVW {30 %]\n} def", ""),
    ("/StemSnapV 30 def", "StemSnapV 0 Z01"),
];

#[test]
fn kinds_of_hint_entries(rt: HostRuntime) -> Result<(), Fail> {
    assert_faults(&rt, rt.alloc(), ENTRIES, KINDS)
}
