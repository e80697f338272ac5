//! Rules on standard and snap widths: Type 1 Font Format 1.1, chapter 5.

use super::faults::{ENTRIES, assert_faults};
use std::test::Fail;

/// Standard widths and snaps, and the faults of a font with them.
const WIDTHS: &[(&str, &str)] = &[
    ("/StdHW [30] def", ""),
    ("/StdHW [] def", "StdHW 0 Z08"),
    ("/StdVW [30 31] def", "StdVW 0 Z08"),
    ("/StemSnapH [1 2 3 4 5 6 7 8 9 10 11 12] def", ""),
    (
        "/StemSnapH [1 2 3 4 5 6 7 8 9 10 11 12 0] def",
        "StemSnapH 12 Z09",
    ),
    ("/StemSnapV [30 30] def", ""),
    ("/StemSnapV [30 29] def", "StemSnapV 1 Z10"),
];

#[test]
fn widths_and_snaps(rt: HostRuntime) -> Result<(), Fail> {
    assert_faults(&rt, rt.alloc(), ENTRIES, WIDTHS)
}

/// Both standard widths and snaps, and the faults of a font with them.
const WIDTHS_AND_SNAPS: &[(&str, &str)] = &[
    ("/StdHW [30] def /StemSnapH [20 40] def", "StemSnapH 0 Z11"),
    ("/StdHW [30] def /StemSnapH [20 30] def", ""),
    ("/StdHW [30] def /StemSnapH [] def", ""),
    ("/StdHW [] def /StemSnapH [20] def", "StdHW 0 Z08"),
    ("/StdHW [30] def /StemSnapV [20] def", ""),
    (
        "/StdVW [30 40] def /StemSnapV [40] def",
        "StdVW 0 Z08, StemSnapV 0 Z11",
    ),
    (
        "/StdHW [13] def /StemSnapH [1 2 3 4 5 6 7 8 9 10 11 12 13] def",
        "StemSnapH 0 Z11, StemSnapH 12 Z09",
    ),
];

/// The first width counts, and the first 12 snaps.
#[test]
fn widths_among_snaps(rt: HostRuntime) -> Result<(), Fail> {
    assert_faults(&rt, rt.alloc(), ENTRIES, WIDTHS_AND_SNAPS)
}
