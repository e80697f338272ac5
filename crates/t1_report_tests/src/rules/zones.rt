//! Rules on alignment zones: Type 1 Font Format 1.1, chapter 5.

use super::faults::{ENTRIES, assert_faults};
use std::test::Fail;

/// Lists of zone numbers, short and long, and the faults of a font with them.
const COUNTS: &[(&str, &str)] = &[
    ("/BlueValues [] def", ""),
    (
        "/BlueValues [0 1 5 6 10 11 15 16 20 21 25 26 30 31] def",
        "",
    ),
    (
        "/BlueValues [0 1 5 6 10 11 15 16 20 21 25 26 30 31 2] def",
        "BlueValues 0 Z03, BlueValues 14 Z02",
    ),
    (
        "/BlueValues [0 1 5 6 10 11 15 16 20 21 25 26 30 31 35 99] def",
        "BlueValues 14 Z02",
    ),
    (
        "/FamilyBlues [0 1 5 6 10 11 15 16 20 21 25 26 30 31 35 36 40] def",
        "FamilyBlues 0 Z03, FamilyBlues 14 Z02",
    ),
    ("/OtherBlues [0 1 5 6 10 11 15 16 20 21] def", ""),
    (
        "/OtherBlues [0 1 5 6 10 11 15 16 20 21 25] def",
        "OtherBlues 0 Z03, OtherBlues 10 Z02",
    ),
];

/// The count is of all numbers, and the others are asked of the first 14 alone, or 10.
#[test]
fn counts_of_zone_numbers(rt: HostRuntime) -> Result<(), Fail> {
    assert_faults(&rt, rt.alloc(), ENTRIES, COUNTS)
}

/// Zone numbers that rise and fall, and the faults of a font with them.
const ORDERS: &[(&str, &str)] = &[
    ("/BlueValues [0 0] def", ""),
    ("/BlueValues [0 -.000000001] def", "BlueValues 1 Z04"),
    (
        "/BlueValues [0 5 4 9] def",
        "BlueValues 2 Z04, BlueValues 2 Z05",
    ),
    ("/BlueValues [0 5 8 10] def", ""),
    ("/BlueValues [0 5 7.999999999 10] def", "BlueValues 2 Z05"),
    ("/BlueValues [0 5 6] def", "BlueValues 0 Z03"),
    ("/BlueFuzz .5 def /BlueValues [0 5 7 10] def", ""),
    (
        "/BlueFuzz .5 def /BlueValues [0 5 6.9 10] def",
        "BlueValues 2 Z05",
    ),
    ("/BlueFuzz -1 def /BlueValues [0 5 5 10] def", ""),
    (
        "/BlueFuzz [0] def /BlueValues [0 5 7 10] def",
        "BlueValues 2 Z05, BlueFuzz 0 Z01",
    ),
];

#[test]
fn order_of_zone_numbers(rt: HostRuntime) -> Result<(), Fail> {
    assert_faults(&rt, rt.alloc(), ENTRIES, ORDERS)
}

/// Zones of two lists, and the faults of a font with them.
const TWO_LISTS: &[(&str, &str)] = &[
    (
        "/BlueValues [-8 0] def /OtherBlues [-20 -10] def",
        "OtherBlues 0 Z06",
    ),
    (
        "/BlueValues [-8 0] def /OtherBlues [-20 -10] def /BlueFuzz 0 def",
        "",
    ),
    (
        "/BlueValues [0 10] def /OtherBlues [11 20] def",
        "OtherBlues 0 Z06",
    ),
    ("/BlueValues [0 10] def /OtherBlues [13 20] def", ""),
    (
        "/BlueValues [-90 -80 0 10] def /OtherBlues [-30 -20 -5 -1] def",
        "OtherBlues 2 Z06",
    ),
    (
        "/FamilyBlues [0 10] def /FamilyOtherBlues [-5 -1] def",
        "FamilyOtherBlues 0 Z06",
    ),
    ("/FamilyBlues [0 10] def /OtherBlues [-5 -1] def", ""),
    ("/BlueValues [0 10] def /FamilyOtherBlues [-5 -1] def", ""),
];

#[test]
fn zones_of_two_lists(rt: HostRuntime) -> Result<(), Fail> {
    assert_faults(&rt, rt.alloc(), ENTRIES, TWO_LISTS)
}

/// Zones and BlueScale, and the faults of a font with them.
const HEIGHTS: &[(&str, &str)] = &[
    ("/BlueValues [0 25] def", ""),
    ("/BlueValues [0 26] def", "BlueValues 1 Z07"),
    (
        "/BlueScale (x) def /BlueValues [0 26] def",
        "BlueValues 1 Z07, BlueScale 0 Z01",
    ),
    (
        "/BlueScale .04 def /BlueValues [0 25] def",
        "BlueValues 1 Z07",
    ),
    ("/BlueScale .0399999999 def /BlueValues [0 25] def", ""),
    (
        "/BlueScale -.04 def /BlueValues [30 0] def",
        "BlueValues 1 Z04, BlueValues 1 Z07",
    ),
    (
        "/BlueValues [0 26 40 50 60 55 70 80 90 100 110 120 130 140 150] def",
        "BlueValues 0 Z03, BlueValues 1 Z07, BlueValues 5 Z04, BlueValues 14 Z02",
    ),
];

/// BlueScale is 0.039625 where it isn't a number: 25 is low enough, and 26 isn't.
#[test]
fn heights_of_zones(rt: HostRuntime) -> Result<(), Fail> {
    assert_faults(&rt, rt.alloc(), ENTRIES, HEIGHTS)
}
