//! The arguments of commands and OtherSubrs: Type 1 Font Format 1.1, chapters 6 and 8.

use super::traces::steps_with;
use std::alloc::Global;
use std::test::Fail;

/// The argument at a place of a step of this glyph.
fn argument(alloc: Global, glyph: &[u8], step: usize, place: usize) -> Result<i32, Fail> {
    let steps = steps_with(alloc, &[], glyph)?;
    Ok(steps.get(step).ok_or("no step")?.argument(place))
}

/// `32001 -32001 hsbw`: the numbers past 32000 are kept within it.
const PAST_32000: &[u8] = b"\xff\x00\x00\x7d\x01\xff\xff\xff\x82\xff\x0d";

/// `1 2 div 9 hsbw`.
const A_HALF_AND_9: &[u8] = b"\x8c\x8d\x0c\x0c\x94\x0d";

/// A glyph, a step of it, a place, and the argument there.
const ARGUMENTS: &[(&[u8], usize, usize, i32)] = &[
    (PAST_32000, 2, 0, 2_097_152_000),
    (PAST_32000, 2, 1, -2_097_152_000),
    (PAST_32000, 2, 2, 0),
    (A_HALF_AND_9, 4, 0, 32768),
    (A_HALF_AND_9, 4, 1, 589_824),
];

#[test]
fn arguments_from_the_bottom(rt: HostRuntime) -> Result<(), Fail> {
    for (glyph, step, place, want) in ARGUMENTS {
        let found = argument(rt.alloc(), glyph, *step, *place)?;
        assert_eq!(rt; found, *want, "{place} of {glyph:?}");
    }
    Ok(())
}

/// Whether a glyph's last step but one starts a flex, adds a point of one, ends one, replaces hints.
fn events(alloc: Global, glyph: &[u8]) -> Result<[bool; 4], Fail> {
    let steps = steps_with(alloc, &[], glyph)?;
    let step = steps.get(steps.len().saturating_sub(2)).ok_or("no call")?;
    Ok([
        step.starts_flex(),
        step.gives_flex_point(),
        step.ends_flex(),
        step.replaces_hints(),
    ])
}

/// `0 1`, `0 2`, `50 7 8 3 0` and `5 1 3 callothersubr`, and the same with another count.
const EVENTS: &[(&[u8], [bool; 4])] = &[
    (b"\x8b\x8c\x0c\x10", [true, false, false, false]),
    (b"\x8b\x8d\x0c\x10", [false, true, false, false]),
    (b"\xbd\x92\x93\x8e\x8b\x0c\x10", [false, false, true, false]),
    (b"\x90\x8c\x8e\x0c\x10", [false, false, false, true]),
    (b"\x92\x93\x8d\x8b\x0c\x10", [false, false, false, false]),
    (b"\x90\x8c\x8c\x0c\x10", [false, false, false, false]),
    (b"\x8e\x8b\x0c\x10", [false, false, false, false]),
    (b"\x90\x8c\x8e\x0c\x11", [false, false, false, false]),
];

#[test]
fn othersubrs_of_flex_and_hints(rt: HostRuntime) -> Result<(), Fail> {
    for (glyph, want) in EVENTS {
        assert_eq!(rt; events(rt.alloc(), glyph)?, *want, "{glyph:?}");
    }
    Ok(())
}
