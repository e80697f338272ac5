//! What tokens do to the stack and to the results that wait: Type 1 Font Format 1.1, chapters 6 and 8.

use super::traces::{assert_returned, states_of, steps_with};
use std::alloc::{AllocError, Global};
use std::process::Abort;
use std::test::Fail;
use t1_char::Step;
use t1_font::Unread;

/// The last of these steps: its stack, its results, its facts.
fn last_of(alloc: Global, steps: &[Step]) -> Result<String, AllocError> {
    let (_, last) = steps.split_at(steps.len().saturating_sub(1));
    states_of(alloc, last)
}

/// The last step of a glyph.
fn end_of(alloc: Global, glyph: &[u8]) -> Result<String, Unread> {
    let steps = steps_with(alloc, &[], glyph)?;
    Ok(last_of(alloc, steps.as_slice())?)
}

/// The glyphs have the last steps beside them.
fn assert_ends(rt: &impl Abort, alloc: Global, cases: &[(&[u8], &str)]) -> Result<(), Fail> {
    for (glyph, want) in cases {
        assert_returned(rt, end_of(alloc, glyph), want, "by the list", glyph)?;
    }
    Ok(())
}

/// Glyphs that divide, and the last step of each.
const QUOTIENTS: &[(&[u8], &str)] = &[
    (b"\x8c\x8e\x0c\x0c", "- end [ ~21845 ] 0\n"),
    (b"\x8a\x8e\x0c\x0c", "- end [ ~-21845 ] 0\n"),
    (b"\x8c\x88\x0c\x0c", "- end [ ~-21845 ] 0\n"),
    (b"\x90\x95\x8d\x0c\x0c", "- end [ 5 5 ] 0\n"),
    (b"\x90\x8b\x0c\x0c", "- end [ 0 ] 0\n"),
    (b"\x90\x0c\x0c", "- end [ 5 ] 0\n"),
    (b"\xff\x80\x00\x00\x00\x8a\x0c\x0c", "- end [ 32000 ] 0\n"),
    (b"\xff\x80\x00\x00\x00\x8c\x0c\x0c", "- end [ -32000 ] 0\n"),
];

#[test]
fn quotients(rt: HostRuntime) -> Result<(), Fail> {
    assert_ends(&rt, rt.alloc(), QUOTIENTS)
}

/// Glyphs whose last token empties the stack, and the last step of each.
const EMPTIED: &[(&[u8], &str)] = &[
    (b"\x8c\x8d\x02", "- end [ ] 0\n"),
    (b"\x8c\x8d\x0c\x63", "- end [ ] 0\n"),
    (b"\x8c\x8d\x8e\x15", "- end [ ] 0\n"),
    (b"\x8c\x8c\x94\x0c\x10\x8d\x09", "- end [ ] 1\n"),
    (b"\x8c\x8c\x94\x0c\x10\x8d\x0f", "- end [ ] 1\n"),
];

/// A command that isn't known empties the stack, as clearing commands do, and leaves the results.
#[test]
fn stacks_that_are_emptied(rt: HostRuntime) -> Result<(), Fail> {
    assert_ends(&rt, rt.alloc(), EMPTIED)
}

/// `arguments count othersubr callothersubr`, and how many times pop.
const RESULTS: &[(&[u8], &str)] = &[
    // 50 7 8 3 0: the end of a flex
    (b"\xbd\x92\x93\x8e\x8b\x0c\x10", "- end [ ] 2\n"),
    (b"\xbd\x92\x93\x8e\x8b\x0c\x10\x0c\x11", "- end [ 7 ] 1\n"),
    (
        b"\xbd\x92\x93\x8e\x8b\x0c\x10\x0c\x11\x0c\x11",
        "- end [ 7 8 ] 0\n",
    ),
    // 7 8 2 0: another count
    (b"\x92\x93\x8d\x8b\x0c\x10\x0c\x11", "- end [ 7 ] 1\n"),
    // 0 1 and 0 2: nothing is passed, nothing waits
    (b"\x8b\x8c\x0c\x10", "- end [ ] 0\n"),
    (b"\x8b\x8d\x0c\x10\x0c\x11", "- end [ ] 0\n"),
    // 5 1 3: hint replacement
    (b"\x90\x8c\x8e\x0c\x10\x0c\x11", "- end [ 5 ] 0\n"),
    // 1 2 2 12 and 1 2 2 13: counter control
    (b"\x8c\x8d\x8d\x97\x0c\x10", "- end [ ] 0\n"),
    (b"\x8c\x8d\x8d\x98\x0c\x10", "- end [ ] 0\n"),
    // 1 2 2 9: an OtherSubr that isn't known returns its arguments
    (b"\x8c\x8d\x8d\x94\x0c\x10\x0c\x11", "- end [ 1 ] 1\n"),
    // 7 1, and a half: so does a number that isn't whole
    (
        b"\x92\x8c\x8c\x8d\x0c\x0c\x0c\x10\x0c\x11",
        "- end [ 7 ] 0\n",
    ),
    // 7 1 9, and then 8 0 1: no results take the place of results
    (
        b"\x92\x8c\x94\x0c\x10\x93\x8b\x8c\x0c\x10",
        "- end [ 8 ] 0\n",
    ),
    // 6 7 8 2 9: what isn't requested stays
    (b"\x91\x92\x93\x8d\x94\x0c\x10", "- end [ 6 ] 2\n"),
    // pop of nothing
    (b"\x91\x0c\x11", "- end [ 6 ] 0\n"),
];

#[test]
fn results_of_othersubrs(rt: HostRuntime) -> Result<(), Fail> {
    assert_ends(&rt, rt.alloc(), RESULTS)
}

/// Glyphs with counts that aren't good, and the last step of each.
const COUNTS: &[(&[u8], &str)] = &[
    (b"\x0c\x10", "- end [ ] 0\n"),
    (b"\x94\x0c\x10", "- end [ 9 ] 0\n"),
    // 7 2 9 and 7 -1 9
    (b"\x92\x8d\x94\x0c\x10", "- end [ 7 ] 0\n"),
    (b"\x92\x8a\x94\x0c\x10", "- end [ 7 ] 0\n"),
    // 7, a half, 9
    (b"\x92\x8c\x8d\x0c\x0c\x94\x0c\x10", "- end [ 7 ] 0\n"),
    // 6 1 9 leaves a result, and 7 2 9 leaves it waiting
    (
        b"\x91\x8c\x94\x0c\x10\x92\x8d\x94\x0c\x10",
        "- end [ 7 ] 1\n",
    ),
];

/// A count that isn't good is taken with the number; with fewer than two entries nothing is.
#[test]
fn counts_that_are_not_good(rt: HostRuntime) -> Result<(), Fail> {
    assert_ends(&rt, rt.alloc(), COUNTS)
}

/// A glyph whose result waits while 25 numbers come, and the same with a pop.
const FULL: &[(&[u8], &str)] = &[
    (
        b"\x92\x8c\x94\x0c\x10\
\x8c\x8c\x8c\x8c\x8c\x8c\x8c\x8c\x8c\x8c\x8c\x8c\x8c\x8c\x8c\x8c\x8c\x8c\x8c\x8c\x8c\x8c\x8c\x8c\x8c",
        "- end [ 1 1 1 1 1 1 1 1 1 1 1 1 1 1 1 1 1 1 1 1 1 1 1 1 ] 1\n",
    ),
    (
        b"\x92\x8c\x94\x0c\x10\
\x8c\x8c\x8c\x8c\x8c\x8c\x8c\x8c\x8c\x8c\x8c\x8c\x8c\x8c\x8c\x8c\x8c\x8c\x8c\x8c\x8c\x8c\x8c\x8c\x8c\
\x0c\x11",
        "- end [ 1 1 1 1 1 1 1 1 1 1 1 1 1 1 1 1 1 1 1 1 1 1 1 1 ] 0\n",
    ),
];

/// A 25th number is dropped; a result that doesn't fit is taken and dropped.
#[test]
fn a_full_stack(rt: HostRuntime) -> Result<(), Fail> {
    assert_ends(&rt, rt.alloc(), FULL)
}
