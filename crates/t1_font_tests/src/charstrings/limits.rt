//! Glyphs of as many steps as an edition looks at, of one less, and of more. No chapter of the standard has the limit.

use super::machines::{Lines, returned_of};
use super::traces::{assert_returned, steps_of, trace_of};
use std::alloc::{AllocError, Global};
use std::process::Abort;
use std::test::Fail;
use t1_char::{Edition, Step};
use t1_font::Unread;
use t1_samples::{Sample, long_glyph};

/// How many steps there are, and the line of the last.
fn end_of(alloc: Global, steps: &[Step]) -> Result<String, AllocError> {
    let count = steps.len();
    let (_, last) = steps.split_at(count.saturating_sub(1));
    let line = trace_of(alloc, last)?;
    format!(in alloc; "{count} listed, {line}")
}

/// How many steps of a sample's second glyph are listed, and the line of the last.
fn end_of_list(alloc: Global, sample: &Sample, edition: Edition) -> Result<String, Unread> {
    let steps = steps_of(alloc, sample, edition)?;
    Ok(end_of(alloc, steps.as_slice())?)
}

/// The edition, how many calls, how many times dotsection more, and what is listed.
const LISTED: &[(Edition, usize, usize, &str)] = &[
    (Edition::One, 11, 8332, "99999 listed, 99999 - endchar\n"),
    (Edition::One, 12, 0, "100000 listed, 100000 - endchar\n"),
    (Edition::One, 12, 1, "100001 listed, 100001 - endchar\n"),
    (Edition::One, 12, 2, "100001 listed, 100001 - dotsection\n"),
    (Edition::Two, 12, 2, "100002 listed, 100002 - endchar\n"),
];

#[test]
fn steps_are_listed_to_the_first_past_the_limit(rt: HostRuntime) -> Result<(), Fail> {
    for (edition, calls, more, want) in LISTED {
        let sample = long_glyph(rt.alloc(), *calls, *more)?;
        let listed = end_of_list(rt.alloc(), &sample, *edition);
        assert_returned(&rt, listed, want, "by the list", b"")?;
    }
    Ok(())
}

/// The edition, how many calls, how many times dotsection more, and each answer after the steps.
const ENDED: &[(Edition, usize, usize, &str)] = &[
    (Edition::One, 11, 8332, "ended 100000\n"),
    (Edition::One, 12, 0, "ended 100001\n"),
    (Edition::One, 12, 1, "limit 100001 - endchar\n100001\n"),
    (Edition::One, 12, 2, "limit 100001 - dotsection\n100001\n"),
    (Edition::One, 120, 37, "limit 100001 - callsubr\n100001\n"),
    (Edition::Two, 12, 1, "ended 100002\n"),
    (Edition::Two, 120, 35, "ended 1000000\n"),
    (Edition::Two, 120, 36, "ended 1000001\n"),
    (Edition::Two, 120, 37, "limit 1000001 - endchar\n1000001\n"),
    (
        Edition::Two,
        120,
        38,
        "limit 1000001 - dotsection\n1000001\n",
    ),
];

/// A machine returns this answer three times.
fn assert_three(
    rt: &impl Abort,
    alloc: Global,
    sample: &Sample,
    edition: Edition,
    answer: &str,
) -> Result<(), Fail> {
    let want = format!(in alloc; "{answer}{answer}{answer}")?;
    let told = returned_of(alloc, sample, edition, Lines::Ends);
    assert_returned(rt, told, want.as_str(), "by a machine", b"")
}

#[test]
fn the_end_and_the_limit_are_returned_again(rt: HostRuntime) -> Result<(), Fail> {
    for (edition, calls, more, answer) in ENDED {
        let sample = long_glyph(rt.alloc(), *calls, *more)?;
        assert_three(&rt, rt.alloc(), &sample, *edition, answer)?;
    }
    Ok(())
}
