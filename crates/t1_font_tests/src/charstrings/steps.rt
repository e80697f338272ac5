//! Steps of glyphs: calls, returns, ends, and the two facts of each step. Type 1 Font Format 1.1, chapter 6.

use super::machines::{Lines, returned_of};
use super::traces::{Case, assert_lines, assert_returned, listed_of, steps_with};
use std::alloc::{AllocError, Global};
use std::process::Abort;
use std::test::Fail;
use t1_char::Edition;
use t1_samples::{Charstrings, Sample};

/// A Subr that calls itself.
const CALLS_ITSELF: &[(u32, &[u8])] = &[(5, b"\x90\x0a")];

/// A glyph that calls Subr 5.
const CALLS: &[u8] = b"\x8b\xf8\x88\x0d\x90\x0a\x0e";

/// A glyph without calls; one that calls a Subr twice, which is left at its end, without a return; and
/// a Subr that calls itself: ten calls are made, and an eleventh isn't.
const CALLS_OF_SUBRS: &[Case<'static>] = &[
    (
        &[],
        b"\x8b\xf8\x88\x0d\x0e",
        "1 - 0\n2 - 500\n3 - hsbw\n4 - endchar\n",
    ),
    (
        &[(5, b"\x90\x8b\x05\x09")],
        b"\x8b\xf8\x88\x0d\x90\x0a\x90\x0a\x0e",
        "1 - 0\n2 - 500\n3 - hsbw\n4 - 5\n5 - callsubr\n6 5 5\n7 5 0\n8 5 rlineto\n9 5 closepath\n10 5 end\n11 - 5\n12 - callsubr\n13 5 5\n14 5 0\n15 5 rlineto\n16 5 closepath\n17 5 end\n18 - endchar\n",
    ),
    (
        CALLS_ITSELF,
        CALLS,
        "1 - 0\n\
2 - 500\n\
3 - hsbw\n\
4 - 5\n\
5 - callsubr\n\
6 5 5\n\
7 5 callsubr\n\
8 5>5 5\n\
9 5>5 callsubr\n\
10 5>5>5 5\n\
11 5>5>5 callsubr\n\
12 5>5>5>5 5\n\
13 5>5>5>5 callsubr\n\
14 5>5>5>5>5 5\n\
15 5>5>5>5>5 callsubr\n\
16 5>5>5>5>5>5 5\n\
17 5>5>5>5>5>5 callsubr\n\
18 5>5>5>5>5>5>5 5\n\
19 5>5>5>5>5>5>5 callsubr\n\
20 5>5>5>5>5>5>5>5 5\n\
21 5>5>5>5>5>5>5>5 callsubr\n\
22 5>5>5>5>5>5>5>5>5 5\n\
23 5>5>5>5>5>5>5>5>5 callsubr\n\
24 5>5>5>5>5>5>5>5>5>5 5\n\
25 5>5>5>5>5>5>5>5>5>5 callsubr\n\
26 5>5>5>5>5>5>5>5>5>5 end\n\
27 5>5>5>5>5>5>5>5>5 end\n\
28 5>5>5>5>5>5>5>5 end\n\
29 5>5>5>5>5>5>5 end\n\
30 5>5>5>5>5>5 end\n\
31 5>5>5>5>5 end\n\
32 5>5>5>5 end\n\
33 5>5>5 end\n\
34 5>5 end\n\
35 5 end\n\
36 - endchar\n",
    ),
];

#[test]
fn calls_of_subrs(rt: HostRuntime) -> Result<(), Fail> {
    assert_lines(&rt, rt.alloc(), Lines::Trace, CALLS_OF_SUBRS)
}

/// The tenth call, and the step after it.
#[test]
fn the_tenth_call(rt: HostRuntime) -> Result<(), Fail> {
    let steps = steps_with(rt.alloc(), CALLS_ITSELF, CALLS)?;
    assert!(rt; steps.get(24).is_some_and(|step| step.found));
    assert!(rt; steps.get(25).is_some_and(|step| step.path.len() == 10));
    Ok(())
}

/// A font with such charstrings, whose glyph `0 500 hsbw 5 callsubr endchar` calls this Subr.
fn calling(alloc: Global, charstrings: Charstrings, subr: &[u8]) -> Result<Sample, AllocError> {
    Sample::with_charstrings(alloc, charstrings)?
        .subr(5, subr)?
        .glyph(b"A", CALLS)
}

/// The list of a sample's second glyph has this trace, and a machine returns the same.
fn assert_both(
    rt: &impl Abort,
    alloc: Global,
    sample: &Sample,
    lines: Lines,
    want: &str,
) -> Result<(), Fail> {
    assert_returned(
        rt,
        listed_of(alloc, sample, lines),
        want,
        "by the list",
        CALLS,
    )?;
    assert_returned(
        rt,
        returned_of(alloc, sample, Edition::One, lines),
        want,
        "by a machine",
        CALLS,
    )
}

/// A machine returns the trace of the list of a sample's second glyph.
fn assert_same_trace(rt: &impl Abort, alloc: Global, sample: &Sample) -> Result<(), Fail> {
    let trace = listed_of(alloc, sample, Lines::Trace)?;
    let told = returned_of(alloc, sample, Edition::One, Lines::Trace);
    assert_returned(rt, told, trace.as_str(), "by a machine", CALLS)
}

/// The list has these states, a machine returns them too, and both return one trace.
fn assert_states(rt: &impl Abort, alloc: Global, sample: &Sample, want: &str) -> Result<(), Fail> {
    assert_both(rt, alloc, sample, Lines::States, want)?;
    assert_same_trace(rt, alloc, sample)
}

/// The ways in which charstrings are enciphered.
const CIPHERS: &[Charstrings] = &[
    Charstrings::Plain,
    Charstrings::Encrypted(0),
    Charstrings::Encrypted(4),
    Charstrings::WithoutLenIv,
];

#[test]
fn enciphered_fonts(rt: HostRuntime) -> Result<(), Fail> {
    let want = "1 - 0\n2 - 500\n3 - hsbw\n4 - 5\n5 - callsubr\n6 5 return\n7 - endchar\n";
    for charstrings in CIPHERS {
        let sample = calling(rt.alloc(), *charstrings, b"\x0b")?;
        assert_both(&rt, rt.alloc(), &sample, Lines::Trace, want)?;
    }
    Ok(())
}

/// Subrs, and the states of their steps after the call: what follows is read ahead.
const READ_AHEAD: &[(&[u8], &str)] = &[
    (b"\x0e\x0b", "5 endchar [ ] 0 last\n"),
    (b"\x0e\x0b\x0b", "5 endchar [ ] 0\n"),
    (
        b"\x8c\xff",
        "5 1 [ ] 0\n5 cut [ 1 ] 0 last\n5 end [ 1 ] 0\n- endchar [ 1 ] 0 last\n",
    ),
    (b"", "5 end [ ] 0\n- endchar [ ] 0 last\n"),
];

/// The states of the steps up to the call, and of those after it.
fn states_from_the_call(alloc: Global, states: &str) -> Result<String, AllocError> {
    let call =
        "- 0 [ ] 0\n- 500 [ 0 ] 0\n- hsbw [ 0 500 ] 0\n- 5 [ ] 0\n- callsubr [ 5 ] 0 found\n";
    format!(in alloc; "{call}{states}")
}

/// A sample has these states after its call.
fn assert_after_the_call(
    rt: &impl Abort,
    alloc: Global,
    sample: &Sample,
    states: &str,
) -> Result<(), Fail> {
    let want = states_from_the_call(alloc, states)?;
    assert_states(rt, alloc, sample, want.as_str())
}

#[test]
fn enciphered_subrs(rt: HostRuntime) -> Result<(), Fail> {
    for charstrings in CIPHERS {
        for (subr, states) in READ_AHEAD {
            let sample = calling(rt.alloc(), *charstrings, subr)?;
            assert_after_the_call(&rt, rt.alloc(), &sample, states)?;
        }
    }
    Ok(())
}

/// The last lenIV counts for all charstrings.
#[test]
fn a_glyph_shorter_than_len_iv(rt: HostRuntime) -> Result<(), Fail> {
    let sample = Sample::new(rt.alloc())?
        .key(b"/lenIV 4 def")?
        .glyph(b"A", b"\x8b\x0d\x0e")?;
    assert_states(
        &rt,
        rt.alloc(),
        &sample,
        "- short [ ] 0 last\n- end [ ] 0\n",
    )
}

/// Glyphs that break off inside a token.
const CUT: &[Case<'static>] = &[
    (&[], b"\x0e\xff\x00", "- endchar [ ] 0\n"),
    (
        &[],
        b"\x8c\x0c",
        "- 1 [ ] 0\n- cut [ 1 ] 0 last\n- end [ 1 ] 0\n",
    ),
];

#[test]
fn a_glyph_that_breaks_off(rt: HostRuntime) -> Result<(), Fail> {
    assert_lines(&rt, rt.alloc(), Lines::States, CUT)
}

/// The glyph ends at endchar and seac, in a Subr too; a return outside a Subr does nothing.
const ENDS: &[Case<'static>] = &[
    (
        &[(5, b"\x0e")],
        b"\x90\x0a\x09",
        "1 - 5\n2 - callsubr\n3 5 endchar\n",
    ),
    (
        &[(5, b"\x0c\x06")],
        b"\x90\x0a\x09",
        "1 - 5\n2 - callsubr\n3 5 seac\n",
    ),
    (&[(5, b"")], b"\x0b\x0e\x09", "1 - return\n2 - endchar\n"),
    (&[(5, b"")], b"\x0b", "1 - return\n2 - end\n"),
    (&[(5, b"")], b"", "1 - end\n"),
];

#[test]
fn ends_of_glyphs(rt: HostRuntime) -> Result<(), Fail> {
    assert_lines(&rt, rt.alloc(), Lines::Trace, ENDS)
}

/// In a Subr `endchar return` is last, and `endchar return return` isn't; in the glyph itself only End
/// may follow.
const BEHIND_THE_END: &[Case<'static>] = &[
    (
        &[(5, b"\x0e")],
        b"\x90\x0a",
        "- 5 [ ] 0\n- callsubr [ 5 ] 0 found last\n5 endchar [ ] 0 last\n",
    ),
    (
        &[(5, b"\x0e\x0b")],
        b"\x90\x0a",
        "- 5 [ ] 0\n- callsubr [ 5 ] 0 found last\n5 endchar [ ] 0 last\n",
    ),
    (
        &[(5, b"\x0e\x0b\x0b")],
        b"\x90\x0a",
        "- 5 [ ] 0\n- callsubr [ 5 ] 0 found last\n5 endchar [ ] 0\n",
    ),
    (
        &[(5, b"\x0e\x09\x0b")],
        b"\x90\x0a",
        "- 5 [ ] 0\n- callsubr [ 5 ] 0 found last\n5 endchar [ ] 0\n",
    ),
    (
        &[(5, b"\x0e\xff")],
        b"\x90\x0a",
        "- 5 [ ] 0\n- callsubr [ 5 ] 0 found last\n5 endchar [ ] 0\n",
    ),
    (&[], b"\x0e\x0b", "- endchar [ ] 0\n"),
];

#[test]
fn tokens_after_the_end(rt: HostRuntime) -> Result<(), Fail> {
    assert_lines(&rt, rt.alloc(), Lines::States, BEHIND_THE_END)
}

/// A call takes its number off, whether it is made or not.
const FOUND: &[Case<'static>] = &[
    (
        RETURNS,
        b"\x0a\x0e",
        "- callsubr [ ] 0\n- endchar [ ] 0 last\n",
    ),
    (
        RETURNS,
        b"\x94\x0a\x0e",
        "- 9 [ ] 0\n- callsubr [ 9 ] 0\n- endchar [ ] 0 last\n",
    ),
    (
        RETURNS,
        b"\x94\x90\x0a\x0e",
        "- 9 [ ] 0\n- 5 [ 9 ] 0\n- callsubr [ 9 5 ] 0 found\n5 return [ 9 ] 0 last\n- endchar [ 9 ] 0 last\n",
    ),
    (
        RETURNS,
        b"\x95\x8d\x0c\x0c\x0a\x0e",
        "- 10 [ ] 0\n- 2 [ 10 ] 0\n- div [ 10 2 ] 0\n- callsubr [ 5 ] 0 found\n5 return [ ] 0 last\n- endchar [ ] 0 last\n",
    ),
];

/// A Subr that returns at once.
const RETURNS: &[(u32, &[u8])] = &[(5, b"\x0b")];

#[test]
fn calls_that_are_found(rt: HostRuntime) -> Result<(), Fail> {
    assert_lines(&rt, rt.alloc(), Lines::States, FOUND)
}
