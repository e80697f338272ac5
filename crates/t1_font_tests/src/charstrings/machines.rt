//! A glyph that is executed one step a call: its steps are those of the list, and the end is returned again. Type 1
//! Font Format 1.1, chapter 6.

use super::traces::{Case, assert_machines, glyph_count, push_line, push_state, with_glyph};
use std::alloc::{AllocError, Global};
use std::test::Fail;
use t1_char::{Answer, Edition, Machine, Numbers, Step, Turn};
use t1_font::{Font, Unread};
use t1_samples::{Sample, font_of, opened};

/// What is written of steps.
#[derive(Clone, Copy)]
pub(super) enum Lines {
    Trace,
    States,
    /// Nothing of the steps; each answer after them, with the count of calls.
    Ends,
    /// The trace where numbers are passed, and the answer after it.
    Passed,
}

/// What a machine returns for a glyph with this charstring.
pub(super) fn returned_with(
    alloc: Global,
    subrs: &[(u32, &[u8])],
    glyph: &[u8],
    lines: Lines,
) -> Result<String, Unread> {
    let sample = with_glyph(alloc, subrs, glyph)?;
    returned_of(alloc, &sample, Edition::One, lines)
}

/// What a machine returns for a sample's second glyph.
pub(super) fn returned_of(
    alloc: Global,
    sample: &Sample,
    edition: Edition,
    lines: Lines,
) -> Result<String, Unread> {
    let mut file = opened(alloc, sample)?;
    let font = font_of(alloc, &mut file)?;
    Ok(returned_in(alloc, &font, edition, lines)?)
}

/// What a machine returns for a font's second glyph.
fn returned_in(
    alloc: Global,
    font: &Font<'_>,
    edition: Edition,
    lines: Lines,
) -> Result<String, AllocError> {
    if glyph_count(font) < 2 {
        return Ok(String::new(alloc));
    }
    returned_by(alloc, Machine::start(&*font, 1, edition), lines)
}

fn returned_by(
    alloc: Global,
    mut machine: Machine<'_>,
    lines: Lines,
) -> Result<String, AllocError> {
    if let Lines::Passed = lines {
        return passed_by(alloc, machine);
    }
    let mut text = String::new(alloc);
    for _call in 0..=Edition::Two.step_limit() {
        match machine.step() {
            Turn::Step(step) => push_as(alloc, &mut text, step, lines)?,
            Turn::Ended | Turn::Limit(_) => break,
        }
    }
    if let Lines::Ends = lines {
        for _call in 0..3 {
            push_end(alloc, &mut text, &mut machine)?;
        }
    }
    Ok(text)
}

fn passed_by(alloc: Global, mut machine: Machine<'_>) -> Result<String, AllocError> {
    let mut text = String::new(alloc);
    for _call in 0..=Edition::Two.step_limit() {
        match machine.go_on(Numbers::Passed) {
            Answer::Step => push_line(alloc, &mut text, machine.current())?,
            Answer::Ended | Answer::Limit => break,
        }
    }
    push_end(alloc, &mut text, &mut machine)?;
    Ok(text)
}

fn push_as(alloc: Global, text: &mut String, step: &Step, lines: Lines) -> Result<(), AllocError> {
    match lines {
        Lines::Trace => push_line(alloc, text, step),
        Lines::States => push_state(alloc, text, step),
        Lines::Ends | Lines::Passed => Ok(()),
    }
}

/// Adds the step past the limit.
fn push_limit(alloc: Global, text: &mut String, step: &Step) -> Result<(), AllocError> {
    text.push_str("limit ")?;
    push_line(alloc, text, step)
}

/// Adds an answer.
fn push_turn(alloc: Global, text: &mut String, turn: Turn<'_>) -> Result<(), AllocError> {
    match turn {
        Turn::Step(step) => push_line(alloc, text, step),
        Turn::Ended => text.push_str("ended "),
        Turn::Limit(step) => push_limit(alloc, text, step),
    }
}

/// Adds how many calls there were.
fn push_count(alloc: Global, text: &mut String, counted: u32) -> Result<(), AllocError> {
    let count = format!(in alloc; "{counted}\n")?;
    text.push_str(count.as_str())
}

/// Adds the next answer, and how many calls there were.
fn push_end(alloc: Global, text: &mut String, machine: &mut Machine<'_>) -> Result<(), AllocError> {
    push_turn(alloc, text, machine.step())?;
    push_count(alloc, text, machine.counted())
}

/// Glyphs, and what is returned after the end.
const ENDS: &[Case<'static>] = &[
    (&[], b"\x8b\xf8\x88\x0d\x0e", "ended 5\nended 5\nended 5\n"),
    (&[], b"", "ended 2\nended 2\nended 2\n"),
    (
        &[(5, b"\x0e")],
        b"\x90\x0a\x09",
        "ended 4\nended 4\nended 4\n",
    ),
];

#[test]
fn the_end_is_returned_again(rt: HostRuntime) -> Result<(), Fail> {
    assert_machines(&rt, rt.alloc(), Lines::Ends, ENDS)
}

/// Glyphs, and what is returned for them where numbers are passed. A number in a Subr is passed too, and one that
/// comes to a full stack is returned.
const PASSED: &[Case<'static>] = &[
    (
        &[],
        b"\x8b\xf8\x88\x0d\x0e",
        "3 - hsbw\n4 - endchar\nended 5\n",
    ),
    (
        &[(5, b"\x90\x8b\x05\x09")],
        b"\x8b\xf8\x88\x0d\x90\x0a\x0e",
        "3 - hsbw\n5 - callsubr\n8 5 rlineto\n9 5 closepath\n10 5 end\n11 - endchar\nended 12\n",
    ),
    (
        &[],
        b"\x8b\x8b\x8b\x8b\x8b\x8b\x8b\x8b\x8b\x8b\x8b\x8b\x8b\x8b\x8b\x8b\x8b\x8b\x8b\x8b\x8b\x8b\x8b\x8b\x8b\x0e",
        "25 - 0\n26 - endchar\nended 27\n",
    ),
];

#[test]
fn numbers_are_passed(rt: HostRuntime) -> Result<(), Fail> {
    assert_machines(&rt, rt.alloc(), Lines::Passed, PASSED)
}
