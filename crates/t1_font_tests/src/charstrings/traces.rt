//! What the tests of charstrings share: fonts of made glyphs and Subrs, and steps as text: Type 1 Font Format 1.1,
//! chapters 6 and 8.

ghost use Rattle.std.specs.Prelude.{◌≡◌, length};

use super::machines::{Lines, returned_with};
use std::alloc::{AllocError, Global};
use std::process::Abort;
use std::test::Fail;
use t1_char::{CharToken, Edition, Stack, Step, command_name, expand};
use t1_font::{Font, Unread};
use t1_samples::{Sample, font_of, opened};

/// Adds a number in digits.
fn push_number(alloc: Global, text: &mut String, number: i64) -> Result<(), AllocError> {
    let digits = format!(in alloc; "{number}")?;
    text.push_str(digits.as_str())
}

/// Adds words and a byte in digits.
fn push_byte(alloc: Global, text: &mut String, words: &str, byte: u8) -> Result<(), AllocError> {
    text.push_str(words)?;
    push_number(alloc, text, i64::from(byte))
}

/// Adds what a token is called: its number or its command's name.
pub(super) fn push_token(
    alloc: Global,
    text: &mut String,
    token: CharToken,
) -> Result<(), AllocError> {
    match token {
        CharToken::Number(number) => push_number(alloc, text, i64::from(number)),
        CharToken::Command(command) => text.push_str(command_name(command)),
        CharToken::Unknown(byte) => push_byte(alloc, text, "unknown ", byte),
        CharToken::Unknown12(byte) => push_byte(alloc, text, "unknown 12 ", byte),
        CharToken::Cut => text.push_str("cut"),
        CharToken::Short => text.push_str("short"),
        CharToken::End => text.push_str("end"),
    }
}

/// Adds the Subrs of a path with `>` between them, or `-`.
fn push_path(alloc: Global, text: &mut String, path: &[u32]) -> Result<(), AllocError> {
    if path.is_empty() {
        return text.push_str("-");
    }
    let mut mark = "";
    for subr in path {
        text.push_str(mark)?;
        push_number(alloc, text, i64::from(*subr))?;
        mark = ">";
    }
    Ok(())
}

/// Adds a number of a stack: a whole one as it is, another in units of 1/65536 after a `~`.
fn push_entry(alloc: Global, text: &mut String, number: i64) -> Result<(), AllocError> {
    if number % 65536 == 0 {
        text.push_str(" ")?;
        push_number(alloc, text, number / 65536)
    } else {
        text.push_str(" ~")?;
        push_number(alloc, text, number)
    }
}

/// Adds the numbers of a stack, in brackets.
fn push_stack(alloc: Global, text: &mut String, stack: &Stack) -> Result<(), AllocError> {
    text.push_str("[")?;
    for number in stack.as_slice() {
        push_entry(alloc, text, *number)?;
    }
    text.push_str(" ]")
}

/// Adds a step's path and its token.
fn push_place(alloc: Global, text: &mut String, step: &Step) -> Result<(), AllocError> {
    push_path(alloc, text, step.path.as_slice())?;
    text.push_str(" ")?;
    push_token(alloc, text, step.token)
}

/// Adds how many results wait, and the two facts of a step.
fn push_facts(alloc: Global, text: &mut String, step: &Step) -> Result<(), AllocError> {
    let waiting = step.waiting;
    let count = format!(in alloc; "{waiting}")?;
    text.push_str(count.as_str())?;
    text.push_str(if step.found { " found" } else { "" })?;
    text.push_str(if step.last { " last" } else { "" })
}

/// Adds a step's number, its path and its token.
pub(super) fn push_line(alloc: Global, text: &mut String, step: &Step) -> Result<(), AllocError> {
    push_number(alloc, text, i64::from(step.number))?;
    text.push_str(" ")?;
    push_place(alloc, text, step)?;
    text.push_str("\n")
}

/// A line for each step: its number, its path and its token.
pub(super) fn trace_of(alloc: Global, steps: &[Step]) -> Result<String, AllocError> {
    let mut text = String::new(alloc);
    for step in steps {
        push_line(alloc, &mut text, step)?;
    }
    Ok(text)
}

/// Adds a step's path, its token, the stack, how many results wait, and its two facts.
pub(super) fn push_state(alloc: Global, text: &mut String, step: &Step) -> Result<(), AllocError> {
    push_place(alloc, text, step)?;
    text.push_str(" ")?;
    push_stack(alloc, text, &step.stack)?;
    text.push_str(" ")?;
    push_facts(alloc, text, step)?;
    text.push_str("\n")
}

/// A line for each step: its path, its token, the stack, how many results wait, and its two facts.
pub(super) fn states_of(alloc: Global, steps: &[Step]) -> Result<String, AllocError> {
    let mut text = String::new(alloc);
    for step in steps {
        push_state(alloc, &mut text, step)?;
    }
    Ok(text)
}

/// Lines of steps, as they are requested.
fn lines_of(alloc: Global, steps: &[Step], lines: Lines) -> Result<String, AllocError> {
    match lines {
        Lines::States => states_of(alloc, steps),
        _ => trace_of(alloc, steps),
    }
}

/// The steps of a sample's second glyph.
pub(super) fn steps_of(
    alloc: Global,
    sample: &Sample,
    edition: Edition,
) -> Result<Vec<Step>, Unread> {
    let mut file = opened(alloc, sample)?;
    let font = font_of(alloc, &mut file)?;
    Ok(steps_in(alloc, &font, edition)?)
}

/// How many glyphs a font has.
pub(super) fn glyph_count(font: &Font<'_>) -> usize
    ensures { result ≡ length font.now.glyphs }
{
    font.glyphs().len()
}

/// The steps of a font's second glyph.
fn steps_in(alloc: Global, font: &Font<'_>, edition: Edition) -> Result<Vec<Step>, AllocError> {
    if glyph_count(font) < 2 {
        return Ok(Vec::new(alloc));
    }
    expand(alloc, font, 1, edition)
}

/// A sound font with these Subrs.
fn with_subrs(alloc: Global, subrs: &[(u32, &[u8])]) -> Result<Sample, AllocError> {
    let mut sample = Sample::new(alloc)?;
    for (number, code) in subrs {
        sample = sample.subr(*number, *code)?;
    }
    Ok(sample)
}

/// The same, with this glyph A.
pub(super) fn with_glyph(
    alloc: Global,
    subrs: &[(u32, &[u8])],
    glyph: &[u8],
) -> Result<Sample, AllocError> {
    with_subrs(alloc, subrs)?.glyph(b"A", glyph)
}

/// The steps of a glyph with this charstring, in a font with these Subrs.
pub(super) fn steps_with(
    alloc: Global,
    subrs: &[(u32, &[u8])],
    glyph: &[u8],
) -> Result<Vec<Step>, Unread> {
    let sample = with_glyph(alloc, subrs, glyph)?;
    steps_of(alloc, &sample, Edition::One)
}

/// The trace of the list of a sample's second glyph.
pub(super) fn listed_of(alloc: Global, sample: &Sample, lines: Lines) -> Result<String, Unread> {
    let steps = steps_of(alloc, sample, Edition::One)?;
    Ok(lines_of(alloc, steps.as_slice(), lines)?)
}

/// The trace of the list of a glyph with this charstring.
fn listed_with(
    alloc: Global,
    subrs: &[(u32, &[u8])],
    glyph: &[u8],
    lines: Lines,
) -> Result<String, Unread> {
    let sample = with_glyph(alloc, subrs, glyph)?;
    listed_of(alloc, &sample, lines)
}

/// Subrs, a glyph, and what is written of its steps.
pub(super) type Case<'a> = (&'a [(u32, &'a [u8])], &'a [u8], &'a str);

/// What was returned for a glyph, by a list or a machine, is this.
pub(super) fn assert_returned(
    rt: &impl Abort,
    told: Result<String, Unread>,
    want: &str,
    by: &str,
    glyph: &[u8],
) -> Result<(), Fail> {
    let told = told?;
    assert_eq!(rt; told.as_str(), want, "of {glyph:?}, {by}");
    Ok(())
}

/// The lists of the glyphs have the traces beside them, and machines return the same.
pub(super) fn assert_lines(
    rt: &impl Abort,
    alloc: Global,
    lines: Lines,
    cases: &[Case<'_>],
) -> Result<(), Fail> {
    for (subrs, glyph, want) in cases {
        let listed = listed_with(alloc, subrs, glyph, lines);
        assert_returned(rt, listed, want, "by the list", glyph)?;
    }
    assert_machines(rt, alloc, lines, cases)
}

/// Machines return what is beside the glyphs.
pub(super) fn assert_machines(
    rt: &impl Abort,
    alloc: Global,
    lines: Lines,
    cases: &[Case<'_>],
) -> Result<(), Fail> {
    for (subrs, glyph, want) in cases {
        let told = returned_with(alloc, subrs, glyph, lines);
        assert_returned(rt, told, want, "by a machine", glyph)?;
    }
    Ok(())
}
