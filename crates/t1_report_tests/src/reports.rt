//! What the tests of reports share: the report of a made font as whole lines, and in short.

ghost use Rattle.std.specs.Prelude.{◌≡◌, true};
ghost use Rattle.t1_report.specs.Faults.{fault_value};
ghost use Rattle.t1_report.specs.Lines.{IsInFont};

use crate::machines::assert_same_steps;
use crate::walks::assert_walks;
use std::alloc::{AllocError, Global};
use std::test::Fail;
use t1_char::Edition;
use t1_font::Font;
use t1_io::{Out, Sink};
use t1_report::{Fault, Waivers, report, write_fault};
use t1_rules::{Rule, rule_text};
use t1_samples::add_fault;

/// Whether a fault has a line: it is at a key of the font, with no path, in a glyph, or is that of a waiver.
fn has_line(font: &Font<'_>, waivers: &Waivers<'_>, fault: &Fault) -> bool
    ensures { result ≡ true → IsInFont font.now waivers.now (fault_value fault.now) }
{
    let unit = fault.unit as usize;
    let glyphs = font.glyphs().len();
    if unit == 0 {
        fault.step / 65_536 <= 25 && fault.path.is_empty()
    } else if unit > glyphs {
        unit == glyphs + 1
            && matches!(fault.rule, Rule::U01)
            && 1 <= fault.step
            && fault.step as usize <= waivers.len()
    } else {
        true
    }
}

/// Whether the line of a fault is written, if the fault has one.
pub(super) fn is_written<W: Sink>(
    sink: &mut W,
    font: &Font<'_>,
    waivers: &Waivers<'_>,
    fault: &Fault,
) -> Option<bool> {
    if !has_line(font, waivers, fault) {
        return None;
    }
    Some(write_fault(sink, font, waivers, fault).is_ok())
}

/// Adds the line of a fault.
fn add_line(
    text: &mut Vec<u8>,
    font: &Font<'_>,
    waivers: &Waivers<'_>,
    fault: &Fault,
) -> Result<(), Fail> {
    match is_written(&mut Out::new(text), font, waivers, fault) {
        Some(true) => Ok(()),
        _ => Err(Fail::from("a line")),
    }
}

/// The lines of faults.
pub(super) fn lines_of(
    alloc: Global,
    font: &Font<'_>,
    waivers: &Waivers<'_>,
    faults: &[Fault],
) -> Result<String, Fail> {
    let mut text = Vec::new(alloc);
    for fault in faults {
        add_line(&mut text, font, waivers, fault)?;
    }
    Ok(String::from_utf8(text)?)
}

/// What a fault's line says besides its number, `font`, `glyph` or `waiver`, and the text of its rule, which are as they
/// have to be; nor does it say the `-` of a path without Subrs.
fn short_of(alloc: Global, line: &str, number: u64, fault: &Fault) -> Result<String, Fail> {
    let kind = match fault.rule {
        Rule::U01 => "waiver",
        _ if fault.unit == 0 => "font",
        _ => "glyph",
    };
    let front = format!(in alloc; "{number}: {kind} ")?;
    match place_in(line, front.as_str(), rule_text(fault.rule)) {
        Some(place) => Ok(short_place(alloc, place)?),
        None => Err(Fail::from("a number, or a rule's text")),
    }
}

/// What a line has between a prefix and its rule's text.
fn place_in<'a>(line: &'a str, front: &str, text: &str) -> Option<&'a str> {
    line.strip_prefix(front)?
        .strip_suffix("\n")?
        .strip_suffix(text)?
        .strip_suffix(" ")
}

/// A place without the `-` of a path without Subrs.
fn short_place(alloc: Global, place: &str) -> Result<String, AllocError> {
    match place.split_once(" - ") {
        Some((name, step)) => format!(in alloc; "{name} {step}"),
        None => String::from_str(alloc, place),
    }
}

/// Adds a fault in short, which has that number.
fn add_short(
    alloc: Global,
    faults: &mut String,
    font: &Font<'_>,
    waivers: &Waivers<'_>,
    number: u64,
    fault: &Fault,
) -> Result<(), Fail> {
    let short = short_fault(alloc, font, waivers, number, fault)?;
    Ok(add_fault(faults, short.as_str())?)
}

/// A fault in short, which has that number.
fn short_fault(
    alloc: Global,
    font: &Font<'_>,
    waivers: &Waivers<'_>,
    number: u64,
    fault: &Fault,
) -> Result<String, Fail> {
    let line = line_of(alloc, font, waivers, fault)?;
    match str::from_utf8(line.as_slice()) {
        Ok(line) => short_of(alloc, line, number, fault),
        Err(_) => Err(Fail::from("a line that isn't UTF-8")),
    }
}

/// The line of a fault.
fn line_of(
    alloc: Global,
    font: &Font<'_>,
    waivers: &Waivers<'_>,
    fault: &Fault,
) -> Result<Vec<u8>, Fail> {
    let mut line = Vec::new(alloc);
    add_line(&mut line, font, waivers, fault)?;
    Ok(line)
}

/// The faults of a report in short.
pub(super) fn in_short(
    alloc: Global,
    font: &Font<'_>,
    waivers: &Waivers<'_>,
    faults: &[Fault],
) -> Result<String, Fail> {
    let mut text = String::new(alloc);
    let mut number = 0u64;
    for fault in faults {
        number = number.saturating_add(1);
        add_short(alloc, &mut text, font, waivers, number, fault)?;
    }
    Ok(text)
}

/// From how many bytes on a file is long: walks execute its glyphs after each fault again.
const LONG: usize = 3_200;

/// The faults of the report of a file's font; a machine executes its glyphs as the report's lists say, and walks
/// give the report of a short file, from each mark on.
pub(super) fn reported(alloc: Global, font: &Font<'_>, length: usize) -> Result<Vec<Fault>, Fail> {
    assert_same_steps(alloc, font)?;
    if length < LONG {
        assert_walks(alloc, font)?;
    }
    Ok(report(alloc, font, &Waivers::none(), Edition::One)?)
}
