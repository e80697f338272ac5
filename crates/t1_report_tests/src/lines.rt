//! The line of one fault. No chapter of the standard has it.

use crate::reports::is_written;
use arrayvec::ArrayVec;
use std::alloc::Global;
use std::test::Fail;
use t1_font::{Font, OpenFont, Unread};
use t1_io::Out;
use t1_report::{Fault, Waivers};
use t1_rules::Rule;
use t1_samples::{Fuse, Limit, Sample, font_of, opened};

/// The file of a font with the glyphs `.notdef`, `A` and one without a name.
fn of_three_glyphs(alloc: Global) -> Result<OpenFont, Unread> {
    let sample = Sample::new(alloc)?.glyph(b"A", b"")?.glyph(b"", b"")?;
    opened(alloc, &sample)
}

/// Whether the line of a fault is written, as far as there is room, if the fault is in the font.
fn put_line(font: &Font<'_>, fault: &Fault, room: usize, text: &mut Vec<u8>) -> Option<bool> {
    let mut sink = Fuse::sink(Out::new(text), Limit::Bytes(room));
    is_written(&mut sink, font, &Waivers::none(), fault)
}

/// The line of a fault of a font; a mark follows it where the device failed.
fn line_in(alloc: Global, font: &Font<'_>, fault: &Fault, room: usize) -> Result<Vec<u8>, Fail> {
    let mut text = Vec::new(alloc);
    match put_line(font, fault, room, &mut text) {
        Some(true) => {}
        Some(false) => text.push(b'!')?,
        None => text.extend_from_slice(b"not a place in the font")?,
    }
    Ok(text)
}

/// The same of that font.
fn line(alloc: Global, fault: &Fault, room: usize) -> Result<Vec<u8>, Fail> {
    let mut file = of_three_glyphs(alloc)?;
    let font = font_of(alloc, &mut file)?;
    line_in(alloc, &font, fault, room)
}

/// A fault in a glyph, at a step, while these Subrs are executed.
fn in_glyph(unit: u32, step: u32, rule: Rule, path: &[u32]) -> Fault {
    let mut numbers = ArrayVec::new();
    let _ = numbers.try_extend_from_slice(path);
    Fault {
        number: u64::MAX,
        unit,
        step,
        rule,
        path: numbers,
    }
}

/// A unit, a step, a rule, a path, and the line of such a fault.
const LINES: &[(u32, u32, Rule, &[u32], &str)] = &[
    (
        2,
        8,
        Rule::P01,
        &[5],
        "18446744073709551615: glyph A 5 8 P01 drawing without a move\n",
    ),
    (
        2,
        25,
        Rule::S02,
        &[5, 5, 5, 5, 5, 5, 5, 5, 5, 65_534],
        "18446744073709551615: glyph A 5>5>5>5>5>5>5>5>5>65534 25 S02 calls nested too deep\n",
    ),
    (
        3,
        1,
        Rule::GE01,
        &[],
        "18446744073709551615: glyph  - 1 GE01 no endchar\n",
    ),
    (
        1,
        100_001,
        Rule::L01,
        &[0],
        "18446744073709551615: glyph .notdef 0 100001 L01 step limit\n",
    ),
];

/// Whether a fault with this unit, step, rule and path has this line.
fn has_line(
    alloc: Global,
    (unit, step, rule, path): (u32, u32, Rule, &[u32]),
    text: &str,
) -> Result<bool, Fail> {
    let fault = in_glyph(unit, step, rule, path);
    let written = line(alloc, &fault, 200)?;
    Ok(written.as_slice() == text.as_bytes())
}

#[test]
fn lines_of_glyphs_have_paths(rt: HostRuntime) -> Result<(), Fail> {
    for (unit, step, rule, path, text) in LINES {
        assert!(rt;
            has_line(rt.alloc(), (*unit, *step, *rule, path), text)?,
            "{text}"
        );
    }
    Ok(())
}

/// Whether so many bytes of a text were written, and a mark.
fn is_prefix(written: &[u8], text: &[u8], room: usize) -> bool {
    match text.get(..room) {
        Some(front) => written.strip_prefix(front) == Some(b"!".as_slice()),
        None => false,
    }
}

/// Of a line in the font, each prefix is written and the failure is returned.
#[test]
fn a_prefix_of_a_line_is_written(rt: HostRuntime) -> Result<(), Fail> {
    let text = b"18446744073709551615: font CharStrings 65535 F10 glyph given twice\n";
    for room in 0..text.len() {
        let written = line(rt.alloc(), &in_glyph(0, 1_441_791, Rule::F10, &[]), room)?;
        assert!(rt; is_prefix(written.as_slice(), text, room), "{room}");
    }
    Ok(())
}
