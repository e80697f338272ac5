//! A machine executes each glyph as the list of its steps says, in all fonts of these tests. Source: Type 1 Font
//! Format 1.1, chapters 6 and 8.

ghost use Rattle.std.specs.Prelude.{◌<◌, length};

use crate::answers::{Asked, answer_to, assert_answer};
use std::alloc::{AllocError, Global};
use std::test::Fail;
use t1_char::{Edition, Machine, Step, Turn, expand};
use t1_font::Font;
use t1_samples::{Charstrings, FontFile, Sample, TRAILER};

/// For each glyph of a font: the machine's steps are those of the list, and then it ends, or returns the limit.
pub(super) fn assert_same_steps(alloc: Global, font: &Font<'_>) -> Result<(), Fail> {
    for glyph in 0..font.glyphs().len() {
        if !has_same_steps(alloc, font, glyph)? {
            return Err(Fail::from("a machine's step isn't that of the list"));
        }
    }
    Ok(())
}

/// Whether a machine's steps are those of the list of a glyph.
fn has_same_steps(alloc: Global, font: &Font<'_>, glyph: usize) -> Result<bool, AllocError>
    requires { glyph < length font.now.glyphs }
{
    let steps = expand(alloc, font, glyph, Edition::One)?;
    let mut machine = Machine::start(&*font, glyph, Edition::One);
    Ok(has_steps(&mut machine, steps.as_slice()))
}

/// Whether these are the machine's steps up to the first past the limit.
fn has_steps(machine: &mut Machine<'_>, steps: &[Step]) -> bool {
    for listed in steps {
        if !is_returned(machine.step(), listed) {
            return false;
        }
    }
    steps.len() > Edition::One.step_limit() as usize || matches!(machine.step(), Turn::Ended)
}

/// Whether a step is returned, as a step up to the limit, and as the limit past it.
fn is_returned(turn: Turn<'_>, listed: &Step) -> bool {
    match turn {
        Turn::Step(step) => is_same(step, listed) && step.number <= Edition::One.step_limit(),
        Turn::Limit(step) => is_same(step, listed) && step.number == Edition::One.step_limit() + 1,
        Turn::Ended => false,
    }
}

fn is_same(a: &Step, b: &Step) -> bool {
    a.number == b.number
        && a.token == b.token
        && a.path.as_slice() == b.path.as_slice()
        && a.stack.as_slice() == b.stack.as_slice()
        && a.waiting == b.waiting
        && a.found == b.found
        && a.last == b.last
}

/// A kind of file.
#[derive(Clone, Copy)]
enum Kind {
    /// With lenIV 4 and an end segment.
    Pfb,
    PfbWithoutEnd,
    PfaHexadecimal,
    /// A PFB file whose section begins with a digit.
    DigitInFront,
}

/// Kinds of files, and the faults of a font in each.
const KINDS: &[(Kind, &str)] = &[
    (Kind::Pfb, ""),
    (Kind::PfbWithoutEnd, "file 0 F01"),
    (Kind::PfaHexadecimal, ""),
    (Kind::DigitInFront, ""),
];

/// A file of such a kind, of these texts.
fn file_of(alloc: Global, clear: &[u8], private: &[u8], kind: Kind) -> Result<Vec<u8>, AllocError> {
    let file = FontFile::of(clear, private);
    let ended = FontFile {
        trailer: TRAILER,
        ..file
    };
    match kind {
        Kind::Pfb => ended.pfb(alloc),
        Kind::PfbWithoutEnd => FontFile { end: b"", ..ended }.pfb(alloc),
        Kind::PfaHexadecimal => ended.pfa_hexadecimal(alloc),
        Kind::DigitInFront => FontFile {
            discarded: [0x98, 0xff, 0, 0],
            ..file
        }
        .pfb(alloc),
    }
}

/// A font in a file of such a kind.
fn font_in(alloc: Global, kind: Kind) -> Result<Vec<u8>, AllocError> {
    let enciphered = Sample::with_charstrings(alloc, Charstrings::Encrypted(4))?;
    let clear = enciphered.clear()?;
    let private = enciphered.private()?;
    file_of(alloc, clear.as_slice(), private.as_slice(), kind)
}

/// The faults of a font in a file of such a kind.
fn faults_in(alloc: Global, kind: Kind) -> Result<String, Fail> {
    let file = font_in(alloc, kind)?;
    answer_to(alloc, file.as_slice(), "", Asked::Faults)
}

#[test]
fn fonts_in_each_kind_of_file(rt: HostRuntime) -> Result<(), Fail> {
    for (kind, faults) in KINDS {
        let found = faults_in(rt.alloc(), *kind);
        assert_answer(&rt, found, faults, Asked::Faults, "a kind of file", "")?;
    }
    Ok(())
}
