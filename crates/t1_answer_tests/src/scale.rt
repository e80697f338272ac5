//! Fonts of the greatest sizes. No contract can rule out a body that returns out of memory there.

use crate::shared::{answer_to, is_clean, is_refused};
use std::alloc::{AllocError, Global};
use std::test::Fail;
use t1_run::Status;
use t1_samples::{CLEAR, FontFile, NOTDEF, Sample};

/// The greatest size of a file.
const GREATEST: usize = 16_777_216;

/// How many Subrs a font has at most.
const SUBRS: u32 = 65_535;

/// How many glyphs a font has at most.
const GLYPHS: u32 = 65_535;

/// How many glyphs are given twice.
const DOUBLED: u32 = 4_465;

/// A sound private text after so many blanks.
fn padded(alloc: Global, blanks: usize) -> Result<Vec<u8>, AllocError> {
    let mut text = vec![in alloc; b' '; blanks]?;
    text.extend_from_slice(Sample::new(alloc)?.private()?.as_slice())?;
    Ok(text)
}

/// All Subrs that a font may have, each an empty charstring, after a head with this size.
fn subrs(alloc: Global, size: u32) -> Result<Vec<u8>, AllocError> {
    let mut lines = format!(in alloc; "/Subrs {size} array\n")?.into_bytes();
    for number in 0..SUBRS {
        add_subr(alloc, &mut lines, number)?;
    }
    lines.extend_from_slice(b"ND\n")?;
    Ok(lines)
}

fn add_subr(alloc: Global, lines: &mut Vec<u8>, number: u32) -> Result<(), AllocError> {
    lines.extend_from_slice(b"dup ")?;
    add_number(alloc, lines, number)?;
    lines.extend_from_slice(b" 0 RD  NP\n")
}

/// A file with this private text, PFB or PFA.
fn written(alloc: Global, text: &[u8], is_pfb: bool) -> Result<Vec<u8>, AllocError> {
    let file = FontFile::of(CLEAR, text);
    match is_pfb {
        true => file.pfb(alloc),
        false => file.pfa(alloc),
    }
}

/// The same of a sound private text after so many blanks.
fn padded_file(alloc: Global, blanks: usize, is_pfb: bool) -> Result<Vec<u8>, AllocError> {
    let text = padded(alloc, blanks)?;
    written(alloc, text.as_slice(), is_pfb)
}

/// A sound file of the greatest size.
fn greatest(alloc: Global, is_pfb: bool) -> Result<Vec<u8>, AllocError> {
    let short = padded_file(alloc, 0, is_pfb)?.len();
    padded_file(alloc, GREATEST.saturating_sub(short), is_pfb)
}

#[test]
fn reads_sixteen_megabytes(rt: HostRuntime) -> Result<(), Fail> {
    for is_pfb in [false, true] {
        let file = greatest(rt.alloc(), is_pfb)?;
        assert!(rt;
            file.len() == GREATEST && is_clean(rt.alloc(), file.as_slice()),
            "{is_pfb}"
        );
    }
    Ok(())
}

/// The last digit has no second one, and is omitted.
#[test]
fn reads_ten_megabytes_of_digits(rt: HostRuntime) -> Result<(), Fail> {
    let text = padded(rt.alloc(), 5_000_000)?;
    let file = FontFile {
        trailer: b"5!\n",
        ..FontFile::of(CLEAR, text.as_slice())
    }
    .pfa_hexadecimal(rt.alloc())?;
    assert!(rt; file.len() > 10_000_000);
    assert!(rt; is_clean(rt.alloc(), file.as_slice()));
    Ok(())
}

#[test]
fn reads_all_subrs(rt: HostRuntime) -> Result<(), Fail> {
    let lines = subrs(rt.alloc(), SUBRS)?;
    let file = Sample::new(rt.alloc())?.subrs(lines.as_slice())?.pfb()?;
    assert!(rt; is_clean(rt.alloc(), file.as_slice()));
    Ok(())
}

/// A font whose Subrs are all past the array, and whose glyphs but `.notdef` are each given twice:
/// 70,000 lines.
fn faulty(alloc: Global) -> Result<Vec<u8>, AllocError> {
    let lines = subrs(alloc, 0)?;
    let mut sample = Sample::new(alloc)?.subrs(lines.as_slice())?;
    for number in 0..DOUBLED {
        sample = with_two(alloc, sample, number)?;
    }
    sample.pfb()
}

/// The sample with one more glyph, which is given twice.
fn with_two(alloc: Global, sample: Sample, number: u32) -> Result<Sample, AllocError> {
    let name = format!(in alloc; "g{number}")?;
    sample
        .glyph(name.as_bytes(), NOTDEF)?
        .glyph(name.as_bytes(), NOTDEF)
}

#[test]
fn writes_seventy_thousand_lines(rt: HostRuntime) -> Result<(), Fail> {
    let file = faulty(rt.alloc())?;
    let answer = answer_to(rt.alloc(), file.as_slice());
    assert!(rt; answer.status == Status::Faults && answer.told.is_empty());
    let text = answer.output.as_slice();
    assert_eq!(rt; text.iter().filter(|byte| **byte == b'\n').count(), 70_000);
    assert!(rt;
        text.starts_with(b"1: font Subrs 0 F14 Subr given twice or past the array\n")
            && text.ends_with(b"\n70000: font CharStrings 4465 F10 glyph given twice\n")
    );
    Ok(())
}

/// The private text before the CharStrings' entries.
const FRONT: &[u8] = b"dup /Private 8 dict dup begin\n/password 5839 def\n/MinFeature {16 16} def\n\
/lenIV -1 def\n/Subrs 6 array\nND\n2 index /CharStrings 65535 dict dup begin\n";

/// A font of so many empty glyphs, g0 and on, without .notdef.
fn of_empty_glyphs(alloc: Global, count: u32) -> Result<Vec<u8>, AllocError> {
    let mut private = Vec::from_slice(alloc, FRONT)?;
    for number in 0..count {
        let line = format!(in alloc; "/g{number} 0 RD  ND\n")?;
        private.extend_from_slice(line.as_bytes())?;
    }
    private.extend_from_slice(b"end\n")?;
    FontFile::of(CLEAR, private.as_slice()).pfb(alloc)
}

/// Adds a number in digits.
fn add_number(alloc: Global, text: &mut Vec<u8>, number: u32) -> Result<(), AllocError> {
    let digits = format!(in alloc; "{number}")?;
    text.extend_from_slice(digits.as_bytes())
}

/// The lines of the font of the most empty glyphs.
fn lines_of_empty_glyphs(alloc: Global) -> Result<Vec<u8>, AllocError> {
    let mut lines = Vec::from_slice(alloc, b"1: font CharStrings 0 F09 no .notdef\n")?;
    for number in 0..GLYPHS {
        let place = number + 2;
        add_number(alloc, &mut lines, place)?;
        lines.extend_from_slice(b": glyph g")?;
        add_number(alloc, &mut lines, number)?;
        lines.extend_from_slice(b" - 1 GE01 no endchar\n")?;
    }
    Ok(lines)
}

#[test]
fn writes_the_lines_of_the_most_glyphs(rt: HostRuntime) -> Result<(), Fail> {
    let file = of_empty_glyphs(rt.alloc(), GLYPHS)?;
    let answer = answer_to(rt.alloc(), file.as_slice());
    let text = answer.output.as_slice();
    assert!(rt; text.ends_with(b"\n65536: glyph g65534 - 1 GE01 no endchar\n"));
    let lines = lines_of_empty_glyphs(rt.alloc())?;
    assert!(rt; answer.is(Status::Faults, lines.as_slice(), b""));
    Ok(())
}

#[test]
fn refuses_one_glyph_more(rt: HostRuntime) -> Result<(), Fail> {
    let file = of_empty_glyphs(rt.alloc(), GLYPHS + 1)?;
    let line = "refused: E11 count past its limit\n";
    assert!(rt; is_refused(rt.alloc(), file.as_slice(), line));
    Ok(())
}
