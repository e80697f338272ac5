//! Files of fonts, and of what is none, by how they are made.

use std::alloc::{AllocError, Global};
use t1_samples::{CLEAR, Charstrings, FontFile, Sample, TRAILER};

/// How a file is made. A PFB file ends with an end segment if nothing else is said.
#[derive(Clone, Copy)]
pub(crate) enum Made {
    /// These bytes.
    Bytes(&'static [u8]),
    /// These bytes, and 16,777,214 zeros.
    Zeros(&'static [u8]),
    /// A PFB file with this private text and this end.
    Private(&'static [u8], &'static [u8]),
    /// A PFB file with this end, whose private text is cut before its last `end`.
    Cut(&'static [u8]),
    /// A sound PFB file with this line.
    Key(&'static [u8]),
    /// A sound PFB file with these lines in place of its Subrs'.
    Subrs(&'static [u8]),
    /// A PFB file with this glyph A.
    Glyph(&'static [u8]),
    /// A PFB file with this Subr 5 and this glyph A.
    Calling(&'static [u8], &'static [u8]),
    /// A sound PFB file but for this end, with encrypted charstrings and the zeros after its section.
    Ended(&'static [u8]),
    /// A sound PFA file whose section is hexadecimal, with encrypted charstrings.
    Hexadecimal,
    /// A sound PFA file whose section is binary.
    Binary,
    /// A sound PFB file. The four bytes that are discarded encrypt to `41 BA`: only the first is a digit.
    DigitInFront,
}

/// The file that is made so.
pub(crate) fn file_of(alloc: Global, made: Made) -> Result<Vec<u8>, AllocError> {
    match made {
        Made::Bytes(bytes) => Vec::from_slice(alloc, bytes),
        Made::Zeros(front) => with_zeros(alloc, front),
        Made::Private(text, end) => with_private(alloc, text, end),
        Made::Cut(end) => with_cut_text(alloc, end),
        Made::Key(line) => Sample::new(alloc)?.key(line)?.pfb(),
        Made::Subrs(lines) => Sample::new(alloc)?.subrs(lines)?.pfb(),
        Made::Glyph(glyph) => Sample::new(alloc)?.glyph(b"A", glyph)?.pfb(),
        Made::Calling(subr, glyph) => calling(alloc, subr, glyph),
        Made::Ended(_) | Made::Hexadecimal => worked_file(alloc, Charstrings::Encrypted(4), made),
        Made::Binary | Made::DigitInFront => worked_file(alloc, Charstrings::Plain, made),
    }
}

fn with_zeros(alloc: Global, front: &[u8]) -> Result<Vec<u8>, AllocError> {
    let mut file = vec![in alloc; 0u8; front.len() + 16_777_214]?;
    for (place, byte) in file.iter_mut().zip(front) {
        *place = *byte;
    }
    Ok(file)
}

fn with_private(alloc: Global, text: &[u8], end: &'static [u8]) -> Result<Vec<u8>, AllocError> {
    FontFile {
        end,
        ..FontFile::of(CLEAR, text)
    }
    .pfb(alloc)
}

fn with_cut_text(alloc: Global, end: &'static [u8]) -> Result<Vec<u8>, AllocError> {
    let text = Sample::new(alloc)?.private()?;
    let front = text.as_slice().strip_suffix(b"end\n").unwrap_or(b"");
    with_private(alloc, front, end)
}

fn calling(alloc: Global, subr: &[u8], glyph: &[u8]) -> Result<Vec<u8>, AllocError> {
    Sample::new(alloc)?.subr(5, subr)?.glyph(b"A", glyph)?.pfb()
}

/// A sound font, with its charstrings in that form, in such a file.
fn worked_file(alloc: Global, charstrings: Charstrings, made: Made) -> Result<Vec<u8>, AllocError> {
    let sample = Sample::with_charstrings(alloc, charstrings)?;
    let clear = sample.clear()?;
    let private = sample.private()?;
    written(
        alloc,
        FontFile::of(clear.as_slice(), private.as_slice()),
        made,
    )
}

fn written(alloc: Global, file: FontFile<'_>, made: Made) -> Result<Vec<u8>, AllocError> {
    let trailed = FontFile {
        trailer: TRAILER,
        ..file
    };
    match made {
        Made::Ended(end) => FontFile { end, ..trailed }.pfb(alloc),
        Made::Hexadecimal => trailed.pfa_hexadecimal(alloc),
        Made::DigitInFront => FontFile {
            discarded: [0x98, 0xff, 0, 0],
            ..file
        }
        .pfb(alloc),
        _ => file.pfa(alloc),
    }
}
