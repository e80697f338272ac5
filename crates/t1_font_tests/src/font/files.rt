//! Whole files: the worked font as PFB and PFA, with its section in both forms. Technical Note 5040, and Type 1 Font
//! Format 1.1, chapter 7.

use super::{Fact, assert_all, unread};
use std::alloc::{AllocError, Global};
use std::process::Abort;
use std::test::Fail;
use t1_font::{OpenFont, Unread};
use t1_samples::{Charstrings, END_SEGMENT, FontFile, Sample, TRAILER};

#[derive(Clone, Copy)]
enum Kind {
    Pfb,
    PfbWithoutEnd,
    PfbAndMore,
    /// A PFB file whose section begins with a hexadecimal digit and is binary.
    DigitInFront,
    PfaBinary,
    PfaHexadecimal,
}

/// What a PFB file of such a kind has after its last segment.
fn end_of(kind: Kind) -> &'static [u8] {
    match kind {
        Kind::PfbWithoutEnd => b"",
        Kind::PfbAndMore => b"\x80\x03\x00",
        _ => END_SEGMENT,
    }
}

/// The four plain bytes before the private text.
fn discarded_of(kind: Kind) -> [u8; 4] {
    match kind {
        Kind::DigitInFront => [0x98, 0xff, 0, 0],
        _ => [0; 4],
    }
}

/// A file of such a kind, of these texts and with a trailer after the section.
fn file_of(alloc: Global, clear: &[u8], private: &[u8], kind: Kind) -> Result<Vec<u8>, AllocError> {
    let file = FontFile {
        clear,
        private,
        discarded: discarded_of(kind),
        trailer: TRAILER,
        end: end_of(kind),
    };
    match kind {
        Kind::PfaBinary => file.pfa(alloc),
        Kind::PfaHexadecimal => file.pfa_hexadecimal(alloc),
        _ => file.pfb(alloc),
    }
}

/// The worked font in such a file, with charstrings encrypted after four zero bytes.
fn worked_file(alloc: Global, kind: Kind) -> Result<Vec<u8>, AllocError> {
    let sample = Sample::with_charstrings(alloc, Charstrings::Encrypted(4))?;
    let clear = sample.clear()?;
    let private = sample.private()?;
    file_of(alloc, clear.as_slice(), private.as_slice(), kind)
}

/// The worked font in such a file has these facts.
fn assert_worked(rt: &impl Abort, alloc: Global, kind: Kind, facts: &[Fact]) -> Result<(), Fail> {
    let bytes = worked_file(alloc, kind)?;
    let mut file = OpenFont::open(alloc, bytes.as_slice())?;
    assert_all(rt, alloc, &mut file, facts)
}

/// What the worked font has. The charstring of `.notdef` is a slice of the private text, still encrypted.
const WORKED: &[Fact] = &[
    Fact::Glyphs(1),
    Fact::Glyph(b".notdef", Some(b"\x10\xbf\x31\x70\x79\xc8\x2f\x06\x80")),
    Fact::SubrSize(6),
    Fact::LenIv(4),
];

/// Every kind of file.
const KINDS: [Kind; 6] = [
    Kind::Pfb,
    Kind::PfbWithoutEnd,
    Kind::PfbAndMore,
    Kind::DigitInFront,
    Kind::PfaBinary,
    Kind::PfaHexadecimal,
];

#[test]
fn files_are_read(rt: HostRuntime) -> Result<(), Fail> {
    for kind in KINDS {
        assert_worked(&rt, rt.alloc(), kind, WORKED)?;
    }
    Ok(())
}

/// The kind of a file, whether it lacks its end, and whether more is after that.
const MARKS: &[(Kind, bool, bool)] = &[
    (Kind::Pfb, false, false),
    (Kind::PfbWithoutEnd, true, false),
    (Kind::PfbAndMore, false, true),
    (Kind::PfaBinary, false, false),
];

#[test]
fn marks_of_files_are_kept(rt: HostRuntime) -> Result<(), Fail> {
    for (kind, no_end, extra) in MARKS {
        let facts = [
            Fact::NoEnd(*no_end),
            Fact::Extra(*extra),
            Fact::BadCode(false),
        ];
        assert_worked(&rt, rt.alloc(), *kind, &facts)?;
    }
    Ok(())
}

/// Files that aren't read, and why. The row of segments is read whole before the first token: a broken one is
/// reported first.
const BROKEN: &[(&[u8], Unread)] = &[
    (b"", Unread::NotAFont),
    (b"%!", Unread::NoEexec),
    (b"%!\neexec\nabc", Unread::TooShort),
    (b"%!\neexec\nghijklmn", Unread::BadCharStrings),
    (b"\x80\x01\x02\x00\x00\x00ab\x80\x01\x09", Unread::CutShort),
    (b"\x80\x01\x02\x00\x00\x00ab\x80\x03", Unread::NoEexec),
];

/// Why a file isn't read, if it isn't.
fn unread_file(alloc: Global, bytes: &[u8]) -> Result<Option<Unread>, Unread> {
    match OpenFont::open(alloc, bytes) {
        Ok(mut file) => unread(alloc, &mut file),
        Err(Unread::Memory) => Err(Unread::Memory),
        Err(unread) => Ok(Some(unread)),
    }
}

#[test]
fn broken_files_are_refused(rt: HostRuntime) -> Result<(), Fail> {
    for (bytes, unread) in BROKEN {
        assert_eq!(rt; unread_file(rt.alloc(), bytes)?, Some(*unread), "{bytes:?}");
    }
    Ok(())
}
