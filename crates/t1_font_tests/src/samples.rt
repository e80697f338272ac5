//! The samples against the same bytes as another program writes them, and against t1_seal's readers. Sources: Type
//! 1 Font Format 1.1, chapters 2, 5 and 7, and Technical Note 5040.

use std::alloc::{AllocError, Global};
use std::process::Abort;
use std::test::Fail;
use t1_samples::{CLEAR, Charstrings, END_SEGMENT, FontFile, Sample, TRAILER, charstring, eexec};
use t1_seal::{join, open_eexec};

/// What was written is these bytes.
fn assert_written(
    rt: &impl Abort,
    written: Result<Vec<u8>, AllocError>,
    bytes: &[u8],
) -> Result<(), Fail> {
    let written = written?;
    assert_eq!(rt; written.as_slice(), bytes);
    Ok(())
}

#[test]
fn zeros_are_encrypted(rt: HostRuntime) -> Result<(), Fail> {
    assert_written(&rt, eexec(rt.alloc(), [0; 4], b""), b"\xd9\xd6\x6f\x63")?;
    assert_written(&rt, charstring(rt.alloc(), 4, b""), b"\x10\xbf\x31\x70")
}

/// A private text and its section are of the same length but for the four bytes that are discarded.
#[test]
fn sections_open(rt: HostRuntime) -> Result<(), Fail> {
    let section = eexec(rt.alloc(), [0x98, 0xff, 0, 0], TRAILER)?;
    assert!(rt; section.starts_with(b"\x41\xba"));
    let text = open_eexec(rt.alloc(), section.as_slice())?;
    assert_eq!(rt; text.as_slice(), TRAILER);
    Ok(())
}

/// The private text of a sample with a key, a Subr and a glyph.
fn text_of_all(alloc: Global) -> Result<Vec<u8>, AllocError> {
    Sample::new(alloc)?
        .key(b"/BlueValues [0 25] def")?
        .subr(5, b"\x0b")?
        .glyph(b"A", b"\x0e")?
        .private()
}

#[test]
fn texts_are_written(rt: HostRuntime) -> Result<(), Fail> {
    assert_written(
        &rt,
        text_of_all(rt.alloc()),
        b"dup /Private 8 dict dup begin\n/password 5839 def\n/MinFeature {16 16} def\n/lenIV -1 def\n/BlueValues [0 25] def\n/Subrs 6 array\ndup 5 1 RD \x0b NP\nND\n2 index /CharStrings 4 dict dup begin\n/.notdef 5 RD \x8b\xf8\x88\x0d\x0e ND\n/A 1 RD \x0e ND\nend\n",
    )
}

/// The ways in which charstrings are encrypted, and the private text of a sample without Subrs.
const ENCRYPTED: &[(Charstrings, &[u8])] = &[
    (
        Charstrings::Encrypted(4),
        b"dup /Private 8 dict dup begin\n/password 5839 def\n/MinFeature {16 16} def\n/lenIV 4 def\n/Subrs [] def\n2 index /CharStrings 4 dict dup begin\n/.notdef 9 RD \x10\xbf\x31\x70\x79\xc8\x2f\x06\x80 ND\nend\n",
    ),
    (
        Charstrings::WithoutLenIv,
        b"dup /Private 8 dict dup begin\n/password 5839 def\n/MinFeature {16 16} def\n/Subrs [] def\n2 index /CharStrings 4 dict dup begin\n/.notdef 9 RD \x10\xbf\x31\x70\x79\xc8\x2f\x06\x80 ND\nend\n",
    ),
];

/// The private text of a sample without Subrs.
fn without_subrs(alloc: Global, charstrings: Charstrings) -> Result<Vec<u8>, AllocError> {
    Sample::with_charstrings(alloc, charstrings)?
        .subrs(b"/Subrs [] def\n")?
        .private()
}

#[test]
fn charstrings_are_encrypted(rt: HostRuntime) -> Result<(), Fail> {
    for (charstrings, written) in ENCRYPTED {
        assert_written(&rt, without_subrs(rt.alloc(), *charstrings), written)?;
    }
    Ok(())
}

const SHORT: &[u8] = b"%!\neexec\n";

/// A file without a trailer, and one with a trailer and no end segment.
const FILES: &[(&[u8], &[u8], &[u8])] = &[
    (
        b"",
        END_SEGMENT,
        b"\x80\x01\x09\x00\x00\x00%!\neexec\n\x80\x02\x08\x00\x00\x00\xd9\xd6\x6f\x63\x3a\x4c\x3c\x96\x80\x03",
    ),
    (
        b"cleartomark\n",
        b"",
        b"\x80\x01\x09\x00\x00\x00%!\neexec\n\x80\x02\x08\x00\x00\x00\xd9\xd6\x6f\x63\x3a\x4c\x3c\x96\x80\x01\x0c\x00\x00\x00cleartomark\n",
    ),
];

#[test]
fn files_are_written(rt: HostRuntime) -> Result<(), Fail> {
    for (trailer, end, bytes) in FILES {
        let file = FontFile {
            trailer: *trailer,
            end: *end,
            ..FontFile::of(SHORT, b"end\n")
        };
        assert_written(&rt, file.pfb(rt.alloc()), bytes)?;
    }
    Ok(())
}

#[test]
fn hexadecimal_files_are_written(rt: HostRuntime) -> Result<(), Fail> {
    let file = FontFile {
        trailer: b"cleartomark\n",
        ..FontFile::of(SHORT, b"end\n0123456789")
    };
    assert_written(
        &rt,
        file.pfa(rt.alloc()),
        b"%!\neexec\n\xd9\xd6\x6f\x63\x3a\x4c\x3c\x96\xa2\x8c\x7d\xd1\x53\x43\xe5\x48\xc2\x54cleartomark\n",
    )?;
    assert_written(
        &rt,
        file.pfa_hexadecimal(rt.alloc()),
        b"%!\neexec\nd9d66\rf633a4\r\nc3c96a\n28c7dd\t 15343e 548c25\r4\ncleartomark\n",
    )
}

/// The private text in a PFB file with an end segment and nothing after it, whose clear text is `CLEAR`.
fn private_in(alloc: Global, file: &[u8]) -> Result<Vec<u8>, Fail> {
    let joined = join(alloc, file)?;
    if !joined.pfb || !joined.end_segment || joined.trailing {
        return Err(Fail::from("another file"));
    }
    let section = joined.bytes.strip_prefix(CLEAR).ok_or("the clear text")?;
    Ok(open_eexec(alloc, section)?)
}

/// The sample's file is joined to its clear text and a section that opens to its private text.
#[test]
fn the_sample_is_a_font_file(rt: HostRuntime) -> Result<(), Fail> {
    let sample = Sample::new(rt.alloc())?;
    let text = private_in(rt.alloc(), sample.pfb()?.as_slice())?;
    assert_eq!(rt; text.as_slice(), sample.private()?.as_slice());
    Ok(())
}
