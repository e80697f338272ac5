//! Files that are refused, each with its line alone, and files in each form that is read.

use crate::files::{Made, file_of};
use crate::shared::{is_clean, is_refused};
use std::alloc::{AllocError, Global};
use std::process::Abort;
use std::test::Fail;
use t1_samples::END_SEGMENT;

/// Whether the program refuses a file that is made so with this line alone.
fn is_refused_so(alloc: Global, made: Made, line: &str) -> Result<bool, AllocError> {
    let file = file_of(alloc, made)?;
    Ok(is_refused(alloc, file.as_slice(), line))
}

/// The program refuses each file with the line beside it alone.
fn assert_refusals(rt: &impl Abort, alloc: Global, rows: &[(Made, &str)]) -> Result<(), Fail> {
    for (made, line) in rows {
        assert!(rt; is_refused_so(alloc, *made, line)?, "{line}");
    }
    Ok(())
}

/// Broken rows of segments.
const SEGMENTS: &[(Made, &str)] = &[
    (Made::Bytes(&[0x25, 0x21]), "refused: E04 no eexec\n"),
    (
        Made::Bytes(&[0x80, 1, 3, 0, 0, 0, 0x25, 0x21, 0x0a]),
        "refused: E04 no eexec\n",
    ),
    (
        Made::Bytes(&[0x80, 1, 3, 0, 0, 0, 0x25, 0x21, 0x0a, 0x80, 3]),
        "refused: E04 no eexec\n",
    ),
    (Made::Bytes(&[0x80, 3, 0]), "refused: E04 no eexec\n"),
    (
        Made::Bytes(&[0x80, 1, 0, 0, 0, 0, 0x80, 2, 1, 0, 0, 0, 0x41]),
        "refused: E04 no eexec\n",
    ),
    (Made::Bytes(&[]), "refused: E01 not a PFA or PFB\n"),
    (Made::Bytes(&[0x25]), "refused: E01 not a PFA or PFB\n"),
    (
        Made::Bytes(&[0x25, 0x20]),
        "refused: E01 not a PFA or PFB\n",
    ),
    (Made::Bytes(&[0x80]), "refused: E03 segment cut short\n"),
    (
        Made::Bytes(&[0x80, 1, 0, 0]),
        "refused: E03 segment cut short\n",
    ),
    (
        Made::Bytes(&[0x80, 1, 5, 0, 0, 0, 0x25, 0x21, 0x0a, 0x0a]),
        "refused: E03 segment cut short\n",
    ),
    (Made::Bytes(&[0x80, 4]), "refused: E02 bad segment header\n"),
    (
        Made::Bytes(&[0x80, 0, 1, 0, 0, 0, 0x25]),
        "refused: E02 bad segment header\n",
    ),
    (
        Made::Bytes(&[0x80, 1, 0, 0, 0, 0, 0x41]),
        "refused: E02 bad segment header\n",
    ),
    (
        Made::Bytes(&[0x80, 1, 0, 1, 0, 0, 0x41]),
        "refused: E03 segment cut short\n",
    ),
];

#[test]
fn refuses_broken_segments(rt: HostRuntime) -> Result<(), Fail> {
    assert_refusals(&rt, rt.alloc(), SEGMENTS)
}

/// Great files: the greatest is read, and one byte more is refused before anything else.
const GREAT: &[(Made, &str)] = &[
    (Made::Zeros(b"%!"), "refused: E04 no eexec\n"),
    (Made::Zeros(b"%!\n"), "refused: E05 file too large\n"),
    (Made::Zeros(b"\0\0"), "refused: E01 not a PFA or PFB\n"),
    (Made::Zeros(b"\0\0\0"), "refused: E05 file too large\n"),
    (Made::Zeros(b"\x80\x03\0"), "refused: E05 file too large\n"),
];

#[test]
fn reads_sixteen_megabytes(rt: HostRuntime) -> Result<(), Fail> {
    assert_refusals(&rt, rt.alloc(), GREAT)
}

/// Clear texts, private texts, and lines added to a sound font. Nothing is written of a font without an end segment where
/// its private text is refused or cut.
const TEXTS: &[(Made, &str)] = &[
    (
        Made::Bytes(b"%!\n/FontType 1 def\n"),
        "refused: E04 no eexec\n",
    ),
    (
        Made::Bytes(b"%!\n/FontType /WeightVector eexec"),
        "refused: E06 encrypted part too short\n",
    ),
    (
        Made::Bytes(b"%!\neexec\n\0\0\0"),
        "refused: E06 encrypted part too short\n",
    ),
    (
        Made::Bytes(b"%!\n("),
        "refused: E07 unclosed or too deeply nested token\n",
    ),
    (
        Made::Bytes(b"%!\n/WeightVector [1 0] def eexec"),
        "refused: E13 multiple master font\n",
    ),
    (
        Made::Private(b"(", END_SEGMENT),
        "refused: E07 unclosed or too deeply nested token\n",
    ),
    (
        Made::Private(b"/Subrs x array", END_SEGMENT),
        "refused: E08 Subrs malformed\n",
    ),
    (
        Made::Private(b"/Subrs [<0B>]", END_SEGMENT),
        "refused: E08 Subrs malformed\n",
    ),
    (
        Made::Private(b"/CharStrings -1", END_SEGMENT),
        "refused: E09 CharStrings malformed or absent\n",
    ),
    (
        Made::Private(b"", END_SEGMENT),
        "refused: E09 CharStrings malformed or absent\n",
    ),
    (
        Made::Private(b"/lenIV", END_SEGMENT),
        "refused: E10 lenIV out of range\n",
    ),
    (
        Made::Private(b"/Subrs 65536 array", END_SEGMENT),
        "refused: E11 count past its limit\n",
    ),
    (
        Made::Private(b"/Subrs 9 array dup 65535 0 RD  NP", END_SEGMENT),
        "refused: E11 count past its limit\n",
    ),
    (
        Made::Key(b"/lenIV 65 def"),
        "refused: E10 lenIV out of range\n",
    ),
    (Made::Key(b"/Subrs 0 array"), "refused: E12 second Subrs\n"),
    (
        Made::Key(b"/CharStrings 1 dict dup begin 1"),
        "refused: E09 CharStrings malformed or absent\n",
    ),
    (
        Made::Private(b"/CharStrings x", b""),
        "refused: E09 CharStrings malformed or absent\n",
    ),
    (
        Made::Private(b"/lenIV 65", b""),
        "refused: E10 lenIV out of range\n",
    ),
    (
        Made::Private(b"/Subrs [] /Subrs 0 array", b""),
        "refused: E12 second Subrs\n",
    ),
    (
        Made::Cut(b""),
        "refused: E09 CharStrings malformed or absent\n",
    ),
];

#[test]
fn refuses_texts(rt: HostRuntime) -> Result<(), Fail> {
    assert_refusals(&rt, rt.alloc(), TEXTS)
}

/// Sound files. An empty array of Subrs counts as none.
const SOUND: &[Made] = &[
    Made::Ended(b"\x80\x03"),
    Made::Hexadecimal,
    Made::Binary,
    Made::DigitInFront,
    Made::Subrs(b"/Subrs [] def\n"),
];

#[test]
fn sound_files_are_clean(rt: HostRuntime) -> Result<(), Fail> {
    for (row, made) in SOUND.iter().enumerate() {
        let file = file_of(rt.alloc(), *made)?;
        assert!(rt; is_clean(rt.alloc(), file.as_slice()), "row {row}");
    }
    Ok(())
}
