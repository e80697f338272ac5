//! Worked inputs, with results from the format's definition and from another program's cipher: Type 1 Font Format
//! 1.1, chapter 7, and Technical Note 5040.

use std::alloc::{AllocError, Global};
use std::test::Fail;
use t1_seal::{Cipher, Joined, SealError, join, open_eexec};

/// Bytes that `join` takes, and what it returns for them.
struct Row {
    input: &'static [u8],
    bytes: &'static [u8],
    pfb: bool,
    end_segment: bool,
    trailing: bool,
}

/// Rows of segments, and last a PFA file.
const JOINED: &[Row] = &[
    Row {
        input: b"\x80\x01\x03\x00\x00\x00\x25\x21\x0a",
        bytes: b"\x25\x21\x0a",
        pfb: true,
        end_segment: false,
        trailing: false,
    },
    Row {
        input: b"\x80\x01\x03\x00\x00\x00\x25\x21\x0a\x80\x03",
        bytes: b"\x25\x21\x0a",
        pfb: true,
        end_segment: true,
        trailing: false,
    },
    Row {
        input: b"\x80\x01\x02\x00\x00\x00\x25\x21\x80\x02\x00\x00\x00\x00\x80\x02\x01\x00\x00\x00\xff\x80\x03",
        bytes: b"\x25\x21\xff",
        pfb: true,
        end_segment: true,
        trailing: false,
    },
    Row {
        input: b"\x80\x03\x00",
        bytes: b"",
        pfb: true,
        end_segment: true,
        trailing: true,
    },
    Row {
        input: b"\x25\x21",
        bytes: b"\x25\x21",
        pfb: false,
        end_segment: false,
        trailing: false,
    },
];

/// Whether that is joined of a row's input.
fn is_joined(joined: &Joined, row: &Row) -> bool {
    joined.bytes.as_slice() == row.bytes
        && joined.pfb == row.pfb
        && joined.end_segment == row.end_segment
        && joined.trailing == row.trailing
}

#[test]
fn joins_what_segments_spell(rt: HostRuntime) -> Result<(), Fail> {
    for row in JOINED {
        let joined = join(rt.alloc(), row.input)?;
        assert!(rt; is_joined(&joined, row), "{:?}", row.input);
    }
    Ok(())
}

/// Bytes that are no row of segments, and why.
const BROKEN: &[(&[u8], SealError)] = &[
    (b"", SealError::NotAFont),
    (b"\x25", SealError::NotAFont),
    (b"\x80", SealError::CutShort),
    (b"\x80\x01\x00\x00", SealError::CutShort),
    (
        b"\x80\x01\x05\x00\x00\x00\x25\x21\x0a\x0a",
        SealError::CutShort,
    ),
    (b"\x80\x04", SealError::BadHeader),
    (b"\x80\x01\x00\x00\x00\x00\x41", SealError::BadHeader),
];

/// Why bytes aren't joined or opened, if they aren't. Want of memory is an error.
fn refusal_of<T: Drop>(answer: Result<T, SealError>) -> Result<Option<SealError>, SealError> {
    match answer {
        Ok(_) => Ok(None),
        Err(SealError::Memory) => Err(SealError::Memory),
        Err(error) => Ok(Some(error)),
    }
}

#[test]
fn refuses_what_is_no_row_of_segments(rt: HostRuntime) -> Result<(), Fail> {
    for (input, error) in BROKEN {
        let refusal = refusal_of(join(rt.alloc(), input))?;
        assert_eq!(rt; refusal, Some(*error), "{input:?}");
    }
    Ok(())
}

/// Sections of fewer than four encrypted bytes.
const SHORT: &[&[u8]] = &[b"", b"\x64\x39\x64\x36\x36\x66\x36", b"\x64\x39\x64"];

#[test]
fn refuses_short_sections(rt: HostRuntime) -> Result<(), Fail> {
    for section in SHORT {
        let refusal = refusal_of(open_eexec(rt.alloc(), section))?;
        assert_eq!(rt; refusal, Some(SealError::TooShort), "{section:?}");
    }
    Ok(())
}

const PRIVATE: &[u8] = b"dup /Private 8 dict dup begin\n/password 5839 def\n";

/// `PRIVATE` after four zero bytes, enciphered by another program.
const BINARY: &[u8] =
    b"\xd9\xd6\x6f\x63\x3b\x84\x6a\x98\x9b\x99\x74\xb0\x17\x9f\xc6\xcc\x44\x52\x95\x4d\x3a\x4f\xc2\x72\x59\x69\x99\xba\x87\x6c\xc6\x96\x18\x5c\xba\x93\x7e\x39\x13\x82\x90\x6a\x1e\x4a\x79\x96\xba\x19\x92\xda\x5d\x33\x77";

/// The same in hexadecimal, with all six blanks among the digits and another byte after them.
const HEXADECIMAL: &[u8] = b"\r\nd9D66 f63\t3b846a989b9974b0\r\n179fc6cc4452954d3a4fc2\0\
72596999ba876cc69618\x0c5cba937e391382906a1e4a7996BA1992DA5D3377.41";

/// Sections, and the private text of each.
const SECTIONS: &[(&[u8], &[u8])] = &[
    (b"\x0d\x0a\xd9\xd6\x6f\x63", b""),
    (b"\x20\x64\x39\x0a\x64", b""),
    (b"\x20\x64\x39\x64\x36\x0a\x36\x66\x36\x33\x37", b""),
    (b"\x41\xba\x2d\x3c", b""),
    (BINARY, PRIVATE),
    (HEXADECIMAL, PRIVATE),
];

#[test]
fn opens_sections(rt: HostRuntime) -> Result<(), Fail> {
    for (section, text) in SECTIONS {
        let opened = open_eexec(rt.alloc(), section)?;
        assert_eq!(rt; opened.as_slice(), *text, "{section:?}");
    }
    Ok(())
}

/// A private text as a section, by the standard's enciphering of four zero bytes and the text.
fn enciphered(alloc: Global, plain: &[u8]) -> Result<Vec<u8>, AllocError> {
    let mut state: u32 = 55665;
    let mut cipher = Vec::with_capacity(alloc, plain.len() + 4)?;
    for byte in [0u8; 4].iter().chain(plain) {
        let sealed = byte ^ (state % 65536 / 256) as u8;
        state = ((u32::from(sealed) + state % 65536) * 52845 + 22719) % 65536;
        cipher.push(sealed)?;
    }
    Ok(cipher)
}

/// Seventy thousand bytes.
fn long_text(alloc: Global) -> Result<Vec<u8>, AllocError> {
    let mut plain = Vec::with_capacity(alloc, 70_000)?;
    for i in 0..70_000u32 {
        plain.push((i * 7 % 251) as u8)?;
    }
    Ok(plain)
}

/// Whether a private text that is enciphered opens to itself.
fn opens_to_itself(alloc: Global, plain: &[u8]) -> Result<bool, SealError> {
    let section = enciphered(alloc, plain)?;
    let opened = open_eexec(alloc, section.as_slice())?;
    Ok(opened.as_slice() == plain)
}

#[test]
fn opens_what_was_enciphered(rt: HostRuntime) -> Result<(), Fail> {
    let plain = long_text(rt.alloc())?;
    assert!(rt; opens_to_itself(rt.alloc(), plain.as_slice())?);
    Ok(())
}

#[test]
fn charstrings_begin_with_zeros(rt: HostRuntime) {
    let mut cipher = Cipher::charstring();
    for byte in [0x10, 0xbf, 0x31, 0x70] {
        assert_eq!(rt; cipher.next(byte), 0);
    }
}

/// Each refusal, and its text.
const TEXTS: &[(SealError, &str)] = &[
    (SealError::NotAFont, "not a PFA or PFB"),
    (SealError::BadHeader, "bad segment header"),
    (SealError::CutShort, "segment cut short"),
    (SealError::TooShort, "encrypted part too short"),
    (SealError::Memory, "out of memory"),
];

#[test]
fn refusals_have_their_texts(rt: HostRuntime) -> Result<(), Fail> {
    for (error, text) in TEXTS {
        assert_eq!(rt; format!(in rt.alloc(); "{error}")?.as_str(), *text);
    }
    Ok(())
}
