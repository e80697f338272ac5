//! Reasons of the rules on a font's texts, which the fourth edition adds, and their texts: Type 1 Font Format 1.1, chapter 2.
//!
//! Places of tokens count from 0; a comment is none, a procedure or an array is one.

use std::alloc::Global;
use std::process::Abort;
use std::test::Fail;
use t1_char::Edition;
use t1_font::{Encoding, Font, OpenFont};
use t1_reason_texts::short_text;
use t1_reasons::{FontText, Found, Reason, font_reason};
use t1_rules::Rule;
use t1_samples::{FontFile, font_of};

/// The numbers of keys in a report.
const FILE: u8 = 0;

const FONT_TYPE: u8 = 1;

const ENCODING: u8 = 4;

const FONT_MATRIX: u8 = 22;

const FONT_BBOX: u8 = 23;

/// The first line.
const FIRST: &str = "%!PS-AdobeFont-1.0: T\n";

/// What ends the clear text.
const CLEAR: &str = "/PaintType 0 def\n/Encoding StandardEncoding def\neexec\n";

/// A private text without a fault, of 31 tokens. The word before the one charstring is the 30th.
const PRIVATE: &str = "dup /Private 8 dict dup begin\n\
/RD {string currentfile exch readstring pop} executeonly def\n/ND {noaccess def} executeonly def\n\
/password 5839 def\n/MinFeature {16 16} def\n2 index /CharStrings 1 dict dup begin\n/.notdef 0 RD  ND\nend\n";

/// The first line and further lines of the clear text, the private text, the rule, the key that is asked for at its index 0, the reason and its text.
type Row = (
    &'static str,
    &'static str,
    &'static str,
    Rule,
    u8,
    Option<Reason>,
    &'static str,
);

const BYTES: &[Row] = &[
    (
        FIRST,
        "% Ren\u{e9}\n",
        PRIVATE,
        Rule::F22,
        FILE,
        Some(Reason::HighByte { line: 2, byte: 195 }),
        "byte 195 in line 2",
    ),
    // A carriage return ends a line, with a line feed behind it or without.
    (
        "%!PS-AdobeFont-1.0: T\r\n\r\r\n\n\r",
        "% \u{7f}\u{e9}\n",
        PRIVATE,
        Rule::F22,
        FILE,
        Some(Reason::HighByte { line: 6, byte: 127 }),
        "byte 127 in line 6",
    ),
    (FIRST, "% ~\n", PRIVATE, Rule::F22, FILE, None, ""),
    (FIRST, "% \u{7f}\n", PRIVATE, Rule::F22, FONT_TYPE, None, ""),
    (
        "%!PS-8dobeFont-1.0: T\n",
        "",
        PRIVATE,
        Rule::F29,
        FILE,
        Some(Reason::FirstLine),
        "the file begins with %!PS-8dobeFont-1.0\\x3A T",
    ),
    (
        "%!\r% T\n",
        "",
        PRIVATE,
        Rule::F29,
        FILE,
        Some(Reason::FirstLine),
        "the file begins with %!",
    ),
    // 40 bytes, and 41.
    (
        "%!345678901234567890123456789012345678 0\n",
        "",
        PRIVATE,
        Rule::F29,
        FILE,
        Some(Reason::FirstLine),
        "the file begins with %!345678901234567890123456789012345678 0",
    ),
    (
        "%!345678901234567890123456789012345678 01\n",
        "",
        PRIVATE,
        Rule::F29,
        FILE,
        Some(Reason::FirstLine),
        "the file begins with %!345678901234567890123456789012345678 0…",
    ),
    (FIRST, "", PRIVATE, Rule::F29, FILE, None, ""),
];

const ENTRIES: &[Row] = &[
    (
        FIRST,
        "/FontBBox {0 0 0} def\n/FontBBox {0 0 1 1} def\n",
        PRIVATE,
        Rule::F23,
        FONT_BBOX,
        Some(Reason::Entry {
            found: Found::Several { count: 4 },
        }),
        "the last one is taken; it is a list of 4 numbers",
    ),
    (
        FIRST,
        "/FontType 2 def\n/FontType 1 def\n",
        PRIVATE,
        Rule::F23,
        FONT_TYPE,
        Some(Reason::Entry {
            found: Found::One {
                number: 1_000_000_000,
            },
        }),
        "the last one is taken; it is the number 1",
    ),
    (
        FIRST,
        "/FontMatrix [1 0 0 1 0 0] def\n/FontMatrix def\n",
        PRIVATE,
        Rule::F23,
        FONT_MATRIX,
        Some(Reason::Entry {
            found: Found::Other,
        }),
        "the last one is taken; it is neither a number nor a list of numbers",
    ),
    (
        FIRST,
        "/Encoding 256 array def\n",
        PRIVATE,
        Rule::F23,
        ENCODING,
        Some(Reason::Form {
            encoding: Encoding::Standard,
        }),
        "the last one is taken; it is StandardEncoding",
    ),
    (FIRST, "", PRIVATE, Rule::F23, ENCODING, None, ""),
    (
        FIRST,
        "/FontMatrix [0.001 0 0.001 0 0 0] def\n",
        PRIVATE,
        Rule::F27,
        FONT_MATRIX,
        Some(Reason::Determinant {
            v0: 1_000_000,
            v1: 0,
            v2: 1_000_000,
            v3: 0,
        }),
        "the determinant 0.001 times 0 less 0 times 0.001 is 0",
    ),
    (
        FIRST,
        "/FontMatrix [2 -1 -4 2 0 0] def\n",
        PRIVATE,
        Rule::F27,
        FONT_MATRIX,
        Some(Reason::Determinant {
            v0: 2_000_000_000,
            v1: -1_000_000_000,
            v2: -4_000_000_000,
            v3: 2_000_000_000,
        }),
        "the determinant 2 times 2 less -1 times -4 is 0",
    ),
    (
        FIRST,
        "/FontMatrix [2 -1 -4 2.000000001 0 0] def\n",
        PRIVATE,
        Rule::F27,
        FONT_MATRIX,
        None,
        "",
    ),
    (
        FIRST,
        "/FontMatrix [0 0 0 0 0] def\n",
        PRIVATE,
        Rule::F27,
        FONT_MATRIX,
        None,
        "",
    ),
];

const WORDS: &[Row] = &[
    (
        FIRST,
        "Rversion\n",
        PRIVATE,
        Rule::F26,
        FILE,
        Some(Reason::TextWord {
            text: FontText::Clear,
            place: 0,
        }),
        "Rversion in the clear text",
    ),
    // The clear text's is told, and the first of it.
    (
        FIRST,
        "/a a b c\n",
        "dup /Private 8 dict dup begin z /CharStrings 1 dict dup begin /.notdef 0 RD  ND end\n",
        Rule::F26,
        FILE,
        Some(Reason::TextWord {
            text: FontText::Clear,
            place: 2,
        }),
        "b in the clear text",
    ),
    (
        FIRST,
        "",
        "dup /Private 8 dict dup begin z /CharStrings 1 dict dup begin /.notdef 0 RD  ND end\n",
        Rule::F26,
        FILE,
        Some(Reason::TextWord {
            text: FontText::Private,
            place: 6,
        }),
        "z in Private",
    ),
    // Bytes that are escaped; 40 bytes, and 41.
    (
        FIRST,
        "a:\u{e9}\\\n",
        PRIVATE,
        Rule::F26,
        FILE,
        Some(Reason::TextWord {
            text: FontText::Clear,
            place: 0,
        }),
        "a\\x3A\\xC3\\xA9\\x5C in the clear text",
    ),
    (
        FIRST,
        "abcdefghijklmnopqrstuvwxyzABCDEFGHIJKLM:\n",
        PRIVATE,
        Rule::F26,
        FILE,
        Some(Reason::TextWord {
            text: FontText::Clear,
            place: 0,
        }),
        "abcdefghijklmnopqrstuvwxyzABCDEFGHIJKLM\\x3A in the clear text",
    ),
    (
        FIRST,
        "abcdefghijklmnopqrstuvwxyzABCDEFGHIJKLM:O\n",
        PRIVATE,
        Rule::F26,
        FILE,
        Some(Reason::TextWord {
            text: FontText::Clear,
            place: 0,
        }),
        "abcdefghijklmnopqrstuvwxyzABCDEFGHIJKLM\\x3A… in the clear text",
    ),
    (
        FIRST,
        "/Rversion Rversion\n",
        PRIVATE,
        Rule::F26,
        FILE,
        None,
        "",
    ),
    (
        FIRST,
        "20}dict begin\n",
        PRIVATE,
        Rule::F25,
        FILE,
        Some(Reason::TextWord {
            text: FontText::Clear,
            place: 1,
        }),
        "} in the clear text",
    ),
    (
        FIRST,
        "",
        "dup /Private 8 dict dup begin /OtherSubrs [{ [ } {}] def /CharStrings 1 dict dup begin /.notdef 0 RD  ND end\n",
        Rule::F25,
        FILE,
        Some(Reason::TextWord {
            text: FontText::Private,
            place: 7,
        }),
        "[{ [ } {}] in Private",
    ),
    (
        FIRST,
        "",
        "dup /Private 8 dict dup begin /OtherSubrs [\n>{\t}] def /CharStrings 1 dict dup begin /.notdef 0 RD  ND end\n",
        Rule::F25,
        FILE,
        Some(Reason::TextWord {
            text: FontText::Private,
            place: 7,
        }),
        "[\\x0A>{\\x09}] in Private",
    ),
    (
        FIRST,
        "[ { } ] <</a (})>>\n",
        PRIVATE,
        Rule::F25,
        FILE,
        None,
        "",
    ),
    // No `pop`; the word before a Subr's charstring, which is ahead of the glyphs'.
    (
        FIRST,
        "",
        "dup /Private 8 dict dup begin\n/RD {string currentfile exch readstring} executeonly def\n\
/CharStrings 1 dict dup begin\n/.notdef 0 RD  ND\nend\n",
        Rule::F24,
        FILE,
        Some(Reason::ReaderWord { place: 17 }),
        "RD before the charstring of /.notdef",
    ),
    (
        FIRST,
        "",
        "dup /Private 8 dict dup begin\n/Subrs 13 array\ndup 12 0 -|  |\n/CharStrings 1 dict dup begin\n/.notdef 0 RD  ND\nend\n",
        Rule::F24,
        FILE,
        Some(Reason::ReaderWord { place: 12 }),
        "-| before the charstring of Subr 12",
    ),
    (FIRST, "", PRIVATE, Rule::F24, FILE, None, ""),
];

const DICTIONARIES: &[Row] = &[
    (
        FIRST,
        "",
        "dup /Privat 8 dict dup begin /CharStrings 1 dict dup begin /.notdef 0 RD  ND end\n",
        Rule::F28,
        FILE,
        Some(Reason::PrivateUnbegun { named: false }),
        "there is no /Private before the Subrs and CharStrings",
    ),
    (
        FIRST,
        "",
        "dup /Private 0 dict dup begin /CharStrings 1 dict dup begin /.notdef 0 RD  ND end\n",
        Rule::F28,
        FILE,
        Some(Reason::PrivateUnbegun { named: true }),
        "/Private is not followed by a number, dict, dup and begin",
    ),
    // Behind the name of a list it comes too late.
    (
        FIRST,
        "",
        "/Subrs 0 array /Private 8 dict dup begin /CharStrings 1 dict dup begin /.notdef 0 RD  ND end\n",
        Rule::F28,
        FILE,
        Some(Reason::PrivateUnbegun { named: false }),
        "there is no /Private before the Subrs and CharStrings",
    ),
    (FIRST, "", PRIVATE, Rule::F28, FILE, None, ""),
];

/// A font has the reason of a row in the fourth edition alone, and the reason has its text.
fn assert_reason(rt: &impl Abort, font: &Font<'_>, row: &Row) -> Result<(), Fail> {
    let (first, lines, private, rule, key, want, text) = *row;
    let earlier = font_reason(font, rule, key, 0, Edition::Three);
    assert!(rt; earlier.is_none(), "{first} {lines} {private}");
    let found = font_reason(font, rule, key, 0, Edition::Four);
    assert!(rt; found == want, "{first} {lines} {private}");
    if let Some(reason) = found {
        let told = short_text(font, rule, reason)?;
        assert_eq!(rt; told.as_str(), text);
    }
    Ok(())
}

fn assert_row(rt: &impl Abort, alloc: Global, row: &Row) -> Result<(), Fail> {
    let clear = format!(in alloc; "{}{}{CLEAR}", row.0, row.1)?;
    let file = FontFile::of(clear.as_bytes(), row.2.as_bytes()).pfb(alloc)?;
    let mut opened = OpenFont::open(alloc, file.as_slice())?;
    let font = font_of(alloc, &mut opened)?;
    assert_reason(rt, &font, row)
}

#[test]
fn bytes_have_reasons(rt: HostRuntime) -> Result<(), Fail> {
    for row in BYTES {
        assert_row(&rt, rt.alloc(), row)?;
    }
    Ok(())
}

#[test]
fn entries_have_reasons(rt: HostRuntime) -> Result<(), Fail> {
    for row in ENTRIES {
        assert_row(&rt, rt.alloc(), row)?;
    }
    Ok(())
}

#[test]
fn words_have_reasons(rt: HostRuntime) -> Result<(), Fail> {
    for row in WORDS {
        assert_row(&rt, rt.alloc(), row)?;
    }
    Ok(())
}

#[test]
fn dictionaries_have_reasons(rt: HostRuntime) -> Result<(), Fail> {
    for row in DICTIONARIES {
        assert_row(&rt, rt.alloc(), row)?;
    }
    Ok(())
}
