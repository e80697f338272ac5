//! The Encoding: Type 1 Font Format 1.1, chapter 2.

use super::clear_texts::assert_clear_refusals;
use super::{CLEAR_LINES, Fact, Part, assert_facts};
use std::test::Fail;
use t1_font::{Encoding, Unread};

/// The lines of a clear text, and the form of its Encoding.
const FORMS: &[(&str, Fact)] = &[
    ("/FontType 1 def", Fact::Form(Encoding::Absent)),
    (
        "/Encoding StandardEncoding def",
        Fact::Form(Encoding::Standard),
    ),
    ("/Encoding 256 array def", Fact::Form(Encoding::Custom)),
    ("/Encoding 256. array def", Fact::Form(Encoding::Custom)),
    ("/Encoding +256 array def", Fact::Form(Encoding::Custom)),
    ("/Encoding 16#100 array def", Fact::Form(Encoding::Custom)),
    (
        "/Encoding 256.0000000001 array def",
        Fact::Form(Encoding::Custom),
    ),
    ("/Encoding 255 array def", Fact::Form(Encoding::Other)),
    ("/Encoding 256 x", Fact::Form(Encoding::Other)),
    ("/Encoding [/A /B] def", Fact::Form(Encoding::Other)),
    (
        "/Encoding ISOLatin1Encoding def",
        Fact::Form(Encoding::Other),
    ),
    ("/Encoding", Fact::Form(Encoding::Other)),
    ("/Encoding /FontType 2", Fact::Form(Encoding::Other)),
    (
        "/UniqueID /Encoding StandardEncoding",
        Fact::Form(Encoding::Absent),
    ),
    (
        "/Encoding 256 /Encoding StandardEncoding",
        Fact::Form(Encoding::Standard),
    ),
    (
        "/Encoding 256 array def /Encoding StandardEncoding",
        Fact::Form(Encoding::Standard),
    ),
    (
        "/Encoding StandardEncoding /Encoding 7",
        Fact::Form(Encoding::Other),
    ),
    (
        "/Encoding 256 array /Encoding StandardEncoding def",
        Fact::Form(Encoding::Custom),
    ),
];

/// A count of 256 is one by its value, however it is spelled.
#[test]
fn the_form_is_read(rt: HostRuntime) -> Result<(), Fail> {
    assert_facts(&rt, rt.alloc(), CLEAR_LINES, FORMS)
}

/// What is after `/Encoding`.
const ENCODING: Part = Part::Clear("%!\n/Encoding ", " eexec\n");

/// What is after `/Encoding`, and what a code has.
const CODES: &[(&str, Fact)] = &[
    (
        "256 array dup 65 /A put dup 300 /B put def",
        Fact::Code(65, Some(b"A")),
    ),
    (
        "256 array dup 65 /A put dup 300 /B put def",
        Fact::Code(66, None),
    ),
    (
        "256 array dup 65 /A put dup 300 /B put def",
        Fact::Code(300, None),
    ),
    (
        "256 array dup 0 /A put dup 255 /B put def",
        Fact::Code(0, Some(b"A")),
    ),
    (
        "256 array dup 0 /A put dup 255 /B put def",
        Fact::Code(255, Some(b"B")),
    ),
    ("256 array dup 256 /A put def", Fact::Code(256, None)),
    ("256 array dup 65.0 /A put def", Fact::Code(65, Some(b"A"))),
    (
        "256 array dup 65 /A put dup 65 /C put def",
        Fact::Code(65, Some(b"C")),
    ),
    (
        "256 array dup dup 65 /A put def",
        Fact::Code(65, Some(b"A")),
    ),
    ("256 array dup 65 dup 66 /B put def", Fact::Code(65, None)),
    (
        "256 array dup 65 dup 66 /B put def",
        Fact::Code(66, Some(b"B")),
    ),
    ("256 array dup 65 /A readonly put def", Fact::Code(65, None)),
    ("256 array 65 /A put def", Fact::Code(65, None)),
    ("256 array dup 65 / put def", Fact::Code(65, Some(b""))),
    // Here `eexec` is after the name.
    ("256 array dup 65 /A", Fact::Code(65, None)),
    ("256 array dup 65 /A put", Fact::Code(65, Some(b"A"))),
    ("256 array def dup 65 /A put def", Fact::Code(65, None)),
    (
        "256 array dup 65 /A put def /Encoding 256 array def",
        Fact::Code(65, None),
    ),
    (
        "256 array dup 65 /A put def /Encoding StandardEncoding",
        Fact::Code(65, None),
    ),
    ("256 array dup 65 /A put def", Fact::Code(u32::MAX, None)),
];

/// `dup`, a code, a name and `put` in a row set a code; the later name counts.
#[test]
fn codes_are_read(rt: HostRuntime) -> Result<(), Fail> {
    assert_facts(&rt, rt.alloc(), ENCODING, CODES)
}

/// The lines of a clear text, and whether its Encoding has a bad code.
const BAD_CODES: &[(&str, Fact)] = &[
    (
        "/Encoding 256 array dup 65 /A put def",
        Fact::BadCode(false),
    ),
    (
        "/Encoding 256 array dup 65 /A put dup 300 /B put def",
        Fact::BadCode(true),
    ),
    (
        "/Encoding 256 array dup 256 /A put def",
        Fact::BadCode(true),
    ),
    ("/Encoding 256 array dup -1 /A put def", Fact::BadCode(true)),
    (
        "/Encoding 256 array dup 65.5 /A put def",
        Fact::BadCode(true),
    ),
    (
        "/Encoding 256 array dup 300 /B readonly put def",
        Fact::BadCode(false),
    ),
    (
        "/Encoding 256 array dup 300 /B put def /Encoding 256 array def",
        Fact::BadCode(false),
    ),
    (
        "/Encoding 256 array dup 300 /B put def /Encoding StandardEncoding",
        Fact::BadCode(false),
    ),
];

/// A code that isn't whole from 0 to 255 is reported of the last Encoding alone.
#[test]
fn bad_codes_are_reported(rt: HostRuntime) -> Result<(), Fail> {
    assert_facts(&rt, rt.alloc(), CLEAR_LINES, BAD_CODES)
}

/// Clear texts with an Encoding, and why each is refused, if it is.
const TEXTS: &[(&str, Option<Unread>)] = &[
    ("%!\n/Encoding (", Some(Unread::Unclosed)),
    ("%!\n/Encoding 256 (", Some(Unread::Unclosed)),
    (
        "%!\n/Encoding 256 array dup 65 /A (",
        Some(Unread::Unclosed),
    ),
    ("%!\n/Encoding 256 array dup 65 /A eexec(", None),
    ("%!\n/Encoding 256 array dup 65 eexec(", None),
    ("%!\n/Encoding 256 array dup eexec(", None),
    ("%!\n/Encoding eexec(", None),
    ("%!\n/Encoding 256 eexec(", None),
    ("%!\n/Encoding 256 array /WeightVector eexec", None),
    (
        "%!\n/Encoding /WeightVector eexec",
        Some(Unread::MultipleMaster),
    ),
    ("%!\n/Encoding 256 array def", Some(Unread::NoEexec)),
    ("%!\n/Encoding 256 array dup 65", Some(Unread::NoEexec)),
];

/// What is looked at after `dup` is read when its turn comes; nothing after `eexec` is looked at.
#[test]
fn encodings_are_refused_or_not(rt: HostRuntime) -> Result<(), Fail> {
    assert_clear_refusals(&rt, rt.alloc(), TEXTS)
}
