//! The CharStrings of the private text: Type 1 Font Format 1.1, chapters 2 and 6.

use super::{Fact, PRIVATE_TEXT, Part, assert_facts, assert_unread};
use std::test::Fail;
use t1_font::Unread;

/// Private texts with broken CharStrings, and why each is refused.
const BROKEN: &[(&str, Unread)] = &[
    ("/CharStrings -1", Unread::BadCharStrings),
    ("/CharStrings 1.5", Unread::BadCharStrings),
    ("/CharStrings x", Unread::BadCharStrings),
    ("/CharStrings (", Unread::Unclosed),
    ("/CharStrings 65536 x", Unread::PastLimit),
    ("/CharStrings 65535 x", Unread::BadCharStrings),
    ("/CharStrings 1 dict begin", Unread::BadCharStrings),
    ("/CharStrings 1 dict dup end", Unread::BadCharStrings),
    (
        "/CharStrings 1 dict dup begin 5 end",
        Unread::BadCharStrings,
    ),
    (
        "/CharStrings 1 dict dup begin [] end",
        Unread::BadCharStrings,
    ),
    ("/CharStrings 1 dict dup begin (", Unread::Unclosed),
    ("/CharStrings 1 dict dup begin /A x", Unread::BadCharStrings),
    (
        "/CharStrings 1 dict dup begin /A -1 RD",
        Unread::BadCharStrings,
    ),
    (
        "/CharStrings 1 dict dup begin /A 65536 RD",
        Unread::PastLimit,
    ),
    (
        "/CharStrings 1 dict dup begin /A 1 5 x",
        Unread::BadCharStrings,
    ),
    (
        "/CharStrings 1 dict dup begin /A 2 RD x",
        Unread::BadCharStrings,
    ),
    (
        "/CharStrings 1 dict dup begin /A 1 RD x ND",
        Unread::BadCharStrings,
    ),
];

#[test]
fn broken_charstrings_are_refused(rt: HostRuntime) -> Result<(), Fail> {
    assert_unread(&rt, rt.alloc(), PRIVATE_TEXT, BROKEN)
}

/// The lines of CharStrings.
const LINES: Part = Part::Private("/CharStrings 0 dict dup begin ", "");

/// The lines of CharStrings, and what a name has there.
const GLYPHS: &[(&str, Fact)] = &[
    ("/A 1 RD x ND end", Fact::Glyph(b"A", Some(b"x"))),
    ("/A 1 RD x ND end", Fact::Glyph(b"/A", None)),
    ("/A 1 RD x ND end", Fact::Glyph(b"B", None)),
    ("/A 0 RD  ND end", Fact::Glyph(b"A", Some(b""))),
    ("/ 1 RD x ND end", Fact::Glyph(b"", Some(b"x"))),
    ("/Subrs 1 RD x ND end", Fact::Glyph(b"Subrs", Some(b"x"))),
    ("/lenIV 1 RD x ND end", Fact::Glyph(b"lenIV", Some(b"x"))),
    ("/A 3 end end ND end", Fact::Glyph(b"A", Some(b"end"))),
    (
        "/A 1 RD x dup dict /B 1 RD y end",
        Fact::Glyph(b"B", Some(b"y")),
    ),
    (
        "/A 1 RD x ND /A 1 RD y ND end",
        Fact::Glyph(b"A", Some(b"y")),
    ),
    ("/A 1 RD x ND end /B 1 RD y ND end", Fact::Glyph(b"B", None)),
    ("/A 1 RD x ND end (", Fact::Glyph(b"A", Some(b"x"))),
];

/// Every name is a glyph's, the empty one too, and the number in the head limits nothing.
#[test]
fn glyphs_are_read(rt: HostRuntime) -> Result<(), Fail> {
    assert_facts(&rt, rt.alloc(), LINES, GLYPHS)
}
