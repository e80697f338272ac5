//! Each reader of a font, past its end too: Type 1 Font Format 1.1, chapters 2 and 5.

use super::{Fact, NO_CLEAR, NO_PRIVATE, Value, assert_all, with_texts};
use std::alloc::Global;
use std::process::Abort;
use std::test::Fail;
use t1_font::{Encoding, Key, OpenFont, Unread};
use t1_samples::{Sample, opened};

/// A clear text with the three keys and two codes, one of them broken.
const CLEAR: &[u8] =
    b"%!PS-AdobeFont-1.0: T\n/FontType 1 def\n/PaintType 0 def\n/UniqueID 5000000 def\n\
/Encoding 256 array\ndup 65 /A put\ndup 256 /B put\nreadonly def\ncurrentfile eexec\n";

/// A private text with each of its keys, and with Subrs and glyphs of which one is given twice.
const PRIVATE: &[u8] =
    b"dup /Private 15 dict dup begin\n/UniqueID 5000001 def\n/password 5839 def\n\
/MinFeature {16 16} def\n/lenIV 4 def\n/BlueValues [-15 0] def\n/OtherBlues [-240 -230] def\n\
/FamilyBlues [-14 0] def\n/FamilyOtherBlues [-241 -231] def\n/BlueScale .039625 def\n\
/BlueShift 7 def\n/BlueFuzz 1 def\n/StdHW [32] def\n/StdVW [84] def\n/StemSnapH [32 42] def\n\
/StemSnapV [84 90 95] def\n/Subrs 6 array\ndup 5 1 RD v NP\ndup 2 1 RD w NP\ndup 5 1 RD x NP\nND\n\
2 index /CharStrings 3 dict dup begin\n/.notdef 1 RD n ND\n/A 0 RD  ND\n/B 1 RD b ND\n/A 1 RD a ND\nend\n";

/// The value of each key.
const VALUES: &[Fact] = &[
    Fact::Value(Key::FontType, Value::Number(1_000_000_000)),
    Fact::Value(Key::PaintType, Value::Number(0)),
    Fact::Value(Key::UniqueId, Value::Number(5_000_000_000_000_000)),
    Fact::Value(Key::PrivateUniqueId, Value::Number(5_000_001_000_000_000)),
    Fact::Value(Key::Password, Value::Number(5_839_000_000_000)),
    Fact::Value(
        Key::MinFeature,
        Value::Numbers(2, &[16_000_000_000, 16_000_000_000]),
    ),
    Fact::Value(Key::LenIv, Value::Number(4_000_000_000)),
    Fact::Value(Key::BlueValues, Value::Numbers(2, &[-15_000_000_000, 0])),
    Fact::Value(
        Key::OtherBlues,
        Value::Numbers(2, &[-240_000_000_000, -230_000_000_000]),
    ),
    Fact::Value(Key::FamilyBlues, Value::Numbers(2, &[-14_000_000_000, 0])),
    Fact::Value(
        Key::FamilyOtherBlues,
        Value::Numbers(2, &[-241_000_000_000, -231_000_000_000]),
    ),
    Fact::Value(Key::BlueScale, Value::Number(39_625_000)),
    Fact::Value(Key::BlueShift, Value::Number(7_000_000_000)),
    Fact::Value(Key::BlueFuzz, Value::Number(1_000_000_000)),
    Fact::Value(Key::StdHw, Value::Numbers(1, &[32_000_000_000])),
    Fact::Value(Key::StdVw, Value::Numbers(1, &[84_000_000_000])),
    Fact::Value(
        Key::StemSnapH,
        Value::Numbers(2, &[32_000_000_000, 42_000_000_000]),
    ),
    Fact::Value(
        Key::StemSnapV,
        Value::Numbers(3, &[84_000_000_000, 90_000_000_000, 95_000_000_000]),
    ),
];

/// The font of both texts has these facts.
fn assert_read(rt: &impl Abort, alloc: Global, facts: &[Fact]) -> Result<(), Fail> {
    let mut file = with_texts(alloc, CLEAR, PRIVATE)?;
    assert_all(rt, alloc, &mut file, facts)
}

#[test]
fn keys_have_their_values(rt: HostRuntime) -> Result<(), Fail> {
    assert_read(&rt, rt.alloc(), VALUES)
}

/// Keys that aren't there.
const ABSENT: &[Fact] = &[
    Fact::Value(Key::FontType, Value::Absent),
    Fact::Value(Key::Password, Value::Absent),
    Fact::Value(Key::LenIv, Value::Absent),
    Fact::Value(Key::StemSnapV, Value::Absent),
];

#[test]
fn absent_keys_have_none(rt: HostRuntime) -> Result<(), Fail> {
    let mut file = with_texts(rt.alloc(), NO_CLEAR, NO_PRIVATE)?;
    assert_all(&rt, rt.alloc(), &mut file, ABSENT)
}

/// The glyphs. One that is given twice keeps its first place and has its later charstring.
const GLYPHS: &[Fact] = &[
    Fact::Glyphs(3),
    Fact::GlyphAt(0, Some((b".notdef", b"n"))),
    Fact::GlyphAt(1, Some((b"A", b"a"))),
    Fact::GlyphAt(2, Some((b"B", b"b"))),
    Fact::GlyphAt(3, None),
    Fact::GlyphAt(usize::MAX, None),
    Fact::GlyphTwice(0, false),
    Fact::GlyphTwice(1, true),
    Fact::GlyphTwice(2, false),
    Fact::GlyphTwice(3, false),
    Fact::GlyphTwice(usize::MAX, false),
];

#[test]
fn glyphs_keep_their_places(rt: HostRuntime) -> Result<(), Fail> {
    assert_read(&rt, rt.alloc(), GLYPHS)
}

/// The Subrs.
const SUBRS: &[Fact] = &[
    Fact::SubrSize(6),
    Fact::Subr(0, None),
    Fact::Subr(2, Some(b"w")),
    Fact::Subr(5, Some(b"x")),
    Fact::Subr(6, None),
    Fact::Subr(65_534, None),
    Fact::Subr(u32::MAX, None),
    Fact::SubrTwice(0, false),
    Fact::SubrTwice(2, false),
    Fact::SubrTwice(5, true),
    Fact::SubrTwice(6, false),
    Fact::SubrTwice(u32::MAX, false),
];

#[test]
fn subrs_have_their_charstrings(rt: HostRuntime) -> Result<(), Fail> {
    assert_read(&rt, rt.alloc(), SUBRS)
}

/// The Encoding, lenIV and the marks.
const OTHERS: &[Fact] = &[
    Fact::Form(Encoding::Custom),
    Fact::Code(64, None),
    Fact::Code(65, Some(b"A")),
    Fact::Code(255, None),
    Fact::Code(256, None),
    Fact::Code(u32::MAX, None),
    Fact::BadCode(true),
    Fact::LenIv(4),
    Fact::NoEnd(false),
    Fact::Extra(false),
];

#[test]
fn codes_and_marks_are_read(rt: HostRuntime) -> Result<(), Fail> {
    assert_read(&rt, rt.alloc(), OTHERS)
}

/// A sample whose glyph A is given first without its commands and then with them.
fn sample_with_two(alloc: Global) -> Result<OpenFont, Unread> {
    let sample = Sample::new(alloc)?
        .glyph(b"A", b"")?
        .glyph(b"A", b"\x8b\xf8\x88\x0d\x0e")?;
    opened(alloc, &sample)
}

/// Its glyph A.
const LATER: &[Fact] = &[
    Fact::GlyphAt(1, Some((b"A", b"\x8b\xf8\x88\x0d\x0e"))),
    Fact::GlyphTwice(1, true),
];

#[test]
fn the_later_charstring_counts(rt: HostRuntime) -> Result<(), Fail> {
    let mut file = sample_with_two(rt.alloc())?;
    assert_all(&rt, rt.alloc(), &mut file, LATER)
}
