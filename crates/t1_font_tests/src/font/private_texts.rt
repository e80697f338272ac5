//! The private text outside its Subrs and CharStrings: Type 1 Font Format 1.1, chapters 2 and 5.

use super::{
    Fact, PRIVATE_LINES, PRIVATE_TEXT, Value, assert_all, assert_facts, assert_unread, with_private,
};
use std::test::Fail;
use t1_font::{Key, Unread};

/// Keys of a private text, and why it is refused.
const BROKEN: &[(&str, Unread)] = &[
    ("/lenIV 65 def", Unread::BadLenIv),
    ("/lenIV -2 def", Unread::BadLenIv),
    ("/lenIV 4.5 def", Unread::BadLenIv),
    ("/lenIV [4] def", Unread::BadLenIv),
    ("/lenIV 36#ZZZZZZ def", Unread::BadLenIv),
    ("/lenIV 65 def /lenIV 4 def", Unread::BadLenIv),
    (
        "/BlueValues [[[[[[[[[[[[[[[[[[[[[[[[[[[[[[[[[]]]]]]]]]]]]]]]]]]]]]]]]]]]]]]]]]",
        Unread::Unclosed,
    ),
    (
        "/MinFeature {{{{{{{{{{{{{{{{{{{{{{{{{{{{{{{{{}}}}}}}}}}}}}}}}}}}}}}}}}}}}}}}}} def",
        Unread::Unclosed,
    ),
    ("/FontType (", Unread::Unclosed),
    ("/password (", Unread::Unclosed),
    ("/lenIV (", Unread::Unclosed),
];

/// Of the keys' values only that of `/lenIV` is tested, at each of them.
#[test]
fn broken_keys_are_refused(rt: HostRuntime) -> Result<(), Fail> {
    assert_unread(&rt, rt.alloc(), PRIVATE_LINES, BROKEN)
}

/// Private texts that end too early, and why each is refused.
const ENDS: &[(&str, Unread)] = &[
    ("", Unread::BadCharStrings),
    ("/password", Unread::BadCharStrings),
    ("/BlueShift /Subrs", Unread::BadCharStrings),
    (
        "/BlueShift /CharStrings 0 dict dup begin end",
        Unread::BadCharStrings,
    ),
    ("/lenIV", Unread::BadLenIv),
    ("/Subrs", Unread::BadSubrs),
    ("/Subrs 1", Unread::BadSubrs),
    ("/Subrs 1 array", Unread::BadCharStrings),
    ("/Subrs 1 array dup", Unread::BadCharStrings),
    ("/Subrs 1 array dup 0", Unread::BadSubrs),
    ("/Subrs 1 array dup 0 1", Unread::BadSubrs),
    ("/Subrs 1 array dup 0 1 RD", Unread::BadSubrs),
    ("/CharStrings", Unread::BadCharStrings),
    ("/CharStrings 1 dict dup begin", Unread::BadCharStrings),
    ("/CharStrings 1 dict dup begin /A", Unread::BadCharStrings),
    (
        "/CharStrings 1 dict dup begin /A 0 RD  ND",
        Unread::BadCharStrings,
    ),
];

/// The end of the text is the lack of CharStrings, but for the value of `/lenIV`.
#[test]
fn texts_that_end_are_refused(rt: HostRuntime) -> Result<(), Fail> {
    assert_unread(&rt, rt.alloc(), PRIVATE_TEXT, ENDS)
}

/// Keys of a private text, and its lenIV.
const LEN_IVS: &[(&str, Fact)] = &[
    ("", Fact::LenIv(4)),
    ("/lenIV 0 def", Fact::LenIv(0)),
    ("/lenIV 64 def", Fact::LenIv(64)),
    ("/lenIV -1 def", Fact::LenIv(-1)),
    ("/lenIV -1.0000000009 def", Fact::LenIv(-1)),
    ("/lenIV 1 def /lenIV 2 def", Fact::LenIv(2)),
    ("/lenIV 1 def /Subrs 0 array /lenIV 3 def", Fact::LenIv(3)),
    ("/BlueValues /lenIV 65 def", Fact::LenIv(4)),
    ("/BlueValues x def", Fact::LenIv(4)),
];

/// The last `/lenIV` counts, wherever it is but as a value; without one it is 4.
#[test]
fn len_iv_is_read(rt: HostRuntime) -> Result<(), Fail> {
    assert_facts(&rt, rt.alloc(), PRIVATE_LINES, LEN_IVS)
}

/// A private text without Subrs and glyphs.
const HIDDEN: &[u8] =
    b"/BlueShift /Subrs 9 array /BlueFuzz /CharStrings 1 dict dup begin /CharStrings 0 dict dup begin end";

/// What it has.
const NOTHING: &[Fact] = &[
    Fact::Glyphs(0),
    Fact::SubrSize(0),
    Fact::LenIv(4),
    Fact::Value(Key::BlueShift, Value::Other),
];

/// `/Subrs` and `/CharStrings` as a value are no head of Subrs or CharStrings.
#[test]
fn values_hide_what_they_spell(rt: HostRuntime) -> Result<(), Fail> {
    let mut file = with_private(rt.alloc(), HIDDEN)?;
    assert_all(&rt, rt.alloc(), &mut file, NOTHING)
}

/// Private texts with /LanguageGroup, which is noted: the token behind it is read as if its name weren't there.
const LANGUAGE_GROUPS: &[(&str, Fact)] = &[
    ("", Fact::Value(Key::LanguageGroup, Value::Absent)),
    (
        "/LanguageGroup 1 def",
        Fact::Value(Key::LanguageGroup, Value::Number(1_000_000_000)),
    ),
    (
        "/LanguageGroup /lenIV 5 def",
        Fact::Value(Key::LanguageGroup, Value::Other),
    ),
    ("/LanguageGroup /lenIV 5 def", Fact::LenIv(5)),
    (
        "/BlueShift /LanguageGroup 1 def",
        Fact::Value(Key::LanguageGroup, Value::Absent),
    ),
    (
        "/Subrs 1 array dup 0 1 RD x NP /LanguageGroup 0 def",
        Fact::Value(Key::LanguageGroup, Value::Number(0)),
    ),
    ("/XUID [1] def", Fact::Value(Key::Xuid, Value::Absent)),
];

#[test]
fn language_groups_are_read(rt: HostRuntime) -> Result<(), Fail> {
    assert_facts(&rt, rt.alloc(), PRIVATE_LINES, LANGUAGE_GROUPS)
}
