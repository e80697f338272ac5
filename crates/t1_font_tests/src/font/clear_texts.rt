//! The clear text: Type 1 Font Format 1.1, chapter 2.

use super::{CLEAR_LINES, Fact, Value, assert_facts};
use std::alloc::{AllocError, Global};
use std::process::Abort;
use std::test::Fail;
use t1_font::{Key, Unread, read_clear};
use t1_seal::Joined;

/// The bytes of a PFA file.
pub(super) fn pfa(alloc: Global, text: &[u8]) -> Result<Joined, AllocError> {
    Ok(Joined {
        bytes: Vec::from_slice(alloc, text)?,
        pfb: false,
        end_segment: false,
        trailing: false,
    })
}

/// Why a clear text isn't read, if it isn't. Want of memory is an error.
fn refusal_of(alloc: Global, text: &[u8]) -> Result<Option<Unread>, Unread> {
    let joined = pfa(alloc, text)?;
    match read_clear(alloc, &joined) {
        Ok(clear) => {
            clear.let_go();
            Ok(None)
        }
        Err(Unread::Memory) => Err(Unread::Memory),
        Err(refusal) => Ok(Some(refusal)),
    }
}

/// Each clear text is refused for the reason beside it, or isn't.
pub(super) fn assert_clear_refusals(
    rt: &impl Abort,
    alloc: Global,
    cases: &[(&str, Option<Unread>)],
) -> Result<(), Fail> {
    for (text, refusal) in cases {
        assert_eq!(rt; refusal_of(alloc, text.as_bytes())?, *refusal, "{text}");
    }
    Ok(())
}

/// Clear texts, and why each is refused, if it is.
const TEXTS: &[(&str, Option<Unread>)] = &[
    ("% eexec", Some(Unread::NoEexec)),
    ("%! eexec", Some(Unread::NoEexec)),
    ("%!\n", Some(Unread::NoEexec)),
    ("%!\nEexec", Some(Unread::NoEexec)),
    ("%!\neexecX", Some(Unread::NoEexec)),
    ("%!\neexec", None),
    ("%!\neexec(", None),
    ("%!\n[ eexec ] { eexec } ( eexec )", Some(Unread::NoEexec)),
    ("%!\n(", Some(Unread::Unclosed)),
    ("%!\n] ) > } eexec (", None),
    (
        "%!\n/WeightVector [1 0] def eexec",
        Some(Unread::MultipleMaster),
    ),
    ("%!\neexec /WeightVector", None),
    ("%!\n/FontType /WeightVector eexec", None),
    ("%!\n/FontType eexec", Some(Unread::NoEexec)),
    ("%!\n/FontType eexec eexec", None),
    ("%!\n/FontType", Some(Unread::NoEexec)),
    ("%!\n/FontType (", Some(Unread::Unclosed)),
    ("%!\n/XUID eexec", None),
    ("%!\n/XUID", Some(Unread::NoEexec)),
    ("%!\n/XUID (", Some(Unread::Unclosed)),
    (
        "%!\n/XUID /WeightVector eexec",
        Some(Unread::MultipleMaster),
    ),
];

/// `eexec` ends the text unless it is a value; a value is taken whatever it is, but not that of a noted key.
#[test]
fn clear_texts_are_refused_or_not(rt: HostRuntime) -> Result<(), Fail> {
    assert_clear_refusals(&rt, rt.alloc(), TEXTS)
}

/// The lines of a clear text, and the value of a key.
const VALUES: &[(&str, Fact)] = &[
    (
        "/FontType 1 def",
        Fact::Value(Key::FontType, Value::Number(1_000_000_000)),
    ),
    (
        "/FontType 1 /FontType 2",
        Fact::Value(Key::FontType, Value::Number(2_000_000_000)),
    ),
    ("/FontType eexec", Fact::Value(Key::FontType, Value::Other)),
    (
        "/PaintType /FontType 1",
        Fact::Value(Key::FontType, Value::Absent),
    ),
    (
        "/UniqueID 5 def",
        Fact::Value(Key::UniqueId, Value::Number(5_000_000_000)),
    ),
    (
        "/UniqueID 5 def",
        Fact::Value(Key::PrivateUniqueId, Value::Absent),
    ),
    (
        "/password 5839 def",
        Fact::Value(Key::Password, Value::Absent),
    ),
    (
        "/Encoding /FontType 2",
        Fact::Value(Key::FontType, Value::Number(2_000_000_000)),
    ),
    (
        "/Encoding 256 array /FontType 2 def",
        Fact::Value(Key::FontType, Value::Absent),
    ),
    (
        "/Encoding 256 array def /FontType 2",
        Fact::Value(Key::FontType, Value::Number(2_000_000_000)),
    ),
];

/// A later value replaces an earlier one, and keys are only where no value or code is needed.
#[test]
fn keys_of_the_clear_text_are_read(rt: HostRuntime) -> Result<(), Fail> {
    assert_facts(&rt, rt.alloc(), CLEAR_LINES, VALUES)
}

/// Lines with keys that are noted: the token behind their name is looked at, and read as if they weren't there.
const NOTED: &[(&str, Fact)] = &[
    (
        "/FontMatrix [0.001 0 0 0.001 0 0] readonly def",
        Fact::Value(
            Key::FontMatrix,
            Value::Numbers(6, &[1_000_000, 0, 0, 1_000_000, 0, 0]),
        ),
    ),
    (
        "/FontBBox {-10 0 5 1000} def",
        Fact::Value(
            Key::FontBBox,
            Value::Numbers(4, &[-10_000_000_000, 0, 5_000_000_000, 1_000_000_000_000]),
        ),
    ),
    (
        "/XUID [] def",
        Fact::Value(Key::Xuid, Value::Numbers(0, &[])),
    ),
    (
        "/XUID [1] def /XUID 2 def",
        Fact::Value(Key::Xuid, Value::Number(2_000_000_000)),
    ),
    ("/XUID [1 a] def", Fact::Value(Key::Xuid, Value::Other)),
    (
        "/XUID /UniqueID 5 def",
        Fact::Value(Key::Xuid, Value::Other),
    ),
    (
        "/XUID /UniqueID 5 def",
        Fact::Value(Key::UniqueId, Value::Number(5_000_000_000)),
    ),
    (
        "/FontMatrix /FontBBox {0 0 1 1}",
        Fact::Value(Key::FontMatrix, Value::Other),
    ),
    (
        "/FontMatrix /FontBBox {0 0 1 1}",
        Fact::Value(
            Key::FontBBox,
            Value::Numbers(4, &[0, 0, 1_000_000_000, 1_000_000_000]),
        ),
    ),
    (
        "/FontType /XUID 5 def",
        Fact::Value(Key::Xuid, Value::Absent),
    ),
    (
        "/Encoding 256 array /XUID [1] def",
        Fact::Value(Key::Xuid, Value::Absent),
    ),
    (
        "/LanguageGroup 1 def",
        Fact::Value(Key::LanguageGroup, Value::Absent),
    ),
];

#[test]
fn noted_keys_of_the_clear_text_are_read(rt: HostRuntime) -> Result<(), Fail> {
    assert_facts(&rt, rt.alloc(), CLEAR_LINES, NOTED)
}
