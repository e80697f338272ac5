//! The keys that a font's faults are at: what they are called, what is there, and how many indexes each has. Type 1
//! Font Format 1.1, chapters 2 and 5.

ghost use Rattle.std.specs.Prelude.{◌≡◌, ◌≤◌, ◌+◌, ◌==◌, IfNone, IfSome, map};
ghost use Rattle.std.specs.List.{range_with_len};
ghost use Rattle.t1_font.specs.Fonts.{FontValue};
ghost use Rattle.t1_rules.specs.Keys.{glyph_places, key_among, key_count, key_number, key_text_of, key_texts, kind_number, list_limit_of, of_later, of_latest, places_of, subr_places};

use crate::font_rules::hints::list_limit_of;
use t1_char::Edition;
use t1_font::{CODES, Font, Key};

/// How many keys there are.
pub const KEYS: u8 = 26;

/// How many numbers of an XUID are looked at.
pub(crate) const XUID_PLACES: u32 = 16;

/// How many indexes a key has at most.
pub const INDEXES: u32 = 65_536;

/// What is at a key.
#[derive(Clone, Copy, Debug, PartialEq, Eq)]
pub enum KeyKind {
    /// The file as a whole.
    File,
    /// The value of a plain key.
    Value(Key),
    /// The Encoding, by codes.
    Encoding,
    /// The Subrs, by their numbers.
    Subrs,
    /// The CharStrings, by the places of the glyphs.
    CharStrings,
}

/// A key: what it is called in a line of the report, and what is there.
type Row = (&'static str, KeyKind);

/// The keys, in the order of their numbers, of which the first is 0.
static KEY_ROWS: [Row; KEYS as usize] = [
    ("file", KeyKind::File),
    ("FontType", KeyKind::Value(Key::FontType)),
    ("PaintType", KeyKind::Value(Key::PaintType)),
    ("UniqueID", KeyKind::Value(Key::UniqueId)),
    ("Encoding", KeyKind::Encoding),
    ("PrivateUniqueID", KeyKind::Value(Key::PrivateUniqueId)),
    ("password", KeyKind::Value(Key::Password)),
    ("MinFeature", KeyKind::Value(Key::MinFeature)),
    ("lenIV", KeyKind::Value(Key::LenIv)),
    ("BlueValues", KeyKind::Value(Key::BlueValues)),
    ("OtherBlues", KeyKind::Value(Key::OtherBlues)),
    ("FamilyBlues", KeyKind::Value(Key::FamilyBlues)),
    ("FamilyOtherBlues", KeyKind::Value(Key::FamilyOtherBlues)),
    ("BlueScale", KeyKind::Value(Key::BlueScale)),
    ("BlueShift", KeyKind::Value(Key::BlueShift)),
    ("BlueFuzz", KeyKind::Value(Key::BlueFuzz)),
    ("StdHW", KeyKind::Value(Key::StdHw)),
    ("StdVW", KeyKind::Value(Key::StdVw)),
    ("StemSnapH", KeyKind::Value(Key::StemSnapH)),
    ("StemSnapV", KeyKind::Value(Key::StemSnapV)),
    ("Subrs", KeyKind::Subrs),
    ("CharStrings", KeyKind::CharStrings),
    ("FontMatrix", KeyKind::Value(Key::FontMatrix)),
    ("FontBBox", KeyKind::Value(Key::FontBBox)),
    ("XUID", KeyKind::Value(Key::Xuid)),
    ("LanguageGroup", KeyKind::Value(Key::LanguageGroup)),
];

/// The rows of the keys.
fn rows() -> &'static [Row]
    ensures texts { map (λ row. row.0.now) result.now ≡ key_texts }
    ensures kinds { map (λ row. kind_number row.1) result.now ≡ range_with_len 0 key_count }
{
    &KEY_ROWS
}

/// What a key is called in a line of the report: 0 is the file, 1 to 25 are entries of the font's
/// dictionaries. It is empty past the last one.
pub fn key_text(key: u8) -> &'static str
    ensures { result.now ≡ key_text_of key }
{
    match rows().get(usize::from(key)) {
        Some(row) => row.0,
        None => "",
    }
}

/// What is at a key, if there is one of this number.
pub(crate) fn kind_of(key: u8) -> Option<KeyKind>
    ensures some { IfSome result (λ kind. kind_number kind ≡ key) }
    ensures none { IfNone result (key_count ≤ key) }
{
    match rows().get(usize::from(key)) {
        Some(row) => Some(row.1),
        None => None,
    }
}

/// Whether this is at a key.
pub fn has_kind(key: u8, kind: KeyKind) -> bool
    ensures { result ≡ (key == kind_number kind) }
{
    match kind_of(key) {
        Some(own) => own == kind,
        None => false,
    }
}

/// Returns which of some plain keys a key is, if it is one of them.
pub fn key_among(keys: &[Key], key: u8) -> Option<Key>
    ensures { result ≡ key_among keys.now key }
{
    keys.iter()
        .copied()
        .find(|own| has_kind(key, KeyKind::Value(*own)))
}

/// How many indexes of a key can have a fault by an edition, from 0 on: there is none past them.
pub fn places(font: &Font<'_>, key: u8, edition: Edition) -> u32
    ensures { result ≡ places_of edition font.now key }
{
    match kind_of(key) {
        Some(kind) => kind.places(font, edition),
        None => 0,
    }
}

impl KeyKind {
    /// How many indexes can have a fault.
    fn places(self, font: &Font<'_>, edition: Edition) -> u32
        ensures { result ≡ places_of edition font.now (kind_number self) }
    {
        match self {
            KeyKind::File => 1,
            KeyKind::Value(key) => value_places(key, edition),
            KeyKind::Encoding => CODES,
            KeyKind::Subrs => subr_places(font),
            KeyKind::CharStrings => glyph_places(font),
        }
    }
}

/// How many indexes of a list: one for each number that it can have, and one for the first that is too much.
fn list_places(key: Key) -> u32
    ensures { result ≡ list_limit_of key + 1 }
{
    list_limit_of(key) as u32 + 1
}

/// So many, where the edition has the rules after number 70.
fn later_places(count: u32, edition: Edition) -> u32
    ensures { (font : FontValue) → result ≡ of_later count edition font }
{
    if edition.has_later_rules() { count } else { 0 }
}

/// So many, where it has those after number 93.
fn latest_places(count: u32, edition: Edition) -> u32
    ensures { (font : FontValue) → result ≡ of_latest count edition font }
{
    if edition.has_latest_rules() { count } else { 0 }
}

/// How many of a plain key: one, for what is said of it as a whole, unless it is a list.
fn value_places(key: Key, edition: Edition) -> u32
    ensures { (font : FontValue) → result ≡ places_of edition font (key_number key) }
{
    match key {
        Key::LenIv => latest_places(1, edition),
        Key::FontMatrix => later_places(1, edition),
        Key::FontBBox => later_places(2, edition),
        Key::Xuid => later_places(XUID_PLACES, edition),
        Key::LanguageGroup => later_places(1, edition),
        Key::BlueValues => list_places(Key::BlueValues),
        Key::OtherBlues => list_places(Key::OtherBlues),
        Key::FamilyBlues => list_places(Key::FamilyBlues),
        Key::FamilyOtherBlues => list_places(Key::FamilyOtherBlues),
        Key::StemSnapH => list_places(Key::StemSnapH),
        Key::StemSnapV => list_places(Key::StemSnapV),
        _ => 1,
    }
}

/// How many indexes of the Subrs can have a fault: up to the greatest number.
fn subr_places(font: &Font<'_>) -> u32
    ensures { result ≡ subr_places font.now.subrs }
{
    let mut places = 0;
    for (number, _) in font.subrs() {
        places = places.max(if *number < INDEXES {
            *number + 1
        } else {
            INDEXES
        });
    }
    places
}

/// How many indexes of the CharStrings can have a fault: one for each glyph, and at least one.
fn glyph_places(font: &Font<'_>) -> u32
    ensures { result ≡ glyph_places font.now }
{
    let count = font.glyphs().len();
    if count >= INDEXES as usize {
        INDEXES
    } else {
        (count as u32).max(1)
    }
}
