//! The plain keys of a font: Type 1 Font Format 1.1, chapters 2 and 5.

ghost use Rattle.std.specs.Prelude.{◌≡◌, ◌<◌, map};
ghost use Rattle.t1_font.specs.Keys.{clear_key, clear_note, index_of, key_named, plain_keys, private_key, private_note};
ghost use Rattle.t1_font.specs.Private.KeyRows.{row_view};

/// A key with a plain value: three of the clear text, and then those of the Private dictionary. The last four are
/// noted: reading looks at the token behind their name, and doesn't take it.
#[derive(Clone, Copy, Debug, PartialEq, Eq)]
pub enum Key {
    FontType,
    PaintType,
    UniqueId,
    /// `/UniqueID` in the Private dictionary.
    PrivateUniqueId,
    Password,
    MinFeature,
    LenIv,
    BlueValues,
    OtherBlues,
    FamilyBlues,
    FamilyOtherBlues,
    BlueScale,
    BlueShift,
    BlueFuzz,
    StdHw,
    StdVw,
    StemSnapH,
    StemSnapV,
    FontMatrix,
    FontBBox,
    Xuid,
    LanguageGroup,
}

impl Key {
    /// The place of a key among them.
    pub(crate) fn place(self) -> usize
        ensures place { result ≡ index_of self }
        ensures bound { result < plain_keys }
    {
        self as usize
    }
}

/// A plain key, after its name in the font's text.
type Row = (&'static str, Key);

/// The plain keys of the clear text.
static CLEAR_KEYS: [Row; 3] = [
    ("/FontType", Key::FontType),
    ("/PaintType", Key::PaintType),
    ("/UniqueID", Key::UniqueId),
];

/// The plain keys of the Private dictionary.
static PRIVATE_KEYS: [Row; 15] = [
    ("/UniqueID", Key::PrivateUniqueId),
    ("/password", Key::Password),
    ("/MinFeature", Key::MinFeature),
    ("/lenIV", Key::LenIv),
    ("/BlueValues", Key::BlueValues),
    ("/OtherBlues", Key::OtherBlues),
    ("/FamilyBlues", Key::FamilyBlues),
    ("/FamilyOtherBlues", Key::FamilyOtherBlues),
    ("/BlueScale", Key::BlueScale),
    ("/BlueShift", Key::BlueShift),
    ("/BlueFuzz", Key::BlueFuzz),
    ("/StdHW", Key::StdHw),
    ("/StdVW", Key::StdVw),
    ("/StemSnapH", Key::StemSnapH),
    ("/StemSnapV", Key::StemSnapV),
];

/// The noted keys of the clear text.
static CLEAR_NOTES: [Row; 3] = [
    ("/FontMatrix", Key::FontMatrix),
    ("/FontBBox", Key::FontBBox),
    ("/XUID", Key::Xuid),
];

/// The noted key of the Private dictionary.
static PRIVATE_NOTES: [Row; 1] = [("/LanguageGroup", Key::LanguageGroup)];

/// The key that a name has among rows, if there is one.
fn key_in(rows: &[Row], name: &[u8]) -> Option<Key>
    ensures { result ≡ key_named name.now (map row_view rows.now) }
{
    for row in rows {
        if name == row.0.as_bytes() {
            return Some(row.1);
        }
    }
    None
}

/// The plain key of the clear text that a name is.
#[tactic(auto, unfolding(crate::specs::Keys::clear_key))]
pub(crate) fn clear_key(name: &[u8]) -> Option<Key>
    ensures { result ≡ clear_key name.now }
{
    key_in(&CLEAR_KEYS, name)
}

/// The plain key of the Private dictionary that a name is.
#[tactic(auto, unfolding(crate::specs::Keys::private_key))]
pub(crate) fn private_key(name: &[u8]) -> Option<Key>
    ensures { result ≡ private_key name.now }
{
    key_in(&PRIVATE_KEYS, name)
}

/// The noted key of the clear text that a name is.
#[tactic(auto, unfolding(crate::specs::Keys::clear_note))]
pub(crate) fn clear_note(name: &[u8]) -> Option<Key>
    ensures { result ≡ clear_note name.now }
{
    key_in(&CLEAR_NOTES, name)
}

/// The noted key of the Private dictionary that a name is.
#[tactic(auto, unfolding(crate::specs::Keys::private_note))]
pub(crate) fn private_note(name: &[u8]) -> Option<Key>
    ensures { result ≡ private_note name.now }
{
    key_in(&PRIVATE_NOTES, name)
}
