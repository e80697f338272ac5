//! Reasons in the two texts of a font, and in entries that are given twice: those of the rules after number 93.

ghost use Rattle.std.specs.Prelude.{◌≡◌, ◌<◌, ◌^◌, ◌==◌, ◌&&◌, ◌*ℤ◌, if◌then◌else◌, false, [], ◌∷◌, codes};
ghost use Rattle.std.specs.List.{find};
ghost use Rattle.std.specs.Option.{option_map};
ghost use Rattle.t1_font.specs.Entries.{entry_view};
ghost use Rattle.t1_font.specs.Rows.{row_left, token_in_row};
ghost use Rattle.t1_reasons.specs.FontReasons.{first_in_font_row, last_given, latest_font_row};
ghost use Rattle.t1_reasons.specs.TextReasons.{bytes_from, determinants_of, is_high_byte, is_zero_determinant, line_after, names_private, private_unbegun, reader_word, text_word, unknown_word, unpaired_word, unread_word};
ghost use Rattle.t1_reasons.specs.declared.reason.Reason.TheVariants.{Determinant};
ghost use Rattle.t1_rules.specs.FontRules.Values.{first_in, is_so_many};
ghost use Rattle.t1_texts.specs.Given.{names};
ghost use Rattle.t1_texts.specs.PrivateDictionary.{begins_list};
ghost use Rattle.t1_texts.specs.RowFaults.{placed_view};
ghost use Rattle.t1_words.specs.Headers.{is_high};

use crate::entry_reasons::found_in;
use crate::reason::{FontText, Reason};
use t1_font::{Entry, Font, Key, Role, Row, TokenInRow};
use t1_rules::{KeyKind, Rule, first_in, has_kind, is_so_many, key_among};
use t1_texts::{Placed, row_faults};

/// The keys of which the reader takes the value.
static PLAIN_KEYS: [Key; 22] = [
    Key::FontType,
    Key::PaintType,
    Key::UniqueId,
    Key::PrivateUniqueId,
    Key::Password,
    Key::MinFeature,
    Key::LenIv,
    Key::BlueValues,
    Key::OtherBlues,
    Key::FamilyBlues,
    Key::FamilyOtherBlues,
    Key::BlueScale,
    Key::BlueShift,
    Key::BlueFuzz,
    Key::StdHw,
    Key::StdVw,
    Key::StemSnapH,
    Key::StemSnapV,
    Key::FontMatrix,
    Key::FontBBox,
    Key::Xuid,
    Key::LanguageGroup,
];

/// Why a font breaks a rule after number 93 that compares numbers.
pub(crate) fn latest_reason(font: &Font<'_>, rule: Rule, key: u8, index: u32) -> Option<Reason>
    ensures { result ≡ first_in_font_row (latest_font_row rule) font.now key index }
{
    match rule {
        Rule::F22 if has_kind(key, KeyKind::File) && index == 0 => high_byte(font.clear_text()),
        Rule::F27 => determinant_reason(font.value(key_among(&[Key::FontMatrix], key)?), index),
        _ => None,
    }
}

/// The first byte past printable ASCII, with its line.
fn high_byte(text: &[u8]) -> Option<Reason>
    ensures { result ≡ find is_high_byte (bytes_from 1 false text.now) }
{
    let mut line = 1;
    let mut is_behind = false;
    let mut rest = text;
    while let [byte, bytes @ ..] = rest {
        let byte = *byte;
        if is_high(byte) {
            return Some(Reason::HighByte { line, byte });
        }
        line = line_after(line, is_behind, byte);
        is_behind = byte == b'\r';
        rest = bytes;
    }
    None
}

fn is_high(byte: u8) -> bool
    ensures { result ≡ is_high byte }
{
    byte >= 127
}

/// The line behind a byte.
fn line_after(line: usize, is_behind: bool, byte: u8) -> usize
    requires { line < 2 ^ 63 }
    ensures { result ≡ line_after line is_behind byte }
{
    if byte == b'\r' || (byte == b'\n' && !is_behind) {
        line + 1
    } else {
        line
    }
}

/// Why FontMatrix breaks F27 at an index.
fn determinant_reason(value: &Entry, index: u32) -> Option<Reason>
    ensures { result ≡ find is_zero_determinant (if index == 0 && is_so_many 6 (entry_view value.now) then determinants_of (first_in 6 (entry_view value.now)) else []) }
{
    if index != 0 || !is_so_many(6, value) {
        return None;
    }
    match first_in(6, value) {
        [v0, v1, v2, v3, ..] => zero_determinant(*v0, *v1, *v2, *v3),
        _ => None,
    }
}

fn zero_determinant(v0: i64, v1: i64, v2: i64, v3: i64) -> Option<Reason>
    ensures { result ≡ find is_zero_determinant (Determinant v0 v1 v2 v3 ∷ []) }
{
    if product(v0, v3) == product(v1, v2) {
        Some(Reason::Determinant { v0, v1, v2, v3 })
    } else {
        None
    }
}

fn product(one: i64, other: i64) -> i128
    ensures { result ≡ one *ℤ other }
{
    i128::from(one) * i128::from(other)
}

/// What a key that is given twice has: the value that was taken last.
pub(crate) fn last_given(font: &Font<'_>, key: u8) -> Reason
    ensures { result ≡ last_given font.now key }
{
    match key_among(&PLAIN_KEYS, key) {
        Some(key) => Reason::Entry {
            found: found_in(font.value(key)),
        },
        None => Reason::Form {
            encoding: font.encoding(),
        },
    }
}

/// The word before a charstring, if there is such a one.
fn reader_word(found: Option<Placed<'_>>) -> Reason
    ensures { result ≡ reader_word (option_map placed_view found.entry) }
{
    match found {
        Some(found) => Reason::ReaderWord { place: found.place },
        None => Reason::Nothing,
    }
}

/// The first of the clear text, or else that of the private one.
fn text_word(clear: Option<Placed<'_>>, private: Option<Placed<'_>>) -> Reason
    ensures { result ≡ text_word (option_map placed_view clear.entry) (option_map placed_view private.entry) }
{
    match (clear, private) {
        (Some(found), _) => Reason::TextWord {
            text: FontText::Clear,
            place: found.place,
        },
        (None, Some(found)) => Reason::TextWord {
            text: FontText::Private,
            place: found.place,
        },
        (None, None) => Reason::Nothing,
    }
}

/// The word before a charstring that isn't defined to read it.
pub(crate) fn unread_word(font: &Font<'_>) -> Reason
    ensures { result ≡ unread_word font.now }
{
    reader_word(row_faults(Row::private(font)).unread)
}

/// The first token that is a brace or a bracket without a partner, or has one in it.
pub(crate) fn unpaired_word(font: &Font<'_>) -> Reason
    ensures { result ≡ unpaired_word font.now }
{
    let clear = row_faults(Row::clear(font));
    let private = row_faults(Row::private(font));
    text_word(clear.unpaired, private.unpaired)
}

/// The first word that is neither known nor given.
pub(crate) fn unknown_word(font: &Font<'_>) -> Reason
    ensures { result ≡ unknown_word font.now }
{
    let clear = row_faults(Row::clear(font));
    let private = row_faults(Row::private(font));
    text_word(clear.unknown, private.unknown)
}

/// Whether a token begins a list.
fn begins_list(role: Role) -> bool
    ensures { result ≡ begins_list role }
{
    matches!(role, Role::List)
}

/// Whether a token is the name `Private`.
fn is_private(token: &TokenInRow<'_>) -> bool
    ensures { result ≡ names (codes "Private") (token_in_row token.now) }
{
    match token.name() {
        Some(name) => name == b"Private".as_slice(),
        None => false,
    }
}

/// Whether the name `Private` stands ahead of the lists.
fn names_private(row: Row<'_>) -> bool
    ensures { result ≡ names_private (row_left row.entry) }
{
    let mut left = row;
    'tokens: loop {
        let Some(token) = left.next() else {
            return false;
        };
        if begins_list(token.role) {
            return false;
        }
        if is_private(&token) {
            return true;
        }
    }
}

/// What there is of the beginning of the Private dictionary.
pub(crate) fn private_unbegun(font: &Font<'_>) -> Reason
    ensures { result ≡ private_unbegun font.now }
{
    Reason::PrivateUnbegun {
        named: names_private(Row::private(font)),
    }
}
