//! The font rules: those on the file and on the entries of the dictionaries. Type 1 Font Format 1.1, chapters 2 and 5.

ghost use Rattle.std.specs.Prelude.{◌≡◌, ℕ};
ghost use Rattle.t1_rules.specs.FontRules.{first_font_rules, font_rules, later_font_rules, latest_font_rules, violated};
ghost use Rattle.t1_rules.specs.Keys.{key_number, kind_number};
ghost use Rattle.t1_rules.specs.Mask.{has};

pub(crate) mod dictionaries;
pub(crate) mod encoding;
mod entries;
mod file;
mod glyphs;
pub(crate) mod hints;
pub(crate) mod ids;
pub(crate) mod stems;
pub(crate) mod subrs;
mod texts;
pub(crate) mod values;
pub(crate) mod zones;

use crate::keys::{KeyKind, kind_of};
use crate::mask::Mask;
use dictionaries::{font_bbox_faults, font_matrix_faults, language_group_faults, xuid_faults};
use encoding::encoding_faults;
use entries::{font_type_faults, min_feature_faults, paint_type_faults, password_faults};
use file::file_faults;
use glyphs::glyph_faults;
use hints::{blue_faults, fuzz_faults, number_faults, scale_faults, shift_faults, whole_faults};
use ids::{private_unique_id_faults, unique_id_faults};
use stems::{later_snap_faults, sign_faults, snap_faults, width_faults};
use subrs::{return_faults, subr_faults};
use t1_char::Edition;
use t1_font::{Font, Key};
use texts::{encoding_repeated_faults, repeated_faults, text_faults};
use zones::{high_zone_faults, low_zone_faults};

/// Returns the font rules of an edition that are broken at a key and an index. Index 0 is for what is said of the key as a
/// whole. Else it is a place in its list of numbers, a code, a Subr's number or a glyph's. There is none past the last key
/// or index.
pub fn font_faults(font: &Font<'_>, key: u8, index: u32, edition: Edition) -> Mask
    ensures { (n : ℕ) → has result n ≡ violated (font_rules edition) n font.now key index }
{
    let Some(kind) = kind_of(key) else {
        return Mask::empty();
    };
    let faults = faults_at(font, kind, index);
    if !edition.has_later_rules() {
        return faults;
    }
    let faults = faults.join(later_faults_at(font, kind, index));
    if edition.has_latest_rules() {
        faults.join(latest_faults_at(font, kind, index))
    } else {
        faults
    }
}

/// The rules up to number 70, by the kind of a key.
fn faults_at(font: &Font<'_>, kind: KeyKind, index: u32) -> Mask
    ensures { (n : ℕ) → has result n ≡ violated first_font_rules n font.now (kind_number kind) index }
{
    match kind {
        KeyKind::File => file_faults(font, index),
        KeyKind::Value(key) => value_faults(font, key, index),
        KeyKind::Encoding => encoding_faults(font, index),
        KeyKind::Subrs => subr_faults(font, index),
        KeyKind::CharStrings => glyph_faults(font, index),
    }
}

/// The later rules, by the kind of a key.
fn later_faults_at(font: &Font<'_>, kind: KeyKind, index: u32) -> Mask
    ensures { (n : ℕ) → has result n ≡ violated later_font_rules n font.now (kind_number kind) index }
{
    match kind {
        KeyKind::Value(key) => later_value_faults(font, key, index),
        KeyKind::Subrs => return_faults(font, index),
        KeyKind::File | KeyKind::Encoding | KeyKind::CharStrings => Mask::empty(),
    }
}

/// The latest rules, by the kind of a key.
fn latest_faults_at(font: &Font<'_>, kind: KeyKind, index: u32) -> Mask
    ensures { (n : ℕ) → has result n ≡ violated latest_font_rules n font.now (kind_number kind) index }
{
    match kind {
        KeyKind::File => text_faults(font, index),
        KeyKind::Value(key) => repeated_faults(font, key, index),
        KeyKind::Encoding => encoding_repeated_faults(font, index),
        KeyKind::Subrs | KeyKind::CharStrings => Mask::empty(),
    }
}

/// The rules up to number 70, of the value of a plain key.
fn value_faults(font: &Font<'_>, key: Key, index: u32) -> Mask
    ensures { (n : ℕ) → has result n ≡ violated first_font_rules n font.now (key_number key) index }
{
    match key {
        Key::FontType => font_type_faults(font, index),
        Key::PaintType => paint_type_faults(font, index),
        Key::UniqueId => unique_id_faults(font, index),
        Key::PrivateUniqueId => private_unique_id_faults(font, index),
        Key::Password => password_faults(font, index),
        Key::MinFeature => min_feature_faults(font, index),
        Key::LenIv => Mask::empty(),
        Key::FontMatrix => Mask::empty(),
        Key::FontBBox => Mask::empty(),
        Key::Xuid => Mask::empty(),
        Key::LanguageGroup => Mask::empty(),
        Key::BlueValues => high_zone_faults(font, Key::BlueValues, index),
        Key::OtherBlues => low_zone_faults(font, Key::OtherBlues, Key::BlueValues, index),
        Key::FamilyBlues => high_zone_faults(font, Key::FamilyBlues, index),
        Key::FamilyOtherBlues => low_zone_faults(
            font,
            Key::FamilyOtherBlues,
            Key::FamilyBlues,
            index,
        ),
        Key::BlueScale => number_faults(font, Key::BlueScale, index),
        Key::BlueShift => number_faults(font, Key::BlueShift, index),
        Key::BlueFuzz => number_faults(font, Key::BlueFuzz, index),
        Key::StdHw => width_faults(font, Key::StdHw, index),
        Key::StdVw => width_faults(font, Key::StdVw, index),
        Key::StemSnapH => snap_faults(font, Key::StemSnapH, Key::StdHw, index),
        Key::StemSnapV => snap_faults(font, Key::StemSnapV, Key::StdVw, index),
    }
}

/// The later rules, of the value of a plain key.
fn later_value_faults(font: &Font<'_>, key: Key, index: u32) -> Mask
    ensures { (n : ℕ) → has result n ≡ violated later_font_rules n font.now (key_number key) index }
{
    match key {
        Key::FontMatrix => font_matrix_faults(font, index),
        Key::FontBBox => font_bbox_faults(font, index),
        Key::Xuid => xuid_faults(font, index),
        Key::LanguageGroup => language_group_faults(font, index),
        Key::BlueValues => blue_faults(font, index),
        Key::OtherBlues => whole_faults(font, Key::OtherBlues, index),
        Key::FamilyBlues => whole_faults(font, Key::FamilyBlues, index),
        Key::FamilyOtherBlues => whole_faults(font, Key::FamilyOtherBlues, index),
        Key::BlueScale => scale_faults(font, index),
        Key::BlueShift => shift_faults(font, index),
        Key::BlueFuzz => fuzz_faults(font, index),
        Key::StdHw => sign_faults(font, Key::StdHw, index),
        Key::StdVw => sign_faults(font, Key::StdVw, index),
        Key::StemSnapH => later_snap_faults(font, Key::StemSnapH, Key::StdHw, index),
        Key::StemSnapV => later_snap_faults(font, Key::StemSnapV, Key::StdVw, index),
        Key::FontType
        | Key::PaintType
        | Key::UniqueId
        | Key::PrivateUniqueId
        | Key::Password
        | Key::MinFeature
        | Key::LenIv => Mask::empty(),
    }
}
