//! Reasons in the entries of a font.

ghost use Rattle.std.specs.Prelude.{◌≡◌, ◌-ℤ◌, [], ◌∷◌, nat_eq};
ghost use Rattle.std.specs.List.{find};
ghost use Rattle.std.specs.Map.{lookup};
ghost use Rattle.t1_font.specs.Entries.{entry_view};
ghost use Rattle.t1_reasons.specs.FontReasons.{apart, are_near, are_two_ids, at_key, counts_at, excess_at, forms_at, is_excess, is_misfit, is_odd, is_unknown_form, is_wrong_subr, kinds_at, last_token_of, subrs_in, wanted_at, beside_zones, falls, falls_in, features_at, features_in, first_in_font_row, font_reason, gap_in, ids_at, ids_of, is_apart, is_near, is_unusual_feature, meetings_at, meetings_in, nearer, nearest, reaches_one, told_font_row, told_in_font, widths_at, widths_in, zone_in, zones_in};
ghost use Rattle.t1_reasons.specs.declared.reason.Reason.TheVariants.{Width, Zones as TwoZones};
ghost use Rattle.t1_rules.specs.FontRules.Stems.{width_of};
ghost use Rattle.t1_rules.specs.FontRules.Hints.{numbers_at};
ghost use Rattle.t1_rules.specs.FontRules.Zones.{distance, high_of, scale};
ghost use Rattle.t1_rules.specs.Keys.{encoding_key, subrs_key};

use crate::entry_reasons::{entry_reason, found_in};
use crate::later_font_reasons::later_reason;
use crate::reason::{EntryKind, Reason};
use crate::text_reasons::{
    last_given, latest_reason, private_unbegun, unknown_word, unpaired_word, unread_word,
};
use t1_char::{Edition, last_token};
use t1_font::{Encoding, Entry, Font, Key};
use t1_rules::{
    Edges, KeyKind, Rule, count_in, difference, distance, falls_at, first_in, font_faults,
    has_kind, has_odd_count, has_too_many, is_of_another_kind, is_sixteen_twice, is_too_high,
    is_too_near, is_wrong_subr, key_among, list_limit_of, numbers_at, scale,
};

/// The two UniqueIDs.
static ID_KEYS: [Key; 2] = [Key::UniqueId, Key::PrivateUniqueId];

/// The lists of zones.
pub(crate) static ZONE_KEYS: [Key; 4] = [
    Key::BlueValues,
    Key::OtherBlues,
    Key::FamilyBlues,
    Key::FamilyOtherBlues,
];

/// The lists of low zones.
static LOW_ZONE_KEYS: [Key; 2] = [Key::OtherBlues, Key::FamilyOtherBlues];

/// The lists of stem snaps.
pub(crate) static SNAP_KEYS: [Key; 2] = [Key::StemSnapH, Key::StemSnapV];

/// The standard widths.
pub(crate) static WIDTH_KEYS: [Key; 2] = [Key::StdHw, Key::StdVw];

/// The hint entries.
static HINT_KEYS: [Key; 11] = [
    Key::BlueValues,
    Key::OtherBlues,
    Key::FamilyBlues,
    Key::FamilyOtherBlues,
    Key::BlueScale,
    Key::BlueShift,
    Key::BlueFuzz,
    Key::StdHw,
    Key::StdVw,
    Key::StemSnapH,
    Key::StemSnapV,
];

/// Returns why a font breaks a rule at a key and an index by an edition, or None where it doesn't: the first of what the rule compares that is
/// against it.
pub fn font_reason(
    font: &Font<'_>,
    rule: Rule,
    key: u8,
    index: u32,
    edition: Edition,
) -> Option<Reason>
    ensures { result ≡ font_reason edition font.now rule key index }
{
    match rule {
        Rule::F01
        | Rule::F02
        | Rule::F09
        | Rule::F10
        | Rule::F12
        | Rule::F13
        | Rule::F23
        | Rule::F24
        | Rule::F25
        | Rule::F26
        | Rule::F28
        | Rule::F29 => told_reason(font, rule, key, index, edition),
        Rule::F03 => entry_reason(rule, font, key_among(&[Key::FontType], key)?, index),
        Rule::F04 => entry_reason(rule, font, key_among(&[Key::PaintType], key)?, index),
        Rule::F05 => entry_reason(rule, font, key_among(&ID_KEYS, key)?, index),
        Rule::F06 => ids_reason(font, key_among(&[Key::PrivateUniqueId], key)?, index),
        Rule::F07 => entry_reason(rule, font, key_among(&[Key::Password], key)?, index),
        Rule::F08 => feature_reason(font, key_among(&[Key::MinFeature], key)?, index),
        Rule::F11 => form_reason(font, key, index),
        Rule::F14 => subr_reason(font, key, index),
        Rule::F22 | Rule::F27 if edition.has_latest_rules() => latest_reason(
            font, rule, key, index,
        ),
        Rule::Z01 => kind_reason(font, key_among(&HINT_KEYS, key)?, index),
        Rule::Z02 => excess_reason(font, key_among(&ZONE_KEYS, key)?, index),
        Rule::Z03 => odd_reason(font, key_among(&ZONE_KEYS, key)?, index),
        Rule::Z04 => fall_reason(numbers_at(font, key_among(&ZONE_KEYS, key)?), index),
        Rule::Z05 => gap_reason(font, key_among(&ZONE_KEYS, key)?, index),
        Rule::Z06 => meeting_reason(font, key_among(&LOW_ZONE_KEYS, key)?, index),
        Rule::Z07 => zone_reason(font, key_among(&ZONE_KEYS, key)?, index),
        Rule::Z08 => entry_reason(rule, font, key_among(&WIDTH_KEYS, key)?, index),
        Rule::Z09 => excess_reason(font, key_among(&SNAP_KEYS, key)?, index),
        Rule::Z10 => fall_reason(numbers_at(font, key_among(&SNAP_KEYS, key)?), index),
        Rule::Z11 => width_reason(font, key_among(&SNAP_KEYS, key)?, index),
        _ if edition.has_later_rules() => later_reason(font, rule, key, index, edition),
        _ => None,
    }
}

/// Why a font breaks a rule that tells where, and of what.
pub(crate) fn told_reason(
    font: &Font<'_>,
    rule: Rule,
    key: u8,
    index: u32,
    edition: Edition,
) -> Option<Reason>
    ensures { result ≡ first_in_font_row (told_font_row edition rule) font.now key index }
{
    if font_faults(font, key, index, edition).has(rule) {
        Some(told_in_font(rule, font, key, index))
    } else {
        None
    }
}

fn told_in_font(rule: Rule, font: &Font<'_>, key: u8, index: u32) -> Reason
    ensures { result ≡ told_in_font rule font.now key index }
{
    match rule {
        Rule::F09 => Reason::Glyphs {
            count: font.glyphs().len(),
        },
        Rule::F10 => Reason::Glyph { glyph: index },
        Rule::F13 => Reason::Code { code: index },
        Rule::F21 => last_token_of(font, index),
        Rule::F23 => last_given(font, key),
        Rule::F24 => unread_word(font),
        Rule::F25 => unpaired_word(font),
        Rule::F26 => unknown_word(font),
        Rule::F28 => private_unbegun(font),
        Rule::F29 => Reason::FirstLine,
        _ => Reason::Nothing,
    }
}

/// The last token of a Subr.
fn last_token_of(font: &Font<'_>, number: u32) -> Reason
    ensures { result ≡ last_token_of font.now (lookup (nat_eq number) font.now.subrs) }
{
    match font.subr(number) {
        Some(code) => Reason::LastToken {
            token: last_token(font, code),
        },
        None => Reason::Nothing,
    }
}

/// The list of high zones beside one of low zones.
pub(crate) fn high_of(low: Key) -> Key
    ensures { result ≡ high_of low }
{
    match low {
        Key::OtherBlues => Key::BlueValues,
        Key::FamilyOtherBlues => Key::FamilyBlues,
        other => other,
    }
}

/// The standard width beside a list of stem snaps.
pub(crate) fn width_of(snaps: Key) -> Key
    ensures { result ≡ width_of snaps }
{
    match snaps {
        Key::StemSnapH => Key::StdHw,
        Key::StemSnapV => Key::StdVw,
        other => other,
    }
}

/// Why the UniqueID of the Private dictionary breaks F06 at an index.
fn ids_reason(font: &Font<'_>, key: Key, index: u32) -> Option<Reason>
    ensures { result ≡ find are_two_ids (ids_at font.now key index) }
{
    if index != 0 {
        return None;
    }
    two_ids(font.value(Key::UniqueId), font.value(key))
}

/// Two UniqueIDs, where they are numbers that differ.
fn two_ids(clear: &Entry, private: &Entry) -> Option<Reason>
    ensures { result ≡ find are_two_ids (ids_of (entry_view clear.now) (entry_view private.now)) }
{
    match (clear, private) {
        (Entry::Number(clear), Entry::Number(private)) => {
            (clear != private).then_some(Reason::Ids {
                clear: *clear,
                private: *private,
            })
        }
        _ => None,
    }
}

/// Why MinFeature breaks F08 at an index.
fn feature_reason(font: &Font<'_>, key: Key, index: u32) -> Option<Reason>
    ensures { result ≡ find is_unusual_feature (features_at font.now key index) }
{
    let value = font.value(key);
    if index == 0 && !is_sixteen_twice(value) {
        Some(features_in(value))
    } else {
        None
    }
}

/// What MinFeature is, and its first two numbers.
fn features_in(value: &Entry) -> Reason
    ensures { result ≡ features_in (entry_view value.now) }
{
    let found = found_in(value);
    if let Entry::Numbers { first, .. } = value {
        if let [one, two, ..] = first.as_slice() {
            return Reason::Features {
                found,
                one: *one,
                two: *two,
            };
        }
    }
    Reason::Features {
        found,
        one: 0,
        two: 0,
    }
}

/// Why the Encoding breaks F11 at an index.
fn form_reason(font: &Font<'_>, key: u8, index: u32) -> Option<Reason>
    ensures { result ≡ find is_unknown_form (at_key encoding_key forms_at font.now key index) }
{
    if !has_kind(key, KeyKind::Encoding) || index != 0 {
        return None;
    }
    let encoding = font.encoding();
    match encoding {
        Encoding::Absent | Encoding::Other => Some(Reason::Form { encoding }),
        Encoding::Standard | Encoding::Custom => None,
    }
}

/// Why the Subrs break F14 at an index.
fn subr_reason(font: &Font<'_>, key: u8, number: u32) -> Option<Reason>
    ensures { result ≡ find is_wrong_subr (at_key subrs_key subrs_in font.now key number) }
{
    (has_kind(key, KeyKind::Subrs) && is_wrong_subr(font, number)).then_some(Reason::SubrEntry {
        number,
        twice: font.subr_twice(number),
        size: font.subr_size(),
    })
}

/// Why a hint entry breaks Z01 at an index.
fn kind_reason(font: &Font<'_>, key: Key, index: u32) -> Option<Reason>
    ensures { result ≡ find is_misfit (kinds_at font.now key index) }
{
    let value = font.value(key);
    if is_of_another_kind(key, value, index) {
        Some(Reason::Kind {
            found: found_in(value),
            wanted: wanted_at(key),
        })
    } else {
        None
    }
}

/// What a hint entry should be.
fn wanted_at(key: Key) -> EntryKind
    ensures { result ≡ wanted_at key }
{
    match key {
        Key::BlueScale | Key::BlueShift | Key::BlueFuzz => EntryKind::Number,
        _ => EntryKind::Numbers,
    }
}

/// Why a list breaks Z02 or Z09 at an index.
fn excess_reason(font: &Font<'_>, key: Key, index: u32) -> Option<Reason>
    ensures { result ≡ find is_excess (excess_at font.now key index) }
{
    let value = font.value(key);
    has_too_many(key, value, index).then_some(Reason::TooMany {
        count: count_in(value),
        most: list_limit_of(key),
    })
}

/// Why a list breaks Z03 at an index.
fn odd_reason(font: &Font<'_>, key: Key, index: u32) -> Option<Reason>
    ensures { result ≡ find is_odd (counts_at font.now key index) }
{
    let value = font.value(key);
    has_odd_count(value, index).then_some(Reason::Numbers {
        count: count_in(value),
    })
}

/// Why a list breaks Z04 or Z10 at an index.
fn fall_reason(numbers: &[i64], index: u32) -> Option<Reason>
    ensures { result ≡ find falls (falls_in numbers.now index) }
{
    let place = index as usize;
    if falls_at(numbers, place) {
        Some(Reason::Following {
            before: numbers[place - 1],
            number: numbers[place],
        })
    } else {
        None
    }
}

/// Why a list of zones breaks Z05 at an index.
fn gap_reason(font: &Font<'_>, key: Key, index: u32) -> Option<Reason>
    ensures { result ≡ find is_near (gap_in (distance font.now) (numbers_at font.now key) index) }
{
    let numbers = numbers_at(font, key);
    let place = index as usize;
    if is_too_near(font, numbers, place) {
        Some(Reason::Gap {
            upper: numbers[place - 1],
            lower: numbers[place],
            distance: distance(font),
        })
    } else {
        None
    }
}

/// Why a list of low zones breaks Z06 at an index.
fn meeting_reason(font: &Font<'_>, low: Key, index: u32) -> Option<Reason>
    ensures { result ≡ find are_near (meetings_at font.now low index) }
{
    meeting_in(
        distance(font),
        numbers_at(font, low),
        numbers_at(font, high_of(low)),
        index,
    )
}

/// The first of the other zones that the zone of this index is too near to.
fn meeting_in(distance: i128, numbers: &[i64], others: &[i64], index: u32) -> Option<Reason>
    ensures { result ≡ find are_near (meetings_in distance numbers.now others.now index) }
{
    let place = index as usize;
    if place % 2 == 1 || place + 1 >= numbers.len() {
        return None;
    }
    let own = Edges {
        lower: numbers[place],
        upper: numbers[place + 1],
    };
    near_among(distance, own, others)
}

/// The first of the other zones that a zone is too near to.
fn near_among(distance: i128, own: Edges, others: &[i64]) -> Option<Reason>
    ensures { result ≡ find are_near (beside_zones distance own (zones_in others.now)) }
{
    let mut rest = others;
    while let [lower, upper, after @ ..] = rest {
        let other = Edges {
            lower: *lower,
            upper: *upper,
        };
        if let Some(reason) = near_zones(distance, own, other) {
            return Some(reason);
        }
        rest = after;
    }
    None
}

/// Two zones, where they are nearer to one another than the distance.
fn near_zones(distance: i128, own: Edges, other: Edges) -> Option<Reason>
    ensures { result ≡ find are_near (TwoZones own other distance ∷ []) }
{
    if difference(other.lower, own.upper) < distance
        && difference(own.lower, other.upper) < distance
    {
        Some(Reason::Zones {
            own,
            other,
            distance,
        })
    } else {
        None
    }
}

/// Why a list of zones breaks Z07 at an index.
fn zone_reason(font: &Font<'_>, key: Key, index: u32) -> Option<Reason>
    ensures { result ≡ find reaches_one (zone_in (scale font.now) (numbers_at font.now key) index) }
{
    let numbers = numbers_at(font, key);
    let place = index as usize;
    if is_too_high(font, numbers, place) {
        Some(Reason::Zone {
            lower: numbers[place - 1],
            upper: numbers[place],
            scale: scale(font),
        })
    } else {
        None
    }
}

/// Why a list of stem snaps breaks Z11 at an index.
fn width_reason(font: &Font<'_>, snaps: Key, index: u32) -> Option<Reason>
    ensures { result ≡ find is_apart (widths_at font.now snaps index) }
{
    if index != 0 {
        return None;
    }
    first_apart(
        first_in(1, font.value(width_of(snaps))),
        numbers_at(font, snaps),
    )
}

/// The first width and the snap that is nearest to it, where they differ.
fn first_apart(widths: &[i64], snaps: &[i64]) -> Option<Reason>
    ensures { result ≡ find is_apart (widths_in widths.now snaps.now) }
{
    let [width, ..] = widths else {
        return None;
    };
    let [snap, others @ ..] = snaps else {
        return None;
    };
    apart_from(*width, nearest(*width, *snap, others))
}

fn apart_from(width: i64, nearest: i64) -> Option<Reason>
    ensures { result ≡ find is_apart (Width width nearest ∷ []) }
{
    (width != nearest).then_some(Reason::Width { width, nearest })
}

/// The snap that is nearest to a width, the first of these.
fn nearest(width: i64, snap: i64, snaps: &[i64]) -> i64
    ensures { result ≡ nearest width snap snaps.now }
{
    let mut best = snap;
    let mut rest = snaps;
    while let [other, others @ ..] = rest {
        best = nearer(width, best, *other);
        rest = others;
    }
    best
}

/// The nearer of two snaps.
fn nearer(width: i64, one: i64, other: i64) -> i64
    ensures { result ≡ nearer width one other }
{
    if apart(width, other) < apart(width, one) {
        other
    } else {
        one
    }
}

fn apart(one: i64, other: i64) -> u64
    ensures { result ≡ apart one other }
{
    one.abs_diff(other)
}
