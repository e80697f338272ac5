//! Reasons in the entries of a font of the rules after number 70.

ghost use Rattle.std.specs.Prelude.{◌≡◌, if◌then◌else◌, [], ◌∷◌};
ghost use Rattle.std.specs.List.{find};
ghost use Rattle.t1_font.specs.Entries.{entry_view};
ghost use Rattle.t1_reasons.specs.FontReasons.{are_exchanged, corners_at, corners_of, falls_in, first_in_font_row, first_of, first_widths_at, is_wrong_listed, is_wrong_number, later_font_row, listed_in, repeats, unsnapped_at};
ghost use Rattle.t1_reasons.specs.StepReasons.{is_any};
ghost use Rattle.t1_reasons.specs.declared.reason.Reason.TheVariants.{Corners, Number};
ghost use Rattle.t1_rules.specs.FontRules.Values.{first_in, is_so_many};
ghost use Rattle.t1_rules.specs.declared.rule.Rule.TheVariants.{Z13};

use crate::entry_reasons::entry_reason;
use crate::font_reasons::{SNAP_KEYS, WIDTH_KEYS, ZONE_KEYS, told_reason, width_of};
use crate::reason::Reason;
use t1_char::Edition;
use t1_font::{Entry, Font, Key};
use t1_rules::{Rule, first_in, is_id, is_so_many, is_whole, key_among, numbers_at, repeats_at};

/// How many numbers of an XUID are looked at.
const MOST_XUID: usize = 16;

/// Why a font breaks a rule in an edition that has those after number 70.
pub(crate) fn later_reason(
    font: &Font<'_>,
    rule: Rule,
    key: u8,
    index: u32,
    edition: Edition,
) -> Option<Reason>
    ensures { result ≡ first_in_font_row (later_font_row edition rule) font.now key index }
{
    match rule {
        Rule::F15 => entry_reason(rule, font, key_among(&[Key::FontMatrix], key)?, index),
        Rule::F16 => entry_reason(rule, font, key_among(&[Key::FontBBox], key)?, index),
        Rule::F17 => corner_reason(font.value(key_among(&[Key::FontBBox], key)?), index),
        Rule::F18 => entry_reason(rule, font, key_among(&[Key::Xuid], key)?, index),
        Rule::F19 => {
            let numbers = first_in(MOST_XUID, font.value(key_among(&[Key::Xuid], key)?));
            listed_reason(rule, numbers, index)
        }
        Rule::F20 => entry_reason(rule, font, key_among(&[Key::LanguageGroup], key)?, index),
        Rule::F21 => told_reason(font, rule, key, index, edition),
        Rule::Z12 => entry_reason(rule, font, key_among(&[Key::BlueValues], key)?, index),
        Rule::Z13 => width_reason(font, key_among(&WIDTH_KEYS, key)?, index),
        Rule::Z14 => listed_reason(rule, numbers_at(font, key_among(&ZONE_KEYS, key)?), index),
        Rule::Z15 => repeat_reason(numbers_at(font, key_among(&SNAP_KEYS, key)?), index),
        Rule::Z16 => snap_reason(font, key_among(&SNAP_KEYS, key)?, index),
        Rule::Z17 => entry_reason(rule, font, key_among(&[Key::BlueScale], key)?, index),
        Rule::Z18 => entry_reason(rule, font, key_among(&[Key::BlueShift], key)?, index),
        Rule::Z19 => entry_reason(rule, font, key_among(&[Key::BlueFuzz], key)?, index),
        _ => None,
    }
}

/// Why FontBBox breaks F17 at an index.
fn corner_reason(value: &Entry, index: u32) -> Option<Reason>
    ensures { result ≡ find are_exchanged (if is_so_many 4 (entry_view value.now) then corners_of (first_in 4 (entry_view value.now)) index else []) }
{
    match first_in(4, value) {
        [left, _, right, _] if is_so_many(4, value) && index == 0 => exchanged(*left, *right),
        [_, lower, _, upper] if is_so_many(4, value) && index == 1 => exchanged(*lower, *upper),
        _ => None,
    }
}

fn exchanged(first: i64, last: i64) -> Option<Reason>
    ensures { result ≡ find are_exchanged (Corners first last ∷ []) }
{
    (last < first).then_some(Reason::Corners { first, last })
}

/// Why a list breaks F19 or Z14 at an index.
fn listed_reason(rule: Rule, numbers: &[i64], index: u32) -> Option<Reason>
    ensures { result ≡ find (is_wrong_listed rule) (listed_in numbers.now index) }
{
    let place = index as usize;
    if place >= numbers.len() {
        return None;
    }
    wrong_number(rule, numbers[place])
}

/// A number, where it is against a rule.
fn wrong_number(rule: Rule, number: i64) -> Option<Reason>
    ensures { result ≡ find (is_wrong_listed rule) (Number number ∷ []) }
{
    is_wrong_number(rule, number).then_some(Reason::Number { number })
}

fn is_wrong_number(rule: Rule, number: i64) -> bool
    ensures { result ≡ is_wrong_number rule number }
{
    match rule {
        Rule::F19 => !is_id(number),
        Rule::Z13 => number <= 0,
        Rule::Z14 => !is_whole(number),
        _ => false,
    }
}

/// Why a standard width breaks Z13 at an index.
fn width_reason(font: &Font<'_>, key: Key, index: u32) -> Option<Reason>
    ensures { result ≡ find (is_wrong_listed Z13) (first_widths_at font.now key index) }
{
    if index != 0 {
        return None;
    }
    let width = first_in(1, font.value(key)).first()?;
    wrong_number(Rule::Z13, *width)
}

/// Why a list of stem snaps breaks Z15 at an index.
fn repeat_reason(numbers: &[i64], index: u32) -> Option<Reason>
    ensures { result ≡ find repeats (falls_in numbers.now index) }
{
    let place = index as usize;
    if repeats_at(numbers, place) {
        Some(Reason::Following {
            before: numbers[place - 1],
            number: numbers[place],
        })
    } else {
        None
    }
}

/// Why a list of stem snaps breaks Z16 at an index.
fn snap_reason(font: &Font<'_>, key: Key, index: u32) -> Option<Reason>
    ensures { result ≡ find is_any (unsnapped_at font.now key index) }
{
    if index != 0 || !is_so_many(0, font.value(key)) {
        return None;
    }
    let width = first_in(1, font.value(width_of(key))).first()?;
    Some(Reason::Number { number: *width })
}
