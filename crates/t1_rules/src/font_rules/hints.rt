//! What the rules on hint entries share: Type 1 Font Format 1.1, chapter 5.

ghost use Rattle.std.specs.Prelude.{◌≡◌, ℕ};
ghost use Rattle.t1_font.specs.Entries.{entry_view};
ghost use Rattle.t1_rules.specs.FontRules.Hints.{falls_at, has_fraction_at, has_too_many, is_of_another_kind, is_of_kind, is_past_fuzzes, is_past_scales, is_past_shifts, numbers_at, repeats_at};
ghost use Rattle.t1_font.specs.declared.key.Key.TheVariants as keys;
ghost use Rattle.t1_rules.specs.FontRules.{later_font_rules, violated};
ghost use Rattle.t1_rules.specs.FontRules.Values.{is_number_so};
ghost use Rattle.t1_rules.specs.Keys.{key_number, list_limit_of};
ghost use Rattle.t1_rules.specs.Mask.{has};
ghost use Rattle.t1_rules.specs.Private.KeyTests.{blue_tests, broken_among, number_tests, whole_tests};

use crate::font_rules::values::{count_in, first_in, is_whole};
use crate::mask::Mask;
use crate::rule::Rule;
use t1_font::{BILLION, Entry, Font, Key};

/// Returns how many numbers a list of zones or stem snaps has at most; 0 at other keys.
pub fn list_limit_of(key: Key) -> usize
    ensures { result ≡ list_limit_of key }
{
    match key {
        Key::BlueValues | Key::FamilyBlues => 14,
        Key::OtherBlues | Key::FamilyOtherBlues => 10,
        Key::StemSnapH | Key::StemSnapV => 12,
        _ => 0,
    }
}

/// Returns the numbers of a list of zones or stem snaps that the rules look at, in units of 10^-9: as many as the list's limit at
/// most. There are none at other keys.
pub fn numbers_at<'f>(font: &'f Font<'_>, key: Key) -> &'f [i64]
    ensures { result.now ≡ numbers_at font.now key }
{
    first_in(list_limit_of(key), font.value(key))
}

/// Whether a value is of the kind that a hint entry has.
fn is_of_kind(key: Key, value: &Entry) -> bool
    ensures { result ≡ is_of_kind key (entry_view value.now) }
{
    match key {
        Key::BlueScale | Key::BlueShift | Key::BlueFuzz => matches!(value, Entry::Number(_)),
        _ => matches!(value, Entry::Numbers { .. }),
    }
}

/// Whether a hint entry is there, and of another kind than it should be, where the index is 0.
pub fn is_of_another_kind(key: Key, value: &Entry, index: u32) -> bool
    ensures { result ≡ is_of_another_kind key (entry_view value.now) index }
{
    index == 0 && !matches!(value, Entry::Absent) && !is_of_kind(key, value)
}

/// Whether a list has too many numbers, where the index is the first that is too much.
pub fn has_too_many(key: Key, value: &Entry, index: u32) -> bool
    ensures { result ≡ has_too_many key (entry_view value.now) index }
{
    let limit = list_limit_of(key);
    index as usize == limit && limit < count_in(value)
}

/// Whether a number of a list follows another here, and is less.
pub fn falls_at(numbers: &[i64], index: usize) -> bool
    ensures { result ≡ falls_at numbers.now index }
{
    0 < index && index < numbers.len() && numbers[index] < numbers[index - 1]
}

/// What a hint entry that is a number breaks at an index.
pub(crate) fn number_faults(font: &Font<'_>, key: Key, index: u32) -> Mask
    ensures { (n : ℕ) → has result n ≡ broken_among (number_tests font.now key index) n }
{
    let value = font.value(key);
    Mask::empty().with(Rule::Z01, is_of_another_kind(key, value, index))
}

/// Whether a number here has a fraction.
fn has_fraction_at(numbers: &[i64], index: usize) -> bool
    ensures { result ≡ has_fraction_at numbers.now index }
{
    index < numbers.len() && !is_whole(numbers[index])
}

/// Whether a number of a list follows an equal one here.
pub fn repeats_at(numbers: &[i64], index: usize) -> bool
    ensures { result ≡ repeats_at numbers.now index }
{
    0 < index && index < numbers.len() && numbers[index] == numbers[index - 1]
}

/// Half of one.
const HALF: i64 = BILLION / 2;

/// Whether a value is a number that no BlueScale has: 0 or less, or above 0.5.
pub fn is_past_scales(value: &Entry) -> bool
    ensures { result ≡ is_number_so is_past_scales (entry_view value.now) }
{
    match value {
        Entry::Number(number) => *number <= 0 || *number > HALF,
        Entry::Absent | Entry::Numbers { .. } | Entry::Other => false,
    }
}

/// Whether a value is a number that no BlueShift has: negative, or with a fraction.
pub fn is_past_shifts(value: &Entry) -> bool
    ensures { result ≡ is_number_so is_past_shifts (entry_view value.now) }
{
    match value {
        Entry::Number(number) => *number < 0 || !is_whole(*number),
        Entry::Absent | Entry::Numbers { .. } | Entry::Other => false,
    }
}

/// Whether a value is a number that no BlueFuzz has: none of the whole ones from 0 to 10.
pub fn is_past_fuzzes(value: &Entry) -> bool
    ensures { result ≡ is_number_so is_past_fuzzes (entry_view value.now) }
{
    match value {
        Entry::Number(number) => {
            !(*number >= 0 && *number % BILLION == 0 && *number <= 10 * BILLION)
        }
        Entry::Absent | Entry::Numbers { .. } | Entry::Other => false,
    }
}

/// What a list of zones breaks of the later rules at an index.
pub(crate) fn whole_faults(font: &Font<'_>, key: Key, index: u32) -> Mask
    ensures { (n : ℕ) → has result n ≡ broken_among (whole_tests font.now key index) n }
{
    let numbers = numbers_at(font, key);
    Mask::empty().with(Rule::Z14, has_fraction_at(numbers, index as usize))
}

/// What BlueValues break of them.
pub(crate) fn blue_faults(font: &Font<'_>, index: u32) -> Mask
    ensures { (n : ℕ) → has result n ≡ broken_among (blue_tests font.now index) n }
{
    let is_absent = matches!(font.value(Key::BlueValues), Entry::Absent);
    whole_faults(font, Key::BlueValues, index).with(Rule::Z12, (index == 0) & is_absent)
}

/// What BlueScale breaks of them.
#[tactic(auto, unfolding(crate::specs::FontRules::later_font_rules))]
pub(crate) fn scale_faults(font: &Font<'_>, index: u32) -> Mask
    ensures { (n : ℕ) → has result n ≡ violated later_font_rules n font.now (key_number keys.BlueScale) index }
{
    let is_past_scales = is_past_scales(font.value(Key::BlueScale));
    Mask::empty().with(Rule::Z17, (index == 0) & is_past_scales)
}

/// What BlueShift breaks of them.
#[tactic(auto, unfolding(crate::specs::FontRules::later_font_rules))]
pub(crate) fn shift_faults(font: &Font<'_>, index: u32) -> Mask
    ensures { (n : ℕ) → has result n ≡ violated later_font_rules n font.now (key_number keys.BlueShift) index }
{
    let is_past_shifts = is_past_shifts(font.value(Key::BlueShift));
    Mask::empty().with(Rule::Z18, (index == 0) & is_past_shifts)
}

/// What BlueFuzz breaks of them.
#[tactic(auto, unfolding(crate::specs::FontRules::later_font_rules))]
pub(crate) fn fuzz_faults(font: &Font<'_>, index: u32) -> Mask
    ensures { (n : ℕ) → has result n ≡ violated later_font_rules n font.now (key_number keys.BlueFuzz) index }
{
    let is_past_fuzzes = is_past_fuzzes(font.value(Key::BlueFuzz));
    Mask::empty().with(Rule::Z19, (index == 0) & is_past_fuzzes)
}
