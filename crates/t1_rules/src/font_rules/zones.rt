//! The rules on alignment zones: Type 1 Font Format 1.1, chapter 5. A zone is a pair of numbers, its lower
//! and its upper edge. Numbers are in units of 10^-9.

ghost use Rattle.std.specs.Prelude.{◌≡◌, ℕ, ◌*ℤ◌, ◌-ℤ◌, int_le};
ghost use Rattle.std.specs.List.{list_any};
ghost use Rattle.t1_font.specs.Entries.{entry_view};
ghost use Rattle.t1_rules.specs.FontRules.Values.{product_one};
ghost use Rattle.t1_rules.specs.FontRules.Zones.{begins_zone, come_near, distance, has_odd_count, is_too_high, is_too_near, meets, scale, zones};
ghost use Rattle.t1_rules.specs.Mask.{has};
ghost use Rattle.t1_rules.specs.Private.Edges.{zone_of};
ghost use Rattle.t1_rules.specs.Private.KeyTests.{broken_among, high_zone_tests, low_zone_tests, zone_tests};

use crate::font_rules::hints::{falls_at, has_too_many, is_of_another_kind, list_limit_of};
use crate::font_rules::values::{count_in, first_in, number_or};
use crate::mask::Mask;
use crate::rule::Rule;
use t1_font::{BILLION, Entry, Font, Key};

/// One, in the unit of a product of two numbers.
const PRODUCT_ONE: i128 = BILLION as i128 * BILLION as i128;

/// BlueScale where the font doesn't state it: 0.039625.
const USUAL_SCALE: i64 = 39_625_000;

/// The edges of a zone, in units of 10^-9.
#[derive(Clone, Copy, Debug, PartialEq, Eq)]
pub struct Edges {
    pub lower: i64,
    pub upper: i64,
}

/// The distance that zones keep: twice BlueFuzz and one, in units of 10^-9. BlueFuzz is 1 where it isn't a number.
pub fn distance(font: &Font<'_>) -> i128
    ensures { result ≡ distance font.now }
{
    2 * i128::from(number_or(BILLION, font.value(Key::BlueFuzz))) + i128::from(BILLION)
}

/// BlueScale, in units of 10^-9. It is 0.039625 where it isn't a number.
pub fn scale(font: &Font<'_>) -> i64
    ensures { result ≡ scale font.now }
{
    number_or(USUAL_SCALE, font.value(Key::BlueScale))
}

/// Returns how far a number is above another.
pub fn difference(above: i64, below: i64) -> i128
    ensures { result ≡ above -ℤ below }
{
    i128::from(above) - i128::from(below)
}

/// Whether a zone's first number is here.
fn begins_zone(numbers: &[i64], index: usize) -> bool
    ensures { result ≡ begins_zone numbers.now index }
{
    index % 2 == 0 && index < numbers.len() && index + 1 < numbers.len()
}

/// Whether a zone begins here that is nearer to the one before it than the distance that zones keep.
pub fn is_too_near(font: &Font<'_>, numbers: &[i64], index: usize) -> bool
    ensures { result ≡ is_too_near (distance font.now) numbers.now index }
{
    0 < index
        && begins_zone(numbers, index)
        && difference(numbers[index], numbers[index - 1]) < distance(font)
}

/// Whether two zones are nearer to one another than the distance.
fn come_near(distance: i128, one: Edges, other: Edges) -> bool
    ensures { result ≡ come_near distance (zone_of one) (zone_of other) }
{
    difference(other.lower, one.upper) < distance && difference(one.lower, other.upper) < distance
}

/// Whether a zone comes near to one of a list.
fn comes_near_one(distance: i128, zone: Edges, others: &[i64]) -> bool
    ensures { result ≡ list_any (come_near distance (zone_of zone)) (zones others.now) }
{
    let mut rest = others;
    while let [lower, upper, after @ ..] = rest {
        let other = Edges {
            lower: *lower,
            upper: *upper,
        };
        if come_near(distance, zone, other) {
            return true;
        }
        rest = after;
    }
    false
}

/// Whether a zone begins here that comes near to one of another list.
fn meets(font: &Font<'_>, numbers: &[i64], others: &[i64], index: usize) -> bool
    ensures { result ≡ meets (distance font.now) numbers.now others.now index }
{
    if !begins_zone(numbers, index) {
        return false;
    }
    let zone = Edges {
        lower: numbers[index],
        upper: numbers[index + 1],
    };
    comes_near_one(distance(font), zone, others)
}

/// Whether a height times BlueScale is 1 or more.
fn reaches_one(lower: i64, upper: i64, scale: i64) -> bool
    ensures { result ≡ int_le product_one ((upper -ℤ lower) *ℤ scale) }
{
    PRODUCT_ONE <= difference(upper, lower) * i128::from(scale)
}

/// Whether the height of the zone that ends here, times BlueScale, is 1 or more.
pub fn is_too_high(font: &Font<'_>, numbers: &[i64], index: usize) -> bool
    ensures { result ≡ is_too_high (scale font.now) numbers.now index }
{
    index % 2 == 1
        && index < numbers.len()
        && reaches_one(numbers[index - 1], numbers[index], scale(font))
}

/// Whether the count of a value's numbers is odd, where the index is 0.
pub fn has_odd_count(value: &Entry, index: u32) -> bool
    ensures { result ≡ has_odd_count (entry_view value.now) index }
{
    index == 0 && count_in(value) % 2 == 1
}

/// What a list of zones breaks at an index, where it is known whether a zone meets another list's.
fn zone_faults(font: &Font<'_>, key: Key, meeting: bool, index: u32) -> Mask
    ensures { (n : ℕ) → has result n ≡ broken_among (zone_tests font.now key meeting index) n }
{
    let value = font.value(key);
    let numbers = first_in(list_limit_of(key), value);
    let place = index as usize;
    Mask::empty()
        .with(Rule::Z07, is_too_high(font, numbers, place))
        .with(Rule::Z06, meeting)
        .with(Rule::Z05, is_too_near(font, numbers, place))
        .with(Rule::Z04, falls_at(numbers, place))
        .with(Rule::Z03, has_odd_count(value, index))
        .with(Rule::Z02, has_too_many(key, value, index))
        .with(Rule::Z01, is_of_another_kind(key, value, index))
}

/// What a list of high zones breaks at an index.
pub(crate) fn high_zone_faults(font: &Font<'_>, key: Key, index: u32) -> Mask
    ensures { (n : ℕ) → has result n ≡ broken_among (high_zone_tests font.now key index) n }
{
    zone_faults(font, key, false, index)
}

/// What a list of low zones, beside one of high ones, breaks at an index.
pub(crate) fn low_zone_faults(font: &Font<'_>, low: Key, high: Key, index: u32) -> Mask
    ensures { (n : ℕ) → has result n ≡ broken_among (low_zone_tests font.now low high index) n }
{
    let low_value = font.value(low);
    let high_value = font.value(high);
    let meeting = meets(
        font,
        first_in(list_limit_of(low), low_value),
        first_in(list_limit_of(high), high_value),
        index as usize,
    );
    zone_faults(font, low, meeting, index)
}
