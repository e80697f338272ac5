//! The rules on entries of the dictionaries that are looked at alone: Type 1 Font Format 1.1, chapters 2 and 5.

ghost use Rattle.std.specs.Prelude.{◌≡◌, ◌*ℤ◌, ℕ};
ghost use Rattle.t1_font.specs.Entries.{entry_view};
ghost use Rattle.t1_font.specs.declared.key.Key.TheVariants as keys;
ghost use Rattle.t1_rules.specs.FontRules.{later_font_rules, violated};
ghost use Rattle.t1_rules.specs.FontRules.Dictionaries.{are_exchanged, has_corners_exchanged, has_equal_products, has_number_past_range, is_malformed, is_no_group, is_singular};
ghost use Rattle.t1_rules.specs.FontRules.Values.{is_so_many};
ghost use Rattle.t1_rules.specs.Keys.{key_number};
ghost use Rattle.t1_rules.specs.Mask.{has};

use crate::font_rules::ids::is_id;
use crate::font_rules::values::{first_in, is_so_many, is_the_number};
use crate::keys::XUID_PLACES;
use crate::mask::Mask;
use crate::rule::Rule;
use t1_font::{Entry, Font, Key};

/// Whether the left edge is greater than the right one; or the lower than the upper.
fn are_exchanged(edges: &[i64], index: u32) -> bool
    ensures { result ≡ are_exchanged edges.now index }
{
    match edges {
        [left, lower, right, upper] => {
            (index == 0 && right < left) || (index == 1 && upper < lower)
        }
        _ => false,
    }
}

fn has_corners_exchanged(value: &Entry, index: u32) -> bool
    ensures { result ≡ has_corners_exchanged (entry_view value.now) index }
{
    is_so_many(4, value) && are_exchanged(first_in(4, value), index)
}

/// Whether an entry is there, and has no number or isn't numbers.
pub fn is_malformed(value: &Entry) -> bool
    ensures { result ≡ is_malformed (entry_view value.now) }
{
    match value {
        Entry::Absent => false,
        Entry::Numbers { count, .. } => *count == 0,
        Entry::Number(_) | Entry::Other => true,
    }
}

/// Whether the number of an XUID at a place isn't whole, from 0 to 16777215.
fn has_number_past_range(value: &Entry, index: u32) -> bool
    ensures { result ≡ has_number_past_range (entry_view value.now) index }
{
    let numbers = first_in(XUID_PLACES as usize, value);
    let place = index as usize;
    place < numbers.len() && !is_id(numbers[place])
}

/// Whether an entry is there, and is neither 0 nor 1.
pub fn is_no_group(value: &Entry) -> bool
    ensures { result ≡ is_no_group (entry_view value.now) }
{
    !matches!(value, Entry::Absent) && !(is_the_number(0, value) || is_the_number(1, value))
}

/// Returns the product of two numbers.
fn product(one: i64, other: i64) -> i128
    ensures { result ≡ one *ℤ other }
{
    let first = i128::from(one);
    let second = i128::from(other);
    first * second
}

/// Whether the products of a matrix's diagonals are the same.
fn has_equal_products(numbers: &[i64]) -> bool
    ensures { result ≡ has_equal_products numbers.now }
{
    match numbers {
        [a, b, c, d, ..] => product(*a, *d) == product(*b, *c),
        _ => false,
    }
}

/// Whether a value is a matrix of six numbers without an inverse.
pub(crate) fn is_singular(value: &Entry) -> bool
    ensures { result ≡ is_singular (entry_view value.now) }
{
    is_so_many(6, value) && has_equal_products(first_in(6, value))
}

/// What FontMatrix breaks of the later rules at an index.
#[tactic(auto, unfolding(crate::specs::FontRules::later_font_rules))]
pub(crate) fn font_matrix_faults(font: &Font<'_>, index: u32) -> Mask
    ensures { (n : ℕ) → has result n ≡ violated later_font_rules n font.now (key_number keys.FontMatrix) index }
{
    let is_six = is_so_many(6, font.value(Key::FontMatrix));
    Mask::empty().with(Rule::F15, (index == 0) & !is_six)
}

/// What FontBBox breaks of them.
#[tactic(auto, unfolding(crate::specs::FontRules::later_font_rules))]
pub(crate) fn font_bbox_faults(font: &Font<'_>, index: u32) -> Mask
    ensures { (n : ℕ) → has result n ≡ violated later_font_rules n font.now (key_number keys.FontBBox) index }
{
    let value = font.value(Key::FontBBox);
    let is_four = is_so_many(4, value);
    Mask::empty()
        .with(Rule::F17, has_corners_exchanged(value, index))
        .with(Rule::F16, (index == 0) & !is_four)
}

/// What XUID breaks of them.
#[tactic(auto, unfolding(crate::specs::FontRules::later_font_rules))]
pub(crate) fn xuid_faults(font: &Font<'_>, index: u32) -> Mask
    ensures { (n : ℕ) → has result n ≡ violated later_font_rules n font.now (key_number keys.Xuid) index }
{
    let value = font.value(Key::Xuid);
    Mask::empty()
        .with(Rule::F19, has_number_past_range(value, index))
        .with(Rule::F18, (index == 0) & is_malformed(value))
}

/// What LanguageGroup breaks of them.
#[tactic(auto, unfolding(crate::specs::FontRules::later_font_rules))]
pub(crate) fn language_group_faults(font: &Font<'_>, index: u32) -> Mask
    ensures { (n : ℕ) → has result n ≡ violated later_font_rules n font.now (key_number keys.LanguageGroup) index }
{
    let is_no_group = is_no_group(font.value(Key::LanguageGroup));
    Mask::empty().with(Rule::F20, (index == 0) & is_no_group)
}
