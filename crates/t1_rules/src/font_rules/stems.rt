//! The rules on standard widths and stem snaps: Type 1 Font Format 1.1, chapter 5.

ghost use Rattle.std.specs.Prelude.{◌≡◌, ℕ};
ghost use Rattle.t1_font.specs.Entries.{entry_view};
ghost use Rattle.t1_rules.specs.FontRules.Stems.{is_not_above_zero, is_not_among, is_not_one_width, lacks_snap};
ghost use Rattle.t1_rules.specs.Mask.{has};
ghost use Rattle.t1_rules.specs.Private.KeyTests.{broken_among, later_snap_tests, sign_tests, snap_tests, width_tests};

use crate::font_rules::hints::{
    falls_at, has_too_many, is_of_another_kind, list_limit_of, repeats_at,
};
use crate::font_rules::values::{first_in, is_so_many};
use crate::mask::Mask;
use crate::rule::Rule;
use t1_font::{Entry, Font, Key};

/// Whether a value is numbers, and not one.
pub fn is_not_one_width(value: &Entry) -> bool
    ensures { result ≡ is_not_one_width (entry_view value.now) }
{
    match value {
        Entry::Numbers { count, .. } => *count != 1,
        Entry::Absent | Entry::Number(_) | Entry::Other => false,
    }
}

/// Whether there are snaps, and the first width isn't one of them.
fn is_not_among(widths: &[i64], snaps: &[i64]) -> bool
    ensures { result ≡ is_not_among widths.now snaps.now }
{
    match widths {
        [width, ..] => !snaps.is_empty() && !snaps.contains(width),
        [] => false,
    }
}

/// What a standard width breaks at an index.
pub(crate) fn width_faults(font: &Font<'_>, key: Key, index: u32) -> Mask
    ensures { (n : ℕ) → has result n ≡ broken_among (width_tests font.now key index) n }
{
    let value = font.value(key);
    Mask::empty()
        .with(Rule::Z08, (index == 0) & is_not_one_width(value))
        .with(Rule::Z01, is_of_another_kind(key, value, index))
}

/// What a list of stem snaps, beside a standard width, breaks at an index.
pub(crate) fn snap_faults(font: &Font<'_>, key: Key, width: Key, index: u32) -> Mask
    ensures { (n : ℕ) → has result n ≡ broken_among (snap_tests font.now key width index) n }
{
    let value = font.value(key);
    let snaps = first_in(list_limit_of(key), value);
    let width = font.value(width);
    let widths = first_in(1, width);
    Mask::empty()
        .with(Rule::Z11, (index == 0) & is_not_among(widths, snaps))
        .with(Rule::Z10, falls_at(snaps, index as usize))
        .with(Rule::Z09, has_too_many(key, value, index))
        .with(Rule::Z01, is_of_another_kind(key, value, index))
}

/// Whether the first width is 0 or less.
fn is_not_above_zero(widths: &[i64]) -> bool
    ensures { result ≡ is_not_above_zero widths.now }
{
    match widths {
        [width, ..] => *width <= 0,
        [] => false,
    }
}

/// Whether there is a width, and a list of stem snaps without a number.
fn lacks_snap(widths: &[i64], value: &Entry) -> bool
    ensures { result ≡ lacks_snap widths.now (entry_view value.now) }
{
    match widths {
        [_, ..] => is_so_many(0, value),
        [] => false,
    }
}

/// What a standard width breaks of the later rules at an index.
pub(crate) fn sign_faults(font: &Font<'_>, key: Key, index: u32) -> Mask
    ensures { (n : ℕ) → has result n ≡ broken_among (sign_tests font.now key index) n }
{
    let widths = first_in(1, font.value(key));
    Mask::empty().with(Rule::Z13, (index == 0) & is_not_above_zero(widths))
}

/// What a list of stem snaps, beside a standard width, breaks of them.
pub(crate) fn later_snap_faults(font: &Font<'_>, key: Key, width: Key, index: u32) -> Mask
    ensures { (n : ℕ) → has result n ≡ broken_among (later_snap_tests font.now key width index) n }
{
    let value = font.value(key);
    let snaps = first_in(list_limit_of(key), value);
    let widths = first_in(1, font.value(width));
    Mask::empty()
        .with(Rule::Z16, (index == 0) & lacks_snap(widths, value))
        .with(Rule::Z15, repeats_at(snaps, index as usize))
}
