//! What would do in the place of what breaks a rule: Type 1 Font Format 1.1, chapter 5.

ghost use Rattle.std.specs.Prelude.{◌≡◌, ◌-ℤ◌, Some};
ghost use Rattle.t1_reasons.specs.FontReasons.{scale_for, zones_in};
ghost use Rattle.t1_reasons.specs.Remedies.{fuzz_for, fuzz_for_all, fuzz_for_both, fuzz_from, gap_between, gaps_across, gaps_across_at, gaps_beside, gaps_in, lesser, scale_for_all, scale_from};

use crate::font_reasons::high_of;
use t1_font::{BILLION, Font, Key};
use t1_rules::{Edges, difference, numbers_at};

/// The greatest product of a height and BlueScale that is below 1, in units of 10^-18.
const GREATEST_PRODUCT: i128 = BILLION as i128 * BILLION as i128 - 1;

/// Returns the greatest BlueScale from 0 on by which no zone of the font is too high (Z07), in units of 10^-9. It is None where no zone
/// bounds it.
pub fn scale_that_does(font: &Font<'_>) -> Option<i64>
    ensures { result ≡ scale_for_all font.now }
{
    let high = scale_from(None, numbers_at(font, Key::BlueValues));
    let low = scale_from(high, numbers_at(font, Key::OtherBlues));
    let family = scale_from(low, numbers_at(font, Key::FamilyBlues));
    scale_from(family, numbers_at(font, Key::FamilyOtherBlues))
}

/// The greatest BlueScale that does for these zones, and isn't above another bound.
fn scale_from(bound: Option<i64>, numbers: &[i64]) -> Option<i64>
    ensures { result ≡ scale_from bound (zones_in numbers.now) }
{
    let mut best = bound;
    let mut rest = numbers;
    while let [lower, upper, after @ ..] = rest {
        best = scale_under(best, *lower, *upper);
        rest = after;
    }
    best
}

/// The same for one zone.
fn scale_under(bound: Option<i64>, lower: i64, upper: i64) -> Option<i64>
    ensures { result ≡ lesser bound (scale_for (upper -ℤ lower)) }
{
    lesser(bound, scale_for(lower, upper))
}

/// Returns the greatest BlueFuzz by which no zone of the font is too near to the one before it (Z05), in units of 10^-9. It is None
/// where no two zones bound it, and below 0 where none from 0 on does.
pub fn fuzz_that_does(font: &Font<'_>) -> Option<i64>
    ensures { result ≡ fuzz_for_all font.now }
{
    let high = fuzz_from(None, numbers_at(font, Key::BlueValues));
    let low = fuzz_from(high, numbers_at(font, Key::OtherBlues));
    let family = fuzz_from(low, numbers_at(font, Key::FamilyBlues));
    fuzz_from(family, numbers_at(font, Key::FamilyOtherBlues))
}

/// The greatest BlueFuzz that does for the zones of these numbers, and isn't above another bound.
fn fuzz_from(bound: Option<i64>, numbers: &[i64]) -> Option<i64>
    ensures { result ≡ fuzz_from bound (gaps_in numbers.now) }
{
    let mut best = bound;
    let mut rest = numbers;
    while let [_, upper, lower, _, ..] = rest {
        best = fuzz_under(best, *upper, *lower);
        rest = &rest[2..];
    }
    best
}

/// Returns the greatest BlueFuzz by which no low zone of the font is too near to a high one (Z06), in units of 10^-9. It is None where
/// there are no two such zones, and below 0 where none from 0 on does.
pub fn fuzz_across(font: &Font<'_>) -> Option<i64>
    ensures { result ≡ fuzz_for_both font.now }
{
    let own = fuzz_between(None, font, Key::OtherBlues);
    fuzz_between(own, font, Key::FamilyOtherBlues)
}

/// The greatest BlueFuzz that does for the zones of a list of low ones and of the list of high ones beside it, and isn't above another bound.
fn fuzz_between(bound: Option<i64>, font: &Font<'_>, low: Key) -> Option<i64>
    ensures { result ≡ fuzz_from bound (gaps_across_at font.now low) }
{
    fuzz_among(bound, numbers_at(font, low), numbers_at(font, high_of(low)))
}

/// The same by their numbers.
fn fuzz_among(bound: Option<i64>, lows: &[i64], highs: &[i64]) -> Option<i64>
    ensures { result ≡ fuzz_from bound (gaps_across (zones_in lows.now) (zones_in highs.now)) }
{
    let mut best = bound;
    let mut rest = lows;
    while let [lower, upper, after @ ..] = rest {
        let own = Edges {
            lower: *lower,
            upper: *upper,
        };
        best = fuzz_beside(best, own, highs);
        rest = after;
    }
    best
}

/// The same for one low zone.
fn fuzz_beside(bound: Option<i64>, own: Edges, highs: &[i64]) -> Option<i64>
    ensures { result ≡ fuzz_from bound (gaps_beside own (zones_in highs.now)) }
{
    let mut best = bound;
    let mut rest = highs;
    while let [lower, upper, after @ ..] = rest {
        let other = Edges {
            lower: *lower,
            upper: *upper,
        };
        best = fuzz_of_two(best, own, other);
        rest = after;
    }
    best
}

/// The same for two zones, whichever is the lower one.
fn fuzz_of_two(bound: Option<i64>, own: Edges, other: Edges) -> Option<i64>
    ensures { result ≡ lesser bound (Some (fuzz_for (gap_between own other))) }
{
    let below = difference(other.lower, own.upper);
    let above = difference(own.lower, other.upper);
    if below < above {
        fuzz_under(bound, other.upper, own.lower)
    } else {
        fuzz_under(bound, own.upper, other.lower)
    }
}

/// The same for one gap.
fn fuzz_under(bound: Option<i64>, upper: i64, lower: i64) -> Option<i64>
    ensures { result ≡ lesser bound (Some (fuzz_for (lower -ℤ upper))) }
{
    lesser(bound, Some(fuzz_for(upper, lower)))
}

/// The greatest BlueFuzz that does for a gap; below 0 where none from 0 on does.
fn fuzz_for(upper: i64, lower: i64) -> i64
    ensures { result ≡ fuzz_for (lower -ℤ upper) }
{
    let rest = difference(lower, upper) - i128::from(BILLION);
    if rest < 0 {
        return -1;
    }
    // This can't fail: half of the difference of two numbers of 64 bits has 63.
    (rest / 2) as i64
}

/// The lesser of two bounds, where there are two.
fn lesser(one: Option<i64>, other: Option<i64>) -> Option<i64>
    ensures { result ≡ lesser one other }
{
    match (one, other) {
        (None, other) => other,
        (Some(one), None) => Some(one),
        (Some(one), Some(other)) => Some(one.min(other)),
    }
}

/// The greatest BlueScale that does for a zone; None where its height isn't above 0.
fn scale_for(lower: i64, upper: i64) -> Option<i64>
    ensures { result ≡ scale_for (upper -ℤ lower) }
{
    let height = difference(upper, lower);
    if height <= 0 {
        return None;
    }
    // This can't fail: the quotient is below 10^18.
    Some((GREATEST_PRODUCT / height) as i64)
}
