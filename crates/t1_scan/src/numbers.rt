//! Numbers, in decimal form and in a base: Type 1 Font Format 1.1, chapter 2.

ghost use Rattle.std.specs.Prelude.{◌≡◌, ◌<◌, ◌^◌, IfSome, IsTrue};
ghost use Rattle.std.specs.List.{list_all};
ghost use Rattle.t1_scan.specs.Bytes.{is_decimal_digit};
ghost use Rattle.t1_scan.specs.Private.Forms.{begins_number, begins_digits};
ghost use Rattle.t1_scan.specs.Numbers.{value_of, magnitude_of, decimal_of, in_base, radix_of, number_of};

use crate::bytes::is_decimal_digit;
use crate::digits::{BILLION, GREATEST_BASE, are_digits, are_in_base, billionths, small_value};
use crate::runs::digits_len;

/// The number with these digits before and after its point, if it is below a billion.
#[tactic(auto, using(crate::proofs::Values::scaled_parts), unfolding(crate::specs::Numbers::value_of))]
fn value(whole: &[u8], decimals: &[u8]) -> Option<u64>
    requires { IsTrue (list_all is_decimal_digit decimals.now) }
    ensures value { result ≡ value_of whole.now decimals.now }
    ensures bound { IfSome result (λ n. n < 10 ^ 18) }
{
    let whole = small_value(10, whole)?;
    Some(whole * BILLION + billionths(decimals))
}

/// Digits with at most one point and at least one digit, below a billion.
#[tactic(auto, unfolding(crate::specs::Numbers::magnitude_of))]
fn magnitude(digits: &[u8]) -> Option<u64>
    ensures value { result ≡ magnitude_of digits.now }
    ensures bound { IfSome result (λ n. n < 10 ^ 18) }
{
    let (whole, rest) = digits.split_at(digits_len(digits));
    let decimals = match rest {
        [] => rest,
        [b'.', decimals @ ..] => decimals,
        _ => return None,
    };
    if !are_digits(decimals) || (whole.is_empty() && decimals.is_empty()) {
        return None;
    }
    value(whole, decimals)
}

/// With an optional sign before them.
#[tactic(auto, unfolding(crate::specs::Numbers::decimal_of))]
fn decimal(run: &[u8]) -> Option<i64>
    ensures { result ≡ decimal_of run.now }
{
    match run {
        [] => None,
        [b'-', digits @ ..] => Some(-(magnitude(digits)? as i64)),
        [b'+', digits @ ..] => Some(magnitude(digits)? as i64),
        _ => Some(magnitude(run)? as i64),
    }
}

/// Digits of a base from 2 to the greatest, below a billion.
fn in_base(base: u64, digits: &[u8]) -> Option<i64>
    ensures { result ≡ in_base base digits.now }
{
    if !(2..=GREATEST_BASE).contains(&base) || digits.is_empty() || !are_in_base(base, digits) {
        return None;
    }
    Some((small_value(base, digits)? * BILLION) as i64)
}

/// A base in decimal, `#`, and digits of that base.
#[tactic(auto, unfolding(crate::specs::Numbers::radix_of))]
fn radix(run: &[u8]) -> Option<i64>
    ensures { result ≡ radix_of run.now }
{
    let (base, rest) = run.split_at(digits_len(run));
    let [b'#', digits @ ..] = rest else {
        return None;
    };
    if base.is_empty() {
        return None;
    }
    in_base(small_value(10, base)?, digits)
}

/// Whether a number may begin with this byte: a digit, a sign or a point.
pub fn begins_number(b: u8) -> bool
    ensures { result ≡ begins_number b }
{
    is_decimal_digit(b) || matches!(b, b'+' | b'-' | b'.')
}

/// Whether digits with a point may begin here: after a sign nothing else is a number.
#[inline(always)]
pub fn begins_digits(text: &[u8]) -> bool
    ensures { result ≡ begins_digits text.now }
{
    matches!(text, [b'0'..=b'9' | b'.', ..])
}

/// The number that a run of regular bytes spells, in billionths. The first byte rules most words out.
pub fn number(run: &[u8]) -> Option<i64>
    ensures { result ≡ number_of run.now }
{
    match run {
        [first, ..] if !begins_number(*first) => None,
        _ => match decimal(run) {
            Some(value) => Some(value),
            None => radix(run),
        },
    }
}
