//! What digits spell: Type 1 Font Format 1.1, chapter 2.

ghost use Rattle.std.specs.Prelude.{◌≡◌, ◌+◌, ◌*◌, ◌/◌, ◌^◌, ◌<◌, ◌≤◌, ◌==◌, length, pos, IsTrue, IfSome};
ghost use Rattle.std.specs.List.{list_all};
ghost use Rattle.std.specs.Char.{digit_value};
ghost use Rattle.std.specs.Str.Parse.{digits_value};
ghost use Rattle.t1_scan.specs.Bytes.{is_decimal_digit};
ghost use Rattle.t1_scan.specs.Numbers.{are_in_base, below_billion, billion, greatest_base};
ghost use Rattle.t1_scan.specs.Private.Forms.{AreDigits};

use crate::bytes::{is_decimal_digit, is_regular};

/// Numbers are below it, and have that many billionths in one.
pub const BILLION: u64 = 1_000_000_000;

/// The greatest base: its digits are all digits and all letters.
pub const GREATEST_BASE: u64 = 36;

/// The value of a digit of any base, letters in either case, or the greatest base.
fn digit_value(b: u8) -> u64
    ensures value { result ≡ digit_value b }
    ensures bound { result ≤ greatest_base }
{
    match b {
        b'0'..=b'9' => (b - b'0') as u64,
        b'A'..=b'Z' => (b - b'A' + 10) as u64,
        b'a'..=b'z' => (b - b'a' + 10) as u64,
        _ => GREATEST_BASE,
    }
}

/// Whether each byte is a decimal digit.
pub fn are_digits(digits: &[u8]) -> bool
    ensures { result ≡ list_all is_decimal_digit digits.now }
{
    digits.iter().all(|b| is_decimal_digit(*b))
}

/// Whether each byte is a digit of this base.
pub fn are_in_base(base: u64, digits: &[u8]) -> bool
    ensures { result ≡ are_in_base base digits.now }
{
    digits.iter().all(|b| digit_value(*b) < base)
}

/// The number that digits of a base spell, if it is below a billion.
#[tactic(auto, using(std::proofs::lemmas::Int::Digits::digits_value_more))]
pub fn small_value(base: u64, digits: &[u8]) -> Option<u64>
    requires low { 1 ≤ base }
    requires high { base ≤ greatest_base }
    ensures value { result ≡ below_billion (digits_value base digits.now) }
    ensures bound { IfSome result (λ n. n < billion) }
{
    let mut value = 0;
    for b in digits {
        value = value * base + digit_value(*b);
        if value >= BILLION {
            return None;
        }
    }
    Some(value)
}

/// What decimals spell, in billionths: those past the ninth are cut.
#[tactic(auto, using(crate::proofs::Values::billionths_more))]
pub fn billionths(decimals: &[u8]) -> u64
    requires { IsTrue (list_all is_decimal_digit decimals.now) }
    ensures value { result ≡ digits_value 10 decimals.now * billion / 10 ^ length decimals.now }
    ensures bound { result < billion }
{
    let mut value = 0;
    let mut unit = BILLION / 10;
    for b in decimals {
        value += digit_value(*b) * unit;
        unit /= 10;
    }
    value
}

/// How many billionths a whole number has.
#[inline(always)]
pub fn billionths_in(whole: u64) -> i64
    requires { whole < billion }
    ensures { result ≡ pos (whole * billion) }
{
    (whole * BILLION) as i64
}

/// How many digits the leading run has, and what they spell, if it has nothing but digits and is below a billion.
#[inline(always)]
#[tactic(auto, using(std::proofs::lemmas::Int::Digits::digits_value_more, crate::proofs::PlainTokens::run_more, crate::proofs::PlainTokens::digits_more))]
pub fn digits_alone(text: &[u8]) -> Option<(usize, u64)>
    ensures alone { IfSome result (λ p. AreDigits text.now p.0 p.1) }
    ensures bound { IfSome result (λ p. p.1 < billion) }
    ensures within { IfSome result (λ p. p.0 ≤ length text.now) }
{
    let mut value = 0;
    for (at, b) in text.iter().enumerate() {
        if !is_decimal_digit(*b) {
            if is_regular(*b) {
                return None;
            }
            return Some((at, value));
        }
        value = value * 10 + digit_value(*b);
        if value >= BILLION {
            return None;
        }
    }
    Some((text.len(), value))
}
