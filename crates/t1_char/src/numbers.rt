//! The numbers on the stack, in units of 1/65536: Type 1 Font Format 1.1, chapter 6 (Charstring Number
//! Encoding; div).

ghost use Rattle.std.specs.Prelude.{◌≡◌, ◌≢◌, pos};
ghost use Rattle.t1_char.specs.Numbers.{cut_quotient, natural, quotient, units};

/// 1, in units of 1/65536.
pub const UNIT: i64 = 65_536;

/// The greatest number that is kept, 32000, in units of 1/65536; the least is its negative.
pub const GREATEST: i64 = 32_000 * UNIT;

/// A number of a charstring in units of 1/65536.
pub(crate) fn units(number: i32) -> i64
    ensures { result ≡ units number }
{
    i64::from(number) * UNIT
}

/// The quotient of two numbers, cut towards zero and kept within -32000 to 32000; 0 where the divisor
/// is 0.
pub(crate) fn quotient(dividend: i64, divisor: i64) -> i64
    ensures { result ≡ quotient dividend divisor }
{
    if divisor == 0 {
        return 0;
    }
    let greatest = i128::from(GREATEST);
    cut_quotient(dividend, divisor).clamp(-greatest, greatest) as i64
}

/// The quotient of two numbers in units of 1/65536, cut towards zero, before div keeps it within -32000
/// to 32000; the divisor isn't 0. Type 1 Font Format 1.1, chapter 6 (div).
pub fn cut_quotient(dividend: i64, divisor: i64) -> i128
    requires { divisor ≢ pos 0 }
    ensures { result ≡ cut_quotient dividend divisor }
{
    i128::from(dividend) * i128::from(UNIT) / i128::from(divisor)
}

/// The number as a count or the number of a Subr, where it is whole and not negative.
pub fn natural(number: i64) -> Option<u32>
    ensures { result ≡ natural number }
{
    if number < 0 {
        return None;
    }
    let natural = number as u64;
    if natural % UNIT as u64 == 0 && natural < 1 << 48 {
        Some((natural / UNIT as u64) as u32)
    } else {
        None
    }
}
