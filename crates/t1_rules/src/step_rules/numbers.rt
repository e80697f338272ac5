//! Sums and comparisons of numbers in units of 1/65536, each with what the prover needs to know of
//! it. Type 1 Font Format 1.1, chapter 6.

ghost use Rattle.std.specs.Prelude.{◌≡◌, ◌+ℤ◌, ◌*ℤ◌, not, pos};
ghost use Rattle.std.specs.Ordering.{int_eq};
ghost use Rattle.t1_rules.specs.Watches.{IsWithin, reach};
ghost use Rattle.t1_rules.specs.Private.Sums.{SumFits};

pub(crate) fn sum(one: i64, other: i64) -> i64
    requires { SumFits one other }
    ensures { result ≡ one +ℤ other }
{
    one + other
}

pub(crate) fn twice(number: i64) -> i64
    requires { IsWithin reach number }
    ensures { result ≡ pos 2 *ℤ number }
{
    2 * number
}

pub(crate) fn differ(one: i64, other: i64) -> bool
    ensures { result ≡ not (int_eq one other) }
{
    one != other
}
