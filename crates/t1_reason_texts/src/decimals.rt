//! Numbers as exact decimals.

ghost use Rattle.std.specs.Prelude.{◌≡◌, ◌<◌, ◌/◌, ◌%◌, ◌-ℤ◌, ◌*ℤ◌, Some};
ghost use Rattle.t1_reason_texts.specs.Decimals.{coordinate_of, difference_of, exact_text, fraction, in_unit, one_of, point_text, product_of, value_of};

use std::fmt;
use t1_char::UNIT;
use t1_rules::Point;

/// How many decimal places a number in squares of 1/65536, twenty times, has at most; the others have fewer.
const MOST_PLACES: usize = 34;

/// What a number counts.
#[derive(Clone, Copy, Debug, PartialEq, Eq)]
pub enum Unit {
    /// 1/65536, as coordinates do.
    Coordinate,
    /// 1/131072, as twice the middle of a stem does.
    Middle,
    /// 1/262144, as the sum of two of these does, which is four times their mean.
    Mean,
    /// 10^-9, as numbers of the font's dictionaries do.
    Value,
    /// 10^-18, as a product of two of these does.
    Product,
    /// 1/4194304, as 64 times a coordinate does.
    OnCurve,
    /// A twentieth of the square of 1/65536, as twenty times an area does.
    Area,
}

/// A number that is written as a decimal, with as many places as it has.
#[derive(Clone, Copy, Debug, PartialEq, Eq)]
pub struct Exact {
    pub number: i128,
    pub unit: Unit,
}

/// The coordinates of a point, written with a blank between.
#[derive(Clone, Copy, Debug, PartialEq, Eq)]
pub struct Coordinates(pub Point);

/// A part of one, written after a point; nothing where it is 0.
#[derive(Clone, Copy, Debug, PartialEq, Eq)]
struct Fraction {
    rest: u128,
    unit: Unit,
    ghost below: { rest < 1000000000000000000 },
}

/// A coordinate, given in units of 1/65536.
pub fn coordinate(number: i64) -> Exact
    ensures { result ≡ coordinate_of number }
{
    Exact::new(i128::from(number), Unit::Coordinate)
}

/// A number of a dictionary, given in units of 10^-9.
pub fn value(number: i64) -> Exact
    ensures { result ≡ value_of number }
{
    Exact::new(i128::from(number), Unit::Value)
}

/// How far a number is above another.
pub(crate) fn difference(above: i64, below: i64) -> i128
    ensures { result ≡ above -ℤ below }
{
    i128::from(above) - i128::from(below)
}

/// How far a number is above another, times a third.
fn product(above: i64, below: i64, scale: i64) -> i128
    ensures { result ≡ (above -ℤ below) *ℤ scale }
{
    difference(above, below) * i128::from(scale)
}

/// How far a number of the dictionary is above another, as a number to be written.
pub(crate) fn exact_difference(above: i64, below: i64) -> Exact
    ensures { result ≡ difference_of above below }
{
    Exact::new(difference(above, below), Unit::Value)
}

/// The same times a third number, of the dictionary too.
pub(crate) fn exact_product(above: i64, below: i64, scale: i64) -> Exact
    ensures { result ≡ product_of above below scale }
{
    Exact::new(product(above, below, scale), Unit::Product)
}

impl Exact {
    /// A number of so many of a unit.
    pub(crate) fn new(number: i128, unit: Unit) -> Exact
        ensures { result ≡ in_unit unit number }
    {
        Exact { number, unit }
    }
}

impl Unit {
    /// How many are whole ones of so many.
    fn whole(self, size: u128) -> u128
        ensures { result ≡ size / one_of self }
    {
        match self {
            Unit::Coordinate => size / UNIT as u128,
            Unit::Middle => size / 131_072,
            Unit::Mean => size / 262_144,
            Unit::Value => size / 1_000_000_000,
            Unit::Product => size / 1_000_000_000_000_000_000,
            Unit::OnCurve => size / 4_194_304,
            Unit::Area => size / 85_899_345_920,
        }
    }

    /// What is left of so many beside whole ones.
    fn part(self, size: u128) -> u128
        ensures value { result ≡ size % one_of self }
        ensures below { result < 1000000000000000000 }
    {
        match self {
            Unit::Coordinate => size % UNIT as u128,
            Unit::Middle => size % 131_072,
            Unit::Mean => size % 262_144,
            Unit::Value => size % 1_000_000_000,
            Unit::Product => size % 1_000_000_000_000_000_000,
            Unit::OnCurve => size % 4_194_304,
            Unit::Area => size % 85_899_345_920,
        }
    }
}

impl fmt::Display for Exact {
    ghost output = { λ exact. Some (exact_text exact) };

    #[tactic(auto, unfolding(crate::specs::Decimals::decimal_by))]
    fn fmt<W: fmt::Write>(&self, f: &mut fmt::Formatter<W>) -> fmt::Result {
        let size = self.number.unsigned_abs();
        let sign = if self.number < 0 { "-" } else { "" };
        let whole = self.unit.whole(size);
        let fraction = Fraction {
            rest: self.unit.part(size),
            unit: self.unit,
        };
        write!(f, "{sign}{whole}{fraction}")
    }
}

impl fmt::Display for Coordinates {
    ghost output = { λ coordinates. Some (point_text coordinates.0) };

    fn fmt<W: fmt::Write>(&self, f: &mut fmt::Formatter<W>) -> fmt::Result {
        let x = coordinate(self.0.x);
        let y = coordinate(self.0.y);
        write!(f, "{x} {y}")
    }
}

impl fmt::Display for Fraction {
    ghost output = { λ part. Some (fraction (one_of part.unit) part.rest) };

    fn fmt<W: fmt::Write>(&self, f: &mut fmt::Formatter<W>) -> fmt::Result {
        if self.rest == 0 {
            return Ok(());
        }
        f.write_str(".")?;
        let mut rest = self.rest;
        for _place in 0..MOST_PLACES {
            if rest == 0 {
                return Ok(());
            }
            // This can't fail: the rest is below 10^18.
            let tenths = rest.saturating_mul(10);
            let digit = self.unit.whole(tenths);
            write!(f, "{digit}")?;
            rest = self.unit.part(tenths);
        }
        Ok(())
    }
}
