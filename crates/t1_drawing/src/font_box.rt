//! FontBBox, and what ends outside of it: Type 1 Font Format 1.1, chapter 2.

ghost use Rattle.std.specs.Prelude.{◌≡◌, ◌*◌, ◌||◌, ◌≤ℤ◌, neg_ℤ, if◌then◌else◌, int_le, pos, Option, option_map};
ghost use Rattle.std.specs.Ordering.{int_eq};
ghost use Rattle.t1_scan.specs.Numbers.{billion};
ghost use Rattle.t1_drawing.specs.DrawingRules.{box_of};
ghost use Rattle.t1_drawing.specs.declared.font_box.FontBox.{FontBox as Boxes};
ghost use Rattle.t1_drawing.specs.FontBoxes.{ends_outside, font_box, is_box, is_outside, is_over, is_under};
ghost use Rattle.t1_drawing.specs.Private.Limits.{first_over, last_under, limits_of, place_at, rest};

use t1_char::UNIT;
use t1_font::{BILLION, Font, Key};
use t1_outline::Segment;
use t1_rules::{Point, first_in, is_so_many};

/// A unit of character space, as points count it; the numbers of a font count it as [`BILLION`].
const POINT_UNIT: i64 = UNIT as i64;

/// FontBBox: the edges of the box in which all glyphs are, in units of 10^-9.
#[derive(Clone, Copy, Debug, PartialEq, Eq)]
pub struct FontBox {
    pub left: i64,
    pub bottom: i64,
    pub right: i64,
    pub top: i64,
}

fn box_of(left: i64, bottom: i64, right: i64, top: i64) -> Option<FontBox>
    ensures { result ≡ (if is_box left bottom right top then Some (record { left = left; bottom = bottom; right = right; top = top }) else None) }
{
    if is_box(left, bottom, right, top) {
        Some(FontBox {
            left,
            bottom,
            right,
            top,
        })
    } else {
        None
    }
}

/// Whether two corners aren't all 0, and the first is the lower left one.
fn is_box(left: i64, bottom: i64, right: i64, top: i64) -> bool
    ensures { result ≡ is_box left bottom right top }
{
    !(is_zero(left) & is_zero(bottom) & is_zero(right) & is_zero(top))
        & (is_ordered(left, right) & is_ordered(bottom, top))
}

fn is_zero(number: i64) -> bool
    ensures { result ≡ int_eq number (pos 0) }
{
    number == 0
}

fn is_ordered(lower: i64, upper: i64) -> bool
    ensures { result ≡ int_le lower upper }
{
    lower <= upper
}

/// Whether a point's coordinate, in units of 1/65536, is a unit or more below an edge of a box, in units of 10^-9.
#[tactic(auto, using(crate::proofs::Limits::under_is))]
pub fn is_under(edge: i64, place: i64) -> bool
    ensures { result ≡ is_under edge place }
{
    place <= last_under(edge)
}

/// Whether it is a unit or more above one.
#[tactic(auto, using(crate::proofs::Limits::over_is))]
pub fn is_over(edge: i64, place: i64) -> bool
    ensures { result ≡ is_over edge place }
{
    first_over(edge) <= place
}

/// Whether a coordinate isn't between two others.
fn is_off(below: i64, above: i64, place: i64) -> bool
    ensures { result ≡ (int_le place below || int_le above place) }
{
    (place <= below) | (above <= place)
}

/// The greatest coordinate of a point that is a unit or more below an edge.
fn last_under(edge: i64) -> i64
    ensures { result ≡ last_under edge }
{
    place_at(edge.div_euclid(BILLION) - 1, rest(edge))
}

/// The least that is a unit or more above it.
fn first_over(edge: i64) -> i64
    ensures { result ≡ first_over edge }
{
    place_at(edge.div_euclid(BILLION) + 1, rest(edge) + (BILLION - 1))
}

/// The coordinate at so many units and so many parts of 10^-9 of 1/65536, rounded down.
fn place_at(units: i64, parts: i64) -> i64
    requires units { (neg_ℤ (pos (10 * billion)) ≤ℤ units) × (units ≤ℤ pos (10 * billion)) }
    requires parts { (pos 0 ≤ℤ parts) × (parts ≤ℤ pos (65537 * billion)) }
    ensures { result ≡ place_at units parts }
{
    units * POINT_UNIT + parts.div_euclid(BILLION)
}

/// What an edge is above a whole number of units, in such parts.
fn rest(edge: i64) -> i64
    ensures value { result ≡ rest edge }
    ensures within { (pos 0 ≤ℤ result) × (result ≤ℤ pos (65536 * billion)) }
{
    edge.rem_euclid(BILLION) * POINT_UNIT
}

impl FontBox {
    /// The box that numbers say, in units of 10^-9. None where they aren't four, are all 0, or have their corners
    /// exchanged.
    pub(crate) fn of(numbers: &[i64]) -> Option<FontBox>
        ensures { result ≡ font_box numbers.now }
    {
        match numbers {
            [left, bottom, right, top] => box_of(*left, *bottom, *right, *top),
            _ => None,
        }
    }

    /// That of a font; none where the entry isn't four numbers, or they are no box.
    pub fn of_font(font: &Font<'_>) -> Option<FontBox>
        ensures { result ≡ box_of font.now }
    {
        let value = font.value(Key::FontBBox);
        if is_so_many(4, value) {
            FontBox::of(first_in(4, value))
        } else {
            None
        }
    }

    fn limits(self) -> Limits
        ensures { result ≡ limits_of self }
    {
        Limits {
            left: last_under(self.left),
            bottom: last_under(self.bottom),
            right: first_over(self.right),
            top: first_over(self.top),
        }
    }
}

/// Where points are outside a box: the last coordinates below its edges, and the first above them, in units of 1/65536.
#[derive(Clone, Copy, Debug, PartialEq, Eq)]
pub(crate) struct Limits {
    left: i64,
    bottom: i64,
    right: i64,
    top: i64,
}

impl Limits {
    /// Those of a box, if there is one.
    pub(crate) fn of(font_box: Option<FontBox>) -> Option<Limits>
        ensures { result ≡ option_map limits_of font_box }
    {
        match font_box {
            Some(font_box) => Some(font_box.limits()),
            None => None,
        }
    }

    #[tactic(auto, using(crate::proofs::Limits::off_is))]
    fn are_passed(self, point: Point) -> bool
        ensures { (box : Boxes) → self ≡ limits_of box → result ≡ is_outside box point }
    {
        is_off(self.left, self.right, point.x) | is_off(self.bottom, self.top, point.y)
    }
}

/// Whether a line or a curve ends a unit or more outside the box, if there is one.
pub(crate) fn ends_outside(limits: Option<Limits>, segment: Segment) -> bool
    ensures { (box : Option Boxes) → limits ≡ option_map limits_of box → result ≡ ends_outside box segment }
{
    let Some(limits) = limits else {
        return false;
    };
    match segment {
        Segment::Line(end) | Segment::Curve(_, _, end) => limits.are_passed(end),
        _ => false,
    }
}
