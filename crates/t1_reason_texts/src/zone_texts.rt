//! What the texts of reasons of zones, stem widths and numbers of lists are made of. Their numbers count 10^-9.

ghost use Rattle.std.specs.Prelude.{◌≡◌, Some};
ghost use Rattle.t1_reason_texts.specs.ZoneTexts.{apart_text, below_one, edges_text, from_zero, gap_text, height_text, needed_text, number_text, says_twice, width_text, would_do, zone_text, zones_text};

use crate::decimals::{Exact, Unit, difference, exact_difference, exact_product, value};
use std::fmt;
use t1_rules::{Edges, Rule};

/// A number of a list, or the first of a standard width.
#[derive(Clone, Copy)]
pub(crate) struct NumberText(pub(crate) Rule, pub(crate) i64);

/// Two zones.
#[derive(Clone, Copy)]
pub(crate) struct ZonesText(pub(crate) Edges, pub(crate) Edges);

/// The edges of a zone.
#[derive(Clone, Copy)]
struct EdgesText(Edges);

/// Where a zone lies from another one: so far below it or above it, where that isn't negative.
#[derive(Clone, Copy)]
struct ApartText {
    below: i128,
    above: i128,
}

/// The entry that would do with a number, where there is one.
#[derive(Clone, Copy)]
pub(crate) struct WouldDo(pub(crate) &'static str, pub(crate) Option<Exact>);

/// Whether a rule speaks of two equal numbers.
pub(crate) fn says_twice(rule: Rule) -> bool
    ensures { result ≡ says_twice rule }
{
    matches!(rule, Rule::Z15)
}

/// A number of the dictionary from 0 on.
pub(crate) fn from_zero(number: Option<i64>) -> Option<Exact>
    ensures { result ≡ from_zero number }
{
    match number {
        Some(number) if 0 <= number => Some(value(number)),
        _ => None,
    }
}

impl fmt::Display for NumberText {
    ghost output = { λ t. Some (number_text t.0 t.1) };

    #[tactic(auto, unfolding(crate::specs::ZoneTexts::number_text))]
    fn fmt<W: fmt::Write>(&self, f: &mut fmt::Formatter<W>) -> fmt::Result {
        let number = value(self.1);
        match self.0 {
            Rule::F19 => write!(f, "{number}; a whole number from 0 to 16777215 is needed"),
            Rule::Z13 => write!(f, "the width is {number}; more than 0 is needed"),
            Rule::Z14 => write!(f, "{number} is not whole"),
            Rule::Z16 => {
                if 0 < self.1 {
                    write!(f, "the standard width is {number}; [{number}] would do")
                } else {
                    write!(f, "the standard width is {number}")
                }
            }
            _ => write!(f, "{number}"),
        }
    }
}

impl fmt::Display for EdgesText {
    ghost output = { λ t. Some (edges_text t.0) };

    fn fmt<W: fmt::Write>(&self, f: &mut fmt::Formatter<W>) -> fmt::Result {
        let lower = value(self.0.lower);
        let upper = value(self.0.upper);
        write!(f, "{lower} to {upper}")
    }
}

impl fmt::Display for ApartText {
    ghost output = { λ t. Some (apart_text t.below t.above) };

    fn fmt<W: fmt::Write>(&self, f: &mut fmt::Formatter<W>) -> fmt::Result {
        if 0 <= self.below {
            let gap = Exact::new(self.below, Unit::Value);
            write!(f, "lies {gap} below")
        } else if 0 <= self.above {
            let gap = Exact::new(self.above, Unit::Value);
            write!(f, "lies {gap} above")
        } else {
            write!(f, "overlaps")
        }
    }
}

impl fmt::Display for ZonesText {
    ghost output = { λ t. Some (zones_text t.0 t.1) };

    #[tactic(auto, unfolding(crate::specs::ZoneTexts::zones_text))]
    fn fmt<W: fmt::Write>(&self, f: &mut fmt::Formatter<W>) -> fmt::Result {
        let own = EdgesText(self.0);
        let apart = ApartText {
            below: difference(self.1.lower, self.0.upper),
            above: difference(self.0.lower, self.1.upper),
        };
        let other = EdgesText(self.1);
        write!(f, "zone {own} {apart} zone {other}")
    }
}

impl fmt::Display for WouldDo {
    ghost output = { λ t. Some (would_do t.0.now t.1) };

    fn fmt<W: fmt::Write>(&self, f: &mut fmt::Formatter<W>) -> fmt::Result {
        let entry = self.0;
        match self.1 {
            None => Ok(()),
            Some(number) => write!(f, "; {entry} {number} would do"),
        }
    }
}

/// The distance that zones keep.
#[derive(Clone, Copy)]
pub(crate) struct NeededText(pub(crate) i128);

impl fmt::Display for NeededText {
    ghost output = { λ t. Some (needed_text t.0) };

    fn fmt<W: fmt::Write>(&self, f: &mut fmt::Formatter<W>) -> fmt::Result {
        let distance = Exact::new(self.0, Unit::Value);
        write!(f, "; {distance} is needed")
    }
}

/// The upper edge of a zone, the lower one of the next, and the distance that zones keep.
#[derive(Clone, Copy)]
pub(crate) struct GapText {
    pub(crate) upper: i64,
    pub(crate) lower: i64,
    pub(crate) distance: i128,
}

impl fmt::Display for GapText {
    ghost output = { λ t. Some (gap_text t.upper t.lower t.distance) };

    fn fmt<W: fmt::Write>(&self, f: &mut fmt::Formatter<W>) -> fmt::Result {
        let upper = value(self.upper);
        let lower = value(self.lower);
        let gap = exact_difference(self.lower, self.upper);
        let needed = NeededText(self.distance);
        write!(f, "from {upper} to {lower} is {gap}{needed}")
    }
}

/// The edges of a zone, and BlueScale.
#[derive(Clone, Copy)]
pub(crate) struct ZoneText {
    pub(crate) lower: i64,
    pub(crate) upper: i64,
    pub(crate) scale: i64,
}

/// A zone's height times BlueScale.
#[derive(Clone, Copy)]
struct HeightText {
    lower: i64,
    upper: i64,
    scale: i64,
}

impl fmt::Display for HeightText {
    ghost output = { λ t. Some (height_text t.lower t.upper t.scale) };

    #[tactic(auto, unfolding(crate::specs::ZoneTexts::height_text))]
    fn fmt<W: fmt::Write>(&self, f: &mut fmt::Formatter<W>) -> fmt::Result {
        let height = exact_difference(self.upper, self.lower);
        let scale = value(self.scale);
        let product = exact_product(self.upper, self.lower, self.scale);
        write!(f, "height {height} times BlueScale {scale} is {product}")
    }
}

/// What is said of a product that isn't below 1.
#[tactic(auto, unfolding(crate::specs::ZoneTexts::below_one))]
fn below_one() -> &'static str
    ensures { result.now ≡ below_one }
{
    "; less than 1 is needed"
}

impl fmt::Display for ZoneText {
    ghost output = { λ t. Some (zone_text t.lower t.upper t.scale) };

    fn fmt<W: fmt::Write>(&self, f: &mut fmt::Formatter<W>) -> fmt::Result {
        let lower = value(self.lower);
        let upper = value(self.upper);
        let height = HeightText {
            lower: self.lower,
            upper: self.upper,
            scale: self.scale,
        };
        let needed = below_one();
        write!(f, "zone {lower} to {upper}, {height}{needed}")
    }
}

/// The first standard width, and the stem snap that is nearest to it.
#[derive(Clone, Copy)]
pub(crate) struct WidthText {
    pub(crate) width: i64,
    pub(crate) nearest: i64,
}

impl fmt::Display for WidthText {
    ghost output = { λ t. Some (width_text t.width t.nearest) };

    fn fmt<W: fmt::Write>(&self, f: &mut fmt::Formatter<W>) -> fmt::Result {
        let width = value(self.width);
        let nearest = value(self.nearest);
        write!(f, "{width} is none of the snaps; {nearest} is nearest")
    }
}
