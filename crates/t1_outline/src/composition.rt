//! What the steps of a glyph say of the parts of its picture: Type 1 Font Format 1.1, chapter 6 (hsbw, sbw, seac).

ghost use Rattle.std.specs.Prelude.{◌≡◌, ◌+ℤ◌, ◌-ℤ◌, IfSome, ℕ, List, [], ◌∷◌, ◌++◌};
ghost use Rattle.t1_char.specs.Steps.{StepView};
ghost use Rattle.t1_char.specs.StepValues.{step_view};
ghost use Rattle.t1_outline.specs.Parts.{IsIn, accent_origin, seac_parts_in, composition_of, metrics_in, part, parts_of, parts_of_both, seac_in, sidebearing_by};
ghost use Rattle.t1_outline.specs.Private.Composing.{metrics_with, seac_with};
ghost use Rattle.t1_rules.specs.StepRules.Flex.{at, origin};
ghost use Rattle.t1_rules.specs.Watches.{IsWithin, reach};

use crate::parts::{ORIGIN, SeacParts, seac_part_at};
use t1_char::{CharToken, Command, Step};
use t1_font::Font;
use t1_rules::{Point, accent_code, base_code, is_seac, sets_width};

/// What hsbw or sbw sets, in units of 1/65536.
#[derive(Clone, Copy, Debug, PartialEq, Eq)]
pub struct Metrics {
    /// Where the left sidebearing point is, from left to right.
    pub x: i32,
    /// How high it is.
    pub y: i32,
    /// The width, from left to right.
    pub width: i32,
}

/// A seac, by its arguments, in units of 1/65536.
#[derive(Clone, Copy, Debug, PartialEq, Eq)]
pub struct Seac {
    /// The code of the base in StandardEncoding.
    pub base: Option<u8>,
    /// The code of the accent.
    pub accent: Option<u8>,
    /// What the seac says of the accent's sidebearing: ASB.
    pub sidebearing: i32,
    /// How far the accent is to the right: ADX.
    pub x: i32,
    /// How high it is: ADY.
    pub y: i32,
}

/// What the steps of a glyph say of the parts of its picture. It sees them one after another, from the first on.
#[derive(Clone, Copy, Debug, PartialEq, Eq)]
pub struct Composition {
    /// What the first hsbw or sbw sets.
    pub metrics: Option<Metrics>,
    /// The seac.
    pub seac: Option<Seac>,
}

impl Composition {
    /// Before the first step.
    pub fn start() -> Composition
        ensures { result ≡ composition_of [] }
    {
        Composition {
            metrics: None,
            seac: None,
        }
    }

    /// Sees a step, given that it saw those before.
    pub fn see(&mut self, step: &Step)
        ensures { (before : List StepView) →
            self.old ≡ composition_of before → self.new ≡ composition_of (before ++ step_view step.now ∷ []) }
    {
        self.metrics = metrics_with(self.metrics, step);
        self.seac = seac_with(self.seac, step);
    }

    /// The left sidebearing point; the origin where none is set.
    pub fn sidebearing(&self) -> Point
        ensures { result ≡ sidebearing_by self.now.metrics }
    {
        match self.metrics {
            Some(metrics) => metrics.sidebearing(),
            None => ORIGIN,
        }
    }

    /// Base and accent of the seac, and where their origins are; none without seac. Those that are there make a picture
    /// with the glyph itself.
    pub fn seac_parts(&self, font: &Font<'_>) -> Option<SeacParts>
        ensures value { result ≡ seac_parts_in font.now self.now }
        ensures parts { (glyph : ℕ) (steps : List StepView) → self.now ≡ composition_of steps →
            parts_of font.now glyph steps ≡ part glyph origin ∷ parts_of_both result }
        ensures base { IfSome result (λ components. IsIn font.now components.base) }
        ensures accent { IfSome result (λ components. IsIn font.now components.accent) }
    {
        let Some(seac) = self.seac else {
            return None;
        };
        Some(SeacParts {
            base: seac_part_at(font, seac.base, ORIGIN),
            accent: seac_part_at(font, seac.accent, self.accent_origin(seac)),
        })
    }

    /// Where the origin of the accent is.
    fn accent_origin(&self, seac: Seac) -> Point
        ensures { result ≡ accent_origin (sidebearing_by self.now.metrics) seac }
    {
        match self.metrics {
            Some(metrics) => accent_behind(metrics.x, seac),
            None => accent_behind(0, seac),
        }
    }
}

impl Metrics {
    /// What a step sets that is hsbw or sbw.
    fn of(step: &Step) -> Metrics
        ensures { result ≡ metrics_in (step_view step.now) }
    {
        if let CharToken::Command(Command::Hsbw) = step.token {
            return Metrics {
                x: step.argument(0),
                y: 0,
                width: step.argument(1),
            };
        }
        Metrics {
            x: step.argument(0),
            y: step.argument(1),
            width: step.argument(2),
        }
    }

    /// The left sidebearing point.
    pub fn sidebearing(&self) -> Point
        ensures { result ≡ at self.now.x self.now.y }
    {
        Point {
            x: i64::from(self.x),
            y: i64::from(self.y),
        }
    }
}

impl Seac {
    /// The arguments of a step that is seac.
    fn of(step: &Step) -> Seac
        ensures { result ≡ seac_in (step_view step.now) }
    {
        Seac {
            base: base_code(step),
            accent: accent_code(step),
            sidebearing: step.argument(0),
            x: step.argument(1),
            y: step.argument(2),
        }
    }
}

/// The metrics of a glyph after a further step: the first ones stay.
fn metrics_with(metrics: Option<Metrics>, step: &Step) -> Option<Metrics>
    ensures { result ≡ metrics_with metrics (step_view step.now) }
{
    if metrics.is_none() && sets_width(step.token) {
        Some(Metrics::of(step))
    } else {
        metrics
    }
}

/// The seac of a glyph after a further step.
fn seac_with(seac: Option<Seac>, step: &Step) -> Option<Seac>
    ensures { result ≡ seac_with seac (step_view step.now) }
{
    if is_seac(step.token) {
        Some(Seac::of(step))
    } else {
        seac
    }
}

/// Where the origin of an accent is, given where the left sidebearing point is from left to right.
fn accent_behind(start: i32, seac: Seac) -> Point
    ensures x { result.x ≡ start +ℤ (seac.x -ℤ seac.sidebearing) }
    ensures y { result.y ≡ seac.y }
{
    Point {
        x: moved(difference(seac.x, seac.sidebearing), start),
        y: i64::from(seac.y),
    }
}

/// A place that is so far from the origin, by where the origin is.
fn moved(place: i64, origin: i32) -> i64
    requires { IsWithin reach place }
    ensures { result ≡ origin +ℤ place }
{
    i64::from(origin) + place
}

fn difference(one: i32, other: i32) -> i64
    ensures value { result ≡ one -ℤ other }
    ensures within { IsWithin reach result }
{
    i64::from(one) - i64::from(other)
}
