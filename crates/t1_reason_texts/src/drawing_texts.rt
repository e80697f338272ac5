//! What the texts of reasons on the drawing are made of.

ghost use Rattle.std.specs.Prelude.{◌≡◌, Some};
ghost use Rattle.t1_reason_texts.specs.DrawingTexts.{axis_word, beyond_text, clockwise_text, drawn_text, more_text, nearest_text, outside_text, place_text, quarters_word, side_axis, side_edge, side_of, side_place, side_words, stroke_text, turns_text, untouched_text};

use crate::decimals::{Coordinates, Exact, Unit, coordinate, value};
use crate::words::Counted;
use std::fmt;
use t1_drawing::{Direction, FontBox, UntouchedStem, is_over, is_under};
use t1_reasons::SubpathTurns;
use t1_rules::{Point, Rule};

/// A point outside FontBBox.
#[derive(Clone, Copy)]
pub(crate) struct OutsideText(pub(crate) Point, pub(crate) FontBox);

/// Where a line or a curve begins and ends, and where the line right before it begins.
#[derive(Clone, Copy)]
pub(crate) struct StrokeText {
    pub(crate) rule: Rule,
    pub(crate) line_start: Option<Point>,
    pub(crate) start: Option<Point>,
    pub(crate) end: Option<Point>,
}

/// A line or a curve, as [`StrokeText`] has it.
#[derive(Clone, Copy)]
struct DrawnText {
    rule: Rule,
    line_start: Option<Point>,
    start: Point,
    end: Point,
}

/// A coordinate of a curve at so many quarters of its parameter, 64 times.
#[derive(Clone, Copy)]
struct PlaceText(Direction, u8, i128);

/// The same, with those of its ends.
#[derive(Clone, Copy)]
pub(crate) struct BeyondText {
    pub(crate) direction: Direction,
    pub(crate) quarters: u8,
    pub(crate) place: i128,
    pub(crate) start: i64,
    pub(crate) end: i64,
}

/// How many subpaths run clockwise, and the first of these.
#[derive(Clone, Copy)]
pub(crate) struct TurnsText(pub(crate) SubpathTurns);

/// Which those are.
#[derive(Clone, Copy)]
struct ClockwiseText(SubpathTurns);

/// A stem that nothing touches, where it is set, and what is drawn nearest to it.
#[derive(Clone, Copy)]
pub(crate) struct UntouchedText {
    pub(crate) stem: UntouchedStem,
    pub(crate) step: u32,
    pub(crate) nearest: Option<i64>,
}

/// The nearest of what is drawn after a stem is set.
#[derive(Clone, Copy)]
struct NearestText(Direction, Option<i64>);

/// How many more there are; nothing where there is none.
#[derive(Clone, Copy)]
struct MoreText(usize);

/// The side of FontBBox on which a point is outside.
#[derive(Clone, Copy)]
pub(crate) enum Side {
    Left,
    Right,
    Below,
    Above,
}

impl Side {
    /// The first side on which a point is outside.
    fn of(point: Point, font_box: FontBox) -> Side
        ensures { result ≡ side_of point font_box }
    {
        if is_under(font_box.left, point.x) {
            Side::Left
        } else if is_over(font_box.right, point.x) {
            Side::Right
        } else if is_under(font_box.bottom, point.y) {
            Side::Below
        } else {
            Side::Above
        }
    }
}

impl Side {
    /// The name of the coordinate.
    fn axis(self) -> &'static str
        ensures { result.now ≡ side_axis self }
    {
        match self {
            Side::Left | Side::Right => "x",
            Side::Below | Side::Above => "y",
        }
    }

    /// That of the point.
    fn place(self, point: Point) -> Exact
        ensures { result ≡ side_place self point }
    {
        match self {
            Side::Left | Side::Right => coordinate(point.x),
            Side::Below | Side::Above => coordinate(point.y),
        }
    }

    /// What is said of it, before the edge.
    fn words(self) -> &'static str
        ensures { result.now ≡ side_words self }
    {
        match self {
            Side::Left => " is left of FontBBox, which begins at ",
            Side::Right => " is right of FontBBox, which ends at ",
            Side::Below => " is below FontBBox, which begins at ",
            Side::Above => " is above FontBBox, which ends at ",
        }
    }

    /// The edge of the box.
    fn edge(self, font_box: FontBox) -> Exact
        ensures { result ≡ side_edge self font_box }
    {
        match self {
            Side::Left => value(font_box.left),
            Side::Right => value(font_box.right),
            Side::Below => value(font_box.bottom),
            Side::Above => value(font_box.top),
        }
    }
}

/// The name of the coordinate that stems of a direction bound.
pub fn axis_word(direction: Direction) -> &'static str
    ensures { result.now ≡ axis_word direction }
{
    match direction {
        Direction::Across => "y",
        Direction::Upright => "x",
    }
}

fn quarters_word(quarters: u8) -> &'static str
    ensures { result.now ≡ quarters_word quarters }
{
    if quarters == 1 {
        "1/4"
    } else if quarters == 2 {
        "1/2"
    } else {
        "3/4"
    }
}

impl fmt::Display for OutsideText {
    ghost output = { λ t. Some (outside_text t.0 t.1) };

    fn fmt<W: fmt::Write>(&self, f: &mut fmt::Formatter<W>) -> fmt::Result {
        let side = Side::of(self.0, self.1);
        let axis = side.axis();
        let place = side.place(self.0);
        let words = side.words();
        let edge = side.edge(self.1);
        write!(f, "{axis} {place}{words}{edge}")
    }
}

impl fmt::Display for StrokeText {
    ghost output = { λ t. Some (stroke_text t.rule t.line_start t.start t.end) };

    fn fmt<W: fmt::Write>(&self, f: &mut fmt::Formatter<W>) -> fmt::Result {
        match (self.start, self.end) {
            (Some(start), Some(end)) => {
                let text = DrawnText {
                    rule: self.rule,
                    line_start: self.line_start,
                    start,
                    end,
                };
                write!(f, "{text}")
            }
            _ => Ok(()),
        }
    }
}

impl fmt::Display for DrawnText {
    ghost output = { λ t. Some (drawn_text t.rule t.line_start t.start t.end) };

    fn fmt<W: fmt::Write>(&self, f: &mut fmt::Formatter<W>) -> fmt::Result {
        let start = Coordinates(self.start);
        let end = Coordinates(self.end);
        match (self.rule, self.line_start) {
            (Rule::P06, _) => write!(f, "all its points are {start}"),
            (Rule::P07, Some(first)) => {
                let first = Coordinates(first);
                write!(f, "from {start} to {end}, back over the line from {first}")
            }
            (Rule::P08, Some(first)) => {
                let first = Coordinates(first);
                write!(
                    f,
                    "from {start} to {end}, straight on from the line from {first}"
                )
            }
            _ => write!(f, "from {start} to {end}, all on one straight line"),
        }
    }
}

impl fmt::Display for BeyondText {
    ghost output = { λ t. Some (beyond_text t.direction t.quarters t.place t.start t.end) };

    fn fmt<W: fmt::Write>(&self, f: &mut fmt::Formatter<W>) -> fmt::Result {
        let place = PlaceText(self.direction, self.quarters, self.place);
        let start = coordinate(self.start);
        let end = coordinate(self.end);
        write!(f, "{place} of the curve, its ends are at {start} and {end}")
    }
}

impl fmt::Display for PlaceText {
    ghost output = { λ t. Some (place_text t.0 t.1 t.2) };

    #[tactic(auto, unfolding(crate::specs::DrawingTexts::place_text))]
    fn fmt<W: fmt::Write>(&self, f: &mut fmt::Formatter<W>) -> fmt::Result {
        let axis = axis_word(self.0);
        let quarters = quarters_word(self.1);
        let place = Exact::new(self.2, Unit::OnCurve);
        write!(f, "{axis} is {place} at {quarters}")
    }
}

impl fmt::Display for TurnsText {
    ghost output = { λ t. Some (turns_text t.0) };

    fn fmt<W: fmt::Write>(&self, f: &mut fmt::Formatter<W>) -> fmt::Result {
        let clockwise = self.0.clockwise;
        let subpaths = Counted(self.0.subpaths as usize, "subpath");
        let which = ClockwiseText(self.0);
        write!(f, "{clockwise} of {subpaths}{which}")
    }
}

impl fmt::Display for ClockwiseText {
    ghost output = { λ t. Some (clockwise_text t.0) };

    fn fmt<W: fmt::Write>(&self, f: &mut fmt::Formatter<W>) -> fmt::Result {
        let first = self.0.first;
        if self.0.clockwise == 1 {
            write!(f, " is clockwise, from step {first}")
        } else {
            write!(f, " are clockwise, the first from step {first}")
        }
    }
}

impl fmt::Display for UntouchedText {
    ghost output = { λ t. Some (untouched_text t.stem t.step t.nearest) };

    fn fmt<W: fmt::Write>(&self, f: &mut fmt::Formatter<W>) -> fmt::Result {
        let low = coordinate(self.stem.low);
        let high = coordinate(self.stem.high);
        let axis = axis_word(self.stem.direction);
        let step = self.step;
        let more = MoreText(self.stem.more);
        let nearest = NearestText(self.stem.direction, self.nearest);
        write!(
            f,
            "the stem from {low} to {high} in {axis}, set at step {step}{more}{nearest}"
        )
    }
}

impl fmt::Display for NearestText {
    ghost output = { λ t. Some (nearest_text t.0 t.1) };

    fn fmt<W: fmt::Write>(&self, f: &mut fmt::Formatter<W>) -> fmt::Result {
        match self.1 {
            Some(place) => {
                let axis = axis_word(self.0);
                let place = coordinate(place);
                write!(f, "; the nearest point is at {axis} {place}")
            }
            None => f.write_str("; nothing is drawn after it"),
        }
    }
}

impl fmt::Display for MoreText {
    ghost output = { λ t. Some (more_text t.0) };

    fn fmt<W: fmt::Write>(&self, f: &mut fmt::Formatter<W>) -> fmt::Result {
        let more = self.0;
        if more == 0 {
            Ok(())
        } else {
            write!(f, ", and {more} more")
        }
    }
}
