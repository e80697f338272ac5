//! Bands across the drawing: the stems that are in force, and the alignment zones. Type 1 Font Format 1.1, chapters 5 and 6.

ghost use Rattle.std.specs.Prelude.{◌≡◌, ◌≤◌, ◌<◌, ◌++◌, OnOk, slice_get, string_bytes};
ghost use Rattle.t1_font.specs.Entries.{entry_view};
ghost use Rattle.t1_font.specs.Keys.{index_of};
ghost use Rattle.t1_picture.specs.Bands.{across_box, across_line, across_text, band_of, band_text, is_one_edge, line_text, lower_edge, one_edge, upper_edge, upright_box, upright_line, upright_text, with_band, zone_by, zone_text, zones_from, zones_in, zones_text};

use crate::bounds::Bounds;
use crate::frame::Frame;
use std::alloc::AllocError;
use t1_char::{Edition, UNIT};
use t1_drawing::Direction;
use t1_font::{Entry, Font, Key};
use t1_reason_texts::{Exact, coordinate, value};
use t1_rules::Stem;

/// The width that means one edge, the upper or the right one.
const TOP_EDGE: i64 = -20 * UNIT;

/// How many zones BlueValues has at most.
const BLUE_VALUES: usize = 7;

/// How many OtherBlues has.
const OTHER_BLUES: usize = 5;

/// A stem as it is drawn, by its edges in units of 1/65536.
#[derive(Clone, Copy, Debug, PartialEq, Eq)]
pub(crate) struct Band {
    pub(crate) direction: Direction,
    pub(crate) lower: i64,
    pub(crate) upper: i64,
}

impl Band {
    /// The band of a stem, given what its position counts from. In the second edition one of width -20 or -21 is one edge.
    pub(crate) fn of(stem: Stem, direction: Direction, start: i64, edition: Edition) -> Band
        ensures { result ≡ band_of direction start edition stem }
    {
        Band {
            direction,
            lower: start.saturating_add(lower_edge(stem, edition)),
            upper: start.saturating_add(upper_edge(stem, edition)),
        }
    }

    /// Takes the edges into the bounds of the drawing.
    pub(crate) fn widen(&self, bounds: &mut Bounds)
        ensures { bounds.new ≡ with_band bounds.old self.now }
    {
        match self.direction {
            Direction::Across => {
                bounds.take_y(self.lower);
                bounds.take_y(self.upper);
            }
            Direction::Upright => {
                bounds.take_x(self.lower);
                bounds.take_x(self.upper);
            }
        }
    }

    /// Writes it as an element.
    pub(crate) fn write(&self, svg: &mut String, frame: &Frame) -> Result<(), AllocError>
        ensures { OnOk result (string_bytes svg.new ≡ string_bytes svg.old ++ band_text frame.now self.now) }
    {
        let lower = coordinate(self.lower);
        let upper = coordinate(self.upper);
        match self.direction {
            Direction::Across => write_across(svg, frame, lower, upper),
            Direction::Upright => write_upright(svg, frame, lower, upper),
        }
    }
}

/// The lower or the left edge of a stem, as it is drawn.
pub(crate) fn lower_edge(stem: Stem, edition: Edition) -> i64
    ensures { result ≡ lower_edge edition stem }
{
    if edition.knows_one_edge() && stem.has_one_edge() {
        one_edge(stem)
    } else {
        stem.lower()
    }
}

/// The upper or the right one.
pub(crate) fn upper_edge(stem: Stem, edition: Edition) -> i64
    ensures { result ≡ upper_edge edition stem }
{
    if edition.knows_one_edge() && stem.has_one_edge() {
        one_edge(stem)
    } else {
        stem.upper()
    }
}

/// The edge that a stem of one edge means: of width -20 the one at its position, of width -21 the other one.
fn one_edge(stem: Stem) -> i64
    ensures { result ≡ one_edge stem }
{
    if i64::from(stem.width) == TOP_EDGE {
        stem.upper()
    } else {
        stem.lower()
    }
}

/// Whether the two edges are one.
fn is_one_edge(lower: Exact, upper: Exact) -> bool
    ensures { result ≡ is_one_edge lower upper }
{
    lower.number == upper.number
}

/// Writes a band from left to right; one whose edges are the same is a line.
pub(crate) fn write_across(
    svg: &mut String,
    frame: &Frame,
    lower: Exact,
    upper: Exact,
) -> Result<(), AllocError>
    ensures { OnOk result (string_bytes svg.new ≡ string_bytes svg.old ++ across_text frame.now lower upper) }
{
    if is_one_edge(lower, upper) {
        write_across_line(svg, frame.left(), lower, frame.right())
    } else {
        write_across_box(svg, frame.left(), lower, frame.right(), upper)
    }
}

/// Writes a line from left to right.
#[tactic(auto, unfolding(crate::specs::Bands::across_line))]
fn write_across_line(
    svg: &mut String,
    left: Exact,
    y: Exact,
    right: Exact,
) -> Result<(), AllocError>
    ensures { OnOk result (string_bytes svg.new ≡ string_bytes svg.old ++ across_line left y right) }
{
    writeln!(svg, r#"<path d="M{left} {y}H{right}"/>"#)
}

/// Writes a box, from its lower side on.
#[tactic(auto, unfolding(crate::specs::Bands::across_box))]
fn write_across_box(
    svg: &mut String,
    left: Exact,
    lower: Exact,
    right: Exact,
    upper: Exact,
) -> Result<(), AllocError>
    ensures { OnOk result (string_bytes svg.new ≡ string_bytes svg.old ++ across_box left lower right upper) }
{
    writeln!(
        svg,
        r#"<path d="M{left} {lower}H{right}V{upper}H{left}Z"/>"#
    )
}

/// Writes a band from bottom to top.
fn write_upright(
    svg: &mut String,
    frame: &Frame,
    lower: Exact,
    upper: Exact,
) -> Result<(), AllocError>
    ensures { OnOk result (string_bytes svg.new ≡ string_bytes svg.old ++ upright_text frame.now lower upper) }
{
    if is_one_edge(lower, upper) {
        write_upright_line(svg, lower, frame.bottom(), frame.top())
    } else {
        write_upright_box(svg, lower, frame.bottom(), upper, frame.top())
    }
}

/// Writes a line in a direction, from edge to edge of the frame, at a coordinate.
pub(crate) fn write_line(
    svg: &mut String,
    frame: &Frame,
    direction: Direction,
    place: Exact,
) -> Result<(), AllocError>
    ensures { OnOk result (string_bytes svg.new ≡ string_bytes svg.old ++ line_text direction frame.now place) }
{
    match direction {
        Direction::Across => write_across_line(svg, frame.left(), place, frame.right()),
        Direction::Upright => write_upright_line(svg, place, frame.bottom(), frame.top()),
    }
}

/// Writes a line from bottom to top.
#[tactic(auto, unfolding(crate::specs::Bands::upright_line))]
pub(crate) fn write_upright_line(
    svg: &mut String,
    x: Exact,
    bottom: Exact,
    top: Exact,
) -> Result<(), AllocError>
    ensures { OnOk result (string_bytes svg.new ≡ string_bytes svg.old ++ upright_line x bottom top) }
{
    writeln!(svg, r#"<path d="M{x} {bottom}V{top}"/>"#)
}

/// Writes a box, from its left side on.
#[tactic(auto, unfolding(crate::specs::Bands::upright_box))]
fn write_upright_box(
    svg: &mut String,
    left: Exact,
    bottom: Exact,
    right: Exact,
    top: Exact,
) -> Result<(), AllocError>
    ensures { OnOk result (string_bytes svg.new ≡ string_bytes svg.old ++ upright_box left bottom right top) }
{
    writeln!(
        svg,
        r#"<path d="M{left} {bottom}V{top}H{right}V{bottom}Z"/>"#
    )
}

/// Writes the zones of BlueValues and OtherBlues.
pub(crate) fn write_zones(
    svg: &mut String,
    frame: &Frame,
    font: &Font<'_>,
) -> Result<(), AllocError>
    ensures { OnOk result (string_bytes svg.new ≡ string_bytes svg.old ++ zones_in frame.now font.now) }
{
    write_zones_of(svg, frame, font.value(Key::BlueValues), BLUE_VALUES)?;
    write_zones_of(svg, frame, font.value(Key::OtherBlues), OTHER_BLUES)
}

/// Writes the zones of a list, so many at most.
fn write_zones_of(
    svg: &mut String,
    frame: &Frame,
    list: &Entry,
    most: usize,
) -> Result<(), AllocError>
    requires { most ≤ 7 }
    ensures { OnOk result (string_bytes svg.new ≡ string_bytes svg.old ++ zones_text frame.now most (entry_view list.now)) }
{
    match list {
        Entry::Numbers { first, .. } => write_pairs(svg, frame, first.as_slice(), most),
        Entry::Absent | Entry::Number(_) | Entry::Other => Ok(()),
    }
}

/// Writes pairs of numbers as zones, so many at most.
fn write_pairs(svg: &mut String, frame: &Frame, list: &[i64], most: usize) -> Result<(), AllocError>
    requires { most ≤ 7 }
    ensures { OnOk result (string_bytes svg.new ≡ string_bytes svg.old ++ zones_from frame.now list.now 0 most) }
{
    for zone in 0..most {
        write_zone(svg, frame, list, zone)?;
    }
    Ok(())
}

/// Writes a zone, the first of which is 0: a pair of the numbers; a last one alone is none.
fn write_zone(svg: &mut String, frame: &Frame, list: &[i64], zone: usize) -> Result<(), AllocError>
    requires { zone < 7 }
    ensures { OnOk result (string_bytes svg.new ≡ string_bytes svg.old ++ zone_text frame.now list.now zone) }
{
    write_zone_by(
        svg,
        frame,
        number_at(list, 2 * zone),
        number_at(list, 2 * zone + 1),
    )
}

/// The number at a place of a list.
pub(crate) fn number_at(list: &[i64], place: usize) -> Option<i64>
    ensures { result ≡ slice_get list.now place }
{
    list.get(place).copied()
}

/// Writes a zone whose edges are there.
fn write_zone_by(
    svg: &mut String,
    frame: &Frame,
    lower: Option<i64>,
    upper: Option<i64>,
) -> Result<(), AllocError>
    ensures { OnOk result (string_bytes svg.new ≡ string_bytes svg.old ++ zone_by frame.now lower upper) }
{
    let Some(lower) = lower else {
        return Ok(());
    };
    let Some(upper) = upper else {
        return Ok(());
    };
    write_across(svg, frame, value(lower), value(upper))
}
