//! Where the drawing and the legend are, and how large lines, points and letters are.

ghost use Rattle.std.specs.Prelude.{◌≡◌, ◌-ℤ◌};
ghost use Rattle.t1_picture.specs.Bounds.{kept};
ghost use Rattle.t1_picture.specs.Frames.{count_above, count_below, count_of, edge_above, edge_below, fits, from_bottom, from_left, from_right, from_top, frame_by, frame_of, frame_with, height_of, legend_left_of, legend_line_of, length_of, opposite, power_for, units_of, width_of};

use crate::bounds::Bounds;
use t1_reason_texts::{Exact, coordinate};

/// How many binary places a coordinate has.
const PLACES: u32 = 16;

/// The unit is doubled until the drawing is no wider and no higher than so many units.
const MOST_UNITS: i64 = 1_024;

/// How often the unit is doubled at most: then it is past every drawing.
const MOST_DOUBLINGS: u32 = 40;

/// The distance of the frame from the drawing.
const MARGIN: i64 = 48;

/// The distance of the legend from the left edge.
const INDENT: i64 = 16;

/// How wide a letter is.
const LETTER: i64 = 10;

/// The distance between the lines of the legend, and of the first one from the drawing.
const LINE: i64 = 24;

/// The frame of the drawing and the size of the picture: counts of a unit, which is 1 or a power of two.
#[derive(Clone, Copy, Debug, PartialEq, Eq)]
pub(crate) struct Frame {
    /// The unit is 2 to this power, in units of 1/65536.
    power: u32,
    left: i64,
    bottom: i64,
    right: i64,
    top: i64,
}

impl Frame {
    /// The frame of a drawing.
    pub(crate) fn of(bounds: &Bounds) -> Frame
        ensures { result ≡ frame_of bounds.now }
    {
        Frame::by(power_for(bounds.extent()), bounds)
    }

    /// That in a unit of 2 to this power.
    fn by(power: u32, bounds: &Bounds) -> Frame
        ensures { result ≡ frame_by power bounds.now }
    {
        Frame::with_edges(
            power,
            below(bounds.left, power),
            below(bounds.bottom, power),
            above(bounds.right, power),
            above(bounds.top, power),
        )
    }

    fn with_edges(power: u32, left: i64, bottom: i64, right: i64, top: i64) -> Frame
        ensures { result ≡ frame_with power left bottom right top }
    {
        Frame {
            power,
            left,
            bottom,
            right,
            top,
        }
    }

    /// So many units, in units of 1/65536.
    pub(crate) fn units(&self, count: i64) -> i64
        ensures { result ≡ units_of self.now count }
    {
        count.saturating_mul(1i64.wrapping_shl(self.power))
    }

    /// So many units from the left edge, to the right, in units of 1/65536.
    pub(crate) fn from_left(&self, count: i64) -> i64
        ensures { result ≡ from_left self.now count }
    {
        self.units(self.left.saturating_add(count))
    }

    /// So many units from the lower edge, upwards.
    pub(crate) fn from_bottom(&self, count: i64) -> i64
        ensures { result ≡ from_bottom self.now count }
    {
        self.units(self.bottom.saturating_add(count))
    }

    /// So many units from the right edge, to the left.
    pub(crate) fn from_right(&self, count: i64) -> i64
        ensures { result ≡ from_right self.now count }
    {
        self.units(self.right.saturating_sub(count))
    }

    /// So many units from the upper edge, downwards.
    pub(crate) fn from_top(&self, count: i64) -> i64
        ensures { result ≡ from_top self.now count }
    {
        self.units(self.top.saturating_sub(count))
    }

    /// So many units, as they are written.
    #[tactic(auto, unfolding(crate::specs::Frames::length_of))]
    pub(crate) fn length(&self, count: i64) -> Exact
        ensures { result ≡ length_of self.now count }
    {
        coordinate(self.units(count))
    }

    pub(crate) fn left(&self) -> Exact
        ensures { result ≡ length_of self.now self.now.left }
    {
        self.length(self.left)
    }

    pub(crate) fn bottom(&self) -> Exact
        ensures { result ≡ length_of self.now self.now.bottom }
    {
        self.length(self.bottom)
    }

    pub(crate) fn right(&self) -> Exact
        ensures { result ≡ length_of self.now self.now.right }
    {
        self.length(self.right)
    }

    pub(crate) fn top(&self) -> Exact
        ensures { result ≡ length_of self.now self.now.top }
    {
        self.length(self.top)
    }

    /// The upper edge, counted downwards, as the picture's own coordinates are.
    pub(crate) fn upper_edge(&self) -> Exact
        ensures { result ≡ length_of self.now (opposite self.now.top) }
    {
        self.length(self.top.wrapping_neg())
    }

    /// How many units the drawing is wide.
    pub(crate) fn drawing_width(&self) -> i64
        ensures { result ≡ kept (self.now.right -ℤ self.now.left) }
    {
        self.right.saturating_sub(self.left)
    }

    /// How many units the drawing is high.
    pub(crate) fn drawing_height(&self) -> i64
        ensures { result ≡ kept (self.now.top -ℤ self.now.bottom) }
    {
        self.top.saturating_sub(self.bottom)
    }

    /// How many units the picture is wide, whose legend has so many columns.
    #[tactic(auto, unfolding(crate::specs::Frames::width_of))]
    pub(crate) fn width(&self, columns: usize) -> i64
        ensures { result ≡ width_of self.now columns }
    {
        let legend = as_count(columns)
            .saturating_mul(LETTER)
            .saturating_add(2 * INDENT);
        self.drawing_width().max(legend)
    }

    /// How many units the picture is high, whose legend has so many lines.
    #[tactic(auto, unfolding(crate::specs::Frames::height_of))]
    pub(crate) fn height(&self, lines: usize) -> i64
        ensures { result ≡ height_of self.now lines }
    {
        let legend = as_count(lines).saturating_mul(LINE).saturating_add(INDENT);
        self.drawing_height().saturating_add(legend)
    }

    /// Where the lines of the legend begin.
    #[tactic(auto, unfolding(crate::specs::Frames::legend_left_of))]
    pub(crate) fn legend_left(&self) -> Exact
        ensures { result ≡ legend_left_of self.now }
    {
        self.length(self.left.saturating_add(INDENT))
    }

    /// Where a line of the legend is, the first of which is 0: counted downwards.
    #[tactic(auto, unfolding(crate::specs::Frames::legend_line_of))]
    pub(crate) fn legend_line(&self, place: usize) -> Exact
        ensures { result ≡ legend_line_of self.now place }
    {
        let below = as_count(place).saturating_add(1).saturating_mul(LINE);
        self.length(self.bottom.wrapping_neg().saturating_add(below))
    }
}

/// The power of two of the unit for a drawing that is so wide or high.
fn power_for(extent: i64) -> u32
    ensures { result ≡ power_for extent }
{
    for doublings in 0..MOST_DOUBLINGS {
        if fits(extent, PLACES + doublings) {
            return PLACES + doublings;
        }
    }
    PLACES + MOST_DOUBLINGS
}

/// Whether a drawing that is so wide or high has few enough units.
fn fits(extent: i64, power: u32) -> bool
    ensures { result ≡ fits extent power }
{
    count_above(extent, power) <= MOST_UNITS
}

/// The edge of the frame below a number.
#[tactic(auto, unfolding(crate::specs::Frames::edge_below))]
fn below(number: i64, power: u32) -> i64
    ensures { result ≡ edge_below number power }
{
    count_below(number, power).saturating_sub(MARGIN)
}

/// The edge of the frame above a number.
#[tactic(auto, unfolding(crate::specs::Frames::edge_above))]
fn above(number: i64, power: u32) -> i64
    ensures { result ≡ edge_above number power }
{
    count_above(number, power).saturating_add(MARGIN)
}

/// The most units that aren't above a number.
fn count_below(number: i64, power: u32) -> i64
    ensures { result ≡ count_below number power }
{
    number.wrapping_shr(power)
}

/// The fewest units that aren't below a number.
fn count_above(number: i64, power: u32) -> i64
    ensures { result ≡ count_above number power }
{
    count_below(number.wrapping_neg(), power).wrapping_neg()
}

/// A count of lines or columns.
fn as_count(count: usize) -> i64
    ensures { result ≡ count_of count }
{
    i64::try_from(count).unwrap_or(i64::MAX)
}
