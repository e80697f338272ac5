//! What reasons name, a group or a path a layer: red bands, boxes, lines and marks, and the numbers of edges.

ghost use Rattle.std.specs.Prelude.{◌≡◌, ◌++◌, OnOk, string_bytes};
ghost use Rattle.std.specs.List.{flat_map};
ghost use Rattle.t1_picture.specs.CauseTexts.{before_text, cause_band, cause_line, cause_lines_part, cause_numbers, cause_points, cause_points_part, causes_part, causes_start, column_of, edge_at, edge_numbers, edge_text, edges_part, end_text, ends_text, first_row, font_box_text, lower_corners, lower_number, lower_place, near_coordinate, rectangle_text, second_row, upper_corners, upper_number, upper_place, with_cause, with_causes};
ghost use Rattle.t1_picture.specs.Layers.{thick_text};
ghost use Rattle.t1_picture.specs.Subpaths.{begun_at};

use crate::arrows::write_arrows;
use crate::bands::{write_across, write_line};
use crate::bounds::Bounds;
use crate::causes::{Cause, NamedStem, Role};
use crate::frame::Frame;
use crate::layers::{write_mark, write_stretch, write_thick};
use crate::starts::{start_marks, start_numbers, start_path};
use crate::subpath::Subpath;
use crate::texts::{END, END_OF_DATA, push};
use std::alloc::AllocError;
use t1_char::UNIT;
use t1_drawing::{Direction, FontBox, end_of};
use t1_font::BILLION;
use t1_outline::Segment;
use t1_reason_texts::{Exact, coordinate, value};
use t1_rules::Point;

/// The group of stems, zones, FontBBox and coordinates, which the frame cuts.
const CAUSES: &str =
    r##"<g id="causes" clip-path="url(#frame)" fill="red" fill-opacity="0.25" stroke="red">
"##;

/// The width of lines and of the lines of marks.
const LINE: i64 = 2;

/// The height of numbers.
const NUMBERS: i64 = 12;

/// The distance of a number from an edge of the frame, and from the edge of a stem that it is beside or above.
const FROM_FRAME: i64 = 4;

const BESIDE: i64 = 2;

/// How far below an edge the base line of its number is.
const BELOW: i64 = 12;

/// How wide the column of numbers at the right is.
const COLUMN: i64 = 44;

/// The distance of two rows of numbers.
const ROW: i64 = 14;

// ---- the frame

/// Takes what reasons name into the bounds of the drawing.
pub(crate) fn widen_by_causes(bounds: &mut Bounds, causes: &[Cause])
    ensures { bounds.new ≡ with_causes bounds.old causes.now }
{
    for cause in causes {
        widen_by_cause(bounds, *cause);
    }
}

fn widen_by_cause(bounds: &mut Bounds, cause: Cause)
    ensures { bounds.new ≡ with_cause bounds.old cause }
{
    match cause {
        Cause::Stem(stem) | Cause::Untouched(stem) => stem.band.widen(bounds),
        Cause::Zone(edges) => {
            bounds.take_y(near_coordinate(edges.lower));
            bounds.take_y(near_coordinate(edges.upper));
        }
        Cause::Miss { named, pen } => {
            bounds.take(named);
            bounds.take(pen);
        }
        Cause::Ends { start, pen } => {
            bounds.take(start);
            bounds.take(pen);
        }
        Cause::Outside { point, .. } => bounds.take(point),
        Cause::Stroke { .. }
        | Cause::Coordinate { .. }
        | Cause::Turns
        | Cause::Base
        | Cause::Accent => {}
    }
}

/// The whole part of a number of a dictionary as a coordinate: the frame has room for the rest.
fn near_coordinate(number: i64) -> i64
    ensures { result ≡ near_coordinate number }
{
    (number / BILLION).saturating_mul(UNIT)
}

// ---- bands

fn start_causes(svg: &mut String) -> Result<(), AllocError>
    ensures { OnOk result (string_bytes svg.new ≡ string_bytes svg.old ++ causes_start) }
{
    push(svg, CAUSES)
}

/// Writes stems, zones, FontBBox and coordinates.
#[tactic(auto, unfolding(crate::specs::CauseTexts::causes_part))]
pub(crate) fn write_causes(
    svg: &mut String,
    frame: &Frame,
    causes: &[Cause],
) -> Result<(), AllocError>
    ensures { OnOk result (string_bytes svg.new ≡ string_bytes svg.old ++ causes_part frame.now causes.now) }
{
    start_causes(svg)?;
    write_cause_bands(svg, frame, causes)?;
    push(svg, END)
}

fn write_cause_bands(svg: &mut String, frame: &Frame, causes: &[Cause]) -> Result<(), AllocError>
    ensures { OnOk result (string_bytes svg.new ≡ string_bytes svg.old ++ flat_map (cause_band frame.now) causes.now) }
{
    for cause in causes {
        write_cause_band(svg, frame, *cause)?;
    }
    Ok(())
}

fn write_cause_band(svg: &mut String, frame: &Frame, cause: Cause) -> Result<(), AllocError>
    ensures { OnOk result (string_bytes svg.new ≡ string_bytes svg.old ++ cause_band frame.now cause) }
{
    match cause {
        Cause::Stem(stem) | Cause::Untouched(stem) => stem.band.write(svg, frame),
        Cause::Zone(edges) => write_across(svg, frame, value(edges.lower), value(edges.upper)),
        Cause::Outside { font_box, .. } => write_font_box(svg, font_box),
        Cause::Coordinate { direction, place } => write_line(svg, frame, direction, place),
        Cause::Miss { .. }
        | Cause::Ends { .. }
        | Cause::Stroke { .. }
        | Cause::Turns
        | Cause::Base
        | Cause::Accent => Ok(()),
    }
}

/// Writes FontBBox.
fn write_font_box(svg: &mut String, font_box: FontBox) -> Result<(), AllocError>
    ensures { OnOk result (string_bytes svg.new ≡ string_bytes svg.old ++ font_box_text font_box) }
{
    write_rectangle(
        svg,
        value(font_box.left),
        value(font_box.bottom),
        value(font_box.right),
        value(font_box.top),
    )
}

/// Writes a rectangle that isn't filled, from its lower left corner on. It is no path: pages that show the picture in another frame stretch
/// the paths of its group, which are bands across it.
fn write_rectangle(
    svg: &mut String,
    left: Exact,
    lower: Exact,
    right: Exact,
    upper: Exact,
) -> Result<(), AllocError>
    ensures { OnOk result (string_bytes svg.new ≡ string_bytes svg.old ++ rectangle_text left lower right upper) }
{
    write_lower_corners(svg, left, lower, right)?;
    write_upper_corners(svg, left, right, upper)
}

#[tactic(auto, unfolding(crate::specs::CauseTexts::lower_corners))]
fn write_lower_corners(
    svg: &mut String,
    left: Exact,
    lower: Exact,
    right: Exact,
) -> Result<(), AllocError>
    ensures { OnOk result (string_bytes svg.new ≡ string_bytes svg.old ++ lower_corners left lower right) }
{
    write!(
        svg,
        r#"<polygon fill="none" points="{left} {lower} {right} {lower}"#
    )
}

#[tactic(auto, unfolding(crate::specs::CauseTexts::upper_corners))]
fn write_upper_corners(
    svg: &mut String,
    left: Exact,
    right: Exact,
    upper: Exact,
) -> Result<(), AllocError>
    ensures { OnOk result (string_bytes svg.new ≡ string_bytes svg.old ++ upper_corners left right upper) }
{
    writeln!(svg, r#" {right} {upper} {left} {upper}"/>"#)
}

// ---- lines

/// Writes the lines to points that are named, lines and curves that are, and the outlines of components.
#[tactic(auto, unfolding(crate::specs::CauseTexts::cause_lines_part))]
pub(crate) fn write_cause_lines(
    svg: &mut String,
    frame: &Frame,
    causes: &[Cause],
    components: &str,
) -> Result<(), AllocError>
    ensures { OnOk result (string_bytes svg.new ≡ string_bytes svg.old ++ cause_lines_part frame.now causes.now components.now) }
{
    start_path(svg, "cause-lines", "red", frame.length(LINE))?;
    write_misses(svg, causes)?;
    push(svg, components)?;
    push(svg, END_OF_DATA)
}

fn write_misses(svg: &mut String, causes: &[Cause]) -> Result<(), AllocError>
    ensures { OnOk result (string_bytes svg.new ≡ string_bytes svg.old ++ flat_map cause_line causes.now) }
{
    for cause in causes {
        write_miss(svg, *cause)?;
    }
    Ok(())
}

fn write_miss(svg: &mut String, cause: Cause) -> Result<(), AllocError>
    ensures { OnOk result (string_bytes svg.new ≡ string_bytes svg.old ++ cause_line cause) }
{
    match cause {
        Cause::Miss { named, pen } => write_stretch(svg, pen, named),
        Cause::Stroke {
            before,
            start,
            segment,
        } => write_stroke(svg, before, start, segment),
        Cause::Stem(_)
        | Cause::Untouched(_)
        | Cause::Zone(_)
        | Cause::Ends { .. }
        | Cause::Outside { .. }
        | Cause::Coordinate { .. }
        | Cause::Turns
        | Cause::Base
        | Cause::Accent => Ok(()),
    }
}

/// Writes a line or a curve, after the line right before it, if there is one.
fn write_stroke(
    svg: &mut String,
    before: Option<Point>,
    start: Point,
    segment: Segment,
) -> Result<(), AllocError>
    ensures { OnOk result (string_bytes svg.new ≡ string_bytes svg.old ++ (before_text before start ++ thick_text (begun_at start) segment)) }
{
    let subpath = Subpath::at(start);
    write_before(svg, before, start)?;
    write_thick(svg, &subpath, segment)
}

/// Writes the line that leads to a point, if there is one.
fn write_before(svg: &mut String, before: Option<Point>, start: Point) -> Result<(), AllocError>
    ensures { OnOk result (string_bytes svg.new ≡ string_bytes svg.old ++ before_text before start) }
{
    match before {
        Some(line_start) => write_stretch(svg, line_start, start),
        None => Ok(()),
    }
}

// ---- points

/// Writes the points that are named, the ends of open paths, lines and curves, and the arrows of subpaths where a reason names which way they run.
#[tactic(auto, unfolding(crate::specs::CauseTexts::cause_points_part))]
pub(crate) fn write_cause_points(
    svg: &mut String,
    frame: &Frame,
    causes: &[Cause],
    arrows: &str,
) -> Result<(), AllocError>
    ensures { OnOk result (string_bytes svg.new ≡ string_bytes svg.old ++ cause_points_part frame.now causes.now arrows.now) }
{
    start_marks(svg, "cause-points", frame.length(LINE))?;
    write_all_points(svg, causes)?;
    write_arrows(svg, causes, arrows)?;
    push(svg, END)
}

fn write_all_points(svg: &mut String, causes: &[Cause]) -> Result<(), AllocError>
    ensures { OnOk result (string_bytes svg.new ≡ string_bytes svg.old ++ flat_map cause_points causes.now) }
{
    for cause in causes {
        write_points_of(svg, *cause)?;
    }
    Ok(())
}

fn write_points_of(svg: &mut String, cause: Cause) -> Result<(), AllocError>
    ensures { OnOk result (string_bytes svg.new ≡ string_bytes svg.old ++ cause_points cause) }
{
    match cause {
        Cause::Miss { named, .. } => write_mark(svg, "cross", named),
        Cause::Ends { start, pen } => write_ends(svg, start, Some(pen)),
        Cause::Outside { point, .. } => write_mark(svg, "cross", point),
        Cause::Stroke { start, segment, .. } => write_ends(svg, start, end_of(segment)),
        Cause::Stem(_)
        | Cause::Untouched(_)
        | Cause::Zone(_)
        | Cause::Coordinate { .. }
        | Cause::Turns
        | Cause::Base
        | Cause::Accent => Ok(()),
    }
}

/// Writes two ends, of which the second may not be there.
fn write_ends(svg: &mut String, start: Point, end: Option<Point>) -> Result<(), AllocError>
    ensures { OnOk result (string_bytes svg.new ≡ string_bytes svg.old ++ ends_text start end) }
{
    write_mark(svg, "end", start)?;
    write_end(svg, end)
}

fn write_end(svg: &mut String, end: Option<Point>) -> Result<(), AllocError>
    ensures { OnOk result (string_bytes svg.new ≡ string_bytes svg.old ++ end_text end) }
{
    match end {
        Some(point) => write_mark(svg, "end", point),
        None => Ok(()),
    }
}

// ---- numbers

/// Writes the numbers of the edges of stems, y downwards.
#[tactic(auto, unfolding(crate::specs::CauseTexts::edges_part))]
pub(crate) fn write_edges(
    svg: &mut String,
    frame: &Frame,
    causes: &[Cause],
) -> Result<(), AllocError>
    ensures { OnOk result (string_bytes svg.new ≡ string_bytes svg.old ++ edges_part frame.now causes.now) }
{
    start_numbers(svg, "edges", frame.length(NUMBERS))?;
    write_cause_numbers(svg, frame, causes)?;
    push(svg, END)
}

fn write_cause_numbers(svg: &mut String, frame: &Frame, causes: &[Cause]) -> Result<(), AllocError>
    ensures { OnOk result (string_bytes svg.new ≡ string_bytes svg.old ++ flat_map (cause_numbers frame.now) causes.now) }
{
    for cause in causes {
        write_numbers_of(svg, frame, *cause)?;
    }
    Ok(())
}

fn write_numbers_of(svg: &mut String, frame: &Frame, cause: Cause) -> Result<(), AllocError>
    ensures { OnOk result (string_bytes svg.new ≡ string_bytes svg.old ++ cause_numbers frame.now cause) }
{
    match cause {
        Cause::Stem(stem) | Cause::Untouched(stem) => write_stem_numbers(svg, frame, stem),
        Cause::Zone(_)
        | Cause::Miss { .. }
        | Cause::Ends { .. }
        | Cause::Outside { .. }
        | Cause::Stroke { .. }
        | Cause::Coordinate { .. }
        | Cause::Turns
        | Cause::Base
        | Cause::Accent => Ok(()),
    }
}

/// Writes the numbers of a stem's edges.
fn write_stem_numbers(svg: &mut String, frame: &Frame, stem: NamedStem) -> Result<(), AllocError>
    ensures { OnOk result (string_bytes svg.new ≡ string_bytes svg.old ++ edge_numbers frame.now stem) }
{
    write_lower_number(svg, frame, stem)?;
    write_upper_number(svg, frame, stem)
}

/// Writes the number of the upper or right edge.
fn write_upper_number(svg: &mut String, frame: &Frame, stem: NamedStem) -> Result<(), AllocError>
    ensures { OnOk result (string_bytes svg.new ≡ string_bytes svg.old ++ upper_number frame.now stem) }
{
    write_edge_at(svg, upper_place(frame, stem), stem.upper)
}

/// Writes the number of the lower or left edge; there is none of a stem that is drawn as one edge.
fn write_lower_number(svg: &mut String, frame: &Frame, stem: NamedStem) -> Result<(), AllocError>
    ensures { OnOk result (string_bytes svg.new ≡ string_bytes svg.old ++ lower_number frame.now stem) }
{
    if stem.lower == stem.upper {
        Ok(())
    } else {
        write_edge_at(svg, lower_place(frame, stem), stem.lower)
    }
}

/// Where the number of the lower or left edge begins.
fn lower_place(frame: &Frame, stem: NamedStem) -> Point
    ensures { result ≡ lower_place stem.band.direction frame.now stem }
{
    match stem.band.direction {
        Direction::Across => Point {
            x: column(stem.role, frame),
            y: stem.band.lower.saturating_sub(frame.units(BELOW)),
        },
        Direction::Upright => Point {
            x: stem.band.lower.saturating_add(frame.units(BESIDE)),
            y: first_row(stem.role, frame),
        },
    }
}

/// Where the number of the upper or right edge begins.
fn upper_place(frame: &Frame, stem: NamedStem) -> Point
    ensures { result ≡ upper_place stem.band.direction frame.now stem }
{
    match stem.band.direction {
        Direction::Across => Point {
            x: column(stem.role, frame),
            y: stem.band.upper.saturating_add(frame.units(BESIDE)),
        },
        Direction::Upright => Point {
            x: stem.band.upper.saturating_add(frame.units(BESIDE)),
            y: second_row(stem.role, frame),
        },
    }
}

/// Where the column of the numbers of stems across begins.
fn column(role: Role, frame: &Frame) -> i64
    ensures { result ≡ column_of role frame.now }
{
    match role {
        Role::Own => frame.from_left(FROM_FRAME),
        Role::Other => frame.from_right(COLUMN),
    }
}

/// How high the row of the left edges of upright stems is.
fn first_row(role: Role, frame: &Frame) -> i64
    ensures { result ≡ first_row role frame.now }
{
    match role {
        Role::Own => frame.from_bottom(FROM_FRAME),
        Role::Other => frame.from_top(2 * ROW),
    }
}

/// How high that of their right edges is.
fn second_row(role: Role, frame: &Frame) -> i64
    ensures { result ≡ second_row role frame.now }
{
    match role {
        Role::Own => frame.from_bottom(FROM_FRAME + ROW),
        Role::Other => frame.from_top(ROW),
    }
}

/// Writes the number of an edge at a place.
fn write_edge_at(svg: &mut String, place: Point, number: i64) -> Result<(), AllocError>
    ensures { OnOk result (string_bytes svg.new ≡ string_bytes svg.old ++ edge_at place number) }
{
    write_edge(
        svg,
        coordinate(place.x),
        coordinate(place.y.wrapping_neg()),
        coordinate(number),
    )
}

#[tactic(auto, unfolding(crate::specs::CauseTexts::edge_text))]
fn write_edge(svg: &mut String, x: Exact, y: Exact, number: Exact) -> Result<(), AllocError>
    ensures { OnOk result (string_bytes svg.new ≡ string_bytes svg.old ++ edge_text x y number) }
{
    writeln!(svg, r#"<text x="{x}" y="{y}">{number}</text>"#)
}
