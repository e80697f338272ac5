//! What is before the drawing: the size, the title, the forms of points and marks, and the ground.

ghost use Rattle.std.specs.Prelude.{◌≡◌, ◌++◌, OnOk, string_bytes};
ghost use Rattle.t1_picture.specs.Drawings.{texts_of};
ghost use Rattle.t1_picture.specs.CauseTexts.{cross_text};
ghost use Rattle.t1_picture.specs.Pictures.{cause_forms, circles_text, clip_text, columns_from, defs_text, forms_text, ground_part, ground_text, head_by, head_text, letters_of, plane_text, size_text, square_text, svg_start, title_text, view_box_text};

use crate::frame::Frame;
use crate::marks::MARK;
use crate::texts::push;
use std::alloc::AllocError;
use t1_forms::push_xml;
use t1_reason_texts::Exact;

/// What is before the size.
const HEAD: &str = r#"<?xml version="1.0" encoding="UTF-8"?>
<svg xmlns="http://www.w3.org/2000/svg" xmlns:xlink="http://www.w3.org/1999/xlink" version="1.1""#;

/// Half the side of the square of a point, and the radius of the circle of a control point, in units of the frame.
const POINT: i64 = 4;

/// Half the side of the square of an end of an open path.
const END_POINT: i64 = 7;

/// Writes what is before the drawing: the size, the title, and the forms of points and marks.
pub(crate) fn write_head(
    svg: &mut String,
    frame: &Frame,
    title: &str,
    lines: &[String],
) -> Result<(), AllocError>
    ensures { OnOk result (string_bytes svg.new ≡ string_bytes svg.old ++ head_text frame.now title.now (texts_of lines.now)) }
{
    let width = frame.width(columns_of(lines));
    let height = frame.height(lines.len());
    write_head_by(svg, frame, width, height, title)
}

#[tactic(auto, unfolding(crate::specs::Pictures::head_by))]
fn write_head_by(
    svg: &mut String,
    frame: &Frame,
    width: i64,
    height: i64,
    title: &str,
) -> Result<(), AllocError>
    ensures { OnOk result (string_bytes svg.new ≡ string_bytes svg.old ++ head_by frame.now width height title.now) }
{
    write_plane(svg, frame, width, height)?;
    write_title(svg, title)?;
    write_defs(svg, frame)?;
    write_ground_part(svg, frame, width, height)
}

/// Writes the size, and the part of the plane that is shown.
#[tactic(auto, unfolding(crate::specs::Pictures::plane_text))]
fn write_plane(svg: &mut String, frame: &Frame, width: i64, height: i64) -> Result<(), AllocError>
    ensures { OnOk result (string_bytes svg.new ≡ string_bytes svg.old ++ plane_text frame.now width height) }
{
    start_svg(svg)?;
    write_size(svg, width, height)?;
    write_view_box(
        svg,
        frame.left(),
        frame.upper_edge(),
        frame.length(width),
        frame.length(height),
    )
}

fn start_svg(svg: &mut String) -> Result<(), AllocError>
    ensures { OnOk result (string_bytes svg.new ≡ string_bytes svg.old ++ svg_start) }
{
    push(svg, HEAD)
}

/// Writes what lies below all.
#[tactic(auto, unfolding(crate::specs::Pictures::ground_part))]
fn write_ground_part(
    svg: &mut String,
    frame: &Frame,
    width: i64,
    height: i64,
) -> Result<(), AllocError>
    ensures { OnOk result (string_bytes svg.new ≡ string_bytes svg.old ++ ground_part frame.now width height) }
{
    write_ground(
        svg,
        frame.left(),
        frame.upper_edge(),
        frame.length(width),
        frame.length(height),
    )
}

/// How many letters the longest line has.
fn columns_of(lines: &[String]) -> usize
    ensures { result ≡ columns_from 0 (texts_of lines.now) }
{
    let mut most = 0usize;
    for line in lines {
        most = most.max(letters_of(line.as_str()));
    }
    most
}

/// How many letters a line has.
fn letters_of(line: &str) -> usize
    ensures { result ≡ letters_of line.now }
{
    let mut letters = 0usize;
    for _letter in line.chars() {
        letters = letters.saturating_add(1);
    }
    letters
}

/// Writes the size, in units.
#[tactic(auto, unfolding(crate::specs::Pictures::size_text))]
fn write_size(svg: &mut String, width: i64, height: i64) -> Result<(), AllocError>
    ensures { OnOk result (string_bytes svg.new ≡ string_bytes svg.old ++ size_text width height) }
{
    write!(svg, r#" width="{width}" height="{height}""#)
}

/// Writes the part of the plane that is shown.
#[tactic(auto, unfolding(crate::specs::Pictures::view_box_text))]
fn write_view_box(
    svg: &mut String,
    x: Exact,
    y: Exact,
    across: Exact,
    down: Exact,
) -> Result<(), AllocError>
    ensures { OnOk result (string_bytes svg.new ≡ string_bytes svg.old ++ view_box_text x y across down) }
{
    writeln!(svg, r#" viewBox="{x} {y} {across} {down}">"#)
}

#[tactic(auto, unfolding(crate::specs::Pictures::title_text))]
fn write_title(svg: &mut String, title: &str) -> Result<(), AllocError>
    ensures { OnOk result (string_bytes svg.new ≡ string_bytes svg.old ++ title_text title.now) }
{
    push(svg, "<title>")?;
    push_xml(svg, title)?;
    push(svg, "</title>\n")
}

/// Writes the forms of points and marks, and the frame, by which zones are cut.
#[tactic(auto, unfolding(crate::specs::Pictures::defs_text))]
fn write_defs(svg: &mut String, frame: &Frame) -> Result<(), AllocError>
    ensures { OnOk result (string_bytes svg.new ≡ string_bytes svg.old ++ defs_text frame.now) }
{
    push(svg, "<defs>\n")?;
    write_forms(
        svg,
        frame.length(POINT),
        frame.length(MARK),
        frame.length(END_POINT),
    )?;
    write_clip(
        svg,
        frame.left(),
        frame.bottom(),
        frame.right(),
        frame.top(),
    )?;
    push(svg, "</defs>\n")
}

/// Writes the forms: of points by a size, of marks and crosses by a radius, and of the ends of paths.
#[tactic(auto, unfolding(crate::specs::Pictures::forms_text))]
fn write_forms(svg: &mut String, size: Exact, radius: Exact, end: Exact) -> Result<(), AllocError>
    ensures { OnOk result (string_bytes svg.new ≡ string_bytes svg.old ++ forms_text size radius end) }
{
    write_square(svg, "on", size)?;
    write_circle_forms(svg, size, radius)?;
    write_cause_forms(svg, radius, end)
}

#[tactic(auto, unfolding(crate::specs::Pictures::square_text))]
fn write_square(svg: &mut String, id: &str, size: Exact) -> Result<(), AllocError>
    ensures { OnOk result (string_bytes svg.new ≡ string_bytes svg.old ++ square_text id.now size) }
{
    writeln!(
        svg,
        r#"<path id="{id}" d="M-{size} -{size}H{size}V{size}H-{size}Z"/>"#
    )
}

#[tactic(auto, unfolding(crate::specs::Pictures::circles_text))]
fn write_circle_forms(svg: &mut String, size: Exact, radius: Exact) -> Result<(), AllocError>
    ensures { OnOk result (string_bytes svg.new ≡ string_bytes svg.old ++ circles_text size radius) }
{
    writeln!(
        svg,
        r#"<circle id="off" r="{size}"/>
<circle id="mark" r="{radius}"/>"#
    )
}

/// Writes the forms of what reasons name.
#[tactic(auto, unfolding(crate::specs::Pictures::cause_forms))]
fn write_cause_forms(svg: &mut String, cross: Exact, end: Exact) -> Result<(), AllocError>
    ensures { OnOk result (string_bytes svg.new ≡ string_bytes svg.old ++ cause_forms cross end) }
{
    write_cross(svg, cross)?;
    write_square(svg, "end", end)
}

#[tactic(auto, unfolding(crate::specs::CauseTexts::cross_text))]
fn write_cross(svg: &mut String, size: Exact) -> Result<(), AllocError>
    ensures { OnOk result (string_bytes svg.new ≡ string_bytes svg.old ++ cross_text size) }
{
    writeln!(
        svg,
        r#"<path id="cross" d="M-{size} 0H{size}M0 -{size}V{size}"/>"#
    )
}

#[tactic(auto, unfolding(crate::specs::Pictures::clip_text))]
fn write_clip(
    svg: &mut String,
    left: Exact,
    bottom: Exact,
    right: Exact,
    top: Exact,
) -> Result<(), AllocError>
    ensures { OnOk result (string_bytes svg.new ≡ string_bytes svg.old ++ clip_text left bottom right top) }
{
    writeln!(
        svg,
        r#"<clipPath id="frame"><path d="M{left} {bottom}H{right}V{top}H{left}Z"/></clipPath>"#
    )
}

#[tactic(auto, unfolding(crate::specs::Pictures::ground_text))]
fn write_ground(
    svg: &mut String,
    x: Exact,
    y: Exact,
    across: Exact,
    down: Exact,
) -> Result<(), AllocError>
    ensures { OnOk result (string_bytes svg.new ≡ string_bytes svg.old ++ ground_text x y across down) }
{
    writeln!(
        svg,
        r#"<rect x="{x}" y="{y}" width="{across}" height="{down}" fill="white"/>"#
    )
}
