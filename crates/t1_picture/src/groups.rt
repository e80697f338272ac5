//! The drawing, a group or a path a layer, from back to front.

ghost use Rattle.std.specs.Prelude.{◌≡◌, ◌++◌, OnOk, string_bytes};
ghost use Rattle.std.specs.List.{flat_map};
ghost use Rattle.t1_picture.specs.Bands.{band_text};
ghost use Rattle.t1_picture.specs.Layers.{layers_view};
ghost use Rattle.t1_picture.specs.Marks.{fault_layers_view};
ghost use Rattle.t1_picture.specs.Pictures.{back_text, base_line, drawing_start, drawing_text, faults_part, front_text, handles_start, lines_part, lines_start, mark_at, marks_part, metrics_text, open_start, open_text, outline_part, outline_start, path_text, place_line, points_part, stems_part, stems_start, stretch_text, zones_part, zones_start};

use crate::bands::{Band, write_upright_line, write_zones};
use crate::cause_groups::{write_cause_lines, write_cause_points, write_causes};
use crate::causes::Cause;
use crate::drawing::Drawing;
use crate::faults::FaultLayers;
use crate::frame::Frame;
use crate::layers::{Layers, write_mark};
use crate::marks::FaultMark;
use crate::starts::{start_marks, start_path};
use crate::texts::{END, END_OF_DATA, push};
use std::alloc::AllocError;
use t1_font::Font;
use t1_outline::Metrics;
use t1_reason_texts::{Exact, coordinate};

/// The group of the zones, which the frame cuts.
const ZONES: &str =
    r##"<g id="zones" clip-path="url(#frame)" fill="green" fill-opacity="0.15" stroke="green" stroke-opacity="0.5">
"##;

/// The group of the stems.
const STEMS: &str =
    r#"<g id="stems" fill="blue" fill-opacity="0.15" stroke="blue" stroke-opacity="0.5">
"#;

/// The group of base line, sidebearing and width.
const LINES: &str = r#"<g id="lines" stroke="gray">
"#;

/// The path of the outline, up to its data.
const OUTLINE: &str =
    r#"<path id="outline" fill="black" fill-opacity="0.25" fill-rule="nonzero" stroke="black" d="
"#;

/// The path of the handles, up to its data.
const HANDLES: &str = r#"<path id="handles" stroke="gray" d="
"#;

/// The group of the points.
const POINTS: &str = r#"<g id="points" fill="black">
"#;

/// The group of the control points.
const CONTROLS: &str = r#"<g id="controls" fill="white" stroke="black">
"#;

/// The width of most lines.
const THIN: i64 = 1;

/// The width of the lines of marks, and of a stretch that isn't closed.
const BROAD: i64 = 3;

/// The width of the stretch of a step.
const THICK: i64 = 8;

/// How long a dash is, and how far it is from the next one.
const DASH: i64 = 12;

/// Writes the drawing, from back to front, y upwards.
#[tactic(auto, unfolding(crate::specs::Pictures::drawing_text))]
pub(crate) fn write_drawing(
    svg: &mut String,
    frame: &Frame,
    font: &Font<'_>,
    drawing: &Drawing,
    faults: &FaultLayers<'_>,
) -> Result<(), AllocError>
    ensures { OnOk result (string_bytes svg.new ≡ string_bytes svg.old
        ++ drawing_text frame.now font.now (layers_view drawing.now.layers) drawing.now.composition.metrics
        (fault_layers_view faults.now)) }
{
    start_drawing(svg, frame.length(THIN))?;
    write_back(svg, frame, font, drawing, faults.causes)?;
    write_front(svg, frame, &drawing.layers)?;
    write_faults(svg, frame, drawing.layers.arrows.as_str(), faults)?;
    push(svg, END)
}

/// Writes what lies behind the outline.
#[tactic(auto, unfolding(crate::specs::Pictures::back_text))]
fn write_back(
    svg: &mut String,
    frame: &Frame,
    font: &Font<'_>,
    drawing: &Drawing,
    causes: &[Cause],
) -> Result<(), AllocError>
    ensures { OnOk result (string_bytes svg.new ≡ string_bytes svg.old
        ++ back_text frame.now font.now (layers_view drawing.now.layers) drawing.now.composition.metrics causes.now) }
{
    write_zones_part(svg, frame, font)?;
    write_stems(svg, frame, drawing.layers.bands.as_slice())?;
    write_causes(svg, frame, causes)?;
    write_lines(svg, frame, drawing.composition.metrics)
}

/// Writes the outline and its points.
#[tactic(auto, unfolding(crate::specs::Pictures::front_text))]
fn write_front(svg: &mut String, frame: &Frame, layers: &Layers) -> Result<(), AllocError>
    ensures { OnOk result (string_bytes svg.new ≡ string_bytes svg.old ++ front_text frame.now (layers_view layers.now)) }
{
    write_outline(svg, frame, layers)?;
    write_points(svg, layers.points.as_str(), layers.controls.as_str())
}

/// Writes what faults draw upon it, given the arrows of its subpaths.
#[tactic(auto, unfolding(crate::specs::Pictures::faults_part))]
fn write_faults(
    svg: &mut String,
    frame: &Frame,
    arrows: &str,
    faults: &FaultLayers<'_>,
) -> Result<(), AllocError>
    ensures { OnOk result (string_bytes svg.new ≡ string_bytes svg.old ++ faults_part frame.now arrows.now (fault_layers_view faults.now)) }
{
    write_cause_lines(svg, frame, faults.causes, faults.components)?;
    write_cause_points(svg, frame, faults.causes, arrows)?;
    write_marks(svg, frame, faults.marks)
}

#[tactic(auto, unfolding(crate::specs::Pictures::drawing_start))]
fn start_drawing(svg: &mut String, thin: Exact) -> Result<(), AllocError>
    ensures { OnOk result (string_bytes svg.new ≡ string_bytes svg.old ++ drawing_start thin) }
{
    writeln!(
        svg,
        r#"<g transform="scale(1 -1)" fill="none" stroke-width="{thin}">"#
    )
}

fn start_zones(svg: &mut String) -> Result<(), AllocError>
    ensures { OnOk result (string_bytes svg.new ≡ string_bytes svg.old ++ zones_start) }
{
    push(svg, ZONES)
}

#[tactic(auto, unfolding(crate::specs::Pictures::zones_part))]
fn write_zones_part(svg: &mut String, frame: &Frame, font: &Font<'_>) -> Result<(), AllocError>
    ensures { OnOk result (string_bytes svg.new ≡ string_bytes svg.old ++ zones_part frame.now font.now) }
{
    start_zones(svg)?;
    write_zones(svg, frame, font)?;
    push(svg, END)
}

fn start_stems(svg: &mut String) -> Result<(), AllocError>
    ensures { OnOk result (string_bytes svg.new ≡ string_bytes svg.old ++ stems_start) }
{
    push(svg, STEMS)
}

#[tactic(auto, unfolding(crate::specs::Pictures::stems_part))]
fn write_stems(svg: &mut String, frame: &Frame, bands: &[Band]) -> Result<(), AllocError>
    ensures { OnOk result (string_bytes svg.new ≡ string_bytes svg.old ++ stems_part frame.now bands.now) }
{
    start_stems(svg)?;
    write_bands(svg, frame, bands)?;
    push(svg, END)
}

fn write_bands(svg: &mut String, frame: &Frame, bands: &[Band]) -> Result<(), AllocError>
    ensures { OnOk result (string_bytes svg.new ≡ string_bytes svg.old ++ flat_map (band_text frame.now) bands.now) }
{
    for band in bands {
        band.write(svg, frame)?;
    }
    Ok(())
}

fn start_lines(svg: &mut String) -> Result<(), AllocError>
    ensures { OnOk result (string_bytes svg.new ≡ string_bytes svg.old ++ lines_start) }
{
    push(svg, LINES)
}

/// Writes the base line, and sidebearing and width where they are set.
#[tactic(auto, unfolding(crate::specs::Pictures::lines_part))]
fn write_lines(svg: &mut String, frame: &Frame, metrics: Option<Metrics>) -> Result<(), AllocError>
    ensures { OnOk result (string_bytes svg.new ≡ string_bytes svg.old ++ lines_part frame.now metrics) }
{
    start_lines(svg)?;
    write_base_line(svg, frame.left(), frame.right())?;
    write_metrics(svg, frame, metrics)?;
    push(svg, END)
}

#[tactic(auto, unfolding(crate::specs::Pictures::base_line))]
fn write_base_line(svg: &mut String, left: Exact, right: Exact) -> Result<(), AllocError>
    ensures { OnOk result (string_bytes svg.new ≡ string_bytes svg.old ++ base_line left right) }
{
    writeln!(svg, r#"<path d="M{left} 0H{right}"/>"#)
}

#[tactic(auto, unfolding(crate::specs::Pictures::metrics_text))]
fn write_metrics(
    svg: &mut String,
    frame: &Frame,
    metrics: Option<Metrics>,
) -> Result<(), AllocError>
    ensures { OnOk result (string_bytes svg.new ≡ string_bytes svg.old ++ metrics_text frame.now metrics) }
{
    if let Some(metrics) = metrics {
        write_place(svg, frame, metrics.x)?;
        write_place(svg, frame, metrics.width)?;
    }
    Ok(())
}

/// Writes a line at a place from left to right.
#[tactic(auto, unfolding(crate::specs::Pictures::place_line))]
fn write_place(svg: &mut String, frame: &Frame, x: i32) -> Result<(), AllocError>
    ensures { OnOk result (string_bytes svg.new ≡ string_bytes svg.old ++ place_line frame.now x) }
{
    let place = coordinate(i64::from(x));
    write_upright_line(svg, place, frame.bottom(), frame.top())
}

fn start_outline(svg: &mut String) -> Result<(), AllocError>
    ensures { OnOk result (string_bytes svg.new ≡ string_bytes svg.old ++ outline_start) }
{
    push(svg, OUTLINE)
}

/// Writes the outline, what isn't closed, the stretch of the step, and the handles.
#[tactic(auto, unfolding(crate::specs::Pictures::outline_part))]
fn write_outline(svg: &mut String, frame: &Frame, layers: &Layers) -> Result<(), AllocError>
    ensures { OnOk result (string_bytes svg.new ≡ string_bytes svg.old ++ outline_part frame.now (layers_view layers.now)) }
{
    start_outline(svg)?;
    write_path(svg, layers.outline.as_str())?;
    write_open(svg, frame, layers.unclosed.as_str())?;
    write_stretch(svg, frame, layers.stretch.as_str())?;
    start_handles(svg)?;
    write_path(svg, layers.handles.as_str())
}

fn start_handles(svg: &mut String) -> Result<(), AllocError>
    ensures { OnOk result (string_bytes svg.new ≡ string_bytes svg.old ++ handles_start) }
{
    push(svg, HANDLES)
}

/// Writes what isn't closed.
#[tactic(auto, unfolding(crate::specs::Pictures::open_text))]
fn write_open(svg: &mut String, frame: &Frame, text: &str) -> Result<(), AllocError>
    ensures { OnOk result (string_bytes svg.new ≡ string_bytes svg.old ++ open_text frame.now text.now) }
{
    start_open(svg, frame.length(BROAD), frame.length(DASH))?;
    write_path(svg, text)
}

#[tactic(auto, unfolding(crate::specs::Pictures::open_start))]
fn start_open(svg: &mut String, broad: Exact, dash: Exact) -> Result<(), AllocError>
    ensures { OnOk result (string_bytes svg.new ≡ string_bytes svg.old ++ open_start broad dash) }
{
    writeln!(
        svg,
        r#"<path id="open" stroke="red" stroke-width="{broad}" stroke-dasharray="{dash}" d=""#
    )
}

/// Writes the stretch of the step.
#[tactic(auto, unfolding(crate::specs::Pictures::stretch_text))]
fn write_stretch(svg: &mut String, frame: &Frame, text: &str) -> Result<(), AllocError>
    ensures { OnOk result (string_bytes svg.new ≡ string_bytes svg.old ++ stretch_text frame.now text.now) }
{
    start_path(svg, "stretch", "orange", frame.length(THICK))?;
    write_path(svg, text)
}

/// Writes the data of a path, and its end.
fn write_path(svg: &mut String, text: &str) -> Result<(), AllocError>
    ensures { OnOk result (string_bytes svg.new ≡ string_bytes svg.old ++ path_text text.now) }
{
    push(svg, text)?;
    push(svg, END_OF_DATA)
}

/// Writes the points of the outline and the control points.
fn write_points(svg: &mut String, points: &str, controls: &str) -> Result<(), AllocError>
    ensures { OnOk result (string_bytes svg.new ≡ string_bytes svg.old ++ points_part points.now controls.now) }
{
    write!(svg, "{POINTS}{points}{END}{CONTROLS}{controls}{END}")
}

/// Writes the marks of faults.
#[tactic(auto, unfolding(crate::specs::Pictures::marks_part))]
fn write_marks(svg: &mut String, frame: &Frame, marks: &[FaultMark]) -> Result<(), AllocError>
    ensures { OnOk result (string_bytes svg.new ≡ string_bytes svg.old ++ marks_part frame.now marks.now) }
{
    start_marks(svg, "marks", frame.length(BROAD))?;
    write_circles(svg, marks)?;
    push(svg, END)
}

fn write_circles(svg: &mut String, marks: &[FaultMark]) -> Result<(), AllocError>
    ensures { OnOk result (string_bytes svg.new ≡ string_bytes svg.old ++ flat_map mark_at marks.now) }
{
    for mark in marks {
        write_mark(svg, "mark", mark.point)?;
    }
    Ok(())
}
