//! The picture as a text: SVG 1.1.

ghost use Rattle.std.specs.Prelude.{◌≡◌, IfOk, string_bytes};
ghost use Rattle.t1_picture.specs.Drawings.{drawing_view, texts_of};
ghost use Rattle.t1_picture.specs.Layers.{layers_view};
ghost use Rattle.t1_picture.specs.Legends.{title_of};
ghost use Rattle.t1_picture.specs.Marks.{fault_layers_view, faults_view};
ghost use Rattle.t1_picture.specs.Pictures.{IsPictureOf, bounds_of, svg_text, with_all_bands, with_marks};
ghost use Rattle.t1_picture.specs.Subjects.{subject_of};
ghost use Rattle.t1_picture.specs.Views.{CanBeDrawn};

use crate::bands::Band;
use crate::bounds::Bounds;
use crate::cause_groups::widen_by_causes;
use crate::component_outlines::component_outlines;
use crate::drawing::Drawing;
use crate::faults::{FaultLayers, Faults};
use crate::frame::Frame;
use crate::groups::write_drawing;
use crate::head::write_head;
use crate::labels::write_labels;
use crate::legend::legend;
use crate::marks::FaultMark;
use crate::texts::push;
use crate::view::View;
use std::alloc::{AllocError, Global};
use t1_font::Font;
use t1_forms::legible;
use t1_report::faults_of_a_unit_are_the_reports;

/// The picture of a glyph: a text of SVG 1.1. The same view has the same picture.
pub fn picture(alloc: Global, view: &View<'_>) -> Result<String, AllocError>
    requires { CanBeDrawn view.now }
    ensures { IfOk result (λ text. IsPictureOf (subject_of view.now) (string_bytes text)) }
{
    // The call of a law does nothing: the proof cites what it ensures.
    faults_of_a_unit_are_the_reports();
    let _few_glyphs = view.font.glyphs();
    let _few_waivers = view.waivers.len();
    let mut drawing = Drawing::of(alloc, view)?;
    let mut faults = Faults::of(alloc, view, drawing.start())?;
    let components = component_outlines(
        alloc,
        view,
        &drawing.composition,
        faults.causes.as_slice(),
    )?;
    let bounds = bounds_of(&drawing, &faults);
    let frame = Frame::of(&bounds);
    let title = title(alloc, view)?;
    let lines = legend(alloc, view, title.as_str(), &mut drawing, &mut faults)?;
    let layers = faults.layers(components.as_str());
    svg(
        alloc,
        &frame,
        view.font,
        title.as_str(),
        &drawing,
        &layers,
        lines.as_slice(),
    )
}

/// The whole text, given the frame, the title, what is drawn, and the lines of the legend.
#[tactic(auto, unfolding(crate::specs::Pictures::svg_text))]
fn svg(
    alloc: Global,
    frame: &Frame,
    font: &Font<'_>,
    title: &str,
    drawing: &Drawing,
    faults: &FaultLayers<'_>,
    lines: &[String],
) -> Result<String, AllocError>
    ensures { IfOk result (λ text. string_bytes text
        ≡ svg_text frame.now font.now title.now (layers_view drawing.now.layers) drawing.now.composition.metrics
        (fault_layers_view faults.now) (texts_of lines.now)) }
{
    let mut svg = String::new(alloc);
    write_head(&mut svg, frame, title, lines)?;
    write_drawing(&mut svg, frame, font, drawing, faults)?;
    write_labels(&mut svg, frame, faults, lines)?;
    push(&mut svg, "</svg>\n")?;
    Ok(svg)
}

/// What the picture is called.
fn title(alloc: Global, view: &View<'_>) -> Result<String, AllocError>
    ensures { IfOk result (λ title. string_bytes title ≡ title_of (subject_of view.now)) }
{
    let name = legible(alloc, view.name())?;
    format!(in alloc; "glyph {name}")
}

/// How far the drawing reaches, with bands, sidebearing, width, marks, and what reasons name.
fn bounds_of(drawing: &Drawing, faults: &Faults) -> Bounds
    ensures { result ≡ bounds_of (drawing_view drawing.now) (faults_view faults.now) }
{
    let mut bounds = drawing.layers.bounds;
    widen_by_bands(&mut bounds, drawing.layers.bands.as_slice());
    if let Some(metrics) = drawing.composition.metrics {
        bounds.take(metrics.sidebearing());
        bounds.take_x(i64::from(metrics.width));
    }
    widen_by_marks(&mut bounds, faults.marks.as_slice());
    widen_by_causes(&mut bounds, faults.causes.as_slice());
    bounds
}

fn widen_by_bands(bounds: &mut Bounds, bands: &[Band])
    ensures { bounds.new ≡ with_all_bands bounds.old bands.now }
{
    for band in bands {
        band.widen(bounds);
    }
}

fn widen_by_marks(bounds: &mut Bounds, marks: &[FaultMark])
    ensures { bounds.new ≡ with_marks bounds.old marks.now }
{
    for mark in marks {
        bounds.take(mark.point);
    }
}
