//! What is drawn, layer by layer: each is a text of SVG, or a list of what can be written once the frame is known.

ghost use Rattle.std.specs.Prelude.{◌≡◌, ◌++◌, OnOk, codes, string_bytes};
ghost use Rattle.t1_picture.specs.Layers.{begun, layers_view, mark_text, no_layers, segment_text, stretch_of, stretch_text, thick_text, use_text, with_bands, with_control, with_gap, with_mark, with_points, with_segment, with_segments};
ghost use Rattle.t1_outline.specs.declared.segment.Segment.TheVariants.{Curve};
ghost use Rattle.t1_picture.specs.Parts.{bands_of};

use crate::arrows::write_arrow;
use crate::bands::Band;
use crate::bounds::Bounds;
use crate::subpath::{Subpath, placed};
use std::alloc::{AllocError, Global};
use t1_char::Edition;
use t1_drawing::Direction;
use t1_outline::Segment;
use t1_reason_texts::{Coordinates, Exact, coordinate};
use t1_rules::{Point, Stem};

/// The layers of a drawing.
#[derive(Drop)]
pub(crate) struct Layers {
    /// How far its points reach.
    pub(crate) bounds: Bounds,
    /// The subpath that is being drawn.
    pub(crate) subpath: Subpath,
    /// The outline, as data of a path.
    pub(crate) outline: String,
    /// The arrows at the beginnings of subpaths, as elements.
    pub(crate) arrows: String,
    /// The stretches that P02 speaks of.
    pub(crate) unclosed: String,
    /// The stretch of the step that was requested.
    pub(crate) stretch: String,
    /// The lines from the ends of curves to their control points.
    pub(crate) handles: String,
    /// The points of the outline, as elements.
    pub(crate) points: String,
    /// The control points.
    pub(crate) controls: String,
    /// The stems that are in force.
    pub(crate) bands: Vec<Band>,
}

impl Layers {
    /// Nothing is drawn.
    pub(crate) fn new(alloc: Global) -> Layers
        ensures { layers_view result ≡ no_layers }
    {
        Layers {
            bounds: Bounds::new(),
            subpath: Subpath::new(),
            outline: String::new(alloc),
            arrows: String::new(alloc),
            unclosed: String::new(alloc),
            stretch: String::new(alloc),
            handles: String::new(alloc),
            points: String::new(alloc),
            controls: String::new(alloc),
            bands: Vec::new(alloc),
        }
    }

    /// Begins a part: no subpath is there.
    pub(crate) fn begin(&mut self)
        ensures { layers_view self.new ≡ begun (layers_view self.old) }
    {
        self.subpath = Subpath::new();
    }

    /// Draws segments of a glyph whose origin is at a point, each by itself too where it is thick.
    pub(crate) fn draw_all(
        &mut self,
        origin: Point,
        segments: &[Segment],
        is_thick: bool,
    ) -> Result<(), AllocError>
        ensures { OnOk result (layers_view self.new ≡ with_segments origin is_thick (layers_view self.old) segments.now) }
    {
        for segment in segments {
            self.draw(placed(origin, *segment), is_thick)?;
        }
        Ok(())
    }

    /// Draws a segment.
    fn draw(&mut self, segment: Segment, is_thick: bool) -> Result<(), AllocError>
        ensures { OnOk result (layers_view self.new ≡ with_segment is_thick (layers_view self.old) segment) }
    {
        write_if(is_thick, &mut self.stretch, &self.subpath, segment)?;
        write_arrow(&mut self.arrows, &self.subpath, segment)?;
        self.add_points(segment)?;
        self.subpath.go_on(segment);
        write_segment(&mut self.outline, segment)
    }

    /// Adds the points of a segment, and the handles of a curve.
    fn add_points(&mut self, segment: Segment) -> Result<(), AllocError>
        ensures { OnOk result (layers_view self.new ≡ with_points (layers_view self.old) segment) }
    {
        match segment {
            Segment::Move(to) => self.add_point(to),
            Segment::Line(to) => self.add_point(to),
            Segment::Curve(first, second, to) => self.add_curve(first, second, to),
            Segment::Close => Ok(()),
        }
    }

    /// Adds the points of a curve that goes on from the subpath, and its handles.
    fn add_curve(&mut self, first: Point, second: Point, to: Point) -> Result<(), AllocError>
        ensures { OnOk result (layers_view self.new ≡ with_points (layers_view self.old) (Curve first second to)) }
    {
        write_stretch(&mut self.handles, self.subpath.end, first)?;
        write_stretch(&mut self.handles, second, to)?;
        self.add_control(first)?;
        self.add_control(second)?;
        self.add_point(to)
    }

    /// Draws the stretch that would close the subpath.
    pub(crate) fn leave_open(&mut self) -> Result<(), AllocError>
        ensures { OnOk result (layers_view self.new ≡ with_gap (layers_view self.old)) }
    {
        write_stretch(&mut self.unclosed, self.subpath.end, self.subpath.first)
    }

    fn add_point(&mut self, point: Point) -> Result<(), AllocError>
        ensures { OnOk result (layers_view self.new ≡ with_mark (layers_view self.old) point) }
    {
        self.bounds.take(point);
        write_mark(&mut self.points, "on", point)
    }

    fn add_control(&mut self, point: Point) -> Result<(), AllocError>
        ensures { OnOk result (layers_view self.new ≡ with_control (layers_view self.old) point) }
    {
        self.bounds.take(point);
        write_mark(&mut self.controls, "off", point)
    }

    /// Adds stems, given what their positions count from.
    pub(crate) fn add_stems(
        &mut self,
        stems: &[Stem],
        direction: Direction,
        start: i64,
        edition: Edition,
    ) -> Result<(), AllocError>
        ensures { OnOk result (layers_view self.new
            ≡ with_bands (layers_view self.old) (bands_of direction start edition stems.now)) }
    {
        for stem in stems {
            self.bands.push(Band::of(*stem, direction, start, edition))?;
        }
        Ok(())
    }
}

/// Writes a segment as data of a path.
fn write_segment(text: &mut String, segment: Segment) -> Result<(), AllocError>
    ensures { OnOk result (string_bytes text.new ≡ string_bytes text.old ++ segment_text segment) }
{
    match segment {
        Segment::Move(to) => {
            let place = Coordinates(to);
            writeln!(text, "M{place}")
        }
        Segment::Line(to) => {
            let place = Coordinates(to);
            writeln!(text, "L{place}")
        }
        Segment::Curve(first, second, to) => {
            let one = Coordinates(first);
            let two = Coordinates(second);
            let end = Coordinates(to);
            writeln!(text, "C{one} {two} {end}")
        }
        Segment::Close => text.push_str("Z\n"),
    }
}

/// Writes a segment by itself if it is thick, as it goes on from a subpath.
fn write_if(
    is_thick: bool,
    text: &mut String,
    before: &Subpath,
    segment: Segment,
) -> Result<(), AllocError>
    ensures { OnOk result (string_bytes text.new ≡ string_bytes text.old ++ stretch_of is_thick before.now segment) }
{
    if is_thick {
        write_thick(text, before, segment)
    } else {
        Ok(())
    }
}

/// Writes a segment by itself, as it goes on from a subpath.
pub(crate) fn write_thick(
    text: &mut String,
    before: &Subpath,
    segment: Segment,
) -> Result<(), AllocError>
    ensures { OnOk result (string_bytes text.new ≡ string_bytes text.old ++ thick_text before.now segment) }
{
    match segment {
        Segment::Move(_) => Ok(()),
        Segment::Line(to) => write_stretch(text, before.end, to),
        Segment::Curve(first, second, to) => {
            let start = Coordinates(before.end);
            let one = Coordinates(first);
            let two = Coordinates(second);
            let end = Coordinates(to);
            writeln!(text, "M{start}C{one} {two} {end}")
        }
        Segment::Close => write_stretch(text, before.end, before.first),
    }
}

/// Writes a straight stretch as data of a path.
pub(crate) fn write_stretch(text: &mut String, from: Point, to: Point) -> Result<(), AllocError>
    ensures { OnOk result (string_bytes text.new ≡ string_bytes text.old ++ stretch_text from to) }
{
    let start = Coordinates(from);
    let end = Coordinates(to);
    writeln!(text, "M{start}L{end}")
}

/// Writes a mark at a point, by the name of its form.
pub(crate) fn write_mark(svg: &mut String, form: &str, point: Point) -> Result<(), AllocError>
    ensures { OnOk result (string_bytes svg.new ≡ string_bytes svg.old ++ mark_text form.now point) }
{
    write_use(svg, form, coordinate(point.x), coordinate(point.y))
}

#[tactic(auto, unfolding(crate::specs::Layers::use_text))]
fn write_use(svg: &mut String, form: &str, x: Exact, y: Exact) -> Result<(), AllocError>
    ensures { OnOk result (string_bytes svg.new ≡ string_bytes svg.old ++ use_text form.now x y) }
{
    writeln!(svg, r##"<use xlink:href="#{form}" x="{x}" y="{y}"/>"##)
}
