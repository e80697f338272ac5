//! What is written upright: the numbers of the marks and of edges, and the legend.

ghost use Rattle.std.specs.Prelude.{◌≡◌, ◌++◌, OnOk, string_bytes};
ghost use Rattle.std.specs.List.{flat_map};
ghost use Rattle.t1_picture.specs.Drawings.{texts_of};
ghost use Rattle.t1_picture.specs.Marks.{fault_layers_view};
ghost use Rattle.t1_picture.specs.Pictures.{labels_text, legend_line_text, legend_lines, legend_start, legend_text, line_start, number_at, number_text, numbers_text, one_number, two_numbers};

use crate::cause_groups::write_edges;
use crate::faults::FaultLayers;
use crate::frame::Frame;
use crate::marks::{FaultMark, MARK};
use crate::starts::start_numbers;
use crate::texts::{END, push};
use std::alloc::AllocError;
use t1_forms::push_xml;
use t1_reason_texts::{Exact, coordinate};

/// The height of letters.
const LETTERS: i64 = 16;

/// Writes the numbers of marks and edges, and the legend.
#[tactic(auto, unfolding(crate::specs::Pictures::labels_text))]
pub(crate) fn write_labels(
    svg: &mut String,
    frame: &Frame,
    faults: &FaultLayers<'_>,
    lines: &[String],
) -> Result<(), AllocError>
    ensures { OnOk result (string_bytes svg.new ≡ string_bytes svg.old
        ++ labels_text frame.now (fault_layers_view faults.now) (texts_of lines.now)) }
{
    write_numbers(svg, frame, faults.marks)?;
    write_edges(svg, frame, faults.causes)?;
    write_legend(svg, frame, lines)
}

/// Writes the numbers of the marks, y downwards.
#[tactic(auto, unfolding(crate::specs::Pictures::numbers_text))]
fn write_numbers(svg: &mut String, frame: &Frame, marks: &[FaultMark]) -> Result<(), AllocError>
    ensures { OnOk result (string_bytes svg.new ≡ string_bytes svg.old ++ numbers_text frame.now marks.now) }
{
    start_numbers(svg, "numbers", frame.length(LETTERS))?;
    write_all_numbers(svg, frame, marks)?;
    push(svg, END)
}

fn write_all_numbers(svg: &mut String, frame: &Frame, marks: &[FaultMark]) -> Result<(), AllocError>
    ensures { OnOk result (string_bytes svg.new ≡ string_bytes svg.old ++ flat_map (number_text frame.now) marks.now) }
{
    for mark in marks {
        write_number(svg, frame, mark)?;
    }
    Ok(())
}

/// Writes the numbers of a mark.
#[tactic(auto, unfolding(crate::specs::Pictures::number_text))]
fn write_number(svg: &mut String, frame: &Frame, mark: &FaultMark) -> Result<(), AllocError>
    ensures { OnOk result (string_bytes svg.new ≡ string_bytes svg.old ++ number_text frame.now mark.now) }
{
    let away = frame.units(MARK);
    let x = coordinate(mark.point.x.saturating_add(away));
    let y = coordinate(mark.point.y.saturating_add(away).wrapping_neg());
    write_numbers_at(svg, x, y, mark.first, mark.last)
}

/// Writes one number, or the first and the last of some.
fn write_numbers_at(
    svg: &mut String,
    x: Exact,
    y: Exact,
    first: u64,
    last: u64,
) -> Result<(), AllocError>
    ensures { OnOk result (string_bytes svg.new ≡ string_bytes svg.old ++ number_at x y first last) }
{
    if first == last {
        write_one_number(svg, x, y, first)
    } else {
        write_two_numbers(svg, x, y, first, last)
    }
}

#[tactic(auto, unfolding(crate::specs::Pictures::one_number))]
fn write_one_number(svg: &mut String, x: Exact, y: Exact, number: u64) -> Result<(), AllocError>
    ensures { OnOk result (string_bytes svg.new ≡ string_bytes svg.old ++ one_number x y number) }
{
    writeln!(svg, r#"<text x="{x}" y="{y}">{number}</text>"#)
}

#[tactic(auto, unfolding(crate::specs::Pictures::two_numbers))]
fn write_two_numbers(
    svg: &mut String,
    x: Exact,
    y: Exact,
    first: u64,
    last: u64,
) -> Result<(), AllocError>
    ensures { OnOk result (string_bytes svg.new ≡ string_bytes svg.old ++ two_numbers x y first last) }
{
    writeln!(svg, r#"<text x="{x}" y="{y}">{first}-{last}</text>"#)
}

/// Writes the lines below the drawing.
#[tactic(auto, unfolding(crate::specs::Pictures::legend_text))]
fn write_legend(svg: &mut String, frame: &Frame, lines: &[String]) -> Result<(), AllocError>
    ensures { OnOk result (string_bytes svg.new ≡ string_bytes svg.old ++ legend_text frame.now (texts_of lines.now)) }
{
    start_legend(svg, frame.length(LETTERS))?;
    write_legend_lines(svg, frame, lines)?;
    push(svg, END)
}

#[tactic(auto, unfolding(crate::specs::Pictures::legend_start))]
fn start_legend(svg: &mut String, letters: Exact) -> Result<(), AllocError>
    ensures { OnOk result (string_bytes svg.new ≡ string_bytes svg.old ++ legend_start letters) }
{
    writeln!(
        svg,
        r#"<g id="legend" font-family="monospace" font-size="{letters}" xml:space="preserve">"#
    )
}

fn write_legend_lines(svg: &mut String, frame: &Frame, lines: &[String]) -> Result<(), AllocError>
    ensures { OnOk result (string_bytes svg.new ≡ string_bytes svg.old ++ legend_lines frame.now 0 (texts_of lines.now)) }
{
    for (place, line) in lines.iter().enumerate() {
        write_legend_line(svg, frame, place, line.as_str())?;
    }
    Ok(())
}

#[tactic(auto, unfolding(crate::specs::Pictures::legend_line_text))]
fn write_legend_line(
    svg: &mut String,
    frame: &Frame,
    place: usize,
    line: &str,
) -> Result<(), AllocError>
    ensures { OnOk result (string_bytes svg.new ≡ string_bytes svg.old ++ legend_line_text frame.now place line.now) }
{
    start_line(svg, frame.legend_left(), frame.legend_line(place))?;
    push_xml(svg, line)?;
    push(svg, "</text>\n")
}

fn start_line(svg: &mut String, x: Exact, y: Exact) -> Result<(), AllocError>
    ensures { OnOk result (string_bytes svg.new ≡ string_bytes svg.old ++ line_start x y) }
{
    write!(svg, r#"<text x="{x}" y="{y}">"#)
}
