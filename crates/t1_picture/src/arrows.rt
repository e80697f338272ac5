//! The arrows that show which way subpaths run.

ghost use Rattle.std.specs.Prelude.{◌≡◌, ◌++◌, OnOk, string_bytes};
ghost use Rattle.std.specs.List.{list_any};
ghost use Rattle.t1_picture.specs.Arrows.{arrow_at, arrow_text, arrows_if, arrows_start};
ghost use Rattle.t1_picture.specs.Causes.{is_turns};

use crate::causes::Cause;
use crate::subpath::{Subpath, leads_to};
use crate::texts::{END, push};
use std::alloc::AllocError;
use t1_outline::Segment;
use t1_reason_texts::Coordinates;
use t1_rules::Point;

/// The form of an arrow, in widths of the lines around it, and their group. A line to where the subpath leads turns the form, and isn't drawn.
const ARROWS: &str =
    r##"<marker id="arrow" orient="auto" overflow="visible"><path fill="red" stroke-width="1" d="M0 0H14M14 -5L24 0L14 5Z"/></marker>
<g id="arrows" stroke="none" marker-start="url(#arrow)">
"##;

/// Writes the arrow of a subpath, if a segment is its first line or curve of some length.
pub(crate) fn write_arrow(
    text: &mut String,
    before: &Subpath,
    segment: Segment,
) -> Result<(), AllocError>
    ensures { OnOk result (string_bytes text.new ≡ string_bytes text.old ++ arrow_text before.now segment) }
{
    if before.has_length {
        Ok(())
    } else {
        write_arrow_at(text, before.first, leads_to(before.first, segment))
    }
}

/// Writes an arrow at a point, toward another one, if there is one.
fn write_arrow_at(text: &mut String, first: Point, toward: Option<Point>) -> Result<(), AllocError>
    ensures { OnOk result (string_bytes text.new ≡ string_bytes text.old ++ arrow_at first toward) }
{
    match toward {
        Some(point) => {
            let start = Coordinates(first);
            let end = Coordinates(point);
            writeln!(text, r#"<path d="M{start}L{end}"/>"#)
        }
        None => Ok(()),
    }
}

/// Whether some reason names which way subpaths run.
pub(crate) fn has_turns(causes: &[Cause]) -> bool
    ensures { result ≡ list_any is_turns causes.now }
{
    causes.iter().any(|cause| is_turns(*cause))
}

fn is_turns(cause: Cause) -> bool
    ensures { result ≡ is_turns cause }
{
    matches!(cause, Cause::Turns)
}

/// Writes arrows, if some reason names which way subpaths run.
pub(crate) fn write_arrows(
    svg: &mut String,
    causes: &[Cause],
    arrows: &str,
) -> Result<(), AllocError>
    ensures { OnOk result (string_bytes svg.new ≡ string_bytes svg.old ++ arrows_if (list_any is_turns causes.now) arrows.now) }
{
    write_arrows_if(has_turns(causes), svg, arrows)
}

/// Writes arrows, if they are meant.
fn write_arrows_if(are_meant: bool, svg: &mut String, arrows: &str) -> Result<(), AllocError>
    ensures { OnOk result (string_bytes svg.new ≡ string_bytes svg.old ++ arrows_if are_meant arrows.now) }
{
    if are_meant {
        start_arrows(svg)?;
        push(svg, arrows)?;
        push(svg, END)
    } else {
        Ok(())
    }
}

fn start_arrows(svg: &mut String) -> Result<(), AllocError>
    ensures { OnOk result (string_bytes svg.new ≡ string_bytes svg.old ++ arrows_start) }
{
    push(svg, ARROWS)
}
