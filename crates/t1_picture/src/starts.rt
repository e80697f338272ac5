//! What several groups and paths start with.

ghost use Rattle.std.specs.Prelude.{◌≡◌, ◌++◌, OnOk, string_bytes};
ghost use Rattle.t1_picture.specs.Starts.{marks_start, numbers_start, path_start};

use std::alloc::AllocError;
use t1_reason_texts::Exact;

/// Starts a group of red marks, by the width of their lines.
#[tactic(auto, unfolding(crate::specs::Starts::marks_start))]
pub(crate) fn start_marks(svg: &mut String, id: &str, width: Exact) -> Result<(), AllocError>
    ensures { OnOk result (string_bytes svg.new ≡ string_bytes svg.old ++ marks_start id.now width) }
{
    writeln!(svg, r#"<g id="{id}" stroke="red" stroke-width="{width}">"#)
}

/// Starts a group of red numbers, by their height.
#[tactic(auto, unfolding(crate::specs::Starts::numbers_start))]
pub(crate) fn start_numbers(svg: &mut String, id: &str, height: Exact) -> Result<(), AllocError>
    ensures { OnOk result (string_bytes svg.new ≡ string_bytes svg.old ++ numbers_start id.now height) }
{
    writeln!(
        svg,
        r#"<g id="{id}" fill="red" font-family="monospace" font-size="{height}">"#
    )
}

/// Starts a path, up to its data, by the colour and the width of its lines.
#[tactic(auto, unfolding(crate::specs::Starts::path_start))]
pub(crate) fn start_path(
    svg: &mut String,
    id: &str,
    colour: &str,
    width: Exact,
) -> Result<(), AllocError>
    ensures { OnOk result (string_bytes svg.new ≡ string_bytes svg.old ++ path_start id.now colour.now width) }
{
    writeln!(
        svg,
        r#"<path id="{id}" stroke="{colour}" stroke-width="{width}" d=""#
    )
}
