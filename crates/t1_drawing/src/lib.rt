//! What may be wrong with a glyph's drawing, and with its stems for what is drawn: Adobe Type 1 Font Format 1.1, chapters 2, 3, 5 and 6.
//!
//! [`DrawingWatcher`] sees the steps of a glyph one after another, beside the watchers of the other rules, and returns which rules each breaks.
//!
//! Points are in units of 1/65536, FontBBox in units of 10^-9. Nothing is rounded.
//!
//! What is promised:
//!
//! - If a watcher's state matches the steps so far, it returns exactly what the definitions in `specs/` say of the next one, over the segments that
//!   t1_outline promises. What it keeps is of a fixed size, and no list of segments.
//! - No call allocates, no sum and no product goes wrong, and each call returns.
#![tactic(auto)]

mod area;
mod curves;
mod direction;
mod faults;
mod font_box;
mod glyph;
mod laws;
mod lines;
mod moves;
mod points;
mod segments;
mod stem_edges;
#[cfg(test)]
mod stem_tests;
#[cfg(test)]
mod tests;
mod touching;

pub use curves::{at_half, at_quarter, is_beyond};
pub use direction::Direction;
pub use faults::SegmentFaults;
pub use font_box::{FontBox, is_over, is_under};
pub use glyph::{DrawingWatcher, TracedStep};
pub use laws::{
    curves_without_extremes_go_beyond, drawing_rules_come_last, drawn_segments_can_be_seen,
    flat_curves_are_on_a_line, stems_stay, turned_subpaths_have_the_opposite_area,
    untouched_stems_lie_off,
};
pub use points::end_of;
pub use segments::{TracedSegment, TracedSegments};
pub use stem_edges::{are_adjacent, has_negative_width};
pub use touching::UntouchedStem;
