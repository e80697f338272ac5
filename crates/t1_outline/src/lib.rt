//! The outlines of glyphs, as the steps of their charstrings draw them: moves, lines, curves, and where a subpath is
//! closed. Adobe Type 1 Font Format 1.1, chapters 6 and 8.
//!
//! [`Pen`] sees the steps of a glyph one after another, and returns what each draws, at most three segments. It knows
//! where the current point is, whether something was drawn and not closed, and which stems are in force: all by the
//! rules' own watchers. [`Nib`] is the same beside watchers that see the steps anyway. [`Outline`] executes a glyph and returns its segments one at a time, without a list and without
//! memory. Each has its step and the Subrs that were being executed.
//!
//! Points are in units of 1/65536, exactly. What no rule speaks of is read so:
//!
//! - Where no move came or the last subpath was closed, a line or a curve begins one at the current point.
//! - A flex draws its two curves where the rules find no fault in it but its end's arguments (X05), and else nothing.
//! - A seac draws no segments of its own: its components are glyphs, each with an outline of its own. [`Composition`]
//!   sees the steps of a glyph too, and says which glyphs these are, and where their origins are.
//!
//! What is promised, for all fonts:
//!
//! - The segments are those of the definitions in `specs/`, of the steps up to the limit of the edition.
//! - The components of a seac are those of the definition, and their origins are where it says.
//! - But for closepath the last segment that a step draws ends at the rules' current point after that step.
//! - No call allocates, no sum goes wrong, and each call returns.
//!
//! ```
//! let mut outline = Outline::start(font, 0, Edition::One);
//! while let Some(drawn) = outline.next() {
//!     println!(rt; "{} {:?}", drawn.step, drawn.segment)?;
//! }
//! ```
#![tactic(auto)]

mod composition;
mod flex_run;
mod laws;
mod nib;
mod outline;
mod parts;
mod pen;
mod segment;
mod strokes;

pub use composition::{Composition, Metrics, Seac};
pub use laws::{
    drawn_subpaths_are_closed, fronts_draw_fronts, glyphs_are_closed, glyphs_begin_at_moves,
    rules_ask_is_open, seacs_draw_their_components, short_forms_draw_alike,
    steps_end_at_the_current_point, subpaths_begin_at_moves, whole_flexes_are_drawn,
};
pub use nib::{Around, Nib};
pub use outline::{DrawnSegment, Outline};
pub use parts::{ORIGIN, Part, SeacPart, SeacParts};
pub use pen::{DrawnStep, Pen, spoils_flex};
pub use segment::{MOST_SEGMENTS, Segment, Segments};
