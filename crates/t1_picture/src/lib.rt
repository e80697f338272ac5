//! A picture of one glyph of a Type 1 font, with its faults, as a text of SVG 1.1: its outline and its points, the stems that are
//! in force after the last step drawn, sidebearing, width and base line, the zones of BlueValues and OtherBlues, for each fault a
//! numbered mark, with t1check's line in a legend, and in red what its reason names: stems, points, lines, curves, components, and
//! which way subpaths run. Adobe Type 1 Font Format 1.1, chapters 2, 3, 5, 6 and 8.
//!
//! [`picture`] makes it: of a whole glyph, up to a step, or of one fault alone ([`Shown`]), which may be one of the font's zones.
//! [`shown_by`] finds that fault by its number. What is drawn, and the form of the text, is said in docs/REFERENCE.md.
//!
//! What is promised, for all fonts:
//!
//! - the text is the picture that the definition says, byte for byte (`IsPictureOf`), and a subject has just one
//!   ([`a_subject_has_one_picture`]);
//! - a fault that is shown alone is drawn up to its step, or with all steps where it is the font's
//!   ([`a_fault_is_drawn_up_to_its_step`]);
//! - no name in a font ends an element or an attribute of it ([`texts_stay_in_their_elements`]);
//! - no index, sum or cast goes wrong, and each call returns.
//!
//! Coordinates are exact, in units of 1/65536. The text is made in memory, so that where memory runs out there is none.
//!
//! ```
//! let sidebearings = Sidebearings::prepare(alloc, font, Edition::One)?;
//! let waivers = Waivers::none();
//! let view = View { font, sidebearings: &sidebearings, waivers: &waivers, glyph: 0, shown: Shown::All };
//! println!(rt; "{}", picture(alloc, &view)?)?;
//! ```
#![tactic(auto)]

mod arrows;
mod bands;
mod bounds;
mod cause_groups;
mod causes;
mod component_outlines;
mod directions;
mod drawing;
mod extent;
mod faults;
mod frame;
mod groups;
mod head;
mod labels;
mod laws;
mod layers;
mod legend;
mod marks;
mod one_fault;
mod parts;
mod run;
mod starts;
mod subpath;
mod svg;
mod texts;
mod view;

pub use extent::{Extent, NoFault, shown_by};
pub use laws::{
    a_fault_is_drawn_up_to_its_step, a_subject_has_one_picture, outlines_are_drawn,
    texts_stay_in_their_elements,
};
pub use svg::picture;
pub use view::{Shown, View};
