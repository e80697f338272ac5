//! Why each line of a report is there: what its rule compares at that place, and which of it is against the rule.
//!
//! A reason is a witness. [`ReportReasons`] has the reasons of the faults of a report, [`font_reason`] those of a font, [`GlyphReasons`]
//! those of a glyph, by the number of the step. A place has a reason exactly where the rule is broken there, be it waived or not.
//!
//! The definition of each rule's reasons is a row of the table `row_of` in `specs/StepReasons.antt`, or of `font_row_of` in
//! `specs/FontReasons.antt`: the candidates, in the order in which they are looked at, and a test that sees the numbers of a
//! candidate alone. The reason is the first candidate that the test takes. A rule that compares no numbers names an
//! earlier step or the token, or its reason is [`Reason::Nothing`].
//!
//! What is promised, for all fonts:
//!
//! - a step, or a font at a key and an index, breaks a rule exactly where there is a reason;
//! - a reason is one of the rule's candidates, and its own numbers are against the rule;
//! - the report has a fault of a glyph exactly where [`GlyphReasons::reason`] returns a reason;
//! - a waiver isn't used exactly where what [`unused_reason`] returns of it holds;
//! - a step that a reason names is one that its rule speaks of, and a stem was set at the step that is named with it;
//! - a word that a reason names is the first of its kind in the font's texts;
//! - what would do ([`scale_that_does`]) does, and nothing beyond it;
//! - no call takes memory or fails, and no index, sum, product or cast goes wrong.
//!
//! ```
//! let sidebearings = Sidebearings::prepare(alloc, &font, Edition::One)?;
//! let mut reasons = GlyphReasons::start(&font, 5, Edition::One);
//! if let Some(Reason::Stems { own, other }) = reasons.reason(&sidebearings, 15, Rule::H02) {
//!     println!(rt; "{own:?} overlaps {:?}, set at step {}", other.stem, other.step)?;
//! }
//! ```
#![tactic(auto)]

mod background;
mod charstring_reasons;
mod drawing_reasons;
mod entry_reasons;
mod font_reasons;
mod glyph_reasons;
mod hint_sets;
mod later_font_reasons;
mod laws;
mod reason;
mod remedies;
mod reported;
mod stem_search;
mod step_reasons;
mod steps_before;
mod subpath_turns;
mod text_laws;
mod text_reasons;
mod waivers;

pub use font_reasons::font_reason;
pub use glyph_reasons::GlyphReasons;
pub use laws::{
    drawing_reasons_are_against_their_rules, ends_are_followed_as_told, faults_have_reasons,
    font_reasons_are_against_their_rules, fonts_break_where_there_is_a_reason, fuzz_does_for_all,
    fuzz_does_for_both, hint_sets_are_those_of_the_book, last_steps_are_the_books,
    last_three_stems_are_the_books, named_stems_are_set, named_steps_are_of_their_kinds,
    numbers_do, paths_begin_where_the_pen_was_left, paths_end_where_the_pen_was_left,
    reasons_are_against_their_rules, reported_faults_have_reasons, reported_places_have_reasons,
    scale_does_for_all, scales_do, steps_break_where_there_is_a_reason, told_steps_are_the_last,
    waivers_are_unused_for_a_reason,
};
pub use reason::{EntryKind, FontText, Found, Reason, SetStem, SubpathTurns};
pub use remedies::{fuzz_across, fuzz_that_does, scale_that_does};
pub use reported::ReportReasons;
pub use text_laws::{lines_are_counted, named_words_are_the_first};
pub use waivers::{Unused, unused_reason};
