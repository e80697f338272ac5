//! The report of a Type 1 font: the rules of the book that the font and its glyphs break, in order, each
//! with its place, its number and its line. All rules are tested. [`Waivers`] say of which glyphs a rule
//! isn't reported. One that suppresses nothing is reported after the glyphs.
//!
//! A place is a unit and a step. Unit 0 is the font; its step is 65,536 times the number of a key, plus
//! an index. Unit g + 1 is glyph g; its steps are the tokens that it executes, from 1 on. The first
//! 100,000 are checked, or 1,000,000 by the second edition. The unit after the last glyph's is the
//! waivers'; its steps are their places, from 1 on.
//!
//! What is promised, for all fonts:
//!
//! - The report rises strictly by unit, step and rule. Its members are exactly the violations that aren't
//!   waived, then the waivers that aren't used, numbered from 1. A font has one such report and no other.
//! - A line is written whole, or a write failed and a prefix of the line was written.
//! - A [`Walk`] returns the same faults one at a time, from any [`Mark`] on; it can't fail.
//! - [`fault_numbered`] returns the fault of a number in the report, without the others; it can't fail.
//! - [`UnitFaults`] returns those of one unit, one at a time, numbered from 1 in the unit; it can't fail.
//! - Running out of memory is an error of its own, and says nothing of the font. Only [`report`] and
//!   [`Waivers::read`] allocate.
//!
//! ```
//! let waivers = Waivers::none();
//! for fault in report(alloc, &font, &waivers, Edition::One)?.iter() {
//!     write_fault(&mut sink, &font, &waivers, fault)?;
//! }
//! ```
#![tactic(auto)]

mod faults;
mod laws;
mod lines;
mod marks;
mod places;
mod reporting;
mod traces;
mod unit_faults;
mod usage;
mod violations;
mod waivers;
mod walk;

pub use faults::Fault;
pub use laws::{
    a_font_has_one_report, clean_fonts_stay_clean, each_font_has_a_report,
    faults_after_a_mark_are_the_rest, faults_after_the_first_mark_are_the_report,
    faults_of_a_unit_are_the_reports, later_rules_stand_beside, latest_rules_stand_beside,
    marks_count_the_faults_given, no_waivers_change_nothing, order_and_repetition_have_no_say,
    passed_lines_break_no_rule, passed_numbers_break_no_rule, the_limit_is_one_step,
    usual_fonts_have_one_report, waiver_lines_are_waivers, waivers_are_asked_to_the_first_use,
    waivers_leave_out_what_they_say,
};
pub use lines::write_fault;
pub use marks::Mark;
pub use places::FaultPlace;
pub use reporting::{fault_numbered, report, report_with};
pub use traces::write_step;
pub use unit_faults::UnitFaults;
pub use waivers::{LARGEST_WAIVERS, WaiverError, Waivers};
pub use walk::Walk;
