//! Hands the lines of a font's report on.

ghost use Rattle.std.specs.Prelude.{◌≡◌, ◌≤◌, length};
ghost use Rattle.t1_font.specs.Bounds.{most_glyphs};
ghost use Rattle.t1_many.specs.Handing.{HandsFailure, HandsReport, lost_of};
ghost use Rattle.t1_many.specs.Private.Handing.{HandsLines};
ghost use Rattle.t1_many.specs.Recipients.{recipient_by};
ghost use Rattle.t1_report.specs.Checked.{checked};
ghost use Rattle.t1_report.specs.Waivers.{largest_waivers};
ghost use Rattle.t1_rules.specs.Components.{AreOf};

use crate::font_error::FontError;
use crate::policy::{Lost, Taken};
use crate::printer::Printer;
use crate::verdict::Judge;
use t1_font::Font;
use t1_reasons::ReportReasons;
use t1_report::{
    Waivers, Walk, each_font_has_a_report, faults_after_the_first_mark_are_the_report,
    marks_count_the_faults_given,
};
use t1_rules::Sidebearings;
use t1_summary::FontClass;

/// Hands on the lines of a font's report that aren't omitted, and then how the font was found.
pub fn hand_report<'a, F: Printer, J: Judge>(
    printer: &mut F,
    name: &str,
    font: &'a Font<'a>,
    sidebearings: &'a Sidebearings,
    waivers: &'a Waivers<'a>,
    judge: &J,
) -> Taken
    requires few { length font.now.glyphs ≤ most_glyphs }
    requires few_waivers { length waivers.now ≤ largest_waivers }
    requires sidebearings { AreOf font.now sidebearings.now }
    ensures { HandsReport (recipient_by F.takes printer.old printer.new) (J.judges judge.now font.now waivers.now) name.now
        (checked font.now sidebearings.now.edition) waivers.now (lost_of result) }
{
    let found = hand_lines(printer, name, font, sidebearings, waivers, judge)?;
    printer.done(name, found)
}

/// Hands on the lines of a font's report that aren't omitted. Returns how the font was found.
fn hand_lines<'a, F: Printer, J: Judge>(
    printer: &mut F,
    name: &str,
    font: &'a Font<'a>,
    sidebearings: &'a Sidebearings,
    waivers: &'a Waivers<'a>,
    judge: &J,
) -> Result<FontClass, Lost>
    requires few { length font.now.glyphs ≤ most_glyphs }
    requires few_waivers { length waivers.now ≤ largest_waivers }
    requires sidebearings { AreOf font.now sidebearings.now }
    ensures { HandsLines (recipient_by F.takes printer.old printer.new) (J.judges judge.now font.now waivers.now) name.now
        (checked font.now sidebearings.now.edition) waivers.now result }
{
    // The calls of laws do nothing: the proof cites what they ensure.
    each_font_has_a_report();
    faults_after_the_first_mark_are_the_report();
    marks_count_the_faults_given();
    let mut walk = Walk::begin(font, sidebearings, waivers);
    let mut reasons = ReportReasons::new(font, sidebearings);
    let mut found = FontClass::Clean;
    for _fault in 0..u64::MAX {
        let Some(fault) = walk.next() else {
            break;
        };
        let verdict = judge.judge(font, waivers, &fault);
        if verdict.is_told() {
            printer.line(name, font, waivers, &fault, &mut reasons)?;
        }
        found = verdict.found_with(found);
    }
    Ok(found)
}

/// Hands on why there is no report of a font.
pub fn hand_failure<F: Printer>(printer: &mut F, name: &str, reason: FontError) -> Taken
    ensures { HandsFailure (recipient_by F.takes printer.old printer.new) name.now reason (lost_of result) }
{
    printer.failure(name, reason)?;
    printer.done(name, reason.found())
}
