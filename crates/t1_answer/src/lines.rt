//! The lines of a report that the options choose.

ghost use Rattle.std.specs.Prelude.{◌≡◌, ◌≤◌, ◌^◌, ◌-◌, ℕ, List, IfOk, drop, length, min, take};
ghost use Rattle.std.specs.Option.{unwrap_or};
ghost use Rattle.t1_io.specs.Devices.{Delivers, Writes};
ghost use Rattle.t1_report.specs.Checked.{checked};
ghost use Rattle.t1_report.specs.Faults.{FaultValue};
ghost use Rattle.t1_report.specs.Reports.{IsReport};
ghost use Rattle.t1_report.specs.Walks.{IsSoFar};
ghost use Rattle.t1_rules.specs.Components.{AreOf};
ghost use Rattle.t1_answer.specs.Answers.{selection, status_of};
ghost use Rattle.t1_answer.specs.Lines.{lines_of};
ghost use Rattle.t1_font.specs.Bounds.{most_glyphs};
ghost use Rattle.t1_report.specs.Waivers.{largest_waivers};

use crate::asked::CheckOptions;
use t1_font::Font;
use t1_io::{Broken, Sink};
use t1_report::{Waivers, Walk, marks_count_the_faults_given, write_fault};
use t1_rules::Sidebearings;
use t1_run::Status;

/// Writes the lines of a font's report that the options choose, each before the next fault is sought, and
/// flushes them. Returns whether there was one. After a failure, a prefix of them was written.
pub fn write_report<'a, W: Sink>(
    sink: &mut W,
    font: &'a Font<'a>,
    sidebearings: &'a Sidebearings,
    waivers: &'a Waivers<'a>,
    options: &CheckOptions,
) -> Result<Status, Broken>
    requires few { length font.now.glyphs ≤ most_glyphs }
    requires few_waivers { length waivers.now ≤ largest_waivers }
    requires sidebearings { AreOf font.now sidebearings.now }
    requires edition { sidebearings.now.edition ≡ options.now.edition }
    ensures delivers { (faults : List FaultValue) → IsReport (checked font.now options.now.edition) waivers.now faults →
        Delivers (W.state sink.old) (W.state sink.new)
        (lines_of font.now waivers.now (selection options.now faults)) result }
    ensures status { (faults : List FaultValue) → IsReport (checked font.now options.now.edition) waivers.now faults →
        IfOk result (λ status. status ≡ status_of (selection options.now faults)) }
{
    // The call of a law does nothing: the proof cites what it ensures.
    marks_count_the_faults_given();
    let mut walk = Walk::begin(font, sidebearings, waivers);
    pass(&mut walk, options.after);
    let status = write_lines(sink, font, waivers, walk, options)?;
    sink.flush()?;
    Ok(status)
}

/// Goes past so many faults, or past all.
fn pass(walk: &mut Walk<'_>, count: u64)
    requires few { length walk.old.font.value.glyphs ≤ most_glyphs }
    requires few_waivers { length walk.old.waivers ≤ largest_waivers }
    ensures font { walk.new.font ≡ walk.old.font }
    ensures waivers { walk.new.waivers ≡ walk.old.waivers }
    ensures passed { (faults : List FaultValue) → IsReport walk.old.font walk.old.waivers faults →
        IsSoFar faults 0 walk.old.mark → IsSoFar faults (min count (length faults)) walk.new.mark }
{
    marks_count_the_faults_given();
    for _fault in 0..count {
        let Some(_passed) = walk.next() else {
            return;
        };
    }
}

/// Writes the lines of the faults after the mark of a walk, up to the options' `max`.
fn write_lines<W: Sink>(
    sink: &mut W,
    font: &Font<'_>,
    waivers: &Waivers<'_>,
    mut walk: Walk<'_>,
    options: &CheckOptions,
) -> Result<Status, Broken>
    requires font { walk.font ≡ checked font.now options.now.edition }
    requires waivers { walk.waivers ≡ waivers.now }
    requires few { length font.now.glyphs ≤ most_glyphs }
    requires few_waivers { length waivers.now ≤ largest_waivers }
    ensures writes { (faults : List FaultValue) (k : ℕ) → IsReport (checked font.now options.now.edition) waivers.now faults →
        IsSoFar faults k walk.entry.mark → Writes (W.state sink.old) (W.state sink.new)
        (lines_of font.now waivers.now (take (unwrap_or options.now.max (2 ^ 64 - 1)) (drop k faults))) result }
    ensures status { (faults : List FaultValue) (k : ℕ) → IsReport (checked font.now options.now.edition) waivers.now faults →
        IsSoFar faults k walk.entry.mark →
        IfOk result (λ status. status ≡ status_of (take (unwrap_or options.now.max (2 ^ 64 - 1)) (drop k faults))) }
{
    marks_count_the_faults_given();
    let mut status = Status::Clean;
    for _line in 0..options.max.unwrap_or(u64::MAX) {
        let Some(fault) = walk.next() else {
            break;
        };
        write_fault(sink, font, waivers, &fault)?;
        status = Status::Faults;
    }
    Ok(status)
}
