//! What is printed of a font that was read.

ghost use Rattle.std.specs.Prelude.{◌≡◌, ◌≤◌, ◌<◌, List, length, None};
ghost use Rattle.t1_report.specs.Checked.{checked};
ghost use Rattle.t1_report.specs.Faults.{FaultValue};
ghost use Rattle.t1_report.specs.Reports.{IsReport};
ghost use Rattle.t1_rules.specs.Components.{AreOf};
ghost use Rattle.t1_answer.specs.Answers.{selection, status_of};
ghost use Rattle.t1_answer.specs.Shows.{Shows};
ghost use Rattle.t1_answer.specs.Told.{program};
ghost use Rattle.t1_run.specs.Opening.{sinks_by};
ghost use Rattle.t1_run.specs.Telling.{Gives};
ghost use Rattle.t1_answer.specs.Lines.{lines_of};
ghost use Rattle.t1_answer.specs.Traces.{trace_of};
ghost use Rattle.t1_report.specs.Waivers.{largest_waivers};
ghost use Rattle.t1_font.specs.Bounds.{most_glyphs};

use crate::PROGRAM;
use crate::asked::CheckOptions;
use crate::lines::write_report;
use crate::tracing::write_trace;
use std::alloc::Global;
use t1_char::Edition;
use t1_font::Font;
use t1_io::Sink;
use t1_report::{Waivers, each_font_has_a_report};
use t1_rules::{Sidebearings, glyph_named};
use t1_run::{Failure, Status, Streams, tell_failure, tell_no_glyph, tell_write_failed};

/// Writes what the options request of a font: lines of its report, or the trace of a glyph.
pub(crate) fn show<W: Sink, E: Sink>(
    alloc: Global,
    font: &Font<'_>,
    waivers: &Waivers<'_>,
    options: &CheckOptions,
    streams: &mut Streams<W, E>,
) -> Status
    requires { length font.now.glyphs ≤ most_glyphs }
    ensures { Shows options.now font.now waivers.now (sinks_by W.state E.state streams.old) (sinks_by W.state E.state streams.new) result }
{
    let Some(name) = &options.trace else {
        return report(alloc, font, waivers, options, streams);
    };
    let Some(glyph) = glyph_named(font, name.as_bytes()) else {
        return tell_no_glyph(PROGRAM, name.as_str(), &mut streams.errors);
    };
    give_trace(&*font, glyph, options.edition, streams)
}

/// Writes the lines of a font's report that the options choose, if memory doesn't run out before the first.
fn report<W: Sink, E: Sink>(
    alloc: Global,
    font: &Font<'_>,
    waivers: &Waivers<'_>,
    options: &CheckOptions,
    streams: &mut Streams<W, E>,
) -> Status
    requires few { length font.now.glyphs ≤ most_glyphs }
    requires no_trace { options.now.trace ≡ None }
    ensures { Shows options.now font.now waivers.now (sinks_by W.state E.state streams.old) (sinks_by W.state E.state streams.new) result }
{
    each_font_has_a_report();
    let _few_waivers = waivers.len();
    match Sidebearings::prepare(alloc, font, options.edition) {
        Ok(sidebearings) => give_report(font, &sidebearings, waivers, options, streams),
        Err(_) => tell_failure(PROGRAM, Failure::Memory, &mut streams.errors),
    }
}

/// Writes the lines of a font's report that the options choose.
fn give_report<'a, W: Sink, E: Sink>(
    font: &'a Font<'a>,
    sidebearings: &'a Sidebearings,
    waivers: &'a Waivers<'a>,
    options: &CheckOptions,
    streams: &mut Streams<W, E>,
) -> Status
    requires few { length font.now.glyphs ≤ most_glyphs }
    requires few_waivers { length waivers.now ≤ largest_waivers }
    requires sidebearings { AreOf font.now sidebearings.now }
    requires edition { sidebearings.now.edition ≡ options.now.edition }
    ensures { (faults : List FaultValue) → IsReport (checked font.now options.now.edition) waivers.now faults →
        Gives program (lines_of font.now waivers.now (selection options.now faults)) (status_of (selection options.now faults))
        (sinks_by W.state E.state streams.old) (sinks_by W.state E.state streams.new) result }
{
    match write_report(&mut streams.out, font, sidebearings, waivers, options) {
        Ok(status) => status,
        Err(_) => tell_write_failed(PROGRAM, &mut streams.errors),
    }
}

/// Writes the trace of a glyph, by its place.
fn give_trace<'a, W: Sink, E: Sink>(
    font: &'a Font<'a>,
    glyph: usize,
    edition: Edition,
    streams: &mut Streams<W, E>,
) -> Status
    requires { glyph < length font.now.glyphs }
    ensures { Gives program (trace_of edition font.now glyph) Status.Clean
        (sinks_by W.state E.state streams.old) (sinks_by W.state E.state streams.new) result }
{
    match write_trace(&mut streams.out, font, glyph, edition) {
        Ok(()) => Status::Clean,
        Err(_) => tell_write_failed(PROGRAM, &mut streams.errors),
    }
}
