//! A run: reads a font, and the waivers, and has what the options request printed.

ghost use Rattle.std.specs.Prelude.{◌≡◌, ◌≤◌, ◌+◌, false, length};
ghost use Rattle.t1_font.specs.Bounds.{most_glyphs};
ghost use Rattle.t1_io.specs.Devices.{SourceState};
ghost use Rattle.t1_report.specs.Waivers.{largest_waivers};
ghost use Rattle.t1_run.specs.Failures.{out_of_memory_line};
ghost use Rattle.t1_run.specs.FontFiles.{largest_file};
ghost use Rattle.t1_run.specs.Input.{AreAll, ReadsAtMost, StopsAt};
ghost use Rattle.t1_run.specs.Opening.{Transition, sinks_by};
ghost use Rattle.t1_run.specs.Programs.{Ends, EndsWith};
ghost use Rattle.t1_run.specs.Telling.{Tells};

use crate::failure::Failure;
use crate::files::{read_font_file, read_waivers};
use crate::program::Program;
use crate::status::Status;
use crate::streams::Streams;
use crate::telling::tell_failure;
use std::alloc::Global;
use t1_font::{Font, OpenFont};
use t1_io::{Sink, Source};
use t1_report::Waivers;

/// Reads a font to its end, then the waivers if the options request them, and prints what the options request. If a file
/// can't be read, it prints the reason instead.
pub fn run<P: Program, R: Source, V: Source, W: Sink, E: Sink>(
    alloc: Global,
    options: &P,
    font: &mut R,
    waivers: &mut V,
    streams: &mut Streams<W, E>,
) -> Status
    requires font { (R.state font.old).failed ≡ false }
    ensures ends { Ends P.meaning options.now
        (record { old = R.state font.old; new = R.state font.new })
        (record { old = V.state waivers.old; new = V.state waivers.new })
        (record { old = sinks_by W.state E.state streams.old; new = sinks_by W.state E.state streams.new }) result }
    ensures font { ReadsAtMost (largest_file + 1) (R.state font.old) (R.state font.new) }
    ensures whole { StopsAt largest_file (R.state font.old) (R.state font.new)
        (Tells (out_of_memory_line P.meaning.name) Status.Failed (E.state streams.old.errors) (E.state streams.new.errors) result) }
    ensures waivers { ReadsAtMost (largest_waivers + 1) (V.state waivers.old) (V.state waivers.new) }
{
    match read_font_file(alloc, font) {
        Ok(bytes) => show_file(alloc, options, bytes, waivers, streams),
        Err(failure) => tell_failure(P::name(), failure, &mut streams.errors),
    }
}

/// Reads the font in a file's bytes, which are held no longer than until their segments are joined.
fn show_file<P: Program, V: Source, W: Sink, E: Sink>(
    alloc: Global,
    options: &P,
    bytes: Vec<u8>,
    waivers: &mut V,
    streams: &mut Streams<W, E>,
) -> Status
    ensures ends { (font : Transition SourceState) → font.old.failed ≡ false → AreAll largest_file font.old font.new bytes.items
        → Ends P.meaning options.now font
        (record { old = V.state waivers.old; new = V.state waivers.new })
        (record { old = sinks_by W.state E.state streams.old; new = sinks_by W.state E.state streams.new }) result }
    ensures waivers { ReadsAtMost (largest_waivers + 1) (V.state waivers.old) (V.state waivers.new) }
{
    let mut file = match OpenFont::open(alloc, bytes.as_slice()) {
        Ok(file) => file,
        Err(unread) => return tell_failure(P::name(), Failure::from(unread), &mut streams.errors),
    };
    drop(bytes);
    let font = match file.font(alloc) {
        Ok(font) => font,
        Err(unread) => return tell_failure(P::name(), Failure::from(unread), &mut streams.errors),
    };
    let status = show_font(alloc, options, &font, waivers, streams);
    font.let_go();
    status
}

/// Reads the waivers that are requested.
fn show_font<P: Program, V: Source, W: Sink, E: Sink>(
    alloc: Global,
    options: &P,
    font: &Font<'_>,
    waivers: &mut V,
    streams: &mut Streams<W, E>,
) -> Status
    requires { length font.now.glyphs ≤ most_glyphs }
    ensures ends { EndsWith P.meaning options.now font.now
        (record { old = V.state waivers.old; new = V.state waivers.new })
        (record { old = sinks_by W.state E.state streams.old; new = sinks_by W.state E.state streams.new }) result }
    ensures waivers { ReadsAtMost (largest_waivers + 1) (V.state waivers.old) (V.state waivers.new) }
{
    let Some(_name) = options.waivers() else {
        let nothing = Waivers::none();
        return options.show(alloc, font, &nothing, streams);
    };
    let text = match read_waivers(alloc, waivers, true) {
        Ok(text) => text,
        Err(failure) => return tell_failure(P::name(), failure, &mut streams.errors),
    };
    match Waivers::read(alloc, text.as_slice(), options.edition()) {
        Ok(waivers) => options.show(alloc, font, &waivers, streams),
        Err(error) => tell_failure(P::name(), Failure::from(error), &mut streams.errors),
    }
}
