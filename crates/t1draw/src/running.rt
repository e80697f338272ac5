//! Draws what the options ask for of a font that was read.

ghost use Rattle.std.specs.Prelude.{◌<◌, IfSome, length};
ghost use Rattle.t1_picture.specs.Extents.{CanBeShown};
ghost use Rattle.t1_picture.specs.Subjects.{fault_in, shown_value};
ghost use Rattle.t1_run.specs.Opening.{sinks_by};
ghost use Rattle.t1draw.specs.Draws.{Draws, DrawsFolder, DrawsGlyph};
ghost use Rattle.t1draw.specs.Private.Sheets.{DrawsAs, IsSound, TellsNoFault, edition_of, font_of, waivers_of};

use crate::PROGRAM;
use crate::drawing::drawn;
use crate::folder::folder_text;
use crate::options::{Asked, DrawOptions};
use crate::sheet::Sheet;
use itoa::Buffer;
use std::alloc::Global;
use t1_font::Font;
use t1_forms::shown;
use t1_io::Sink;
use t1_picture::{Extent, Shown, shown_by};
use t1_report::Waivers;
use t1_rules::{Sidebearings, glyph_named};
use t1_run::{Failure, Status, Streams, give, tell_failure, tell_no_glyph, tell_parts};

/// Writes the picture of the glyph that the options name, or those of all glyphs with faults. Where there is none, the reason is reported, and
/// nothing is put on the output.
pub(crate) fn show<W: Sink, E: Sink>(
    alloc: Global,
    options: &DrawOptions,
    font: &Font<'_>,
    waivers: &Waivers<'_>,
    streams: &mut Streams<W, E>,
) -> Status
    ensures { Draws options.now font.now waivers.now (sinks_by W.state E.state streams.old) (sinks_by W.state E.state streams.new) result }
{
    let Ok(sidebearings) = Sidebearings::prepare(alloc, font, options.edition) else {
        return tell_failure(PROGRAM, Failure::Memory, &mut streams.errors);
    };
    let sheet = Sheet {
        font: &*font,
        sidebearings: &sidebearings,
        waivers: &*waivers,
    };
    match &options.asked {
        Asked::Glyph { name, extent } => {
            show_glyph(alloc, &sheet, name.as_slice(), *extent, streams)
        }
        Asked::Faulty { .. } => show_folder(alloc, &sheet, streams),
    }
}

/// Draws a glyph by its name.
fn show_glyph<W: Sink, E: Sink>(
    alloc: Global,
    sheet: &Sheet<'_>,
    name: &[u8],
    extent: Extent,
    streams: &mut Streams<W, E>,
) -> Status
    requires { IsSound sheet.now }
    ensures { DrawsGlyph (font_of sheet.now) (edition_of sheet.now) (waivers_of sheet.now) name.now extent
        (sinks_by W.state E.state streams.old) (sinks_by W.state E.state streams.new) result }
{
    let Some(glyph) = glyph_named(sheet.font, name) else {
        return match shown(alloc, name) {
            Ok(name) => tell_no_glyph(PROGRAM, name.as_str(), &mut streams.errors),
            Err(_) => tell_failure(PROGRAM, Failure::Memory, &mut streams.errors),
        };
    };
    match shown_by(sheet.font, sheet.sidebearings, sheet.waivers, glyph, extent) {
        Ok(shown) => give_picture(alloc, sheet, glyph, shown, streams),
        Err(none) => tell_no_fault(alloc, name, none.number, &mut streams.errors),
    }
}

/// Prints that the report has no such fault of the glyph or of the font.
fn tell_no_fault<E: Sink>(alloc: Global, name: &[u8], number: u64, errors: &mut E) -> Status
    ensures { TellsNoFault name.now number (E.state errors.old) (E.state errors.new) result }
{
    match shown(alloc, name) {
        Ok(name) => {
            let mut digits = Buffer::new();
            let parts = [
                PROGRAM.as_bytes(),
                b": no fault ",
                digits.format(number).as_bytes(),
                b" of glyph ",
                name.as_bytes(),
                b" or of the font\n",
            ];
            tell_parts(errors, &parts, Status::Failed)
        }
        Err(_) => tell_failure(PROGRAM, Failure::Memory, errors),
    }
}

/// Writes the picture of a glyph, of which so much is shown.
fn give_picture<W: Sink, E: Sink>(
    alloc: Global,
    sheet: &Sheet<'_>,
    glyph: usize,
    shown: Shown,
    streams: &mut Streams<W, E>,
) -> Status
    requires sound { IsSound sheet.now }
    requires glyph { glyph < length sheet.now.font.now.glyphs }
    requires fault { IfSome (fault_in (shown_value shown)) (CanBeShown (font_of sheet.now) (waivers_of sheet.now) glyph) }
    ensures { DrawsAs sheet.now glyph (shown_value shown) (sinks_by W.state E.state streams.old) (sinks_by W.state E.state streams.new) result }
{
    match drawn(alloc, sheet, glyph, shown) {
        Ok(text) => give(PROGRAM, text.as_bytes(), streams),
        Err(_) => tell_failure(PROGRAM, Failure::Memory, &mut streams.errors),
    }
}

/// Draws all glyphs with faults.
fn show_folder<W: Sink, E: Sink>(
    alloc: Global,
    sheet: &Sheet<'_>,
    streams: &mut Streams<W, E>,
) -> Status
    requires { IsSound sheet.now }
    ensures { DrawsFolder (font_of sheet.now) (edition_of sheet.now) (waivers_of sheet.now)
        (sinks_by W.state E.state streams.old) (sinks_by W.state E.state streams.new) result }
{
    match folder_text(alloc, sheet) {
        Ok(text) => give(PROGRAM, text.as_bytes(), streams),
        Err(_) => tell_failure(PROGRAM, Failure::Memory, &mut streams.errors),
    }
}
