//! The lines of a report.

ghost use Rattle.std.specs.Prelude.{◌<◌, slice_get};
ghost use Rattle.std.specs.List.{flat_map};
ghost use Rattle.t1_io.specs.Devices.{Writes};
ghost use Rattle.t1_report.specs.Faults.{fault_value};
ghost use Rattle.t1_report.specs.Lines.{IsInFont, glyph_place, inner_text, key_place, line_of, path_text, place_text, waiver_text};
ghost use Rattle.t1_report.specs.Places.{fault_place};
ghost use Rattle.t1_rules.specs.Keys.{key_count};

use crate::faults::Fault;
use crate::places::FaultPlace;
use crate::waivers::Waivers;
use itoa::Buffer;
use t1_font::Font;
use t1_io::{Broken, Sink, put_all, put_parts};
use t1_rules::{key_text, rule_code, rule_text};

/// Writes the line of a fault: `1: font file 0 F01 no end segment`, or of a glyph
/// `2: glyph A 5>6 8 P01 drawing without a move`, or of a waiver `3: waiver A P01 U01 waiver not used`. The fault
/// is at a key of the font, in one of its glyphs, or in the unit after them at the place of a waiver.
pub fn write_fault<W: Sink>(
    sink: &mut W,
    font: &Font<'_>,
    waivers: &Waivers<'_>,
    fault: &Fault,
) -> Result<(), Broken>
    requires { IsInFont font.now waivers.now (fault_value fault.now) }
    ensures { Writes (W.state sink.old) (W.state sink.new) (line_of font.now waivers.now (fault_value fault.now)) result }
{
    put_parts(
        sink,
        &[Buffer::new().format(fault.number).as_bytes(), b": "],
    )?;
    write_place(sink, font, waivers, fault)?;
    put_parts(
        sink,
        &[
            b" ",
            rule_code(fault.rule).as_bytes(),
            b" ",
            rule_text(fault.rule).as_bytes(),
            b"\n",
        ],
    )
}

/// Writes where a fault is.
fn write_place<W: Sink>(
    sink: &mut W,
    font: &Font<'_>,
    waivers: &Waivers<'_>,
    fault: &Fault,
) -> Result<(), Broken>
    requires { IsInFont font.now waivers.now (fault_value fault.now) }
    ensures { Writes (W.state sink.old) (W.state sink.new)
        (place_text font.now waivers.now (fault_value fault.now) (fault_place font.now (fault_value fault.now))) result }
{
    match fault.place(font) {
        FaultPlace::Key { key, index } => write_key_place(sink, key, index),
        FaultPlace::Glyph(glyph) => write_glyph_place(sink, font.glyph_name(glyph), fault),
        FaultPlace::Waiver(number) => write_waiver_place(sink, waivers, number),
    }
}

/// Writes a key of the font and an index.
fn write_key_place<W: Sink>(sink: &mut W, key: u8, index: u16) -> Result<(), Broken>
    requires { key < key_count }
    ensures { Writes (W.state sink.old) (W.state sink.new) (key_place key index) result }
{
    put_parts(
        sink,
        &[
            b"font ",
            key_text(key).as_bytes(),
            b" ",
            Buffer::new().format(index).as_bytes(),
        ],
    )
}

/// Writes the waiver of a number, if it is there.
fn write_waiver_place<W: Sink>(
    sink: &mut W,
    waivers: &Waivers<'_>,
    number: usize,
) -> Result<(), Broken>
    ensures { Writes (W.state sink.old) (W.state sink.new) (waiver_text (slice_get waivers.now number)) result }
{
    let Some((name, rule)) = waivers.pair(number) else {
        return Ok(());
    };
    put_all(sink, b"waiver ")?;
    put_all(sink, name)?;
    put_parts(sink, &[b" ", rule_code(rule).as_bytes()])
}

/// Writes a glyph's name, the path and the step of a fault.
fn write_glyph_place<W: Sink>(sink: &mut W, name: &[u8], fault: &Fault) -> Result<(), Broken>
    ensures { Writes (W.state sink.old) (W.state sink.new) (glyph_place name.now (fault_value fault.now)) result }
{
    put_parts(sink, &[b"glyph ", name, b" "])?;
    write_path(sink, fault.path.as_slice())?;
    put_parts(sink, &[b" ", Buffer::new().format(fault.step).as_bytes()])
}

/// Writes the Subrs that are being executed: `5>6`, or `-` where there is none.
pub(crate) fn write_path<W: Sink>(sink: &mut W, path: &[u32]) -> Result<(), Broken>
    ensures { Writes (W.state sink.old) (W.state sink.new) (path_text path.now) result }
{
    let Some((outermost, inner)) = path.split_first() else {
        return put_all(sink, b"-");
    };
    put_all(sink, Buffer::new().format(*outermost).as_bytes())?;
    write_inner(sink, inner)
}

/// Writes the Subrs that are called from another.
fn write_inner<W: Sink>(sink: &mut W, numbers: &[u32]) -> Result<(), Broken>
    ensures { Writes (W.state sink.old) (W.state sink.new) (flat_map inner_text numbers.now) result }
{
    for number in numbers {
        put_parts(sink, &[b">", Buffer::new().format(*number).as_bytes()])?;
    }
    Ok(())
}
