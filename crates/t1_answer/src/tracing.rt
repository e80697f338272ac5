//! The lines of a trace.

ghost use Rattle.std.specs.Prelude.{◌≡◌, ◌<◌, length};
ghost use Rattle.t1_io.specs.Devices.{Delivers, Writes};
ghost use Rattle.t1_answer.specs.Traces.{trace_of};

use t1_char::{Edition, Machine, Turn};
use t1_font::Font;
use t1_io::{Broken, Sink, put_all};
use t1_report::write_step;

/// Writes the steps of a glyph up to the limit and the line on more of them, and flushes them.
pub fn write_trace<'a, W: Sink>(
    sink: &mut W,
    font: &'a Font<'a>,
    glyph: usize,
    edition: Edition,
) -> Result<(), Broken>
    requires { glyph < length font.now.glyphs }
    ensures { Delivers (W.state sink.old) (W.state sink.new) (trace_of edition font.now glyph) result }
{
    write_steps(sink, Machine::start(font, glyph, edition))?;
    sink.flush()
}

/// Writes the steps of a glyph up to the limit and the line on more of them, each before it is executed.
fn write_steps<W: Sink>(sink: &mut W, mut machine: Machine<'_>) -> Result<(), Broken>
    requires { machine.counted ≡ 0 }
    ensures { Writes (W.state sink.old) (W.state sink.new)
        (trace_of machine.entry.edition machine.entry.font machine.entry.glyph) result }
{
    loop {
        match machine.step() {
            Turn::Step(step) => write_step(sink, step)?,
            Turn::Ended => return Ok(()),
            Turn::Limit(_) => return put_all(sink, b"limit\n"),
        }
    }
}
