//! The lines of a glyph's steps.

ghost use Rattle.std.specs.Prelude.{◌≡◌, ◌++◌, codes};
ghost use Rattle.t1_io.specs.Devices.{Writes};
ghost use Rattle.t1_char.specs.StepValues.{step_value};
ghost use Rattle.t1_report.specs.Traces.{step_line, token_text};

use crate::lines::write_path;
use itoa::Buffer;
use t1_char::{CharToken, Step, command_name};
use t1_io::{Broken, Sink, put_all, put_parts};

/// Writes the line of a step: its number, the Subrs that are being executed, its token: `5 - callsubr`,
/// `6 5>6 -107`, `7 5 unknown 12 99`.
pub fn write_step<W: Sink>(sink: &mut W, step: &Step) -> Result<(), Broken>
    ensures { Writes (W.state sink.old) (W.state sink.new) (step_line (step_value step.now)) result }
{
    put_parts(sink, &[Buffer::new().format(step.number).as_bytes(), b" "])?;
    write_path(sink, step.path.as_slice())?;
    put_all(sink, b" ")?;
    write_token(sink, step.token)?;
    put_all(sink, b"\n")
}

/// Writes a token.
fn write_token<W: Sink>(sink: &mut W, token: CharToken) -> Result<(), Broken>
    ensures { Writes (W.state sink.old) (W.state sink.new) (token_text token) result }
{
    match token {
        CharToken::Number(number) => put_all(sink, Buffer::new().format(number).as_bytes()),
        CharToken::Command(command) => put_all(sink, command_name(command).as_bytes()),
        CharToken::Unknown(byte) => put_parts(
            sink,
            &[b"unknown ", Buffer::new().format(byte).as_bytes()],
        ),
        CharToken::Unknown12(byte) => put_parts(
            sink,
            &[b"unknown 12 ", Buffer::new().format(byte).as_bytes()],
        ),
        CharToken::Cut => put_all(sink, b"cut"),
        CharToken::Short => put_all(sink, b"short"),
        CharToken::End => put_all(sink, b"end"),
    }
}
