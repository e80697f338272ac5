//! What a program says: on standard error under its own name, and on the output.

ghost use Rattle.std.specs.Prelude.{[], ◌∷◌};
ghost use Rattle.std.specs.List.{concat};
ghost use Rattle.t1_io.specs.Devices.{whole_of};
ghost use Rattle.t1_run.specs.Failures.{failure_line, failure_status, no_glyph_line, write_failed_line};
ghost use Rattle.t1_run.specs.Opening.{sinks_by};
ghost use Rattle.t1_run.specs.Telling.{Gives, Tells};

use crate::failure::Failure;
use crate::status::Status;
use crate::streams::Streams;
use t1_font::refusal_text;
use t1_io::{Sink, deliver, put_all, put_parts};

/// Prints one text on standard error and returns the status, or `Failed` if printing fails.
pub fn tell<E: Sink>(errors: &mut E, text: &str, status: Status) -> Status
    ensures { Tells text.now status (E.state errors.old) (E.state errors.new) result }
{
    match put_all(errors, text.as_bytes()) {
        Ok(()) => status,
        Err(_) => Status::Failed,
    }
}

/// Prints the parts of a text one after another, as [`tell`] prints one.
pub fn tell_parts<E: Sink>(errors: &mut E, parts: &[&[u8]], status: Status) -> Status
    ensures { Tells (whole_of parts.now) status (E.state errors.old) (E.state errors.new) result }
{
    match put_parts(errors, parts) {
        Ok(()) => status,
        Err(_) => Status::Failed,
    }
}

/// Prints why the program of this name has no result: a refusal by its number and text, all else after the name.
pub fn tell_failure<E: Sink>(program: &str, failure: Failure, errors: &mut E) -> Status
    ensures { Tells (failure_line program.now failure) (failure_status failure) (E.state errors.old) (E.state errors.new) result }
{
    match failure {
        Failure::Refused(code) => {
            let parts = [
                b"refused: ".as_slice(),
                refusal_text(code).as_bytes(),
                b"\n",
            ];
            tell_parts(errors, &parts, Status::Refused)
        }
        Failure::Broken => tell_of(program, b": read failed\n", errors),
        Failure::Memory => tell_of(program, b": out of memory\n", errors),
    }
}

/// Prints that a write or a flush of the program's output failed.
pub fn tell_write_failed<E: Sink>(program: &str, errors: &mut E) -> Status
    ensures { Tells (write_failed_line program.now) Status.Failed (E.state errors.old) (E.state errors.new) result }
{
    tell_of(program, b": write failed\n", errors)
}

/// Prints that a font has no glyph of this name.
pub fn tell_no_glyph<E: Sink>(program: &str, name: &str, errors: &mut E) -> Status
    ensures { Tells (no_glyph_line program.now name.now) Status.Failed (E.state errors.old) (E.state errors.new) result }
{
    let parts = [program.as_bytes(), b": no glyph ", name.as_bytes(), b"\n"];
    tell_parts(errors, &parts, Status::Failed)
}

/// Prints what has failed, after the program's name.
fn tell_of<E: Sink>(program: &str, what: &[u8], errors: &mut E) -> Status
    ensures { Tells (concat (program.now ∷ what.now ∷ [])) Status.Failed (E.state errors.old) (E.state errors.new) result }
{
    tell_parts(errors, &[program.as_bytes(), what], Status::Failed)
}

/// Prints a text on the output and flushes it. If that fails, it is reported on standard error.
pub fn give<W: Sink, E: Sink>(program: &str, text: &[u8], streams: &mut Streams<W, E>) -> Status
    ensures { Gives program.now text.now Status.Clean (sinks_by W.state E.state streams.old) (sinks_by W.state E.state streams.new) result }
{
    match deliver(&mut streams.out, text) {
        Ok(()) => Status::Clean,
        Err(_) => tell_write_failed(program, &mut streams.errors),
    }
}
