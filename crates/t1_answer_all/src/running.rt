//! A run over many fonts, from the first font to the last line that is printed.

ghost use Rattle.std.specs.Prelude.{◌≡◌};
ghost use Rattle.t1_answer_all.specs.Plans.{plan_value, run_of};
ghost use Rattle.t1_answer_all.specs.Endings.{left_value, nothing_left};
ghost use Rattle.t1_answer_all.specs.Runs.{Concludes, ConcludesWritten, Runs, lost_line};
ghost use Rattle.t1_run.specs.Opening.{sinks_by};
ghost use Rattle.t1_run.specs.Telling.{Tells};

use crate::ending::{Left, end};
use crate::findings::Findings;
use crate::outcome::Outcome;
use crate::plan::Plan;
use crate::writing::write_fonts;
use std::alloc::Global;
use t1_io::Sink;
use t1_many::{FontFiles, Lost};
use t1_run::{Failure, Status, Streams, tell_failure, tell_write_failed};

/// The program's name, before what it prints of itself.
pub const PROGRAM: &str = "t1check-all";

/// Checks fonts in order, writes what is chosen of them, and prints what comes after all fonts. Where the output fails, or memory runs out,
/// that is printed, and nothing is left to do.
pub fn run<S: FontFiles, W: Sink + Drop, E: Sink + Drop>(
    alloc: Global,
    plan: Plan<'_>,
    files: &mut S,
    streams: Streams<W, E>,
) -> Outcome<Left, Streams<W, E>>
    ensures { Runs (run_of plan.entry S.calls files.old files.new)
        (sinks_by W.state E.state streams) (sinks_by W.state E.state result.output) (left_value result.value) }
{
    let written = write_fonts(alloc, plan, files, streams);
    let mut output = written.output;
    let value = conclude_written(alloc, plan, written.value, &mut output.errors);
    Outcome { value, output }
}

/// Prints what comes after what is chosen of the fonts, or why that wasn't written.
fn conclude_written<E: Sink>(
    alloc: Global,
    plan: Plan<'_>,
    found: Result<Findings, Lost>,
    errors: &mut E,
) -> Left
    ensures { ConcludesWritten (plan_value plan.entry) found (E.state errors.old) (E.state errors.new) (left_value result) }
{
    match found {
        Ok(found) => conclude(alloc, plan, found, errors),
        Err(lost) => nothing_left(tell_lost(lost, errors)),
    }
}

/// Prints what comes after all fonts.
fn conclude<E: Sink>(alloc: Global, plan: Plan<'_>, found: Findings, errors: &mut E) -> Left
    ensures { Concludes (plan_value plan.entry) found (E.state errors.old) (E.state errors.new) (left_value result) }
{
    match end(alloc, plan, found, errors) {
        Ok(left) => left,
        Err(lost) => nothing_left(tell_lost(lost, errors)),
    }
}

/// Nothing is left to do.
pub(crate) fn nothing_left(status: Status) -> Left
    ensures { left_value result ≡ nothing_left status }
{
    Left {
        status,
        known_faults: None,
        waivers: None,
    }
}

/// Prints why a run stopped.
fn tell_lost<E: Sink>(lost: Lost, errors: &mut E) -> Status
    ensures { Tells (lost_line lost) Status.Failed (E.state errors.old) (E.state errors.new) result }
{
    match lost {
        Lost::Device => tell_write_failed(PROGRAM, errors),
        Lost::Memory => tell_failure(PROGRAM, Failure::Memory, errors),
    }
}
