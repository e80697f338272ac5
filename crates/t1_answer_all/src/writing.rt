//! Writes what is chosen of fonts, in the layout that is requested.

ghost use Rattle.std.specs.Prelude.{◌≡◌, Err};
ghost use Rattle.t1_answer_all.specs.Plans.{run_of};
ghost use Rattle.t1_answer_all.specs.Writing.{FinishesChecked, WritesCommands, WritesFormatted, WritesGroups, WritesIn, lost_by};
ghost use Rattle.t1_run.specs.Opening.{sinks_by};

use crate::findings::{Findings, check_fonts};
use crate::layout::Layout;
use crate::outcome::Outcome;
use crate::plan::Plan;
use crate::unlisted::give_unlisted;
use std::alloc::Global;
use t1_forms::{FormatError, JUnit, Sarif};
use t1_io::Sink;
use t1_many::{FontFiles, Lost, Plain};
use t1_printers::{
    Formatted, Formatter, GitHubCommands, GitHubGroups, GroupForm, Grouped, JsonLines,
};
use t1_run::Streams;

/// What was found in fonts, or why it stopped, and what it was printed on.
type Written<W, E> = Outcome<Result<Findings, Lost>, Streams<W, E>>;

/// Checks fonts in order, and writes what is chosen of them and why there is no report of a font. In a form for another program it also writes
/// what couldn't be listed.
pub(crate) fn write_fonts<S: FontFiles, W: Sink + Drop, E: Sink + Drop>(
    alloc: Global,
    plan: Plan<'_>,
    files: &mut S,
    streams: Streams<W, E>,
) -> Written<W, E>
    ensures { WritesIn (run_of plan.entry S.calls files.old files.new)
        (sinks_by W.state E.state streams) (sinks_by W.state E.state result.output) result.value }
{
    let mut streams = streams;
    match plan.layout {
        Layout::Lines { reasons } => {
            let checked = check_fonts(alloc, plan, files, Plain { reasons, streams });
            Outcome {
                value: checked.value,
                output: checked.output.streams,
            }
        }
        Layout::Groups(terminal) => write_groups(alloc, plan, files, terminal, streams),
        Layout::JsonLines { clean, reasons } => {
            write_formatted(alloc, plan, files, reasons, JsonLines { clean }, streams)
        }
        Layout::GitHub { reasons } => write_commands(alloc, plan, files, reasons, streams),
        Layout::Sarif { pages, reasons } => match Sarif::begin(alloc, &mut streams.out, pages) {
            Ok(document) => write_formatted(alloc, plan, files, reasons, document, streams),
            Err(error) => unwritten(lost_by(error), streams),
        },
        Layout::JUnit { failing, reasons } => match JUnit::begin(alloc, &mut streams.out, failing) {
            Ok(document) => write_formatted(alloc, plan, files, reasons, document, streams),
            Err(error) => unwritten(lost_by(error), streams),
        },
    }
}

/// The same by groups.
fn write_groups<S: FontFiles, T: GroupForm + Drop, W: Sink + Drop, E: Sink + Drop>(
    alloc: Global,
    plan: Plan<'_>,
    files: &mut S,
    form: T,
    streams: Streams<W, E>,
) -> Written<W, E>
    ensures { WritesGroups (T.writing form) (run_of plan.entry S.calls files.old files.new)
        (sinks_by W.state E.state streams) (sinks_by W.state E.state result.output) result.value }
{
    let grouped = Grouped::new(alloc, form, streams);
    let checked = check_fonts(alloc, plan, files, grouped);
    Outcome {
        value: checked.value,
        output: checked.output.streams,
    }
}

/// The same as commands of GitHub: first those of what couldn't be listed, which are flushed.
fn write_commands<S: FontFiles, W: Sink + Drop, E: Sink + Drop>(
    alloc: Global,
    plan: Plan<'_>,
    files: &mut S,
    reasons: bool,
    streams: Streams<W, E>,
) -> Written<W, E>
    ensures { WritesCommands reasons (run_of plan.entry S.calls files.old files.new)
        (sinks_by W.state E.state streams) (sinks_by W.state E.state result.output) result.value }
{
    let mut streams = streams;
    let mut formatter = GitHubCommands;
    if let Err(lost) = give_unlisted(alloc, plan.unlisted, &mut formatter, &mut streams.out) {
        return unwritten(lost, streams);
    }
    match streams.out.flush() {
        Ok(()) => write_groups(alloc, plan, files, GitHubGroups { reasons }, streams),
        Err(_) => unwritten(Lost::Device, streams),
    }
}

/// The same in the form of a formatter, which has written what comes before all else.
fn write_formatted<S: FontFiles, T: Formatter + Drop, W: Sink + Drop, E: Sink + Drop>(
    alloc: Global,
    plan: Plan<'_>,
    files: &mut S,
    reasons: bool,
    formatter: T,
    streams: Streams<W, E>,
) -> Written<W, E>
    ensures { WritesFormatted (record { reasons = reasons; writes = T.writes; ends = T.ends }) T.finishes (run_of plan.entry S.calls files.old files.new)
        (record { formatter = formatter; sinks = sinks_by W.state E.state streams })
        (sinks_by W.state E.state result.output) result.value }
{
    let mut formatter = formatter;
    let mut streams = streams;
    if let Err(lost) = give_unlisted(alloc, plan.unlisted, &mut formatter, &mut streams.out) {
        return unwritten(lost, streams);
    }
    let form = Formatted::new(alloc, formatter, streams, reasons);
    let checked = check_fonts(alloc, plan, files, form);
    let printer = checked.output;
    let mut output = printer.streams;
    let value = finish(alloc, printer.formatter, &mut output.out, checked.value);
    Outcome { value, output }
}

/// Finishes a form and flushes it, unless the check of its fonts stopped.
fn finish<T: Formatter + Drop, W: Sink>(
    alloc: Global,
    formatter: T,
    out: &mut W,
    found: Result<Findings, Lost>,
) -> Result<Findings, Lost>
    ensures { FinishesChecked (T.finishes formatter) (W.state out.old) (W.state out.new) found result }
{
    let found = found?;
    formatter.finish(alloc, out)?;
    out.flush()?;
    Ok(found)
}

/// Why a run stops where a document can't be begun.
fn lost_by(error: FormatError) -> Lost
    ensures { result ≡ lost_by error }
{
    match error {
        FormatError::Memory => Lost::Memory,
        FormatError::Broken => Lost::Device,
    }
}

/// Nothing was found, since it stopped before the first font.
fn unwritten<W: Sink + Drop, E: Sink + Drop>(lost: Lost, streams: Streams<W, E>) -> Written<W, E>
    ensures { result ≡ record { value = Err lost; output = streams } }
{
    Outcome {
        value: Err(lost),
        output: streams,
    }
}
