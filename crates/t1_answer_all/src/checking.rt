//! Checks fonts by the options.

ghost use Rattle.t1_answer_all.specs.Checking.{ChecksBy, ChecksKnown, ExpectsIf, Stops, TellsAndChecks};
ghost use Rattle.t1_answer_all.specs.Endings.{left_value};
ghost use Rattle.t1_answer_all.specs.Listing.{fonts_value};
ghost use Rattle.t1_answer_all.specs.Plans.{asked_value};
ghost use Rattle.t1_options.specs.Settings.Finding.{system_by};
ghost use Rattle.t1_run.specs.Opening.{sinks_by};

use crate::ending::Left;
use crate::known::{file_of, read_known, text_of_known};
use crate::listing::{Fonts, fonts_of};
use crate::outcome::Outcome;
use crate::plan::{Asked, plan_by};
use crate::progress::ShowsProgress;
use crate::running::{PROGRAM, nothing_left, run};
use crate::telling::tell_unlisted;
use std::alloc::Global;
use t1_io::Sink;
use t1_known::KnownFaults;
use t1_many::FontFiles;
use t1_names::FileSystem;
use t1_run::{Streams, UsageError, explain};

/// Lists the fonts that the options name, prints what couldn't be listed, and checks the fonts; or prints why they can't be listed. What is wrong
/// first, in this order, is printed: the file of known faults, a list that can't be read, and a list without a font.
pub(crate) fn check_by<Y, F, W, E>(
    alloc: Global,
    asked: Asked<'_>,
    system: &mut Y,
    files: &mut F,
    streams: Streams<W, E>,
) -> Outcome<Left, Streams<W, E>>
where
    Y: FileSystem,
    F: FontFiles + ShowsProgress,
    W: Sink + Drop,
    E: Sink + Drop,
    ensures { ChecksBy (system_by Y.asks system.old system.new)
        (record { calls = F.calls; Expects = F.expects }) (asked_value asked.entry)
        (record { files = files.old; files' = files.new; old = sinks_by W.state E.state streams; new = sinks_by W.state E.state result.output })
        (left_value result.value) }
{
    match text_of_known(alloc, &asked.options.known_faults, system) {
        Ok(text) => check_known(alloc, asked, text.as_slice(), system, files, streams),
        Err(error) => stopped(&error, streams),
    }
}

/// The same, given the text of the file of known faults.
fn check_known<Y, F, W, E>(
    alloc: Global,
    asked: Asked<'_>,
    text: &[u8],
    system: &mut Y,
    files: &mut F,
    streams: Streams<W, E>,
) -> Outcome<Left, Streams<W, E>>
where
    Y: FileSystem,
    F: FontFiles + ShowsProgress,
    W: Sink + Drop,
    E: Sink + Drop,
    ensures { ChecksKnown (system_by Y.asks system.old system.new)
        (record { calls = F.calls; Expects = F.expects }) (asked_value asked.entry) text.now
        (record { files = files.old; files' = files.new; old = sinks_by W.state E.state streams; new = sinks_by W.state E.state result.output })
        (left_value result.value) }
{
    match read_known(alloc, file_of(&asked.options.known_faults), text) {
        Ok(known) => match fonts_of(alloc, asked.options, system) {
            Ok(fonts) => tell_and_check(alloc, asked, &known, &fonts, files, streams),
            Err(error) => stopped(&error, streams),
        },
        Err(error) => stopped(&error, streams),
    }
}

/// Prints what couldn't be listed, and checks the fonts. Unless quiet, it tells the files first how many fonts there are.
fn tell_and_check<F: FontFiles + ShowsProgress, W: Sink + Drop, E: Sink + Drop>(
    alloc: Global,
    asked: Asked<'_>,
    known: &KnownFaults<'_>,
    fonts: &Fonts,
    files: &mut F,
    streams: Streams<W, E>,
) -> Outcome<Left, Streams<W, E>>
    ensures { TellsAndChecks (record { calls = F.calls; Expects = F.expects })
        (record { asked = asked_value asked.entry; rows = known.now; fonts = fonts_value fonts.now })
        (record { files = files.old; files' = files.new; old = sinks_by W.state E.state streams; new = sinks_by W.state E.state result.output })
        (left_value result.value) }
{
    let mut streams = streams;
    // Where that fails the status is that of a failure all the same.
    let _ = tell_unlisted(fonts.unlisted(), &mut streams.errors);
    let plan = plan_by(asked, known, fonts);
    expect_if(!plan.quiet, plan.names.len(), files);
    run(alloc, plan, files, streams)
}

/// Tells the files how many fonts are checked from now on, if they are to know it.
fn expect_if<F: ShowsProgress>(told: bool, count: usize, files: &mut F)
    ensures { ExpectsIf F.expects told count files.old files.new }
{
    if told {
        files.expect(count);
    }
}

/// Prints why nothing was checked.
pub(crate) fn stopped<W: Sink + Drop, E: Sink + Drop>(
    error: &UsageError,
    streams: Streams<W, E>,
) -> Outcome<Left, Streams<W, E>>
    ensures { Stops error.now (sinks_by W.state E.state streams) (sinks_by W.state E.state result.output) (left_value result.value) }
{
    let mut output = streams;
    let value = nothing_left(explain(PROGRAM, error, &mut output));
    Outcome { value, output }
}
