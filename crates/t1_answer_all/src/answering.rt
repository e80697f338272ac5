//! From the words of the command line to lines, files and a status.

ghost use Rattle.std.specs.Prelude.{map, string_bytes};
ghost use Rattle.t1_answer_all.specs.Answers.{Answers, AnswersWords, Checks, FlushesLast};
ghost use Rattle.t1_answer_all.specs.Explaining.{ExplainsPages};
ghost use Rattle.t1_forms.specs.PageValues.{page_value};
ghost use Rattle.t1_options.specs.Settings.Finding.{system_by};
ghost use Rattle.t1_run.specs.Opening.{sinks_by};

use crate::checking::check_by;
use crate::explaining::explanation_of;
use crate::outcome::Outcome;
use crate::plan::Asked;
use crate::progress::ShowsProgress;
use crate::replacing::replace_files;
use crate::running::PROGRAM;
use std::alloc::Global;
use std::convert::AsStr;
use t1_forms::Page;
use t1_io::Sink;
use t1_many::FontFiles;
use t1_names::{FileStore, FileSystem};
use t1_options::{HELP, Options, Request, options};
use t1_run::{Status, Streams, explain, give};

/// Answers the words of the command line, the program's name first: with help, with what is wrong, with the version, whose text is given, with
/// pages of these, or with a check of the fonts that they name, after which the files are replaced that are to be. A document of SARIF has all pages.
/// The system is asked for settings, known faults and lists. Standard error is flushed last.
pub fn answer<S, Y, F, W, E>(
    alloc: Global,
    words: &[S],
    version: &[u8],
    pages: &[Page],
    system: &mut Y,
    files: &mut F,
    streams: Streams<W, E>,
) -> Outcome<Status, Streams<W, E>>
where
    S: AsStr,
    Y: FileSystem,
    F: FontFiles + FileStore + ShowsProgress,
    W: Sink + Drop,
    E: Sink + Drop,
    ensures { Answers (record { help = HELP.now; version = version.now; pages = map page_value pages.now }) (map S.text words.now)
        (system_by Y.asks system.old system.new) (record { calls = F.calls; Expects = F.expects; Puts = F.puts; Has = F.has })
        (record { files = files.old; files' = files.new; old = sinks_by W.state E.state streams; new = sinks_by W.state E.state result.output }) result.value }
{
    let answered = answer_words(alloc, words, version, pages, system, files, streams);
    let mut output = answered.output;
    let value = flush_last(answered.value, &mut output.errors);
    Outcome { value, output }
}

/// Flushes standard error, and returns the status, or that of a failure if that fails.
fn flush_last<E: Sink>(status: Status, errors: &mut E) -> Status
    ensures { FlushesLast (E.state errors.old) (E.state errors.new) status result }
{
    match errors.flush() {
        Ok(()) => status,
        Err(_) => Status::Failed,
    }
}

/// Answers the words.
fn answer_words<S, Y, F, W, E>(
    alloc: Global,
    words: &[S],
    version: &[u8],
    pages: &[Page],
    system: &mut Y,
    files: &mut F,
    streams: Streams<W, E>,
) -> Outcome<Status, Streams<W, E>>
where
    S: AsStr,
    Y: FileSystem,
    F: FontFiles + FileStore + ShowsProgress,
    W: Sink + Drop,
    E: Sink + Drop,
    ensures { AnswersWords (record { help = HELP.now; version = version.now; pages = map page_value pages.now }) (map S.text words.now)
        (system_by Y.asks system.old system.new) (record { calls = F.calls; Expects = F.expects; Puts = F.puts; Has = F.has })
        (record { files = files.old; files' = files.new; old = sinks_by W.state E.state streams; new = sinks_by W.state E.state result.output }) result.value }
{
    let mut output = streams;
    match options(alloc, words, system) {
        Ok(Request::Check(options)) => check(alloc, options, pages, system, files, output),
        Ok(Request::Explain(codes)) => {
            let value = explain_pages(alloc, pages, codes.as_slice(), &mut output);
            Outcome { value, output }
        }
        Ok(Request::Version) => {
            let value = give(PROGRAM, version, &mut output);
            Outcome { value, output }
        }
        Err(error) => {
            let value = explain(PROGRAM, &error, &mut output);
            Outcome { value, output }
        }
    }
}

/// Checks the fonts that the options name, and replaces the files that are left to be.
fn check<Y, F, W, E>(
    alloc: Global,
    options: Options,
    pages: &[Page],
    system: &mut Y,
    files: &mut F,
    streams: Streams<W, E>,
) -> Outcome<Status, Streams<W, E>>
where
    Y: FileSystem,
    F: FontFiles + FileStore + ShowsProgress,
    W: Sink + Drop,
    E: Sink + Drop,
    ensures { Checks (system_by Y.asks system.old system.new)
        (record { calls = F.calls; Expects = F.expects; Puts = F.puts; Has = F.has }) (record { options = options; pages = map page_value pages.now })
        (record { files = files.old; files' = files.new; old = sinks_by W.state E.state streams; new = sinks_by W.state E.state result.output }) result.value }
{
    let asked = Asked {
        options: &options,
        pages,
    };
    let ran = check_by(alloc, asked, system, files, streams);
    let mut output = ran.output;
    let value = replace_files(alloc, &options, &ran.value, files, &mut output.errors);
    Outcome { value, output }
}

/// Gives the pages whose codes the words are, or a list of all.
fn explain_pages<W: Sink, E: Sink>(
    alloc: Global,
    pages: &[Page],
    words: &[String],
    streams: &mut Streams<W, E>,
) -> Status
    ensures { ExplainsPages (map page_value pages.now) (map string_bytes words.now)
        (sinks_by W.state E.state streams.old) (sinks_by W.state E.state streams.new) result }
{
    match explanation_of(alloc, pages, words) {
        Ok(text) => give(PROGRAM, text.as_bytes(), streams),
        Err(error) => explain(PROGRAM, &error, streams),
    }
}
