//! The command line, by clap.

ghost use Rattle.std.specs.Prelude.{◌≡◌, IfErr, IfOk, false, fold, map};
ghost use Rattle.clap.specs.Words.{app_of, found_of, rows_of, rule_of};
ghost use Rattle.t1_options.specs.CommandLine.{t1check_all};
ghost use Rattle.t1_options.specs.Given.{given_in};
ghost use Rattle.t1_options.specs.Private.Arguments.{rule_for, with_argument};
ghost use Rattle.t1_options.specs.Words.{AsksNothing, HasHelp, IsAnswered, IsAsked, IsRefused, IsTaken};
ghost use Rattle.t1_run.specs.Words.{AreRefused, IsParsedBy};
ghost use Rattle.t1_options.specs.Settings.Finding.{system_by};

use crate::asked::Request;
use crate::given::given_in;
use crate::judging::options_asked;
use crate::texts::copies;
use clap::{Arg, ArgAction, ArgMatches, Command};
use std::alloc::{AllocError, Global};
use std::convert::AsStr;
use t1_names::FileSystem;
use t1_run::{UsageError, parse};

/// The text of `--help`.
pub const HELP: &str = "\
Checks many fonts: t1check-all [OPTION...] [--] FONT|FOLDER...

A folder stands for the .pfa, .pfb and .t1 files below it, in the order of their paths. Each line of a report, and each
refusal, is written as `NAME: LINE`; what could not be checked is printed on standard error. A file NAME.waivers beside a
font NAME has its waivers, lines as `A H02`. A FONT `-` is standard input.

  -q                 no summary and no progress
  --edition N        check by this edition of the rule book, 1, 2, 3 or 4
  --only CODES       report these rules alone: codes or their letters, as H02,Z
  --except CODES     report all rules but these
  --level LEVELS     report rules of these levels alone: must, should or tidy, as must,should
  --fail-on LEVELS   let lines of these levels alone make the status 1
  --no-waivers       ignore waivers
  --write-waivers    write NAME.waivers, which waives each line of a glyph; lines of the font are reported
  --force            overwrite waivers
  --baseline FILE    report only what goes beyond the known faults in FILE
  --update-baseline  make what is found the known faults in FILE
  --files-from FILE  check what FILE names too, a line each; - is standard input
  --exclude GLOB     omit fonts whose names match: * and ? within a folder, ** over folders
  --shard I/N        check part I of N of the list
  --format FORM      write lines, and what was not checked, in a form for other programs: jsonl, sarif, github or junit
  --docs URL         let a sarif document name the page of each rule, as URL#ANCHOR
  --clean            let jsonl name fonts without lines too
  --columns N        write a line for each font and rule, cut to N columns, as on a terminal
  --colour           colour these by the levels of their rules
  --long             write each line of a report, also on a terminal
  --reasons          write below each line why it is there
  --no-reasons       omit reasons, also on a terminal, where the first one of each line is written
  --no-settings      ignore the settings file, .t1check.toml in the folder of the first PATH or above it
  --explain          print the pages of rules and refusals: codes in place of fonts, as H02 E08; without a code list all
  --help, --version

Status: 0 nothing to report, 1 a fault, 2 a font refused, 3 a font not checked or a usage error; the greatest counts.
Refusals are always reported. With --fail-on, faults of other levels leave the status as it is.
";

/// An argument of the command line.
#[derive(Clone, Copy)]
enum Argument {
    /// `-q`, which may be given again.
    Quiet,
    /// `-j N`, which is gone: it is known so that its use can be reported.
    Jobs,
    /// `--NAME`, which may be given again.
    Flag(&'static str),
    /// `--NAME VALUE`.
    Option(&'static str, &'static str),
    /// `--NAME VALUE`, of which each use adds a value.
    List(&'static str, &'static str),
    /// `--version`, which the program itself handles.
    Version,
    /// `PATH...`.
    Path,
}

const ARGUMENTS: &[Argument] = &[
    Argument::Quiet,
    Argument::Jobs,
    Argument::Option("edition", "N"),
    Argument::List("only", "CODES"),
    Argument::List("except", "CODES"),
    Argument::List("level", "LEVELS"),
    Argument::List("fail-on", "LEVELS"),
    Argument::Flag("no-waivers"),
    Argument::Flag("write-waivers"),
    Argument::Flag("force"),
    Argument::Option("baseline", "FILE"),
    Argument::Flag("update-baseline"),
    Argument::List("files-from", "FILE"),
    Argument::List("exclude", "GLOB"),
    Argument::Option("shard", "I/N"),
    Argument::Option("format", "FORM"),
    Argument::Option("docs", "URL"),
    Argument::Flag("clean"),
    Argument::Option("columns", "N"),
    Argument::Flag("colour"),
    Argument::Flag("long"),
    Argument::Flag("reasons"),
    Argument::Flag("no-reasons"),
    Argument::Flag("no-settings"),
    Argument::Flag("explain"),
    Argument::Version,
    Argument::Path,
];

/// Reads the words of the command line, the program's name first, and the settings of their first path.
///
/// Help comes first, then what clap finds wrong, then the version, then pages, then what is wrong with the words by
/// themselves, then what is wrong with the settings, then what is wrong with both together.
pub fn options<S: AsStr, F: FileSystem>(
    alloc: Global,
    words: &[S],
    files: &mut F,
) -> Result<Request, UsageError>
    ensures taken { IfOk result (IsTaken (system_by F.asks files.old files.new) (map S.text words.now)) }
    ensures refused { IfErr result (IsRefused HELP.now (system_by F.asks files.old files.new) (map S.text words.now)) }
{
    let matches = matches_of(alloc, words)?;
    request_of(alloc, &matches, files)
}

/// What the matches request.
fn request_of<F: FileSystem>(
    alloc: Global,
    matches: &ArgMatches<'_>,
    files: &mut F,
) -> Result<Request, UsageError>
    ensures asked { IfOk result (IsAsked (system_by F.asks files.old files.new) (given_in (rows_of (found_of matches.now)))) }
    ensures wrong { IfErr result (AsksNothing (system_by F.asks files.old files.new) (given_in (rows_of (found_of matches.now)))) }
{
    let given = given_in(matches);
    if given.version {
        return Ok(Request::Version);
    }
    if given.explain {
        return Ok(Request::Explain(copies(alloc, given.paths)?));
    }
    match options_asked(alloc, &given, files) {
        Ok(options) => Ok(Request::Check(options)),
        Err(error) => Err(error),
    }
}

/// The matches of the words, by clap.
fn matches_of<S: AsStr>(alloc: Global, words: &[S]) -> Result<ArgMatches<'_>, UsageError>
    ensures parsed { IfOk result (IsParsedBy t1check_all (map S.text words.now)) }
    ensures refused { IfErr result (AreRefused t1check_all (map S.text words.now)) }
    ensures help { IfErr result (HasHelp HELP.now) }
{
    let command = command(alloc)?;
    match parse(alloc, command, words) {
        Ok(matches) => Ok(matches),
        Err(error) => Err(with_help(alloc, error)),
    }
}

/// The same error, but help has the program's own text.
fn with_help(alloc: Global, error: UsageError) -> UsageError
    ensures { IsAnswered HELP.now error result }
{
    match error {
        UsageError::Help(_) => match String::from_str(alloc, HELP) {
            Ok(text) => UsageError::Help(text),
            Err(_) => UsageError::Memory,
        },
        UsageError::Usage(text) => UsageError::Usage(text),
        UsageError::Memory => UsageError::Memory,
    }
}

/// The command, with its arguments.
fn command<'a>(alloc: Global) -> Result<Command<'a>, AllocError>
    ensures { IfOk result (λ c. app_of c ≡ t1check_all) }
{
    let command = Command::new(alloc, "t1check-all").args_override_self(true);
    with_arguments(alloc, command, ARGUMENTS)
}

/// The command with these arguments more. A loop over a table takes less time to prove than a chain of calls.
fn with_arguments<'a>(
    alloc: Global,
    mut command: Command<'a>,
    arguments: &[Argument],
) -> Result<Command<'a>, AllocError>
    ensures { IfOk result (λ c. app_of c ≡ fold with_argument (app_of command.entry) arguments.now) }
{
    for argument in arguments {
        command = command.arg(arg_of(alloc, *argument))?;
    }
    Ok(command)
}

/// The argument as clap has it.
fn arg_of<'a>(alloc: Global, argument: Argument) -> Arg<'a>
    ensures rule { rule_of result ≡ rule_for argument }
    ensures local { result.global ≡ false }
{
    match argument {
        Argument::Quiet => Arg::new(alloc, "quiet").short('q').action(ArgAction::Count),
        Argument::Jobs => Arg::new(alloc, "jobs")
            .short('j')
            .value_name("N")
            .hide(true),
        Argument::Flag(name) => Arg::new(alloc, name).long(name).action(ArgAction::Count),
        Argument::Option(name, value) => Arg::new(alloc, name).long(name).value_name(value),
        Argument::List(name, value) => Arg::new(alloc, name)
            .long(name)
            .value_name(value)
            .action(ArgAction::Append),
        // The id `version` is clap's own.
        Argument::Version => Arg::new(alloc, "show-version")
            .long("version")
            .action(ArgAction::Count),
        Argument::Path => Arg::new(alloc, "path")
            .value_name("PATH")
            .action(ArgAction::Append),
    }
}
