//! The command line, by clap.

ghost use Rattle.std.specs.Prelude.{◌≡◌, List, map, IfOk, IfErr};
ghost use Rattle.clap.specs.Words.{Text, app_of};
ghost use Rattle.t1_answer.specs.CommandLine.{t1check};
ghost use Rattle.t1_answer.specs.Words.{AreTaken};
ghost use Rattle.t1_run.specs.Words.{AreRefused, IsParsedBy};

use crate::asked::CheckOptions;
use clap::{ArgMatches, Command};
use std::alloc::{AllocError, Global};
use std::convert::AsStr;
use t1_run::{Argument, ArgumentKind, UsageError, edition, number, owned, parse, with_arguments};

const ABOUT: &str = "\
Lists every rule of the book that an Adobe Type 1 font (PFA or PFB) breaks. The book
has 70 rules, in edition 3 it has 93, in edition 4 112: on the file, on the font's
dictionaries, on charstrings, of which the first 100,000 steps are checked, in editions
2 to 4 the first 1,000,000, on the drawing, and on waivers.";

const AFTER_HELP: &str = "\
A line of the report:
  NUMBER: font KEY INDEX RULE text          as in 1: font BlueValues 6 Z04 zone numbers fall
  NUMBER: glyph NAME PATH STEP RULE text    as in 2: glyph A 5>6 8 P01 drawing without a move
  NUMBER: waiver NAME RULE U01 text         as in 3: waiver A P01 U01 waiver not used
  t1explain RULE prints what a rule or a refusal (Enn) means, an example and the cure

Exit status:
  0  no line of a report was written, or a trace was
  1  at least one line of a report was written
  2  the font or the waivers were refused; standard error says why, with a number
  3  usage error, no glyph NAME, a file or device failed, or memory ran out

Examples:
  t1check font.pfb                        writes the whole report
  t1check --after 20 --max 10 font.pfb    writes its lines 21 to 30
  t1check --trace A font.pfb              writes the steps of glyph A
  t1check --waive font.waivers font.pfb   leaves out what is meant
  t1check <font.pfb                       reads the font from standard input

For many fonts there is t1check-all. t1check is of the version that t1check-all --version tells.";

const ARGUMENTS: &[Argument<'static>] = &[
    Argument {
        name: "after",
        kind: ArgumentKind::Number,
        value: "K",
        help: "Leaves the first K lines of the report out [default: 0]",
    },
    Argument {
        name: "max",
        kind: ArgumentKind::Number,
        value: "M",
        help: "Writes at most M of the other lines",
    },
    Argument {
        name: "trace",
        kind: ArgumentKind::Text,
        value: "NAME",
        help: "Writes the steps of the glyph NAME in place of the report, STEP PATH TOKEN a line",
    },
    Argument {
        name: "edition",
        kind: ArgumentKind::Edition,
        value: "N",
        help: "Checks by edition 1, 2, 3 or 4 of the rule book [default: 1]",
    },
    Argument {
        name: "waive",
        kind: ArgumentKind::Text,
        value: "FILE",
        help: "Leaves the faults out that FILE waives by its lines, NAME RULE each",
    },
    Argument {
        name: "file",
        kind: ArgumentKind::Word,
        value: "FILE",
        help: "The font's file, one a run; without it standard input is read",
    },
];

/// Reads the words of the command line, the program's name first.
pub fn options<S: AsStr>(alloc: Global, words: &[S]) -> Result<CheckOptions, UsageError>
    ensures taken { IfOk result (AreTaken (map S.text words.now)) }
    ensures refused { IfErr result (AreRefused t1check (map S.text words.now)) }
{
    let matches = parse(alloc, command(alloc)?, words)?;
    Ok(options_in(alloc, &matches)?)
}

/// The options that are found in words.
fn options_in(alloc: Global, matches: &ArgMatches<'_>) -> Result<CheckOptions, AllocError>
    requires { (words : List Text) × IsParsedBy t1check words matches.now }
    ensures { (words : List Text) → IsParsedBy t1check words matches.now → IfOk result (AreTaken words) }
{
    let after = number(matches.get_str("after")).unwrap_or(0);
    let max = number(matches.get_str("max"));
    let trace = owned(alloc, matches.get_str("trace"))?;
    let edition = edition(matches.get_str("edition"));
    let waive = owned(alloc, matches.get_str("waive"))?;
    let file = owned(alloc, matches.get_str("file"))?;
    Ok(CheckOptions {
        after,
        max,
        trace,
        edition,
        waive,
        file,
    })
}

/// The command, with its arguments.
fn command<'a>(alloc: Global) -> Result<Command<'a>, AllocError>
    ensures { IfOk result (λ c. app_of c ≡ t1check) }
{
    let command = Command::new(alloc, "t1check")
        .about(ABOUT)
        .after_help(AFTER_HELP);
    with_arguments(alloc, command, ARGUMENTS)
}
