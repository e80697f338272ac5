//! Words of the command line, and what they give.

use std::alloc::Global;
use std::test::Fail;
use t1_answer::options;
use t1_char::Edition;
use t1_run::UsageError;

pub(crate) const HELP: &str = "\
Lists every rule of the book that an Adobe Type 1 font (PFA or PFB) breaks. The book
has 70 rules, in edition 3 it has 93, in edition 4 112: on the file, on the font's
dictionaries, on charstrings, of which the first 100,000 steps are checked, in editions
2 to 4 the first 1,000,000, on the drawing, and on waivers.

Usage: t1check [OPTIONS] [FILE]

Arguments:
  [FILE]  The font's file, one a run; without it standard input is read

Options:
      --after <K>     Leaves the first K lines of the report out [default: 0]
      --max <M>       Writes at most M of the other lines
      --trace <NAME>  Writes the steps of the glyph NAME in place of the report, STEP PATH TOKEN a line
      --edition <N>   Checks by edition 1, 2, 3 or 4 of the rule book [default: 1]
      --waive <FILE>  Leaves the faults out that FILE waives by its lines, NAME RULE each
  -h, --help          Print help

A line of the report:
  NUMBER: font KEY INDEX RULE text          as in 1: font BlueValues 6 Z04 zone numbers fall
  NUMBER: glyph NAME PATH STEP RULE text    as in 2: glyph A 5>6 8 P01 drawing without a move
  NUMBER: waiver NAME RULE U01 text         as in 3: waiver A P01 U01 waiver not used
  t1explain RULE prints what a rule or a refusal (Enn) means, an example and the cure

Exit status:
  0  no line of a report was written, or a trace was
  1  at least one line of a report was written
  2  the font or the waivers were refused; standard error says why, with a number
  3  usage error, no glyph NAME, a file or device failed, or memory ran out

Examples:
  t1check font.pfb                        writes the whole report
  t1check --after 20 --max 10 font.pfb    writes its lines 21 to 30
  t1check --trace A font.pfb              writes the steps of glyph A
  t1check --waive font.waivers font.pfb   leaves out what is meant
  t1check <font.pfb                       reads the font from standard input

For many fonts there is t1check-all. t1check is of the version that t1check-all --version tells.
";

/// What words are parsed to, as borrowed texts: after, max, trace, file.
type Given<'a> = (u64, Option<u64>, Option<&'a str>, Option<&'a str>);

/// The text of a name.
fn text(name: &Option<String>) -> Option<&str> {
    match name {
        Some(name) => Some(name.as_str()),
        None => None,
    }
}

/// Whether words give these options.
fn parses_to(alloc: Global, words: &[&str], (after, max, trace, file): Given<'_>) -> bool {
    let Ok(taken) = options(alloc, words) else {
        return false;
    };
    taken.after == after
        && taken.max == max
        && text(&taken.trace) == trace
        && text(&taken.file) == file
}

/// The numbers of lines that are omitted and written, the name of a glyph, and the file's; names may be empty.
const WORDS: &[(&[&str], Given<'static>)] = &[
    (&["t1check"], (0, None, None, None)),
    (&[], (0, None, None, None)),
    (&["t1check", "font.pfb"], (0, None, None, Some("font.pfb"))),
    (&["t1check", "-"], (0, None, None, Some("-"))),
    (&["t1check", "--after", "1"], (1, None, None, None)),
    (
        &["t1check", "font.pfb", "--after=007"],
        (7, None, None, Some("font.pfb")),
    ),
    (
        &["t1check", "--after", "+5", "--", "--help"],
        (5, None, None, Some("--help")),
    ),
    (
        &["t1check", "--after", "18446744073709551615"],
        (u64::MAX, None, None, None),
    ),
    (
        &["t1check", "--after", "16", ""],
        (16, None, None, Some("")),
    ),
    (
        &["t1check", "--trace", "A", "font.pfb"],
        (0, None, Some("A"), Some("font.pfb")),
    ),
    (
        &["t1check", "--trace=", "font.pfb"],
        (0, None, Some(""), Some("font.pfb")),
    ),
    (
        &["t1check", "--max", "1", "--trace", "a.b"],
        (0, Some(1), Some("a.b"), None),
    ),
    (&["t1check", "--max", "0"], (0, Some(0), None, None)),
    (
        &["t1check", "--max=+07", "font.pfb"],
        (0, Some(7), None, Some("font.pfb")),
    ),
    (
        &["t1check", "--after", "1", "--max", "2"],
        (1, Some(2), None, None),
    ),
    (
        &["t1check", "--max", "2", "--after", "1"],
        (1, Some(2), None, None),
    ),
    (
        &["t1check", "--max", "18446744073709551615"],
        (0, Some(u64::MAX), None, None),
    ),
];

#[test]
fn takes_words(rt: HostRuntime) {
    for (words, given) in WORDS {
        assert!(rt; parses_to(rt.alloc(), words, *given), "of {words:?}");
    }
}

/// Whether words request this edition and this file of waivers.
fn asks(alloc: Global, words: &[&str], edition: Edition, waive: Option<&str>) -> bool {
    match options(alloc, words) {
        Ok(taken) => taken.edition == edition && text(&taken.waive) == waive,
        Err(_) => false,
    }
}

/// The edition, 1 without the option, and the name of the file of waivers.
const EDITIONS_AND_WAIVERS: &[(&[&str], Edition, Option<&str>)] = &[
    (&["t1check"], Edition::One, None),
    (&["t1check", "--edition", "1"], Edition::One, None),
    (&["t1check", "--edition=2", "font.pfb"], Edition::Two, None),
    (&["t1check", "--edition", "01"], Edition::One, None),
    (&["t1check", "--edition", "+2"], Edition::Two, None),
    (&["t1check", "--edition", "3"], Edition::Three, None),
    (&["t1check", "--waive", "w"], Edition::One, Some("w")),
    (
        &["t1check", "--waive=", "--edition", "2"],
        Edition::Two,
        Some(""),
    ),
];

#[test]
fn takes_editions_and_waivers(rt: HostRuntime) {
    for (words, edition, waive) in EDITIONS_AND_WAIVERS {
        assert!(rt; asks(rt.alloc(), words, *edition, *waive), "of {words:?}");
    }
}

/// The text of help that words request.
pub(crate) fn help_of(alloc: Global, words: &[&str]) -> Result<String, Fail> {
    match options(alloc, words) {
        Err(UsageError::Help(text)) => Ok(text),
        _ => Err(Fail::from("no help")),
    }
}

/// Words that request help.
const ASK_HELP: &[&[&str]] = &[
    &["t1check", "--help"],
    &["t1check", "-h"],
    &["t1check", "font.pfb", "--help"],
];

#[test]
fn returns_help(rt: HostRuntime) -> Result<(), Fail> {
    for words in ASK_HELP {
        assert_eq!(rt; help_of(rt.alloc(), words)?.as_str(), HELP, "of {words:?}");
    }
    Ok(())
}
