//! The command line, by clap.

ghost use Rattle.std.specs.Prelude.{◌≡◌, codes, map, option_map, IfErr, IfOk, IsSome, false};
ghost use Rattle.clap.specs.Words.{app_of, first_value, found_of, rows_of, rule_of};
ghost use Rattle.t1draw.specs.Answers.{drawing};
ghost use Rattle.t1draw.specs.CommandLine.{AreTaken, AreUntaken, asked_in, asked_value, extent_by, faulty_into, faulty_rule, folder_rule, font_in, given_in, glyph_of_word, has_folder, t1draw, wrong_in};
ghost use Rattle.t1_run.specs.Words.{IsTextOfNumber};
ghost use Rattle.t1draw.specs.Given.{IsUsageOf, given_value};

use crate::PROGRAM;
use crate::complaint::{Complaint, complaint_text};
use crate::glyph_word::name_in;
use crate::options::{Asked, DrawOptions};
use crate::running::show;
use clap::{Arg, ArgAction, ArgMatches, Command};
use std::alloc::{AllocError, Global};
use std::convert::AsStr;
use t1_char::Edition;
use t1_font::Font;
use t1_io::Sink;
use t1_picture::Extent;
use t1_report::Waivers;
use t1_run::{
    Argument, ArgumentKind, Program, Status, Streams, UsageError, borrowed, edition, number, owned,
    parse, with_arguments,
};

const ABOUT: &str = "\
Draws a glyph of an Adobe Type 1 font (PFA or PFB), and the faults that t1check finds in it:
writes a picture in SVG. With --faulty it draws each glyph that has faults, into a folder.";

const AFTER_HELP: &str = "\
In GLYPH \\xNN is a byte, by two hexadecimal digits, and \\\\ is a backslash.
man t1draw says what is drawn.

Exit status:
  0  the pictures were written, with faults or none
  2  the font or the waivers were refused; standard error says why, with a number
  3  usage error, no such GLYPH or fault, a file or device failed, or memory ran out

Examples:
  t1draw A font.pfb >A.svg             draws the glyph A
  t1draw --step 41 A font.pfb >A.svg   draws it up to step 41, whose stretch is thick
  t1draw --fault 7 A font.pfb >A.svg   draws fault 7 of t1check's report, which is of A or of the font
  t1draw --faulty -o faults font.pfb   draws each glyph that has faults, and faults/index.html";

/// The options that have a value of t1_run's kinds.
const OPTIONS: &[Argument<'static>] = &[
    Argument {
        name: "edition",
        kind: ArgumentKind::Edition,
        value: "N",
        help: "Finds faults by edition 1, 2, 3 or 4 of the rule book [default: 1]",
    },
    Argument {
        name: "waive",
        kind: ArgumentKind::Text,
        value: "FILE",
        help: "Leaves the faults out that FILE waives by its lines, NAME RULE each",
    },
    Argument {
        name: "step",
        kind: ArgumentKind::Positive,
        value: "N",
        help: "Draws no further than step N, and the stretch of that step thick",
    },
    Argument {
        name: "fault",
        kind: ArgumentKind::Positive,
        value: "N",
        help: "Draws fault N of t1check's report alone: one of GLYPH, or of the font",
    },
];

/// The words.
const WORDS: &[Argument<'static>] = &[
    Argument {
        name: "glyph",
        kind: ArgumentKind::RequiredWord,
        value: "GLYPH",
        help: "The name of the glyph; none with --faulty",
    },
    Argument {
        name: "font",
        kind: ArgumentKind::Word,
        value: "FONT",
        help: "The font's file; without it standard input is read",
    },
];

/// What the words say for each argument but the edition and the waivers.
#[derive(Clone, Copy)]
pub(crate) struct Given<'a> {
    pub(crate) step: Option<u64>,
    pub(crate) fault: Option<u64>,
    pub(crate) faulty: bool,
    pub(crate) folder: Option<&'a str>,
    /// GLYPH, or FONT with `--faulty`.
    pub(crate) word: &'a str,
    pub(crate) font: Option<&'a str>,
}

impl Program for DrawOptions {
    ghost meaning = { drawing };

    fn name() -> &'static str {
        PROGRAM
    }

    fn read_words<S: AsStr>(alloc: Global, words: &[S]) -> Result<DrawOptions, UsageError> {
        read_words(alloc, words)
    }

    fn font(&self) -> Option<&str> {
        borrowed(&self.font)
    }

    fn waivers(&self) -> Option<&str> {
        borrowed(&self.waive)
    }

    fn edition(&self) -> Edition {
        self.edition
    }

    fn show<W: Sink, E: Sink>(
        &self,
        alloc: Global,
        font: &Font<'_>,
        waivers: &Waivers<'_>,
        streams: &mut Streams<W, E>,
    ) -> Status {
        show(alloc, self, font, waivers, streams)
    }
}

/// Reads the words of the command line, the program's name first.
pub fn read_words<S: AsStr>(alloc: Global, words: &[S]) -> Result<DrawOptions, UsageError>
    ensures taken { IfOk result (AreTaken (map S.text words.now)) }
    ensures untaken { IfErr result (AreUntaken (map S.text words.now)) }
{
    let matches = parse(alloc, command(alloc)?, words)?;
    let edition = edition(matches.get_str("edition"));
    let waive = owned(alloc, matches.get_str("waive"))?;
    let given = given_in(&matches);
    if let Some(complaint) = wrong_in(&given) {
        return Err(usage_error(alloc, complaint)?);
    }
    let Some(asked) = asked_in(alloc, &given)? else {
        return Err(usage_error(alloc, Complaint::BadName)?);
    };
    let font = owned(alloc, font_in(&given))?;
    Ok(DrawOptions {
        edition,
        waive,
        asked,
        font,
    })
}

/// What the words say, as clap found it.
fn given_in<'a>(matches: &'a ArgMatches<'_>) -> Given<'a>
    requires step { IsTextOfNumber 1 18446744073709551615 (first_value (found_of matches.now) (codes "step")) }
    requires fault { IsTextOfNumber 1 18446744073709551615 (first_value (found_of matches.now) (codes "fault")) }
    requires word { IsSome (first_value (found_of matches.now) (codes "glyph")) }
    ensures { given_value result ≡ given_in (rows_of (found_of matches.now)) }
{
    Given {
        step: number(matches.get_str("step")),
        fault: number(matches.get_str("fault")),
        faulty: 0 < matches.get_count("faulty"),
        folder: matches.get_str("folder"),
        // This can't fail: the argument is required.
        word: matches.get_str("glyph").unwrap(),
        font: matches.get_str("font"),
    }
}

/// The error that says what is wrong.
fn usage_error(alloc: Global, complaint: Complaint) -> Result<UsageError, AllocError>
    ensures { IfOk result (IsUsageOf complaint) }
{
    let text = String::from_str(alloc, complaint_text(complaint))?;
    Ok(UsageError::Usage(text))
}

/// What is wrong with arguments together, if anything is.
fn wrong_in(given: &Given<'_>) -> Option<Complaint>
    ensures { result ≡ wrong_in (given_value given.now) }
{
    if given.faulty {
        if given.step.is_some() || given.fault.is_some() {
            Some(Complaint::StepOfFaulty)
        } else if has_folder(given.folder) {
            if given.font.is_some() {
                Some(Complaint::GlyphOfFaulty)
            } else {
                None
            }
        } else {
            Some(Complaint::NoFolder)
        }
    } else if given.folder.is_some() {
        Some(Complaint::FolderOfNone)
    } else if given.step.is_some() && given.fault.is_some() {
        Some(Complaint::StepAndFault)
    } else {
        None
    }
}

/// Whether a folder is named, and not by an empty name.
fn has_folder(folder: Option<&str>) -> bool
    ensures { result ≡ has_folder (option_map (λ s. s.now) folder.entry) }
{
    match folder {
        Some(name) => !name.is_empty(),
        None => false,
    }
}

/// What is to be drawn; None where GLYPH is no name.
fn asked_in(alloc: Global, given: &Given<'_>) -> Result<Option<Asked>, AllocError>
    ensures { IfOk result (λ asked. option_map asked_value asked ≡ asked_in (given_value given.now)) }
{
    if given.faulty {
        faulty_into(alloc, given.folder)
    } else {
        glyph_named(alloc, given.word, extent_by(given.step, given.fault))
    }
}

/// The glyphs with faults, into a folder.
fn faulty_into(alloc: Global, folder: Option<&str>) -> Result<Option<Asked>, AllocError>
    ensures { IfOk result (λ asked. option_map asked_value asked ≡ faulty_into (option_map (λ s. s.now) folder.entry)) }
{
    let folder = match folder {
        Some(folder) => String::from_str(alloc, folder)?,
        None => String::new(alloc),
    };
    Ok(Some(Asked::Faulty { folder }))
}

/// The glyph that a word names; None where it is no name.
fn glyph_named(alloc: Global, word: &str, extent: Extent) -> Result<Option<Asked>, AllocError>
    ensures { IfOk result (λ asked. option_map asked_value asked ≡ glyph_of_word word.now extent) }
{
    let Some(name) = name_in(alloc, word)? else {
        return Ok(None);
    };
    Ok(Some(Asked::Glyph { name, extent }))
}

fn extent_by(step: Option<u64>, fault: Option<u64>) -> Extent
    ensures { result ≡ extent_by step fault }
{
    match (step, fault) {
        (Some(step), _) => Extent::UpTo(step),
        (None, Some(fault)) => Extent::Fault(fault),
        (None, None) => Extent::All,
    }
}

/// The name of the font's file.
fn font_in<'a>(given: &Given<'a>) -> Option<&'a str>
    ensures { option_map (λ s. s.now) result ≡ font_in (given_value given.now) }
{
    if given.faulty {
        Some(given.word)
    } else {
        given.font
    }
}

/// The command, with its arguments.
fn command<'a>(alloc: Global) -> Result<Command<'a>, AllocError>
    ensures { IfOk result (λ c. app_of c ≡ t1draw) }
{
    let command = Command::new(alloc, "t1draw")
        .about(ABOUT)
        .after_help(AFTER_HELP);
    let command = with_arguments(alloc, command, OPTIONS)?;
    let command = command.arg(faulty(alloc))?;
    let command = command.arg(folder(alloc))?;
    with_arguments(alloc, command, WORDS)
}

/// `--faulty`.
fn faulty<'a>(alloc: Global) -> Arg<'a>
    ensures rule { rule_of result ≡ faulty_rule }
    ensures own { result.global ≡ false }
{
    Arg::new(alloc, "faulty")
        .long("faulty")
        .action(ArgAction::Count)
        .help("Draws each glyph that has faults, into FOLDER, with an index.html")
}

/// `-o FOLDER`.
fn folder<'a>(alloc: Global) -> Arg<'a>
    ensures rule { rule_of result ≡ folder_rule }
    ensures own { result.global ≡ false }
{
    Arg::new(alloc, "folder")
        .short('o')
        .value_name("FOLDER")
        .help("The folder that --faulty writes to; it is made if it isn't there")
}
