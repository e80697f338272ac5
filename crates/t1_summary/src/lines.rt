//! The lines of a summary.

ghost use Rattle.std.specs.Prelude.{◌≡◌, ◌-◌, [], if◌then◌else◌, length, replicate};
ghost use Rattle.t1_io.specs.Devices.{Writes};
ghost use Rattle.t1_summary.specs.Private.Lines.{told_line};
ghost use Rattle.t1_summary.specs.Summaries.{fonts_line, one_or_many, rows_line, rule_lines, summary_text};

use crate::found::FontClass;
use crate::ranking::ranking;
use crate::tally::Tally;
use itoa::Buffer;
use t1_io::{Broken, Sink, put_parts};
use t1_rules::{Rule, rule_code, rule_level, rule_text};

/// The columns in which the number of a rule's lines is aligned right.
const COLUMNS: usize = 7;

/// Blanks for these columns.
const BLANKS: &[u8; COLUMNS] = b"       ";

/// Writes the summary of a run:
///
/// - a line on the fonts, with those that have known faults alone if `has_known`;
/// - a line on the `rows` of known faults, if the run has made these anew;
/// - a line for each rule that has lines, the most lines first, in equal numbers by the code.
///
/// After a failure a prefix of them went out.
pub fn summary<W: Sink>(
    tally: &Tally,
    rows: Option<u64>,
    has_known: bool,
    sink: &mut W,
) -> Result<(), Broken>
    ensures { Writes (W.state sink.old) (W.state sink.new) (summary_text tally.now rows has_known) result }
{
    put_fonts(tally, has_known, sink)?;
    put_rows(rows, sink)?;
    put_rules(tally, sink)
}

/// Writes the line on the fonts.
fn put_fonts<W: Sink>(tally: &Tally, has_known: bool, sink: &mut W) -> Result<(), Broken>
    ensures { Writes (W.state sink.old) (W.state sink.new) (fonts_line has_known tally.now) result }
{
    let fonts = tally.fonts();
    let mut all = Buffer::new();
    let mut clean = Buffer::new();
    let mut known = Buffer::new();
    let mut faulty = Buffer::new();
    let mut refused = Buffer::new();
    let mut unchecked = Buffer::new();
    put_parts(
        sink,
        &[
            all.format(fonts).as_bytes(),
            one_or_many(fonts, b" font: ", b" fonts: "),
            clean.format(tally.fonts_found(FontClass::Clean)).as_bytes(),
            b" clean, ",
            if_known(
                has_known,
                known.format(tally.fonts_found(FontClass::Known)).as_bytes(),
            ),
            if_known(has_known, b" with known faults alone, "),
            faulty
                .format(tally.fonts_found(FontClass::Faulty))
                .as_bytes(),
            b" with faults, ",
            refused
                .format(tally.fonts_found(FontClass::Refused))
                .as_bytes(),
            b" refused, ",
            unchecked
                .format(tally.fonts_found(FontClass::Unchecked))
                .as_bytes(),
            b" not checked\n",
        ],
    )
}

/// The text if the run has known faults, else nothing.
fn if_known(has_known: bool, text: &[u8]) -> &[u8]
    ensures { result.now ≡ (if has_known then text.now else []) }
{
    if has_known { text } else { b"" }
}

/// The word for one thing, or for another number of them.
fn one_or_many<'a>(count: u64, one: &'a [u8], many: &'a [u8]) -> &'a [u8]
    ensures { result.now ≡ one_or_many count one.now many.now }
{
    if count == 1 { one } else { many }
}

/// Writes the line on the rows of known faults, if there is one.
fn put_rows<W: Sink>(rows: Option<u64>, sink: &mut W) -> Result<(), Broken>
    ensures { Writes (W.state sink.old) (W.state sink.new) (rows_line rows) result }
{
    match rows {
        Some(rows) => put_parts(
            sink,
            &[
                b"known faults: ",
                Buffer::new().format(rows).as_bytes(),
                one_or_many(rows, b" row\n", b" rows\n"),
            ],
        ),
        None => Ok(()),
    }
}

/// Writes a line for each rule that has lines.
fn put_rules<W: Sink>(tally: &Tally, sink: &mut W) -> Result<(), Broken>
    ensures { Writes (W.state sink.old) (W.state sink.new) (rule_lines tally.now) result }
{
    for rule in &ranking(tally) {
        put_rule(tally, *rule, sink)?;
    }
    Ok(())
}

/// Writes the line of a rule, if it has lines.
fn put_rule<W: Sink>(tally: &Tally, rule: Rule, sink: &mut W) -> Result<(), Broken>
    ensures { Writes (W.state sink.old) (W.state sink.new) (told_line tally.now rule) result }
{
    let lines = tally.lines_of(rule);
    if lines == 0 {
        return Ok(());
    }
    let mut buffer = Buffer::new();
    let digits = buffer.format(lines).as_bytes();
    put_parts(
        sink,
        &[
            blanks_before(digits),
            digits,
            b" ",
            rule_code(rule).as_bytes(),
            b" ",
            rule_text(rule).as_bytes(),
            b" (",
            rule_level(rule).text().as_bytes(),
            b")\n",
        ],
    )
}

/// The blanks before digits that are aligned right.
fn blanks_before(digits: &[u8]) -> &'static [u8]
    ensures { result.now ≡ replicate (7 - length digits.now) 32 }
{
    &BLANKS[digits.len().min(COLUMNS)..]
}
