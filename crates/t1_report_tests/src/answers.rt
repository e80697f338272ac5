//! What is requested of the fonts of these tests, and the answers as texts.

use crate::fonts::file_of;
use crate::reports::{in_short, lines_of, reported};
use crate::units::faults_of_unit;
use crate::walks::{Place, Shown, answers_after, both, mark_at, walked};
use std::alloc::Global;
use std::process::Abort;
use std::test::Fail;
use t1_char::Edition;
use t1_font::{Font, OpenFont};
use t1_report::{Fault, Waivers};
use t1_samples::font_of;

/// What is requested of a font.
#[derive(Clone, Copy, Debug)]
pub(super) enum Asked {
    /// The faults of the report in short: machines and walks return the same.
    Faults,
    /// The lines of the report: a walk returns the same.
    Lines,
    /// The faults of the report by an edition, with waivers, in short: a walk returns the same.
    Report(Edition),
    /// The faults that a walk returns by an edition, with waivers, in short, and how often it requests steps.
    Walk(Edition),
    /// The faults of a unit in short, numbered from 1, and how often steps are requested.
    Unit(u32, Edition),
    /// Six answers of a walk after a mark of that number and place: number, rule, and how often steps were requested.
    Turns(u64, Place),
    /// So many answers of a walk after such a mark: rule, and the mark after it.
    Marks(u64, Place, u32),
}

impl Asked {
    /// The edition by which the waivers are read.
    fn edition(self) -> Edition {
        match self {
            Asked::Faults | Asked::Lines | Asked::Turns(..) | Asked::Marks(..) => Edition::One,
            Asked::Report(edition) | Asked::Walk(edition) | Asked::Unit(_, edition) => edition,
        }
    }
}

/// The waivers of a text.
fn waivers_in(alloc: Global, text: &str, edition: Edition) -> Result<Waivers<'_>, Fail> {
    if text.len() > 1_048_576 {
        return Err(Fail::from("a long text"));
    }
    Waivers::read(alloc, text.as_bytes(), edition).map_err(|_| Fail::from("waivers"))
}

/// Faults in short.
fn shown(
    alloc: Global,
    font: &Font<'_>,
    waivers: &Waivers<'_>,
    faults: Result<Vec<Fault>, Fail>,
) -> Result<String, Fail> {
    let faults = faults?;
    in_short(alloc, font, waivers, faults.as_slice())
}

/// The lines of faults.
fn lines(
    alloc: Global,
    font: &Font<'_>,
    waivers: &Waivers<'_>,
    faults: Result<Vec<Fault>, Fail>,
) -> Result<String, Fail> {
    let faults = faults?;
    lines_of(alloc, font, waivers, faults.as_slice())
}

/// Faults in short, and how often steps were requested for them.
fn counted(
    alloc: Global,
    font: &Font<'_>,
    waivers: &Waivers<'_>,
    given: Result<(Vec<Fault>, u64), Fail>,
) -> Result<String, Fail> {
    let (faults, turns) = given?;
    let short = in_short(alloc, font, waivers, faults.as_slice())?;
    Ok(format!(in alloc; "{short}; {turns}")?)
}

/// The answer of a font in a file of that length, with these waivers.
fn answer_in(
    alloc: Global,
    font: &Font<'_>,
    length: usize,
    waivers: &Waivers<'_>,
    asked: Asked,
) -> Result<String, Fail> {
    match asked {
        Asked::Faults => shown(alloc, font, waivers, reported(alloc, font, length)),
        Asked::Lines => lines(
            alloc,
            font,
            waivers,
            both(alloc, font, waivers, Edition::One),
        ),
        Asked::Report(edition) => {
            let faults = both(alloc, font, waivers, edition);
            shown(alloc, font, waivers, faults)
        }
        Asked::Walk(edition) => {
            counted(alloc, font, waivers, walked(alloc, font, waivers, edition))
        }
        Asked::Unit(unit, edition) => {
            let faults = faults_of_unit(alloc, font, waivers, edition, unit);
            counted(alloc, font, waivers, faults)
        }
        Asked::Turns(number, place) => {
            answers_after(
                alloc,
                font,
                waivers,
                mark_at(number, place),
                Shown::Turns,
                6,
            )
        }
        Asked::Marks(number, place, count) => {
            answers_after(
                alloc,
                font,
                waivers,
                mark_at(number, place),
                Shown::Marks,
                count,
            )
        }
    }
}

/// The answer of a font in a file of that length, with the waivers of a text.
fn answer_with(
    alloc: Global,
    font: &Font<'_>,
    length: usize,
    text: &str,
    asked: Asked,
) -> Result<String, Fail> {
    let waivers = waivers_in(alloc, text, asked.edition())?;
    answer_in(alloc, font, length, &waivers, asked)
}

/// The answer of the font of a file.
pub(super) fn answer_to(
    alloc: Global,
    bytes: &[u8],
    waivers: &str,
    asked: Asked,
) -> Result<String, Fail> {
    let mut file = OpenFont::open(alloc, bytes)?;
    let font = font_of(alloc, &mut file)?;
    answer_with(alloc, &font, bytes.len(), waivers, asked)
}

/// The answer of the font of a prefix and words.
fn answer_after(
    alloc: Global,
    front: &str,
    words: &str,
    waivers: &str,
    asked: Asked,
) -> Result<String, Fail> {
    let parts = format!(in alloc; "{front}{words}")?;
    let file = file_of(alloc, parts.as_str())?;
    answer_to(alloc, file.as_slice(), waivers, asked)
}

/// The answer is this one.
pub(super) fn assert_answer(
    rt: &impl Abort,
    found: Result<String, Fail>,
    want: &str,
    asked: Asked,
    words: &str,
    waivers: &str,
) -> Result<(), Fail> {
    let found = found?;
    assert_eq!(rt; found.as_str(), want, "{asked:?} of {words}, {waivers}");
    Ok(())
}

/// The font of a prefix and words has this answer.
pub(super) fn assert_after(
    rt: &impl Abort,
    alloc: Global,
    front: &str,
    words: &str,
    asked: Asked,
    want: &str,
) -> Result<(), Fail> {
    let found = answer_after(alloc, front, words, "", asked);
    assert_answer(rt, found, want, asked, words, "")
}

/// The parts of a font, waivers, what is requested, and the answer.
pub(super) type Case = (&'static str, &'static str, Asked, &'static str);

/// The answers are those beside them.
pub(super) fn assert_cases(rt: &impl Abort, alloc: Global, cases: &[Case]) -> Result<(), Fail> {
    for (parts, waivers, asked, want) in cases {
        let found = answer_after(alloc, "", parts, waivers, *asked);
        assert_answer(rt, found, want, *asked, parts, waivers)?;
    }
    Ok(())
}

/// Fonts and their faults, a line each: the last parts of a font, an arrow, and the faults in short.
pub(super) type Rows = &'static str;

/// What the fonts of rows begin with, and the rows.
pub(super) type Table = (&'static str, Rows);

/// The font of a line has the faults that it says.
fn assert_row(rt: &impl Abort, alloc: Global, front: &str, line: &str) -> Result<(), Fail> {
    let (words, faults) = line.split_once(" =>").ok_or("an arrow")?;
    let faults = faults.strip_prefix(" ").unwrap_or(faults);
    assert_after(rt, alloc, front, words, Asked::Faults, faults)
}

fn assert_rows(rt: &impl Abort, alloc: Global, front: &str, rows: &str) -> Result<(), Fail> {
    for line in rows.split('\n') {
        assert_row(rt, alloc, front, line)?;
    }
    Ok(())
}

/// The fonts of tables have the faults beside them.
pub(super) fn assert_tables(rt: &impl Abort, alloc: Global, tables: &[Table]) -> Result<(), Fail> {
    for (front, rows) in tables {
        assert_rows(rt, alloc, front, rows)?;
    }
    Ok(())
}
