//! Runs of the program over devices that don't fail: tests run them again over devices that do.

use crate::files::{Made, file_of};
use crate::shared::{ALL, NO_END_REPORT};
use std::alloc::{AllocError, Global};
use t1_answer::CheckOptions;
use t1_run::Status;
use t1_samples::NOTDEF;

/// The program's input, and what it returns.
#[derive(Drop)]
pub(crate) struct Run {
    pub(crate) file: Vec<u8>,
    pub(crate) options: CheckOptions,
    pub(crate) status: Status,
    /// All that is written; nothing is printed on standard error.
    pub(crate) text: &'static str,
}

/// The report of a Subr that breaks two rules and is called twice.
const SUBR_REPORT: &str = "\
1: glyph A 5 8 P01 drawing without a move
2: glyph A 5 10 S04 Subr without return
3: glyph A 5 15 P01 drawing without a move
4: glyph A 5 17 S04 Subr without return
";

/// The report of a glyph that breaks three rules at one step.
const GLYPH_REPORT: &str = "\
1: glyph A - 3 C05 too many arguments
2: glyph A - 3 C07 number out of range
3: glyph A - 3 W01 hsbw or sbw not first
4: glyph A - 4 P03 closepath without a path
";

/// The trace of `0 500 hsbw endchar`.
const TRACE: &str = "1 - 0\n2 - 500\n3 - hsbw\n4 - endchar\n";

/// A file, whether glyph A is traced, the status, and all that is written.
pub(crate) type Row = (Made, bool, Status, &'static str);

/// Reports of a file without an end segment, of `5 callsubr 5 callsubr`, where Subr 5 is `5 0 rlineto closepath`, and of
/// `32001 0 hmoveto closepath endchar`; and a trace.
pub(crate) const RUNS: &[Row] = &[
    (Made::Ended(b""), false, Status::Faults, NO_END_REPORT),
    (
        Made::Calling(b"\x90\x8b\x05\x09", b"\x8b\xf8\x88\x0d\x90\x0a\x90\x0a\x0e"),
        false,
        Status::Faults,
        SUBR_REPORT,
    ),
    (
        Made::Glyph(b"\xff\x00\x00\x7d\x01\x8b\x16\x09\x0e"),
        false,
        Status::Faults,
        GLYPH_REPORT,
    ),
    (Made::Glyph(NOTDEF), true, Status::Clean, TRACE),
];

/// The trace of glyph A, or the whole report; with waivers or without.
pub(crate) fn options_of(
    alloc: Global,
    traced: bool,
    waived: bool,
) -> Result<CheckOptions, AllocError> {
    Ok(CheckOptions {
        trace: word(alloc, "A", traced)?,
        waive: word(alloc, "waivers", waived)?,
        ..ALL
    })
}

fn word(alloc: Global, word: &str, there: bool) -> Result<Option<String>, AllocError> {
    match there {
        true => Ok(Some(String::from_str(alloc, word)?)),
        false => Ok(None),
    }
}

/// The run of a row.
pub(crate) fn run_of(alloc: Global, row: &Row) -> Result<Run, AllocError> {
    let (made, traced, status, text) = *row;
    Ok(Run {
        options: options_of(alloc, traced, false)?,
        file: file_of(alloc, made)?,
        status,
        text,
    })
}
