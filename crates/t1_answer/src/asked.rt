//! What the words of the command line request.

ghost use Rattle.t1_answer.specs.Words.{checking};

use crate::PROGRAM;
use crate::command_line::options;
use crate::running::show;
use std::alloc::Global;
use std::convert::AsStr;
use t1_char::Edition;
use t1_font::Font;
use t1_io::Sink;
use t1_report::Waivers;
use t1_run::{Program, Status, Streams, UsageError, borrowed};

/// What the words of the command line request.
#[derive(Debug, Drop)]
pub struct CheckOptions {
    /// How many lines of the report are skipped first.
    pub after: u64,
    /// How many of the other lines are written at most; all of them without it.
    pub max: Option<u64>,
    /// The name of a glyph whose steps are written in place of the report.
    pub trace: Option<String>,
    /// The name of the file of waivers, if there is one.
    pub waive: Option<String>,
    /// By which edition of the rule book the font is checked, or the glyph traced.
    pub edition: Edition,
    /// The name of the font's file; without it standard input is read.
    pub file: Option<String>,
}

impl Program for CheckOptions {
    ghost meaning = { checking };

    fn name() -> &'static str {
        PROGRAM
    }

    fn read_words<S: AsStr>(alloc: Global, words: &[S]) -> Result<CheckOptions, UsageError> {
        options(alloc, words)
    }

    fn font(&self) -> Option<&str> {
        borrowed(&self.file)
    }

    fn waivers(&self) -> Option<&str> {
        match &self.trace {
            None => borrowed(&self.waive),
            Some(_) => None,
        }
    }

    fn edition(&self) -> Edition {
        self.edition
    }

    fn show<W: Sink, E: Sink>(
        &self,
        alloc: Global,
        font: &Font<'_>,
        waivers: &Waivers<'_>,
        streams: &mut Streams<W, E>,
    ) -> Status {
        show(alloc, font, waivers, self, streams)
    }
}
