//! What programs that read one font differ in.

ghost use Rattle.t1_font.specs.Bounds.{most_glyphs};
ghost use Rattle.t1_run.specs.Opening.{sinks_by};
ghost use Rattle.t1_run.specs.Programs.{Meaning};

use crate::status::Status;
use crate::streams::Streams;
use crate::usage::UsageError;
use std::alloc::Global;
use std::convert::AsStr;
use t1_char::Edition;
use t1_font::Font;
use t1_io::Sink;
use t1_report::Waivers;

/// The options of a program that reads one font: how words yield them, which files they name, and what they request of
/// the font.
pub trait Program: Drop {
    ghost use Rattle.std.specs.Prelude.{◌≡◌, ◌≤◌, length, map, option_map, IfErr, IfOk};

    // What the program makes of its words.
    ghost meaning: { Meaning Self };

    /// The program's name, before what it prints on standard error.
    fn name() -> &'static str
        ensures { result.now ≡ meaning.name };

    /// Reads the words of the command line, the program's name first.
    fn read_words<S: AsStr>(alloc: Global, words: &[S]) -> Result<Self, UsageError>
        ensures yields { IfOk result (meaning.Yields (map S.text words.now)) }
        ensures refuses { IfErr result (meaning.Refuses (map S.text words.now)) };

    /// The name of the font's file; without it standard input is read.
    fn font(&self) -> Option<&str>
        ensures { option_map (λ s. s.now) result ≡ meaning.font self.now };

    /// The name of the file of waivers that is to be read, if one is.
    fn waivers(&self) -> Option<&str>
        ensures { option_map (λ s. s.now) result ≡ meaning.waivers self.now };

    /// The edition of the rule book, by which waivers are read.
    fn edition(&self) -> Edition
        ensures { result ≡ meaning.edition self.now };

    /// Prints what the options request of a font, by waivers: none, where no file of them is to be read.
    fn show<W: Sink, E: Sink>(
        &self,
        alloc: Global,
        font: &Font<'_>,
        waivers: &Waivers<'_>,
        streams: &mut Streams<W, E>,
    ) -> Status
        requires { length font.now.glyphs ≤ most_glyphs }
        ensures { meaning.Shows self.now font.now waivers.now (sinks_by W.state E.state streams.old) (sinks_by W.state E.state streams.new) result };
}
