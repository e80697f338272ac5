//! `t1draw` reads one Adobe Type 1 font (PFA or PFB), from a file or standard input, and writes a picture of one of its glyphs,
//! with the faults that t1check finds in it: a text of SVG 1.1. With `--faulty` it writes those of all glyphs that have faults into a
//! folder, with an index.
//!
//! ```text
//! $ t1draw A font.pfb >A.svg
//! $ t1draw --faulty -o faults font.pfb
//! ```
//!
//! Promised, where memory is there and no device fails: the words give options or none, by clap's rules
//! ([`command_line::read_words`]); where they do, the words, the font's bytes and the waivers' decide the picture, or the files of the
//! folder, to the last byte, or what is reported, and the status ([`answer`], [`laws`]). Where the font, the waivers or the words are
//! refused, nothing is put on the output; that a read failed is reported only where one did. That [`files`] makes the files as the
//! output names them is not proved.
#![tactic(auto)]

mod command_line;
mod complaint;
mod drawing;
mod files;
mod folder;
mod glyph_word;
mod index;
mod laws;
mod options;
mod running;
mod sheet;
mod spelling;

use crate::command_line::read_words;
use crate::files::Files;
use crate::options::{Asked, DrawOptions};
use std::alloc::Global;
use std::fs;
use std::io::BufWriter;
use t1_forms::VERSION;
use t1_io::{In, Out, Sink};
use t1_run::{Failure, Status, Streams, answer, explain, give, tell_failure, words_given};

/// The program's name, before what it prints.
const PROGRAM: &str = "t1draw";

/// What serves instead of a word that isn't UTF-8, after clap's sentence.
const NOT_UTF8: &str = "
A font whose name isn't UTF-8 can be given on standard input: t1draw GLYPH < FONT
A byte of a glyph's name is written \\xNN
";

/// Whether the words, the program's name first, ask for the version alone.
fn asks_version(words: &[String]) -> bool {
    match words {
        [_, word] => word.as_str() == "--version",
        _ => false,
    }
}

fn main(rt: HostRuntime) -> Status {
    let alloc = rt.alloc();
    let mut errors = Out::new(rt.stderr());
    let words = match words_given(&rt, NOT_UTF8) {
        Ok(words) => words,
        Err(error) => {
            let out = Out::new(rt.stdout());
            return explain(PROGRAM, &error, &mut Streams { out, errors });
        }
    };
    if let Some(folder) = folder_of(alloc, words.as_slice()) {
        let out = Out::new(Files::of(&rt, folder.as_str()));
        return run(&rt, words.as_slice(), &mut Streams { out, errors });
    }
    let Ok(writer) = BufWriter::new(alloc, rt.stdout()) else {
        return tell_failure(PROGRAM, Failure::Memory, &mut errors);
    };
    let out = Out::new(writer);
    let mut streams = Streams { out, errors };
    if asks_version(words.as_slice()) {
        return match format!(in alloc; "{PROGRAM} {VERSION}\n") {
            Ok(text) => give(PROGRAM, text.as_bytes(), &mut streams),
            Err(_) => tell_failure(PROGRAM, Failure::Memory, &mut streams.errors),
        };
    }
    run(&rt, words.as_slice(), &mut streams)
}

/// The folder that the words name, if their output is files.
fn folder_of(alloc: Global, words: &[String]) -> Option<String> {
    match read_words(alloc, words) {
        Ok(options) => folder_in(options.asked),
        Err(_) => None,
    }
}

/// The folder of the pictures that are wanted, if there is one.
fn folder_in(asked: Asked) -> Option<String> {
    match asked {
        Asked::Faulty { folder } => Some(folder),
        Asked::Glyph { .. } => None,
    }
}

/// Does what the words request.
fn run<W: Sink, E: Sink>(
    rt: &HostRuntime,
    words: &[String],
    streams: &mut Streams<W, E>,
) -> Status {
    let answered = answer::<DrawOptions, _, _, _, _, _, _, _>(
        rt.alloc(),
        words,
        &mut In::new(rt.stdin()),
        |name| fs::open(rt, name),
        |name| fs::open(rt, name),
        streams,
    );
    answered.status
}
