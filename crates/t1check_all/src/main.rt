//! `t1check-all` checks many fonts: it writes the lines of their reports, each after its font's name, and says how the fonts were found.
//!
//! ```text
//! $ t1check-all fonts
//! fonts/a.pfb: 1: font file 0 F01 no end segment
//! 2 fonts: 1 clean, 1 with faults, 0 refused, 0 not checked
//!       1 F01 no end segment (should)
//! ```
//!
//! What is promised of it is t1_answer_all's. This is the program over it: it lists folders, opens files and replaces them, and shows on a terminal
//! how far it is.
#![tactic(auto)]

mod fonts;
mod progress;
mod replacing;
mod screen;
mod system;
mod words;

use crate::progress::Progress;
use crate::screen::Screen;
use crate::system::{Files, System};
use std::alloc::AllocError;
use std::env;
use std::io::{BufWriter, LineWriter};
use t1_answer_all::{PROGRAM, answer};
use t1_forms::VERSION;
use t1_io::Out;
use t1_pages::pages;
use t1_run::{Failure, Status, Streams, tell_failure};

fn main(rt: HostRuntime) -> Status {
    let alloc = rt.alloc();
    let progress = Progress::new(rt.stderr(), rt.stdout());
    let Ok(errors) = LineWriter::new(alloc, Screen::over(rt.stderr(), &progress)) else {
        return tell_failure(PROGRAM, Failure::Memory, &mut Out::new(rt.stderr()));
    };
    let mut errors = Out::new(errors);
    let Ok(out) = BufWriter::new(alloc, Screen::over(rt.stdout(), &progress)) else {
        return tell_failure(PROGRAM, Failure::Memory, &mut errors);
    };
    let (Ok(words), Ok(version)) = (words::words_given(&rt), version_line(&rt)) else {
        return tell_failure(PROGRAM, Failure::Memory, &mut errors);
    };
    let mut system = System { rt: &rt };
    let mut files = Files {
        rt: &rt,
        progress: &progress,
    };
    let out = Out::new(out);
    let answered = answer(
        alloc,
        words.as_slice(),
        version.as_bytes(),
        &pages(),
        &mut system,
        &mut files,
        Streams { out, errors },
    );
    progress.clear();
    answered.value
}

/// The version, with the commit that the script names, if it does.
fn version_line(rt: &HostRuntime) -> Result<String, AllocError> {
    let mut line = format!(in rt.alloc(); "{PROGRAM} {VERSION}")?;
    if let Ok(commit) = env::var(rt, "T1CHECK_COMMIT") {
        if !commit.is_empty() {
            line.push_str(" of commit ")?;
            line.push_str(commit.as_str())?;
        }
    }
    line.push('\n')?;
    Ok(line)
}
