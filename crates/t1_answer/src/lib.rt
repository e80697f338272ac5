//! The work of t1check: from the words of its command line and the bytes of files to lines and a status.
//!
//! [`options`] reads words. [`CheckOptions`] are a [`Program`](t1_run::Program): [`run`](t1_run::run) reads one font, and the
//! waivers, and writes the lines that the options request. [`answer`](t1_run::answer) does all of it, and opens the files
//! that the words name.
//!
//! Promised: if no read, write or allocation fails, the font's bytes, the waivers' and the options determine what is
//! printed and the status ([`a_file_has_one_answer`]). If a read or write fails, the status is 3, and what was
//! written is a prefix of the text ([`runs_keep_promises`]).
//!
//! ```text
//! let status = run(alloc, &mut font, &mut waivers, &options, &mut out, &mut errors);
//! ```
#![tactic(auto)]

mod asked;
mod command_line;
mod laws;
mod lines;
mod running;
mod tracing;

pub use asked::CheckOptions;
pub use command_line::options;
pub use laws::{a_file_has_one_answer, runs_keep_promises};

/// The program's name, before what it prints on standard error.
pub const PROGRAM: &str = "t1check";
