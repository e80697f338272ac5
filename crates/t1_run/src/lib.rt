//! What the programs have in common: the words, files and devices before and after each one's own work.
//!
//! [`words_given`] has the words of the command line, and [`with_arguments`] makes a command of a table of [`Argument`]s.
//! [`parse`] reads the words by clap's rules, or fails with a [`UsageError`], which [`explain`] prints. [`read_font_file`] and [`read_waivers`] read a file to its end, within its
//! limit. Where a run has no result, a [`Failure`] says why, and [`tell_failure`] prints it under the program's own
//! name; [`give`] prints a result. [`explain`], [`tell_failure`] and [`give`] return a [`Status`].
//!
//! Promised, of any program without subcommands whose arguments exclude nothing (`IsPlainApp`):
//!
//! - Words are taken or refused by clap's rules, and help is printed exactly where it is what clap finds first.
//! - A file is read to its end and no further than one byte past its limit, and no read follows one that failed.
//! - What is printed, and the status, depend only on what is to be printed and on whether the write succeeds.
#![tactic(auto)]

mod answered;
mod answering;
mod arguments;
mod failure;
mod files;
mod laws;
mod program;
mod running;
mod status;
mod streams;
mod telling;
mod usage;
mod words;

pub use answered::Answered;
pub use answering::answer;
pub use arguments::{Argument, ArgumentKind, with_arguments};
pub use failure::Failure;
pub use files::{LARGEST_FILE, read_font_file, read_waivers};
pub use laws::each_part_has_its_refusals;
pub use program::Program;
pub use running::run;
pub use status::Status;
pub use streams::Streams;
pub use telling::{give, tell, tell_failure, tell_no_glyph, tell_parts, tell_write_failed};
pub use usage::{UsageError, explain};
pub use words::{borrowed, edition, number, owned, parse, usage_error, words_given};
