//! Why the words of a command line yield no options, and what is printed then.

ghost use Rattle.std.specs.Prelude.{◌≡◌};
ghost use Rattle.t1_run.specs.Opening.{sinks_by};
ghost use Rattle.t1_run.specs.Telling.{Explains};
ghost use Rattle.t1_run.specs.declared.usage.UsageError.TheVariants.{Memory};

use crate::failure::Failure;
use crate::status::Status;
use crate::streams::Streams;
use crate::telling::{give, tell, tell_failure};
use std::alloc::AllocError;
use t1_io::Sink;
use thiserror::Error;

/// Why the words of a command line yield no options.
#[derive(Debug, Drop, Error)]
pub enum UsageError {
    /// Help was requested; this is its text.
    #[error("{0}")]
    Help(String),
    /// The words aren't taken, as in `--edition x`; this is what is printed.
    #[error("{0}")]
    Usage(String),
    /// An allocation was refused.
    #[error("out of memory")]
    Memory,
}

impl From<AllocError> for UsageError {
    ghost from_gives = { λ _ e. e ≡ Memory };

    fn from(_error: AllocError) -> UsageError {
        UsageError::Memory
    }
}

/// Prints why words yield no options: the text of help on the output, which is flushed, and everything else on standard
/// error.
pub fn explain<W: Sink, E: Sink>(
    program: &str,
    error: &UsageError,
    streams: &mut Streams<W, E>,
) -> Status
    ensures { Explains program.now error.now (sinks_by W.state E.state streams.old) (sinks_by W.state E.state streams.new) result }
{
    match error {
        UsageError::Help(text) => give(program, text.as_bytes(), streams),
        UsageError::Usage(text) => tell(&mut streams.errors, text.as_str(), Status::Failed),
        UsageError::Memory => tell_failure(program, Failure::Memory, &mut streams.errors),
    }
}
