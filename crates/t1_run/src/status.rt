//! How a run ends, as its exit status says.

ghost use Rattle.std.specs.Prelude.{◌≡◌};
ghost use Rattle.std.specs.Process.{exit_status};
ghost use Rattle.t1_run.specs.Statuses.{exit_code_of};

use std::process::{ExitCode, Termination};

/// How a run ended. Its number is the exit status.
#[derive(Clone, Copy, Debug, PartialEq, Eq)]
pub enum Status {
    /// What was requested was printed, and no line of a report was among it.
    Clean = 0,
    /// At least one line of a report was written.
    Faults = 1,
    /// A font or waivers were refused, by a number.
    Refused = 2,
    /// A read or write failed, memory ran out, the font has no glyph of the name, or the words weren't taken.
    Failed = 3,
}

impl Termination for Status {
    fn report<R: Eprint>(self, _rt: &R) -> ExitCode
        ensures { exit_status result ≡ exit_code_of self }
    {
        ExitCode::from(self as u8)
    }
}
