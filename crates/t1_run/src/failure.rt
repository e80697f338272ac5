//! Why a run has no result.

ghost use Rattle.std.specs.Prelude.{◌≡◌};
ghost use Rattle.t1_report.specs.Refusals.Refusal.{Font, Waivers};
ghost use Rattle.t1_run.specs.Failures.{failure_of, refused_by};
ghost use Rattle.t1_run.specs.declared.failure.Failure.TheVariants.{Memory};

use std::alloc::AllocError;
use t1_font::{RefusalCode, Unread};
use t1_report::WaiverError;

/// Why a run has no result.
#[derive(Clone, Copy, Debug, PartialEq, Eq)]
pub enum Failure {
    /// The font or the waivers are refused, by this number.
    Refused(RefusalCode),
    /// A read failed, or a file can't be opened.
    Broken,
    /// An allocation was refused.
    Memory,
}

impl Failure {
    /// What is refused by a number, or else memory, which alone refuses by none.
    fn by(code: Option<RefusalCode>) -> Failure
        ensures { result ≡ refused_by code }
    {
        match code {
            Some(code) => Failure::Refused(code),
            None => Failure::Memory,
        }
    }
}

impl From<Unread> for Failure {
    ghost from_gives = { λ unread failure. failure ≡ failure_of (Font unread) };

    fn from(unread: Unread) -> Failure {
        Failure::by(unread.code())
    }
}

impl From<WaiverError> for Failure {
    ghost from_gives = { λ error failure. failure ≡ failure_of (Waivers error) };

    fn from(error: WaiverError) -> Failure {
        Failure::by(error.code())
    }
}

impl From<AllocError> for Failure {
    ghost from_gives = { λ _ failure. failure ≡ Memory };

    fn from(_error: AllocError) -> Failure {
        Failure::Memory
    }
}
