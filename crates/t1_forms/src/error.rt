//! Why a line wasn't written.

ghost use Rattle.std.specs.Prelude.{◌≡◌};

use std::alloc::AllocError;
use t1_io::Broken;
use thiserror::Error;

/// Why a line wasn't written, or not whole.
#[derive(Clone, Copy, Debug, PartialEq, Eq, Drop, Error)]
pub enum FormatError {
    /// Memory ran out.
    #[error("out of memory")]
    Memory,
    /// The device failed.
    #[error("write failed")]
    Broken,
}

impl From<AllocError> for FormatError {
    ghost use Rattle.t1_forms.specs.declared.error.FormatError.{FormatError};

    ghost from_gives = { λ e f. f ≡ FormatError.Memory };

    fn from(_: AllocError) -> FormatError {
        FormatError::Memory
    }
}

impl From<Broken> for FormatError {
    ghost use Rattle.t1_forms.specs.declared.error.FormatError.{FormatError};

    ghost from_gives = { λ e f. f ≡ FormatError.Broken };

    fn from(_: Broken) -> FormatError {
        FormatError::Broken
    }
}
