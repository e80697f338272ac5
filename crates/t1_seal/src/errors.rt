//! Why a font's bytes aren't opened.

ghost use Rattle.std.specs.Prelude.{◌≡◌};
ghost use Rattle.t1_seal.specs.declared.errors.SealError.TheVariants.{Memory};

use std::alloc::AllocError;
use thiserror::Error;

/// Why `join` or `open_eexec` fails. `Memory` alone depends on more than the bytes.
#[derive(Clone, Copy, Debug, PartialEq, Eq, Error)]
pub enum SealError {
    /// The bytes begin neither with 128, as a PFB file does, nor with `%!`, as a PFA file does.
    #[error("not a PFA or PFB")]
    NotAFont,
    /// A segment should begin, but another byte than 128 is there, or 128 and an unknown type: `80 04`.
    #[error("bad segment header")]
    BadHeader,
    /// The bytes end inside a segment: `80 01 05 00 00 00 25 21`.
    #[error("segment cut short")]
    CutShort,
    /// Fewer than four cipher bytes follow the word `eexec`.
    #[error("encrypted part too short")]
    TooShort,
    /// An allocation was refused.
    #[error("out of memory")]
    Memory,
}

impl From<AllocError> for SealError {
    ghost from_gives = { λ _ e. e ≡ Memory };

    fn from(_error: AllocError) -> SealError {
        SealError::Memory
    }
}
