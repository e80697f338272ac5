//! The private text while its cipher bytes come one by one: Type 1 Font Format 1.1, chapter 7.

ghost use Rattle.std.specs.Prelude.{◌≡◌, ◌≤◌, ◌++◌, ◌∷◌, [], ℕ, List, IfOk, MatchResult, Ok, Err};
ghost use Rattle.t1_seal.specs.Eexec.{opened};
ghost use Rattle.t1_seal.specs.Private.Opening.{HasRoom, HasTaken, IsFor};

use crate::cipher::Cipher;
use crate::errors::SealError;
use std::alloc::{AllocError, Global};

/// How many plain bytes are before the private text.
pub(crate) const DISCARDED: usize = 4;

/// The private text as far as its cipher bytes have come.
#[derive(Drop)]
pub(crate) struct Opening {
    cipher: Cipher,
    /// How many of the first bytes were discarded.
    discarded: usize,
    text: Vec<u8>,
}

impl Opening {
    /// An opening of at most so many cipher bytes.
    pub(crate) fn of(alloc: Global, bytes: usize) -> Result<Opening, AllocError>
        ensures taken { IfOk result (λ opening. HasTaken opening []) }
        ensures room { IfOk result (IsFor bytes) }
    {
        let text = Vec::with_capacity(alloc, bytes.saturating_sub(DISCARDED))?;
        Ok(Opening {
            cipher: Cipher::eexec(),
            discarded: 0,
            text,
        })
    }

    /// Takes the next cipher byte.
    #[inline(always)]
    pub(crate) fn take(&mut self, byte: u8)
        requires { HasRoom self.old }
        ensures taken { (front : List ℕ) → HasTaken self.old front → HasTaken self.new (front ++ byte ∷ []) }
        ensures room { (bytes : ℕ) → IsFor bytes self.old → IsFor bytes self.new }
    {
        if self.discarded < DISCARDED {
            self.cipher.next(byte);
            self.discarded += 1;
        } else {
            self.take_text(byte);
        }
    }

    /// The same of a byte that isn't among the first four.
    #[inline(always)]
    pub(crate) fn take_text(&mut self, byte: u8)
        requires behind { 4 ≤ self.old.discarded }
        requires room { HasRoom self.old }
        ensures taken { (front : List ℕ) → HasTaken self.old front → HasTaken self.new (front ++ byte ∷ []) }
        ensures room { (bytes : ℕ) → IsFor bytes self.old → IsFor bytes self.new }
        ensures behind { self.new.discarded ≡ self.old.discarded }
    {
        let plain = self.cipher.next(byte);
        self.text.push_reserved(plain);
    }

    /// The private text, once all cipher bytes were taken.
    pub(crate) fn finish(self) -> Result<Vec<u8>, SealError>
        ensures { (front : List ℕ) → HasTaken self front →
            MatchResult result (λ text. opened front ≡ Ok text.items) (λ e. opened front ≡ Err e) }
    {
        let too_short = self.discarded < DISCARDED;
        if too_short {
            Err(SealError::TooShort)
        } else {
            Ok(self.text)
        }
    }
}
