//! The scanner: Type 1 Font Format 1.1, chapters 2 and 10.

ghost use Rattle.std.specs.Prelude.{◌≡◌, ◌≤◌, ◌<◌, ◌+◌, ◌⊎◌, true, false, length, is_err, IfSome, IfNone};
ghost use Rattle.t1_scan.specs.Reading.{reading, seen, Moves, PassesRaw};

use crate::error::ScanError;
use crate::forms::token_at;
use crate::runs::blank_len;
use crate::token::Token;

/// Reads a text's tokens, one after another. After a token that isn't closed it returns no other.
#[derive(Clone, Copy, Debug)]
pub struct Scanner<'a> {
    text: &'a [u8],
    place: usize,
    failed: bool,
    ghost within: { place ≤ length text.now },
}

impl<'a> Scanner<'a> {
    ghost use Rattle.t1_scan.specs.State.{text_of, place_of, left_of, has_failed};

    /// A scanner at the beginning of a text.
    pub fn new(text: &'a [u8]) -> Scanner<'a>
        ensures text { text_of result ≡ text.now }
        ensures place { place_of result ≡ 0 }
        ensures failed { has_failed result ≡ false }
    {
        Scanner {
            text,
            place: 0,
            failed: false,
        }
    }

    /// How many bytes of the text have been read.
    pub fn place(&self) -> usize
        ensures { result ≡ place_of self.now }
    {
        self.place
    }

    /// The next token, or None where only blanks and comments are left.
    #[inline(always)]
    pub fn next(&mut self) -> Result<Option<Token<'a>>, ScanError>
        ensures text { text_of self.new ≡ text_of self.old }
        ensures token { reading (has_failed self.old) (left_of self.old) ≡ seen (text_of self.old) result }
        ensures place { Moves (text_of self.old) (place_of self.old) (place_of self.new) result }
        ensures failed { has_failed self.new ≡ is_err result }
    {
        if self.failed {
            return Err(ScanError::Unclosed);
        }
        let whole = self.text;
        let from = self.place + blank_len(&whole[self.place..]);
        let left = &whole[from..];
        if left.is_empty() {
            self.place = from;
            return Ok(None);
        }
        let Some((len, kind)) = token_at(left) else {
            self.failed = true;
            return Err(ScanError::Unclosed);
        };
        let to = from + len;
        let text = &whole[from..to];
        self.place = to;
        Ok(Some(Token {
            kind,
            text,
            from,
            to,
        }))
    }

    /// Skips one byte, of any value, and returns so many that follow it; None where they aren't
    /// there, or after a token that isn't closed.
    pub fn raw(&mut self, len: usize) -> Option<&'a [u8]>
        ensures text { text_of self.new ≡ text_of self.old }
        ensures failed { has_failed self.new ≡ has_failed self.old }
        ensures live { IfSome result (λ _. has_failed self.old ≡ false) }
        ensures some { IfSome result
            (λ bytes. PassesRaw (text_of self.old) (place_of self.old) (place_of self.new) len bytes.now) }
        ensures none { IfNone result ((has_failed self.old ≡ true)
            ⊎ (length (text_of self.old) < place_of self.old + 1 + len)) }
        ensures unchanged { IfNone result (self.new ≡ self.old) }
    {
        let whole = self.text;
        if self.failed || len >= whole.len() - self.place {
            return None;
        }
        let from = self.place + 1;
        self.place = from + len;
        Some(&whole[from..from + len])
    }
}
