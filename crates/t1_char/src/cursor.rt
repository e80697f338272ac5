//! A place in a charstring, at which it is deciphered as it is read: Type 1 Font Format 1.1, chapters 6 and 7.

ghost use Rattle.std.specs.Prelude.{◌≡◌, false, true, ◌/◌, bit_xor, IfSome, MatchOption, ◌<◌, [], ◌∷◌, drop, length};
ghost use Rattle.t1_seal.specs.Laws.Cipher.{next_state};
ghost use Rattle.t1_char.specs.Tokens.{charstring_tokens, long_number, more_of, random_of, token_at};
ghost use Rattle.t1_seal.specs.Cipher.{charstring_start, decrypted};
ghost use Rattle.t1_char.specs.Steps.{is_end};
ghost use Rattle.t1_char.specs.Private.Cursors.{AtFirst, behind_token, bytes_left, cursor_of, key_after, key_of, plain_by, tokens_left};
ghost use Rattle.std.specs.List.{list_any};
ghost use Rattle.t1_char.specs.Seacs.{is_seac};
ghost use Rattle.t1_char.specs.Lines.{IsWithin, is_far};
ghost use Rattle.t1_char.specs.Numbers.{units};
ghost use Rattle.t1_char.specs.Private.Seacs.{begins_with_6, has_pair};
ghost use Rattle.t1_char.specs.declared.cursor.Cursor.{Cursor};
ghost use Rattle.t1_char.specs.declared.token.CharToken.TheVariants.{Cut, End, Number};

use crate::token::{CharToken, escaped_token, joined, pair, plain_token, signed};
use t1_seal::Cipher;

/// What is left of a charstring: bytes of its slice, the cipher's state, and whether it is shorter than lenIV, which is
/// the first token.
#[derive(Clone, Copy, Default)]
pub(crate) struct Cursor<'a> {
    pub(crate) left: &'a [u8],
    /// None where charstrings aren't encrypted.
    pub(crate) cipher: Option<Cipher>,
    pub(crate) short: bool,
}

/// What is left of a charstring that isn't short.
#[derive(Clone, Copy)]
pub(crate) struct Ahead<'a> {
    pub(crate) left: &'a [u8],
    /// None where charstrings aren't encrypted.
    pub(crate) cipher: Option<Cipher>,
}

impl<'a> Ahead<'a> {
    /// The next plain byte.
    #[inline(always)]
    #[tactic(auto, unfolding(crate::specs::Private::Cursors::deciphered))]
    pub(crate) fn next_byte(&mut self) -> Option<u8>
        ensures byte { MatchOption result (bytes_left (cursor_of self.old) ≡ [])
            (λ b. bytes_left (cursor_of self.old) ≡ b ∷ bytes_left (cursor_of self.new)) }
        ensures left { bytes_left (cursor_of self.new) ≡ drop 1 (bytes_left (cursor_of self.old)) }
    {
        match first_of(self.left) {
            None => None,
            Some((byte, rest)) => {
                self.left = rest;
                Some(plain(&mut self.cipher, byte))
            }
        }
    }

    /// Returns the token that begins with the byte before it, which isn't 255.
    #[inline(always)]
    #[tactic(auto, using(crate::proofs::Skipping::tokens_behind_is), unfolding(crate::specs::Tokens::tokens_behind))]
    pub(crate) fn token_from(&mut self, first: u8) -> CharToken
        requires { first < 255 }
        ensures { (before : Cursor) → AtFirst first before (cursor_of self.old) →
            tokens_left before ≡ result ∷ behind_token result (tokens_left (cursor_of self.new)) }
    {
        self.token_behind(first)
    }

    /// Returns the token of its first byte, which isn't 255, and of the byte after that.
    #[inline(always)]
    fn token_behind(&mut self, first: u8) -> CharToken
        requires { first < 255 }
        ensures token { result ≡ token_at first (bytes_left (cursor_of self.old)) }
        ensures left { bytes_left (cursor_of self.new) ≡ drop (more_of first) (bytes_left (cursor_of self.old)) }
        ensures goes_on { is_end result ≡ false }
    {
        match first {
            12 => match self.next_byte() {
                Some(second) => escaped_token(second),
                None => CharToken::Cut,
            },
            0..=31 => plain_token(first),
            32..=246 => CharToken::Number(i32::from(first) - 139),
            247..=250 => match self.next_byte() {
                Some(second) => CharToken::Number(i32::from(pair(first - 247, second))),
                None => CharToken::Cut,
            },
            _ => match self.next_byte() {
                Some(second) => CharToken::Number(-i32::from(pair(first - 251, second))),
                None => CharToken::Cut,
            },
        }
    }

    /// The number of the next four bytes.
    #[inline(always)]
    fn long_number(&mut self) -> Option<i32>
        ensures token { MatchOption result (long_number (bytes_left (cursor_of self.old)) ≡ Cut)
            (λ number. long_number (bytes_left (cursor_of self.old)) ≡ Number number) }
        ensures left { bytes_left (cursor_of self.new) ≡ drop 4 (bytes_left (cursor_of self.old)) }
    {
        let a = self.next_byte();
        let b = self.next_byte();
        let c = self.next_byte();
        let d = self.next_byte();
        match (a, b, c, d) {
            (Some(a), Some(b), Some(c), Some(d)) => Some(signed(joined(a, b, c, d))),
            _ => None,
        }
    }

    /// The number of its first byte and the byte after it.
    #[inline(always)]
    pub(crate) fn number_behind(&mut self, first: u8) -> Option<i64>
        ensures token { IfSome result (λ number. token_at first (bytes_left (cursor_of self.old)) ≡ Number number) }
        ensures left { IfSome result (λ number. bytes_left (cursor_of self.new)
            ≡ drop (more_of first) (bytes_left (cursor_of self.old))) }
        ensures near { IfSome result (λ number. is_far (units number) ≡ false) }
        ensures short { IfSome result (λ number. IsWithin 1131 number) }
    {
        match first {
            32..=246 => Some(i64::from(first) - 139),
            247..=250 => match self.next_byte() {
                Some(second) => Some(i64::from(pair(first - 247, second))),
                None => None,
            },
            251..=254 => match self.next_byte() {
                Some(second) => Some(-i64::from(pair(first - 251, second))),
                None => None,
            },
            _ => None,
        }
    }
}

impl<'a> Cursor<'a> {
    /// Returns the token that begins with 255, the byte before it.
    #[inline(always)]
    #[tactic(auto, using(crate::proofs::Skipping::tokens_behind_is), unfolding(crate::specs::Tokens::tokens_behind))]
    pub(crate) fn long_token(&mut self) -> CharToken
        ensures { (before : Cursor) → AtFirst 255 before self.old →
            tokens_left before ≡ result ∷ behind_token result (tokens_left self.new) }
    {
        self.token_behind(255)
    }

    /// What is left, where it isn't short.
    #[inline(always)]
    pub(crate) fn ahead(&self) -> Option<Ahead<'a>>
        ensures { IfSome result (λ ahead. cursor_of ahead ≡ self.now) }
    {
        if self.short {
            return None;
        }
        Some(Ahead {
            left: self.left,
            cipher: self.cipher,
        })
    }

    /// A cursor at the start of a charstring, after its random bytes.
    #[tactic(auto, using(crate::proofs::Deciphering::deciphered_plain), unfolding(crate::specs::Tokens::charstring_tokens, crate::specs::Tokens::tokens_behind))]
    pub(crate) fn start(code: &'a [u8], len_iv: i8) -> Cursor<'a>
        ensures { tokens_left result ≡ charstring_tokens len_iv code.entry.now }
    {
        match random_bytes(len_iv) {
            None => Cursor {
                left: code,
                cipher: None,
                short: false,
            },
            Some(random) if code.len() < random => Cursor {
                left: &[],
                cipher: None,
                short: true,
            },
            Some(random) => Cursor::behind(code, random),
        }
    }

    /// A cursor of an encrypted charstring, after so many bytes.
    fn behind(code: &'a [u8], random: usize) -> Cursor<'a>
        ensures bytes { bytes_left result ≡ drop random (decrypted charstring_start code.entry.now) }
        ensures short { result.short ≡ false }
    {
        let mut cursor = Cursor {
            left: code,
            cipher: Some(Cipher::charstring()),
            short: false,
        };
        cursor.discard(random);
        cursor
    }

    /// How many bytes are left.
    #[tactic(auto, using(crate::proofs::LastsAhead::length_deciphered))]
    #[inline(always)]
    pub(crate) fn left_len(&self) -> usize
        ensures { result ≡ length (bytes_left self.now) }
    {
        self.left.len()
    }

    /// Whether the end alone is left.
    #[inline(always)]
    #[tactic(auto, using(crate::proofs::LastsAhead::none_behind))]
    pub(crate) fn is_empty(&self) -> bool
        ensures { result ≡ true → tokens_left self.now ≡ End ∷ [] }
    {
        !self.short && self.left.len() == 0
    }

    /// The next token.
    #[inline(always)]
    #[tactic(auto, using(crate::proofs::Skipping::tokens_behind_is), unfolding(crate::specs::Tokens::tokens_behind))]
    pub(crate) fn next_token(&mut self) -> CharToken
        ensures { tokens_left self.old ≡ result ∷ behind_token result (tokens_left self.new) }
    {
        if self.short {
            self.short = false;
            return CharToken::Short;
        }
        match self.next_byte() {
            None => CharToken::End,
            Some(first) => self.token_behind(first),
        }
    }

    /// The token of its first byte and the bytes after it.
    #[inline(always)]
    fn token_behind(&mut self, first: u8) -> CharToken
        ensures token { result ≡ token_at first (bytes_left self.old) }
        ensures left { bytes_left self.new ≡ drop (more_of first) (bytes_left self.old) }
        ensures short { self.new.short ≡ self.old.short }
        ensures goes_on { is_end result ≡ false }
    {
        match first {
            12 => match self.next_byte() {
                Some(second) => escaped_token(second),
                None => CharToken::Cut,
            },
            0..=31 => plain_token(first),
            32..=246 => CharToken::Number(i32::from(first) - 139),
            247..=250 => match self.next_byte() {
                Some(second) => CharToken::Number(i32::from(pair(first - 247, second))),
                None => CharToken::Cut,
            },
            251..=254 => match self.next_byte() {
                Some(second) => CharToken::Number(-i32::from(pair(first - 251, second))),
                None => CharToken::Cut,
            },
            255 => match self.long_number() {
                Some(number) => CharToken::Number(number),
                None => CharToken::Cut,
            },
        }
    }

    /// The number of the next four bytes.
    #[inline(never)]
    fn long_number(&mut self) -> Option<i32>
        ensures token { MatchOption result (long_number (bytes_left self.old) ≡ Cut)
            (λ number. long_number (bytes_left self.old) ≡ Number number) }
        ensures left { bytes_left self.new ≡ drop 4 (bytes_left self.old) }
        ensures short { self.new.short ≡ self.old.short }
    {
        let mut ahead = Ahead {
            left: self.left,
            cipher: self.cipher,
        };
        let number = ahead.long_number();
        self.left = ahead.left;
        self.cipher = ahead.cipher;
        number
    }

    /// Whether bytes that are left may write seac: 12 and 6 side by side.
    #[inline(always)]
    pub(crate) fn may_have_seac(&self) -> bool
        ensures { result ≡ false → list_any is_seac (tokens_left self.now) ≡ false }
    {
        self.has_pair()
    }

    /// Whether 12 and 6 are side by side in what is left.
    #[inline(always)]
    fn has_pair(&self) -> bool
        ensures { result ≡ has_pair 0 (bytes_left self.now) }
    {
        let mut ahead = *self;
        while let Some(byte) = ahead.next_byte() {
            if byte == 12 && ahead.begins_with_6() {
                return true;
            }
        }
        false
    }

    /// Whether 6 comes next.
    #[inline(always)]
    fn begins_with_6(&self) -> bool
        ensures { result ≡ begins_with_6 (bytes_left self.now) }
    {
        let mut ahead = *self;
        match ahead.next_byte() {
            Some(byte) => byte == 6,
            None => false,
        }
    }

    fn discard(&mut self, count: usize)
        ensures left { bytes_left self.new ≡ drop count (bytes_left self.old) }
        ensures short { self.new.short ≡ self.old.short }
    {
        // Most fonts have four random bytes, and each call of a Subr comes here.
        if count == 4 && self.left.len() >= 4 {
            self.next_byte();
            self.next_byte();
            self.next_byte();
            self.next_byte();
            return;
        }
        for _taken in 0..count {
            self.next_byte();
        }
    }

    /// The next plain byte.
    #[inline(always)]
    #[tactic(auto, unfolding(crate::specs::Private::Cursors::deciphered))]
    fn next_byte(&mut self) -> Option<u8>
        ensures byte { MatchOption result (bytes_left self.old ≡ [])
            (λ b. bytes_left self.old ≡ b ∷ bytes_left self.new) }
        ensures left { bytes_left self.new ≡ drop 1 (bytes_left self.old) }
        ensures short { self.new.short ≡ self.old.short }
    {
        match first_of(self.left) {
            None => None,
            Some((byte, rest)) => {
                self.left = rest;
                Some(plain(&mut self.cipher, byte))
            }
        }
    }
}

/// How many random bytes come first; none where charstrings aren't encrypted.
fn random_bytes(len_iv: i8) -> Option<usize>
    ensures { result ≡ random_of len_iv }
{
    if len_iv < 0 {
        None
    } else {
        Some(len_iv as usize)
    }
}

/// The first byte and the rest.
fn first_of(left: &[u8]) -> Option<(u8, &[u8])>
    ensures { MatchOption result (left.now ≡ []) (λ cut. left.now ≡ cut.0 ∷ cut.1.now) }
{
    match left {
        [] => None,
        [first, rest @ ..] => Some((*first, rest)),
    }
}

/// The plain byte of a byte; the cipher goes on.
#[inline(always)]
fn plain(cipher: &mut Option<Cipher>, byte: u8) -> u8
    ensures byte { result ≡ plain_by (key_of cipher.old) byte }
    ensures key { key_of cipher.new ≡ key_after (key_of cipher.old) byte }
{
    match cipher {
        None => byte,
        Some(cipher) => next_plain(cipher, byte),
    }
}

/// The plain byte by the cipher's state, which goes on.
fn next_plain(cipher: &mut Cipher, byte: u8) -> u8
    ensures plain { result ≡ bit_xor byte (cipher.old.r / 256) }
    ensures state { cipher.new.r ≡ next_state cipher.old.r byte }
{
    let _state = cipher.r;
    cipher.next(byte)
}
