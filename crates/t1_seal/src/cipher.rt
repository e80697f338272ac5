//! The cipher of eexec sections and charstrings: Type 1 Font Format 1.1, chapter 7.

ghost use Rattle.std.specs.Prelude.{◌≡◌, ◌++◌, ◌∷◌, ◌/◌, ℕ, List, [], bit_xor};
ghost use Rattle.t1_seal.specs.Cipher.{charstring_start, eexec_start, plain_byte, state_after};
ghost use Rattle.t1_seal.specs.Laws.Cipher.{next_state};

const EEXEC_START: u16 = 55665;

const CHARSTRING_START: u16 = 4330;

const MULTIPLIER: u32 = 52845;

const ADDEND: u32 = 22719;

const STATES: u32 = 1 << 16;

/// A cipher in the midst of its bytes. It deciphers one byte at a time, in their order.
#[derive(Clone, Copy, Debug, PartialEq, Eq)]
pub struct Cipher {
    /// The state of 16 bits, called r in the standard.
    pub r: u16,
}

impl Cipher {
    /// The cipher at the start of an eexec section.
    pub fn eexec() -> Cipher
        ensures { result.r ≡ eexec_start }
    {
        Cipher { r: EEXEC_START }
    }

    /// The cipher at the start of a charstring.
    pub fn charstring() -> Cipher
        ensures { result.r ≡ charstring_start }
    {
        Cipher {
            r: CHARSTRING_START,
        }
    }

    /// Returns the plain byte of the next cipher byte c, c xor (r / 256).
    /// The state becomes (c + r) * 52845 + 22719 modulo 65536.
    ///
    /// `plain` and `state` hold for any start and any cipher bytes before that lead to the state r.
    pub fn next(&mut self, byte: u8) -> u8
        ensures byte { result ≡ bit_xor byte (self.old.r / 256) }
        ensures next { self.new.r ≡ next_state self.old.r byte }
        ensures plain { (start : ℕ) (front : List ℕ) → state_after start front ≡ self.old.r →
            result ≡ plain_byte start front byte }
        ensures state { (start : ℕ) (front : List ℕ) → state_after start front ≡ self.old.r →
            self.new.r ≡ state_after start (front ++ byte ∷ []) }
    {
        let plain = byte ^ (self.r >> 8) as u8;
        let sum = (u32::from(byte) + u32::from(self.r)) * MULTIPLIER + ADDEND;
        self.r = (sum % STATES) as u16;
        plain
    }
    /// The cipher byte of the next plain byte: the way back from [`Cipher::next`].
    pub fn seal(&mut self, byte: u8) -> u8
        ensures byte { result ≡ bit_xor byte (self.old.r / 256) }
        ensures next { self.new.r ≡ next_state self.old.r result }
    {
        let sealed = byte ^ (self.r >> 8) as u8;
        self.next(sealed);
        sealed
    }
}
