//! Why a file isn't read as a font.

ghost use Rattle.std.specs.Prelude.{◌≡◌, Some};
ghost use Rattle.t1_font.specs.FontFiles.{of_seal_error};
ghost use Rattle.t1_font.specs.Refusals.{refusal_text_of, unread_code, unread_text};
ghost use Rattle.t1_font.specs.declared.unread.Unread.TheVariants.{Memory};

use std::alloc::{AllocError, AllocFailed};
use std::error::Error;
use std::fmt;
use t1_seal::SealError;

/// Why a file isn't read as a font, in the order of the numbers E01 to E13. E05, a file that is too large, is
/// the caller's to find. `Memory` alone depends on more than the bytes.
#[derive(Clone, Copy, Debug, PartialEq, Eq)]
pub enum Unread {
    /// E01: the bytes begin neither with 128, as a PFB file does, nor with `%!`, as a PFA file does.
    NotAFont,
    /// E02: a segment should begin, but another byte is there, or an unknown type: `80 04`.
    BadHeader,
    /// E03: the bytes end inside a segment.
    CutShort,
    /// E04: the joined bytes don't begin with `%!`, or have no word `eexec`.
    NoEexec,
    /// E06: fewer than four bytes are encrypted.
    TooShort,
    /// E07: a string, a procedure or an array isn't closed, as `(a`, or nests deeper than 32.
    Unclosed,
    /// E08: the head of the Subrs or an entry of them is broken, as `dup 0 -1 RD`.
    BadSubrs,
    /// E09: the CharStrings are missing, broken or without their `end`.
    BadCharStrings,
    /// E10: `/lenIV` is no whole number from -1 to 64.
    BadLenIv,
    /// E11: too many Subrs or glyphs are counted, a Subr's number is too great, or a charstring is too long.
    PastLimit,
    /// E12: the private text has a second `/Subrs`, as hybrid fonts do.
    SecondSubrs,
    /// E13: the clear text has `/WeightVector`.
    MultipleMaster,
    /// An allocation was refused.
    Memory,
}

/// Why there is no report, by its number.
#[derive(Clone, Copy, Debug, PartialEq, Eq)]
pub enum RefusalCode {
    /// The bytes begin neither as a PFB file nor as a PFA file.
    E01,
    /// A segment should begin, but something else is there.
    E02,
    /// The bytes end inside a segment.
    E03,
    /// The clear text has no word `eexec`.
    E04,
    /// The file has more than 16,777,216 bytes.
    E05,
    /// Fewer than four bytes are encrypted.
    E06,
    /// A token isn't closed, or nests deeper than 32.
    E07,
    /// The Subrs are broken.
    E08,
    /// The CharStrings are missing or broken.
    E09,
    /// `/lenIV` is no whole number from -1 to 64.
    E10,
    /// There are too many Subrs or glyphs, or a charstring is too long.
    E11,
    /// There is a second `/Subrs`.
    E12,
    /// It is a multiple master font.
    E13,
    /// A line of the waivers is none.
    E14,
    /// The waivers have more than 1,048,576 bytes.
    E15,
}

impl Unread {
    /// The number by which bytes are refused. Running out of memory refuses none.
    pub fn code(self) -> Option<RefusalCode>
        ensures { result ≡ unread_code self }
    {
        match self {
            Unread::NotAFont => Some(RefusalCode::E01),
            Unread::BadHeader => Some(RefusalCode::E02),
            Unread::CutShort => Some(RefusalCode::E03),
            Unread::NoEexec => Some(RefusalCode::E04),
            Unread::TooShort => Some(RefusalCode::E06),
            Unread::Unclosed => Some(RefusalCode::E07),
            Unread::BadSubrs => Some(RefusalCode::E08),
            Unread::BadCharStrings => Some(RefusalCode::E09),
            Unread::BadLenIv => Some(RefusalCode::E10),
            Unread::PastLimit => Some(RefusalCode::E11),
            Unread::SecondSubrs => Some(RefusalCode::E12),
            Unread::MultipleMaster => Some(RefusalCode::E13),
            Unread::Memory => None,
        }
    }
}

/// What is printed of a refusal: its code and why.
pub fn refusal_text(code: RefusalCode) -> &'static str
    ensures { result.now ≡ refusal_text_of code }
{
    match code {
        RefusalCode::E01 => "E01 not a PFA or PFB",
        RefusalCode::E02 => "E02 bad segment header",
        RefusalCode::E03 => "E03 segment cut short",
        RefusalCode::E04 => "E04 no eexec",
        RefusalCode::E05 => "E05 file too large",
        RefusalCode::E06 => "E06 encrypted part too short",
        RefusalCode::E07 => "E07 unclosed or too deeply nested token",
        RefusalCode::E08 => "E08 Subrs malformed",
        RefusalCode::E09 => "E09 CharStrings malformed or absent",
        RefusalCode::E10 => "E10 lenIV out of range",
        RefusalCode::E11 => "E11 count past its limit",
        RefusalCode::E12 => "E12 second Subrs",
        RefusalCode::E13 => "E13 multiple master font",
        RefusalCode::E14 => "E14 waivers malformed",
        RefusalCode::E15 => "E15 waivers past their limit",
    }
}

impl fmt::Display for Unread {
    ghost output = { λ unread. Some (unread_text unread) };

    fn fmt<W: fmt::Write>(&self, f: &mut fmt::Formatter<W>) -> fmt::Result {
        match self.code() {
            Some(code) => f.write_str(refusal_text(code)),
            None => f.write_str("out of memory"),
        }
    }
}

impl Error for Unread {}

impl From<SealError> for Unread {
    ghost from_gives = { λ error unread. unread ≡ of_seal_error error };

    fn from(error: SealError) -> Unread {
        match error {
            SealError::NotAFont => Unread::NotAFont,
            SealError::BadHeader => Unread::BadHeader,
            SealError::CutShort => Unread::CutShort,
            SealError::TooShort => Unread::TooShort,
            SealError::Memory => Unread::Memory,
        }
    }
}

impl From<AllocError> for Unread {
    ghost from_gives = { λ _ unread. unread ≡ Memory };

    fn from(_error: AllocError) -> Unread {
        Unread::Memory
    }
}

impl<T: Drop> From<AllocFailed<T>> for Unread {
    ghost from_gives = { λ _ unread. unread ≡ Memory };

    fn from(_error: AllocFailed<T>) -> Unread {
        Unread::Memory
    }
}
