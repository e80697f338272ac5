//! The tokens of charstrings: Type 1 Font Format 1.1, chapter 6 (Charstring Number Encoding, Charstring
//! Command Encoding).

ghost use Rattle.std.specs.Prelude.{◌≡◌, ◌+◌, ◌*◌, ◌<◌};
ghost use Rattle.t1_char.specs.Arguments.{is_callothersubr};
ghost use Rattle.t1_char.specs.Commands.{command_of, escaped_of};
ghost use Rattle.t1_char.specs.Effects.{is_finishing};
ghost use Rattle.t1_char.specs.Steps.{is_callsubr, is_end, is_return};
ghost use Rattle.t1_char.specs.Tokens.{escaped_code, plain_code, signed_of};

use crate::command::Command;

/// A token of a charstring.
#[derive(Clone, Copy, Debug, PartialEq, Eq)]
pub enum CharToken {
    /// A number.
    Number(i32),
    /// A command.
    Command(Command),
    /// A byte below 32 that is no command.
    Unknown(u8),
    /// 12 and a byte that make no command.
    Unknown12(u8),
    /// The bytes break off inside a number or after 12.
    Cut,
    /// The charstring has fewer bytes than lenIV says.
    Short,
    /// The end of the charstring.
    End,
}

/// Whether it calls a Subr.
#[inline(always)]
pub fn is_callsubr(token: CharToken) -> bool
    ensures { result ≡ is_callsubr token }
{
    matches!(token, CharToken::Command(Command::Callsubr))
}

/// Whether it calls an OtherSubr.
#[inline(always)]
pub fn is_callothersubr(token: CharToken) -> bool
    ensures { result ≡ is_callothersubr token }
{
    matches!(token, CharToken::Command(Command::Callothersubr))
}

/// Whether it goes back from a Subr.
#[inline(always)]
pub fn is_return(token: CharToken) -> bool
    ensures { result ≡ is_return token }
{
    matches!(token, CharToken::Command(Command::Return))
}

/// Whether it finishes the glyph, in its own charstring or in a Subr.
#[inline(always)]
pub fn is_finishing(token: CharToken) -> bool
    ensures { result ≡ is_finishing token }
{
    matches!(token, CharToken::Command(Command::Endchar | Command::Seac))
}

/// Whether it is the end of the charstring.
#[inline(always)]
pub fn is_end(token: CharToken) -> bool
    ensures { result ≡ is_end token }
{
    matches!(token, CharToken::End)
}

/// The token of a byte below 32 other than 12.
#[inline(always)]
pub(crate) fn plain_token(byte: u8) -> CharToken
    ensures { result ≡ plain_code byte (command_of byte) }
{
    match Command::plain(byte) {
        Some(command) => CharToken::Command(command),
        None => CharToken::Unknown(byte),
    }
}

/// The token of 12 and this byte.
#[inline(always)]
pub(crate) fn escaped_token(byte: u8) -> CharToken
    ensures { result ≡ escaped_code byte (escaped_of byte) }
{
    match Command::escaped(byte) {
        Some(command) => CharToken::Command(command),
        None => CharToken::Unknown12(byte),
    }
}

/// The size of a number of two bytes, by its sign's four first bytes.
pub(crate) fn pair(high: u8, low: u8) -> u16
    requires { high < 4 }
    ensures { result ≡ high * 256 + low + 108 }
{
    u16::from(high) * 256 + u16::from(low) + 108
}

/// The 32 bits of four bytes, the most significant first.
pub(crate) fn joined(a: u8, b: u8, c: u8, d: u8) -> u32
    ensures { result ≡ ((a * 256 + b) * 256 + c) * 256 + d }
{
    ((u32::from(a) * 256 + u32::from(b)) * 256 + u32::from(c)) * 256 + u32::from(d)
}

/// The number of 32 bits in two's complement.
pub(crate) fn signed(bits: u32) -> i32
    ensures { result ≡ signed_of bits }
{
    if bits < 1 << 31 {
        bits as i32
    } else {
        -((u32::MAX - bits) as i32) - 1
    }
}
