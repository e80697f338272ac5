//! The names of files: those of glyphs, spelled so that no two are one where capitals don't count.

ghost use Rattle.std.specs.Prelude.{◌≡◌, ◌<◌, ◌++◌, IfOk, OnOk, Some, string_bytes};
ghost use Rattle.t1draw.specs.Folders.{is_between, is_capital, is_small, picture_name, small_digit, spelled, spelled_byte};

use std::alloc::{AllocError, Global};
use std::fmt;

/// The most bytes of a name that are spelled.
const MOST_SPELLED: usize = 60;

/// A byte as it is spelled: a small letter or a digit as it is, `_a` for a capital, `=2e` for any other byte.
#[derive(Clone, Copy)]
struct SpelledByte(u8);

/// The name of a glyph's picture: of a glyph with a long name by its place in the font.
pub(crate) fn picture_name(alloc: Global, glyph: usize, name: &[u8]) -> Result<String, AllocError>
    ensures { IfOk result (λ file. string_bytes file ≡ picture_name glyph name.now) }
{
    if name.len() <= MOST_SPELLED {
        let name = spelled(alloc, name)?;
        format!(in alloc; "glyph-{name}.svg")
    } else {
        format!(in alloc; "place-{glyph}.svg")
    }
}

/// A name as it is spelled.
fn spelled(alloc: Global, name: &[u8]) -> Result<String, AllocError>
    ensures { IfOk result (λ text. string_bytes text ≡ spelled name.now) }
{
    let mut text = String::new(alloc);
    push_spelled(&mut text, name)?;
    Ok(text)
}

fn push_spelled(text: &mut String, name: &[u8]) -> Result<(), AllocError>
    ensures { OnOk result (string_bytes text.new ≡ string_bytes text.old ++ spelled name.now) }
{
    for byte in name {
        push_byte(text, *byte)?;
    }
    Ok(())
}

fn push_byte(text: &mut String, byte: u8) -> Result<(), AllocError>
    ensures { OnOk result (string_bytes text.new ≡ string_bytes text.old ++ spelled_byte byte) }
{
    let spelled = SpelledByte(byte);
    write!(text, "{spelled}")
}

/// A digit of a hexadecimal number, in lower case.
fn small_digit(digit: u8) -> char
    requires { digit < 16 }
    ensures { result ≡ small_digit digit }
{
    if digit < 10 {
        char::from(b'0' + digit)
    } else {
        char::from(b'a' + (digit - 10))
    }
}

fn is_between(low: u8, high: u8, byte: u8) -> bool
    ensures { result ≡ is_between low high byte }
{
    low <= byte && byte <= high
}

fn is_small(byte: u8) -> bool
    ensures { result ≡ is_small byte }
{
    is_between(b'a', b'z', byte) || is_between(b'0', b'9', byte)
}

fn is_capital(byte: u8) -> bool
    ensures { result ≡ is_capital byte }
{
    is_between(b'A', b'Z', byte)
}

impl fmt::Display for SpelledByte {
    ghost output = { λ spelled. Some (spelled_byte spelled.0) };

    fn fmt<W: fmt::Write>(&self, f: &mut fmt::Formatter<W>) -> fmt::Result {
        let byte = self.0;
        if is_small(byte) {
            let letter = char::from(byte);
            write!(f, "{letter}")
        } else if is_capital(byte) {
            let letter = char::from(byte.saturating_add(32));
            write!(f, "_{letter}")
        } else {
            let high = small_digit(byte / 16);
            let low = small_digit(byte % 16);
            write!(f, "={high}{low}")
        }
    }
}
