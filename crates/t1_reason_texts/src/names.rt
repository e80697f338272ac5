//! How names are shown in a text: those of glyphs are bytes.

ghost use Rattle.std.specs.Prelude.{◌≡◌, ◌<◌, Some};
ghost use Rattle.t1_reason_texts.specs.Names.{hexadecimal_digit, is_shown, shown_byte, shown_name, shown_within, width_of};

use std::fmt;

/// The most characters of a name.
const MOST_SHOWN: u8 = 60;

/// A name as it is shown: bytes other than printable ASCII, and the blank, `\` and `:`, as `\xNN`; cut before the byte that would be
/// past the 60th character, with `…`.
#[derive(Clone, Copy)]
pub(crate) struct ShownName<'a>(pub(crate) &'a [u8]);

/// Of a name what so many characters show.
#[derive(Clone, Copy)]
struct ShownWithin<'a> {
    name: &'a [u8],
    room: u8,
}

/// A byte as it is shown.
#[derive(Clone, Copy)]
pub(crate) struct ShownByte(pub(crate) u8);

/// A digit of a hexadecimal number, in upper case.
pub fn hexadecimal_digit(digit: u8) -> char
    requires { digit < 16 }
    ensures { result ≡ hexadecimal_digit digit }
{
    if digit < 10 {
        char::from(b'0' + digit)
    } else {
        char::from(b'A' + (digit - 10))
    }
}

/// Whether a byte is shown as it is.
fn is_shown(byte: u8) -> bool
    ensures { result ≡ is_shown byte }
{
    32 < byte && (byte < 127 && !(byte == b'\\' || byte == b':'))
}

/// How many characters a byte is shown with.
fn width_of(byte: u8) -> u8
    ensures { result ≡ width_of byte }
{
    if is_shown(byte) { 1 } else { 4 }
}

impl fmt::Display for ShownByte {
    ghost output = { λ shown. Some (shown_byte shown.0) };

    fn fmt<W: fmt::Write>(&self, f: &mut fmt::Formatter<W>) -> fmt::Result {
        let byte = self.0;
        if is_shown(byte) {
            let letter = char::from(byte);
            write!(f, "{letter}")
        } else {
            let high = hexadecimal_digit(byte / 16);
            let low = hexadecimal_digit(byte % 16);
            write!(f, "\\x{high}{low}")
        }
    }
}

impl fmt::Display for ShownWithin<'_> {
    ghost output = { λ shown. Some (shown_within shown.room shown.name.now) };

    fn fmt<W: fmt::Write>(&self, f: &mut fmt::Formatter<W>) -> fmt::Result {
        let mut room = self.room;
        for byte in self.name {
            let byte = *byte;
            let width = width_of(byte);
            if room < width {
                return write!(f, "…");
            }
            let shown = ShownByte(byte);
            write!(f, "{shown}")?;
            room -= width;
        }
        Ok(())
    }
}

impl fmt::Display for ShownName<'_> {
    ghost output = { λ name. Some (shown_name name.0.now) };

    fn fmt<W: fmt::Write>(&self, f: &mut fmt::Formatter<W>) -> fmt::Result {
        if self.0.is_empty() {
            write!(f, "(empty)")
        } else {
            let shown = ShownWithin {
                name: self.0,
                room: MOST_SHOWN,
            };
            write!(f, "{shown}")
        }
    }
}
