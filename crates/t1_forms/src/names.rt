//! Names as text: those of fonts and glyphs are bytes, and JSON needs UTF-8.

ghost use Rattle.std.specs.Prelude.{◌≡◌, ◌++◌, IfOk, OnOk, string_bytes};
ghost use Rattle.std.specs.Str.{chars};
ghost use Rattle.std.specs.List.{flat_map};
ghost use Rattle.t1_forms.specs.Shown.{escaped, shown, shown_byte, shown_char};

use crate::characters::{Characters, push_characters};
use std::alloc::{AllocError, Global};
use t1_reason_texts::hexadecimal_digit;

/// Appends a byte as `\xNN`.
pub fn push_escaped(text: &mut String, byte: u8) -> Result<(), AllocError>
    ensures { OnOk result (string_bytes text.new ≡ string_bytes text.old ++ escaped byte) }
{
    text.push_str("\\x")?;
    text.push(hexadecimal_digit(byte / 16))?;
    text.push(hexadecimal_digit(byte % 16))
}

/// As names are shown.
struct ShownCharacters;

impl Characters for ShownCharacters {
    ghost use Rattle.t1_forms.specs.Shown.{shown_char};

    ghost written = { shown_char };

    fn push(text: &mut String, c: char) -> Result<(), AllocError> {
        if c == '\\' {
            text.push_str("\\\\")
        } else if c < ' ' || c == '\x7f' {
            push_escaped(text, c as u8)
        } else {
            text.push(c)
        }
    }
}

/// The characters of a text.
fn shown_text(alloc: Global, text: &str) -> Result<String, AllocError>
    ensures { IfOk result (λ s. string_bytes s ≡ flat_map shown_char (chars text.now)) }
{
    let mut shown = String::new(alloc);
    push_characters::<ShownCharacters>(&mut shown, text)?;
    Ok(shown)
}

/// Appends a byte of a name that is no UTF-8.
fn push_byte(text: &mut String, byte: u8) -> Result<(), AllocError>
    ensures { OnOk result (string_bytes text.new ≡ string_bytes text.old ++ shown_byte byte) }
{
    if byte < 128 {
        ShownCharacters::push(text, char::from(byte))
    } else {
        push_escaped(text, byte)
    }
}

/// The bytes of a name that is no UTF-8.
fn shown_bytes(alloc: Global, name: &[u8]) -> Result<String, AllocError>
    ensures { IfOk result (λ s. string_bytes s ≡ flat_map shown_byte name.now) }
{
    let mut shown = String::new(alloc);
    for byte in name {
        push_byte(&mut shown, *byte)?;
    }
    Ok(shown)
}

/// A name as text: `\` is written as `\\`, and a byte below 32, or 127, as `\xNN`. Where the whole name is no UTF-8 each byte
/// from 128 on is written so too.
pub fn shown(alloc: Global, name: &[u8]) -> Result<String, AllocError>
    ensures { IfOk result (λ s. string_bytes s ≡ shown name.now) }
{
    match str::from_utf8(name) {
        Ok(text) => shown_text(alloc, text),
        Err(_) => shown_bytes(alloc, name),
    }
}
