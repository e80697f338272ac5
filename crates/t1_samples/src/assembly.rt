//! Charstrings, given as words: Type 1 Font Format 1.1, chapter 6.

use std::alloc::Global;
use std::test::Fail;

/// The commands.
const COMMANDS: [(&str, &[u8]); 25] = [
    ("hstem", b"\x01"),
    ("vstem", b"\x03"),
    ("vmoveto", b"\x04"),
    ("rlineto", b"\x05"),
    ("hlineto", b"\x06"),
    ("vlineto", b"\x07"),
    ("rrcurveto", b"\x08"),
    ("closepath", b"\x09"),
    ("callsubr", b"\x0a"),
    ("return", b"\x0b"),
    ("hsbw", b"\x0d"),
    ("endchar", b"\x0e"),
    ("rmoveto", b"\x15"),
    ("hmoveto", b"\x16"),
    ("vhcurveto", b"\x1e"),
    ("hvcurveto", b"\x1f"),
    ("dotsection", b"\x0c\x00"),
    ("vstem3", b"\x0c\x01"),
    ("hstem3", b"\x0c\x02"),
    ("seac", b"\x0c\x06"),
    ("sbw", b"\x0c\x07"),
    ("div", b"\x0c\x0c"),
    ("callothersubr", b"\x0c\x10"),
    ("pop", b"\x0c\x11"),
    ("setcurrentpoint", b"\x0c\x21"),
];

/// Returns the plain charstring of these words: names of commands, numbers, and `#` with a number for a single byte.
pub fn assembled(alloc: Global, words: &str) -> Result<Vec<u8>, Fail> {
    let mut bytes = Vec::new(alloc);
    for word in words.split_whitespace() {
        add_word(&mut bytes, word)?;
    }
    Ok(bytes)
}

fn add_word(bytes: &mut Vec<u8>, word: &str) -> Result<(), Fail> {
    if let Some((_, code)) = COMMANDS.iter().find(|(name, _)| *name == word) {
        bytes.extend_from_slice(*code)?;
    } else if let Some(byte) = word.strip_prefix("#") {
        bytes.push(byte.parse::<u8>()?)?;
    } else {
        add_number(bytes, word.parse::<i32>()?)?;
    }
    Ok(())
}

/// Adds a number in one byte, or in five where that is too short.
fn add_number(bytes: &mut Vec<u8>, number: i32) -> Result<(), Fail> {
    if -107 <= number && number <= 107 {
        bytes.push((number + 139) as u8)?;
    } else {
        bytes.push(255)?;
        bytes.extend_from_slice(&number.to_be_bytes())?;
    }
    Ok(())
}
