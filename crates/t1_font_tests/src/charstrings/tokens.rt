//! Tokens of charstrings: Type 1 Font Format 1.1, chapter 6.

ghost use Rattle.std.specs.Prelude.{negsuc, pos, ◌≤ℤ◌};
ghost use Rattle.t1_font.specs.Bounds.{greatest_len_iv};

use super::traces::push_token;
use std::alloc::{AllocError, Global};
use std::process::Abort;
use std::test::Fail;
use t1_char::{CharToken, Command, tokens};

/// The tokens of plain bytes, each after a blank.
fn text_of(alloc: Global, code: &[u8]) -> Result<String, AllocError> {
    enciphered_text(alloc, code, -1)
}

fn enciphered_text(alloc: Global, code: &[u8], len_iv: i8) -> Result<String, AllocError>
    requires least { negsuc 0 ≤ℤ len_iv }
    requires greatest { len_iv ≤ℤ pos greatest_len_iv }
{
    let listed = tokens(alloc, code, len_iv)?;
    listed_text(alloc, listed.as_slice())
}

/// Tokens, each after a blank.
fn listed_text(alloc: Global, listed: &[CharToken]) -> Result<String, AllocError> {
    let mut text = String::new(alloc);
    for token in listed {
        push_spaced(alloc, &mut text, *token)?;
    }
    Ok(text)
}

/// Adds a blank and a token.
fn push_spaced(alloc: Global, text: &mut String, token: CharToken) -> Result<(), AllocError> {
    text.push_str(" ")?;
    push_token(alloc, text, token)
}

/// The bytes have these tokens.
fn assert_text(
    rt: &impl Abort,
    text: Result<String, AllocError>,
    want: &str,
    code: &[u8],
) -> Result<(), Fail> {
    let text = text?;
    assert_eq!(rt; text.as_str(), want, "of {code:?}");
    Ok(())
}

/// The bytes have the tokens beside them.
fn assert_texts(rt: &impl Abort, alloc: Global, cases: &[(&[u8], &str)]) -> Result<(), Fail> {
    for (code, want) in cases {
        assert_text(rt, text_of(alloc, code), want, code)?;
    }
    Ok(())
}

/// Numbers of each form, and their tokens.
const NUMBERS: &[(&[u8], &str)] = &[
    (b"\x20", " -107 end"),
    (b"\x8b", " 0 end"),
    (b"\xf6", " 107 end"),
    (b"\xf7\x00", " 108 end"),
    (b"\xf7\xff", " 363 end"),
    (b"\xfa\xff", " 1131 end"),
    (b"\xfb\x00", " -108 end"),
    (b"\xfb\xff", " -363 end"),
    (b"\xfe\xff", " -1131 end"),
    (b"\xff\x80\x00\x00\x00", " -2147483648 end"),
    (b"\xff\xff\xff\xff\xff", " -1 end"),
    (b"\xff\x00\x00\x00\x00", " 0 end"),
    (b"\xff\x01\x02\x03\x04", " 16909060 end"),
    (b"\xff\x7f\xff\xff\xff", " 2147483647 end"),
];

#[test]
fn numbers_at_the_ends_of_each_form(rt: HostRuntime) -> Result<(), Fail> {
    assert_texts(&rt, rt.alloc(), NUMBERS)
}

/// The tokens of 65,535 times the number 0.
fn many_zeros(alloc: Global) -> Result<Vec<CharToken>, AllocError> {
    let code = vec![in alloc; b'\x8b'; 65_535]?;
    tokens(alloc, code.as_slice(), -1)
}

/// How many tokens are the number 0.
fn zeros_in(listed: &[CharToken]) -> usize {
    listed
        .iter()
        .filter(|token| **token == CharToken::Number(0))
        .count()
}

/// The longest charstring of a font, of numbers alone.
#[test]
fn the_longest_charstring(rt: HostRuntime) -> Result<(), Fail> {
    let listed = many_zeros(rt.alloc())?;
    assert_eq!(rt; listed.len(), 65_536);
    assert_eq!(rt; zeros_in(listed.as_slice()), 65_535);
    Ok(())
}

/// Every byte below 32 other than 12, in the order of the bytes.
#[test]
fn commands_of_one_byte(rt: HostRuntime) -> Result<(), Fail> {
    let code: &[u8] =
        b"\x00\x01\x02\x03\x04\x05\x06\x07\x08\x09\x0a\x0b\x0d\x0e\x0f\x10\x11\x12\x13\x14\x15\x16\x17\x18\x19\x1a\x1b\x1c\x1d\x1e\x1f";
    let want =
        " unknown 0 hstem unknown 2 vstem vmoveto rlineto hlineto vlineto rrcurveto closepath callsubr return hsbw endchar unknown 15 unknown 16 unknown 17 unknown 18 unknown 19 unknown 20 rmoveto hmoveto unknown 23 unknown 24 unknown 25 unknown 26 unknown 27 unknown 28 unknown 29 vhcurveto hvcurveto end";
    assert_text(&rt, text_of(rt.alloc(), code), want, code)
}

#[test]
fn commands_after_12(rt: HostRuntime) -> Result<(), Fail> {
    let code: &[u8] =
        b"\x0c\x00\x0c\x01\x0c\x02\x0c\x03\x0c\x06\x0c\x07\x0c\x08\x0c\x0c\x0c\x0d\x0c\x10\x0c\x11\x0c\x12\x0c\x21\x0c\x22\x0c\x63\x0c\xff";
    let want =
        " dotsection vstem3 hstem3 unknown 12 3 seac sbw unknown 12 8 div unknown 12 13 callothersubr pop unknown 12 18 setcurrentpoint unknown 12 34 unknown 12 99 unknown 12 255 end";
    assert_text(&rt, text_of(rt.alloc(), code), want, code)
}

/// Bytes that break off inside a token, and their tokens.
const CUT: &[(&[u8], &str)] = &[
    (b"", " end"),
    (b"\x0c", " cut end"),
    (b"\xf7", " cut end"),
    (b"\xfe", " cut end"),
    (b"\xff", " cut end"),
    (b"\xff\x00\x00\x00", " cut end"),
    (b"\x0e\xfa\xff\xfa", " endchar 1131 cut end"),
];

#[test]
fn bytes_that_break_off(rt: HostRuntime) -> Result<(), Fail> {
    assert_texts(&rt, rt.alloc(), CUT)
}

/// `0 500 hsbw endchar` after no random byte and after four, enciphered by another program.
#[test]
fn enciphered_charstrings(rt: HostRuntime) -> Result<(), Fail> {
    let want = " 0 500 hsbw endchar end";
    let none: &[u8] = b"\x9b\x2c\x08\xa1\xd3";
    let zeros: &[u8] = b"\x10\xbf\x31\x70\x79\xc8\x2f\x06\x80";
    let letters: &[u8] = b"\x71\x94\x64\xc5\xb8\x19\x3e\xc4\xbf";
    assert_text(&rt, enciphered_text(rt.alloc(), none, 0), want, none)?;
    assert_text(&rt, enciphered_text(rt.alloc(), zeros, 4), want, zeros)?;
    assert_text(&rt, enciphered_text(rt.alloc(), letters, 4), want, letters)
}

#[test]
fn charstrings_shorter_than_len_iv(rt: HostRuntime) -> Result<(), Fail> {
    let three: &[u8] = b"\x10\xbf\x31";
    let four: &[u8] = b"\x10\xbf\x31\x70";
    assert_text(&rt, enciphered_text(rt.alloc(), b"", 0), " end", b"")?;
    assert_text(
        &rt,
        enciphered_text(rt.alloc(), three, 4),
        " short end",
        three,
    )?;
    assert_text(&rt, enciphered_text(rt.alloc(), four, 4), " end", four)?;
    assert_text(&rt, enciphered_text(rt.alloc(), b"", 64), " short end", b"")
}

/// Commands, and how many arguments each takes from the bottom of the stack.
const COUNTS: &[(Command, Option<u8>)] = &[
    (Command::Rrcurveto, Some(6)),
    (Command::Seac, Some(5)),
    (Command::Closepath, Some(0)),
    (Command::Callothersubr, None),
];

#[test]
fn counts_of_arguments(rt: HostRuntime) {
    for (command, count) in COUNTS {
        assert_eq!(rt; command.arguments(), *count);
    }
}
