//! The encrypted section after the word `eexec`: Type 1 Font Format 1.1, chapter 7.

ghost use Rattle.std.specs.Prelude.{◌≡◌, ◌+◌, ◌*◌, true};
ghost use Rattle.std.specs.Vec.{vec_items};
ghost use Rattle.t1_seal.specs.Eexec.{bytes_of_digits, digit_value, digits_of, is_blank, is_digit, is_hexadecimal, is_leading, opened, private_text_of, section_of};
ghost use Rattle.t1_seal.specs.SealError.{Reads};

use crate::errors::SealError;
use crate::opening::{DISCARDED, Opening};
use hex::FromHex;
use std::alloc::Global;

const FORM_FEED: u8 = 12;

/// Returns the private text of a font program, from the bytes after its word `eexec`.
///
/// Blanks, tabs and line ends at its start are skipped. If its first four bytes are hexadecimal digits,
/// the section is digits with blanks among them, up to the first other byte. Any other section is binary,
/// to its end. The first four plain bytes are discarded; if there are fewer, the error is `TooShort`.
pub fn open_eexec(alloc: Global, bytes: &[u8]) -> Result<Vec<u8>, SealError>
    ensures { Reads vec_items result (private_text_of bytes.now) }
{
    let section = without_leading(bytes);
    if begins_with_digits(section) {
        open_hexadecimal(alloc, section)
    } else {
        open_binary(alloc, section)
    }
}

/// The section, without the blanks between it and the word.
fn without_leading(bytes: &[u8]) -> &[u8]
    ensures { result.now ≡ section_of bytes.now }
{
    let mut section = bytes;
    while let [first, rest @ ..] = section {
        if !is_leading_byte(*first) {
            break;
        }
        section = rest;
    }
    section
}

/// Whether the section is written in hexadecimal.
fn begins_with_digits(section: &[u8]) -> bool
    ensures { result ≡ is_hexadecimal section.now }
{
    match section {
        [a, b, c, d, ..] => {
            is_hexadecimal_digit(*a)
                & is_hexadecimal_digit(*b)
                & is_hexadecimal_digit(*c)
                & is_hexadecimal_digit(*d)
        }
        _ => false,
    }
}

/// Opens a section whose bytes are the cipher bytes.
fn open_binary(alloc: Global, section: &[u8]) -> Result<Vec<u8>, SealError>
    ensures { Reads vec_items result (opened section.now) }
{
    let mut text = Opening::of(alloc, section.len())?;
    let (random, rest) = section.split_at(section.len().min(DISCARDED));
    for byte in random {
        text.take(*byte);
    }
    for byte in rest {
        text.take_text(*byte);
    }
    text.finish()
}

/// Opens a section of digits, each pair of which writes a cipher byte.
fn open_hexadecimal(alloc: Global, section: &[u8]) -> Result<Vec<u8>, SealError>
    ensures { Reads vec_items result (opened (bytes_of_digits (digits_of section.now))) }
{
    let mut opening = Opening::of(alloc, section.len() / 2)?;
    let mut high = None;
    for byte in section {
        if is_hexadecimal_digit(*byte) {
            match high {
                None => high = Some(*byte),
                Some(first) => {
                    opening.take(byte_of_digits(first, *byte));
                    high = None;
                }
            }
        } else if !is_blank_byte(*byte) {
            break;
        }
    }
    opening.finish()
}

/// Whether a byte may be between the word and the section.
#[tactic(auto, unfolding(crate::specs::Eexec::is_leading))]
fn is_leading_byte(byte: u8) -> bool
    ensures { result ≡ is_leading byte }
{
    (byte == b' ') | (byte == b'\t') | (byte == b'\r') | (byte == b'\n')
}

/// Whether a byte is a hexadecimal digit, in either case.
fn is_hexadecimal_digit(byte: u8) -> bool
    ensures { result ≡ is_digit byte }
{
    byte.is_ascii_hexdigit()
}

/// Whether a byte is one of the six blanks of font text.
#[tactic(auto, unfolding(crate::specs::Eexec::is_blank))]
fn is_blank_byte(byte: u8) -> bool
    ensures { result ≡ is_blank byte }
{
    (byte == 0)
        | (byte == b'\t')
        | (byte == b'\n')
        | (byte == FORM_FEED)
        | (byte == b'\r')
        | (byte == b' ')
}

/// The byte that two digits write.
fn byte_of_digits(high: u8, low: u8) -> u8
    requires high { is_digit high ≡ true }
    requires low { is_digit low ≡ true }
    ensures { result ≡ digit_value high * 16 + digit_value low }
{
    // This can't fail: both are digits, and two digits are one byte.
    let [byte] = <[u8; 1]>::from_hex([high, low]).unwrap();
    byte
}
