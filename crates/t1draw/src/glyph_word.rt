//! A glyph's name as a word of the command line: `\xNN` is a byte, and `\\` is `\`.

ghost use Rattle.std.specs.Prelude.{◌≡◌, ◌<◌, IfOk, IfSome, length, option_map};
ghost use Rattle.t1_forms.specs.NameWords.{name_of_word};
ghost use Rattle.t1_forms.specs.NameWords.Begun.{backslash, backslash_x, nothing};
ghost use Rattle.t1draw.specs.Private.FirstBytes.{IsFirstByte};

use hex::FromHex;
use std::alloc::{AllocError, Global};

/// The name that a word is; none where a backslash is before anything else.
pub fn name_in(alloc: Global, word: &str) -> Result<Option<Vec<u8>>, AllocError>
    ensures { IfOk result (λ name. option_map (λ v. v.items) name ≡ name_of_word word.now) }
{
    let mut name = Vec::new(alloc);
    let mut rest = word.as_bytes();
    while !rest.is_empty() {
        let Some((byte, after)) = first_byte(rest) else {
            return Ok(None);
        };
        name.push(byte)?;
        rest = after;
    }
    Ok(Some(name))
}

/// The byte that a word begins with, and what follows it.
fn first_byte(word: &[u8]) -> Option<(u8, &[u8])>
    requires { 0 < length word.now }
    ensures value { IsFirstByte nothing word.now result }
    ensures shorter { IfSome result (λ first. length first.1.now < length word.now) }
{
    match word.split_first()? {
        (b'\\', rest) => escaped_byte(rest),
        (byte, rest) => Some((*byte, rest)),
    }
}

/// The byte that is after a backslash, and what follows it.
fn escaped_byte(bytes: &[u8]) -> Option<(u8, &[u8])>
    ensures value { IsFirstByte backslash bytes.now result }
    ensures shorter { IfSome result (λ first. length first.1.now < length bytes.now) }
{
    match bytes.split_first()? {
        (b'\\', rest) => Some((b'\\', rest)),
        (b'x', rest) => byte_of_digits(rest),
        _ => None,
    }
}

/// The byte of two hexadecimal digits, and what follows them.
fn byte_of_digits(bytes: &[u8]) -> Option<(u8, &[u8])>
    ensures value { IsFirstByte backslash_x bytes.now result }
    ensures shorter { IfSome result (λ first. length first.1.now < length bytes.now) }
{
    let (digits, rest) = bytes.split_first_chunk::<2>()?;
    let [byte] = <[u8; 1]>::from_hex(*digits).ok()?;
    Some((byte, rest))
}
