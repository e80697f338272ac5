//! What the value of one option means, if anything.

ghost use Rattle.std.specs.Prelude.{◌≡◌, option_and_then, option_map};
ghost use Rattle.std.specs.List.{list_all};
ghost use Rattle.t1_many.specs.Unchecked.{has_line_end};
ghost use Rattle.t1_options.specs.Values.{begins, edition_in, file_in, form_in, is_marked, is_number, number_in, part_of, shard_in, shard_of, url_in};
ghost use Rattle.t1_scan.specs.Bytes.{is_decimal_digit};

use crate::asked::{Format, Shard};
use t1_char::Edition;

/// The number of an option, if it is one.
pub(crate) fn number(value: Option<&str>) -> Option<u32>
    ensures { result ≡ option_and_then number_in (option_map (λ s. s.now) value.entry) }
{
    number_in(value?)
}

/// The edition of `--edition`, if it is one.
pub(crate) fn edition(value: Option<&str>) -> Option<Edition>
    ensures { result ≡ option_and_then edition_in (option_map (λ s. s.now) value.entry) }
{
    edition_in(value?)
}

/// The file of `--baseline`, if it is one.
pub(crate) fn baseline(value: Option<&str>) -> Option<&str>
    ensures { option_map (λ s. s.now) result ≡ option_and_then file_in (option_map (λ s. s.now) value.entry) }
{
    file_in(value?)
}

/// The form of `--format`, if it is one.
pub(crate) fn form(value: Option<&str>) -> Option<Format>
    ensures { result ≡ option_and_then form_in (option_map (λ s. s.now) value.entry) }
{
    form_in(value?)
}

/// The URL of `--docs`, if it is one.
pub(crate) fn docs(value: Option<&str>) -> Option<&str>
    ensures { option_map (λ s. s.now) result ≡ option_and_then url_in (option_map (λ s. s.now) value.entry) }
{
    url_in(value?)
}

/// The part of `--shard`, if it is one.
pub(crate) fn shard(value: Option<&str>) -> Option<Shard>
    ensures { result ≡ option_and_then shard_in (option_map (λ s. s.now) value.entry) }
{
    shard_in(value?)
}

/// Whether the first byte is this one.
fn begins(byte: u8, text: &[u8]) -> bool
    ensures { result ≡ begins byte text.now }
{
    match text {
        [] => false,
        [first, ..] => *first == byte,
    }
}

/// Whether a word begins with a NUL, which marks one that isn't UTF-8: no word of a command line has a NUL.
pub fn is_marked(word: &str) -> bool
    ensures { result ≡ is_marked word.now }
{
    begins(0, word.as_bytes())
}

/// Whether a text has a line end.
pub(crate) fn has_line_end(text: &str) -> bool
    ensures { result ≡ has_line_end text.now }
{
    text.as_bytes().contains(&b'\n')
}

/// Whether all bytes are digits.
fn are_digits(text: &[u8]) -> bool
    ensures { result ≡ list_all is_decimal_digit text.now }
{
    text.iter().all(|byte| byte.is_ascii_digit())
}

/// Whether this is one to five digits, of which the first is not 0.
fn is_number(text: &[u8]) -> bool
    ensures { result ≡ is_number text.now }
{
    !text.is_empty() & !begins(b'0', text) & (text.len() < 6) & are_digits(text)
}

/// A number from 1 to 99,999, without leading zeros.
fn number_in(text: &str) -> Option<u32>
    ensures { result ≡ number_in text.now }
{
    if is_number(text.as_bytes()) {
        text.parse::<u32>().ok()
    } else {
        None
    }
}

/// An edition of the rule book.
fn edition_in(text: &str) -> Option<Edition>
    ensures { result ≡ edition_in text.now }
{
    Edition::numbered(u64::from(number_in(text)?))
}

/// The name of a file: it is not empty.
fn file_in(text: &str) -> Option<&str>
    ensures { option_map (λ s. s.now) result ≡ file_in text.now }
{
    if text.is_empty() { None } else { Some(text) }
}

/// A URL: it is not empty and does not begin with a minus.
fn url_in(text: &str) -> Option<&str>
    ensures { option_map (λ s. s.now) result ≡ url_in text.now }
{
    if text.is_empty() | begins(b'-', text.as_bytes()) {
        None
    } else {
        Some(text)
    }
}

/// A form of output.
fn form_in(text: &str) -> Option<Format>
    ensures { result ≡ form_in text.now }
{
    if text == "jsonl" {
        Some(Format::JsonLines)
    } else if text == "sarif" {
        Some(Format::Sarif)
    } else if text == "github" {
        Some(Format::GitHub)
    } else if text == "junit" {
        Some(Format::JUnit)
    } else {
        None
    }
}

/// Part I of N, by `I/N`.
fn shard_in(text: &str) -> Option<Shard>
    ensures { result ≡ shard_in text.now }
{
    match text.split_once('/') {
        Some((part, parts)) => shard_of(part, parts),
        None => None,
    }
}

/// Part I of N, by I and N.
fn shard_of(part: &str, parts: &str) -> Option<Shard>
    ensures { result ≡ shard_of part.now parts.now }
{
    part_of(number_in(part)?, number_in(parts)?)
}

/// Such a part, where it is one of them.
fn part_of(part: u32, parts: u32) -> Option<Shard>
    ensures { result ≡ part_of part parts }
{
    if parts < part {
        None
    } else {
        Some(Shard { part, parts })
    }
}
