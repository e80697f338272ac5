//! Lists of names.

ghost use Rattle.std.specs.Prelude.{◌≡◌, not, false, true, IfOk, MatchOption, count_by, filter, map, string_bytes};
ghost use Rattle.std.specs.Str.{is_utf8};
ghost use Rattle.t1_names.specs.Lists.{is_word, lines_of, unreadable_in, words_in};
ghost use Rattle.t1_names.specs.Words.{file_name};

use crate::words::file_name;
use std::alloc::{AllocError, Global};
use std::str;

/// Words that may name fonts and folders.
#[derive(Drop)]
pub struct Words {
    /// Those that are UTF-8, in their order.
    pub words: Vec<String>,
    /// How many aren't; 2^64 - 1 where there are more.
    pub undecoded: usize,
}

/// The words of a list, one per line. Empty lines are skipped; the last line may have no end. `-` is the name of a file here, `./-`.
pub fn words_in(alloc: Global, text: &[u8]) -> Result<Words, AllocError>
    ensures words { IfOk result (λ read. map string_bytes read.words.items ≡ words_in text.now) }
    ensures undecoded { IfOk result (λ read. read.undecoded ≡ unreadable_in text.now) }
{
    let lines = lines_of(alloc, text)?;
    let undecoded = unreadable(lines.as_slice());
    let words = words_of(alloc, lines)?;
    Ok(Words { words, undecoded })
}

/// The lines of a text.
fn lines_of(alloc: Global, text: &[u8]) -> Result<Vec<&[u8]>, AllocError>
    ensures { IfOk result (λ lines. map (λ line. line.now) lines.items ≡ lines_of text.now) }
{
    text.split(|byte| *byte == b'\n').collect(alloc)
}

/// How many lines aren't UTF-8.
fn unreadable(lines: &[&[u8]]) -> usize
    ensures { result ≡ count_by (λ line. not (is_utf8 line)) (map (λ line. line.now) lines.now) }
{
    lines.iter().filter(|line| !is_text(line)).count()
}

/// The words among lines.
fn words_of(alloc: Global, lines: Vec<&[u8]>) -> Result<Vec<String>, AllocError>
    ensures { IfOk result (λ words. map string_bytes words.items ≡ map file_name (filter is_word (map (λ line. line.now) lines.entry.items))) }
{
    let mut words = Vec::new(alloc);
    for line in lines {
        if let Some(word) = word_of(line) {
            words.push(String::from_str(alloc, file_name(word))?)?;
        }
    }
    Ok(words)
}

/// The word in a line.
fn word_of(line: &[u8]) -> Option<&str>
    ensures { MatchOption result (is_word line.now ≡ false) (λ word. (word.now ≡ line.now) × (is_word line.now ≡ true)) }
{
    match str::from_utf8(line) {
        Ok(word) => { if word.is_empty() { None } else { Some(word) } }
        Err(_) => None,
    }
}

/// Whether a line is UTF-8.
fn is_text(line: &[u8]) -> bool
    ensures { result ≡ is_utf8 line.now }
{
    match str::from_utf8(line) {
        Ok(_) => true,
        Err(_) => false,
    }
}
