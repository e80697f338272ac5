//! The words of the command line.

use std::alloc::{AllocError, Global};
use std::env::{Env, FillError};
use t1_answer_all::PROGRAM;

/// The program's name, as clap prints it, and the words that it was started with. A word that isn't UTF-8 comes after a NUL, by which
/// [`is_marked`](t1_options::is_marked) knows it, with U+FFFD in the place of what isn't.
pub(crate) fn words_given(rt: &HostRuntime) -> Result<Vec<String>, AllocError> {
    let alloc = rt.alloc();
    let mut words = Vec::new(alloc);
    words.push(String::from_str(alloc, PROGRAM)?)?;
    let mut buffer = vec![in alloc; 0u8; 4096]?;
    for place in 1..usize::MAX {
        let Some(word) = word_at(rt, place, &mut buffer)? else {
            break;
        };
        words.push(word)?;
    }
    Ok(words)
}

/// The word at a place: None where there is no such word. The buffer grows to what the word needs.
fn word_at(
    rt: &HostRuntime,
    place: usize,
    buffer: &mut Vec<u8>,
) -> Result<Option<String>, AllocError> {
    for _grown in 0..usize::MAX {
        match rt.arg(place, buffer.as_mut_slice()) {
            Ok(length) => return Ok(Some(word_of(rt.alloc(), &buffer.as_slice()[..length])?)),
            Err(FillError::NotPresent) => return Ok(None),
            Err(FillError::TooLong) => {
                let length = buffer.len();
                buffer.resize(length.saturating_mul(2), 0)?;
            }
        }
    }
    Ok(None)
}

/// The word of these bytes.
fn word_of(alloc: Global, bytes: &[u8]) -> Result<String, AllocError> {
    if let Ok(text) = str::from_utf8(bytes) {
        return String::from_str(alloc, text);
    }
    let mut word = String::from_str(alloc, "\0")?;
    word.push_str(String::from_utf8_lossy(alloc, bytes)?.as_str())?;
    Ok(word)
}
