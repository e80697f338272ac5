//! Reasons on a terminal, in lines that are no wider than it.

ghost use Rattle.std.specs.Prelude.{◌≡◌, ◌++◌, IfOk, OnOk, map, option_map};
ghost use Rattle.t1_printers.specs.Wrapped.{reason_words, room_behind, word_text, words_of, wrapped};

use crate::width::width;
use std::alloc::{AllocError, Global};

/// Appends the words of a reason, if there is one: as many in a line as fit, each line after three blanks, and none ended.
pub(crate) fn push_reason(
    alloc: Global,
    text: &mut Vec<u8>,
    columns: usize,
    reason: Option<&str>,
) -> Result<(), AllocError>
    ensures { OnOk result (text.new.items ≡ text.old.items ++ wrapped columns 0 (reason_words (option_map (λ t. t.now) reason.entry))) }
{
    let Some(reason) = reason else {
        return Ok(());
    };
    let words = words_of(alloc, reason.as_bytes())?;
    push_words(text, columns, words.as_slice())
}

/// What is between the blanks of a text.
fn words_of(alloc: Global, text: &[u8]) -> Result<Vec<&[u8]>, AllocError>
    ensures { IfOk result (λ words. map (λ word. word.now) words.items ≡ words_of text.now) }
{
    text.split(|byte| *byte == b' ').collect(alloc)
}

/// Appends words after a line without room.
fn push_words(text: &mut Vec<u8>, columns: usize, words: &[&[u8]]) -> Result<(), AllocError>
    ensures { OnOk result (text.new.items ≡ text.old.items ++ wrapped columns 0 (map (λ word. word.now) words.now)) }
{
    let mut room = 0;
    for word in words {
        push_word(text, room, word)?;
        room = room_behind(columns, room, word);
    }
    Ok(())
}

/// Appends a word after a line with so much room.
fn push_word(text: &mut Vec<u8>, room: usize, word: &[u8]) -> Result<(), AllocError>
    ensures { OnOk result (text.new.items ≡ text.old.items ++ word_text room word.now) }
{
    let before = if width(word) < room {
        b" ".as_slice()
    } else {
        b"\n   ".as_slice()
    };
    text.extend_from_slice(before)?;
    text.extend_from_slice(word)
}

/// The room of the line that a word is in.
fn room_behind(columns: usize, room: usize, word: &[u8]) -> usize
    ensures { result ≡ room_behind columns room word.now }
{
    let width = width(word);
    if width < room {
        room.saturating_sub(1).saturating_sub(width)
    } else {
        columns.saturating_sub(3).saturating_sub(width)
    }
}
