//! Lists of names.

use crate::names::are_lines;
use std::alloc::{AllocError, Global};
use std::test::Fail;
use t1_names::words_in;

/// The bytes of a list, its words, and how many lines are none.
const LISTS: &[(&[u8], &str, usize)] = &[
    (
        b"a.pfb\n\n  b c.pfb \n-q\n\xff.pfb\n./fonts/\r\n\n\xc3\xa9.pfb",
        "a.pfb\n  b c.pfb \n-q\n./fonts/\r\né.pfb\n",
        1,
    ),
    (b"", "", 0),
];

/// Whether a list has these words.
fn is_read(alloc: Global, bytes: &[u8], words: &str, undecoded: usize) -> Result<bool, AllocError> {
    let read = words_in(alloc, bytes)?;
    Ok(are_lines(read.words.as_slice(), words) && read.undecoded == undecoded)
}

#[test]
fn reads_a_name_a_line(rt: HostRuntime) -> Result<(), Fail> {
    for (bytes, words, undecoded) in LISTS {
        assert!(rt; is_read(rt.alloc(), bytes, words, *undecoded)?, "{bytes:?}");
    }
    Ok(())
}
