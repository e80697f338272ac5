//! Where the encrypted section begins and which form it has: Type 1 Font Format 1.1, chapter 7.

use super::clear_texts::pfa;
use std::alloc::Global;
use std::test::Fail;
use t1_font::{Unread, read_clear};
use t1_seal::{SealError, open_eexec};

/// The place where the encrypted section of a PFA file begins.
fn section_start(alloc: Global, file: &[u8]) -> Result<usize, Unread> {
    let joined = pfa(alloc, file)?;
    let clear = read_clear(alloc, &joined)?;
    let after = clear.after();
    clear.let_go();
    Ok(after)
}

/// Clear texts, and where the section after each begins.
const PLACES: &[(&str, usize)] = &[
    ("%!\neexec", 8),
    ("%!\neexec(", 8),
    ("%!\neexec eexec", 8),
    ("%!\ncurrentfile eexec\n", 20),
    ("%!\n/FontType eexec eexec", 24),
    ("%!\n/Encoding eexec eexec", 18),
    ("%!\n/Encoding 256 array dup 65 /A eexec put def eexec", 38),
];

/// The place after the word, whatever follows it.
#[test]
fn the_section_begins_after_the_word(rt: HostRuntime) -> Result<(), Fail> {
    for (text, after) in PLACES {
        assert_eq!(rt;
            section_start(rt.alloc(), text.as_bytes())?,
            *after,
            "{text}"
        );
    }
    Ok(())
}

/// How many bytes of private text the section of a PFA file opens to; none where it is too short.
fn text_length(alloc: Global, file: &[u8]) -> Result<Option<usize>, Fail> {
    let section = file
        .get(section_start(alloc, file)?..)
        .ok_or("the section")?;
    match open_eexec(alloc, section) {
        Ok(text) => Ok(Some(text.len())),
        Err(SealError::TooShort) => Ok(None),
        Err(error) => Err(error.into()),
    }
}

/// PFA files, and how many bytes of private text each has.
const SECTIONS: &[(&[u8], Option<usize>)] = &[
    (b"%!\n/FontType /WeightVector eexec", None),
    (b"%!\neexec\r\n\xd9\xd6\x6f", None),
    (b"%!\neexec \t\r\n\xd9\xd6\x6f\x63", Some(0)),
    (b"%!\neexec(\xd9\xd6\x6f\x63", Some(1)),
    (b"%!\neexec\x0c\xd9\xd6\x6f\x63", Some(1)),
    (b"%!\neexec\0\xd9\xd6\x6f\x63", Some(1)),
    (b"%!\neexec d9d66f63", Some(0)),
    (b"%!\neexec d9d6\0\x0c6f63cleartomark", Some(0)),
    (b"%!\neexec \x41\xba\x2d\x3c", Some(0)),
];

/// Blanks, tabs and line ends alone are skipped at the beginning; four bytes are enough, and make no text.
#[test]
fn sections_are_opened(rt: HostRuntime) -> Result<(), Fail> {
    for (file, length) in SECTIONS {
        assert_eq!(rt; text_length(rt.alloc(), file)?, *length, "{file:?}");
    }
    Ok(())
}
