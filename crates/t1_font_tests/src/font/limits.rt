//! The number of glyphs: 65,535 are read, and one more is refused at its name. No chapter of the standard has this limit.

use super::{Fact, assert_all, unread, with_private};
use std::alloc::Global;
use std::test::Fail;
use t1_font::{MOST_GLYPHS, OpenFont, Unread};

/// A font of the most glyphs, with these lines after them. A glyph's name is its number.
fn with_most_glyphs(alloc: Global, lines: &str) -> Result<OpenFont, Unread> {
    let mut text = Vec::from_slice(alloc, b"/CharStrings 0 dict dup begin\n")?;
    for number in 0..MOST_GLYPHS {
        let line = format!(in alloc; "/{number} 0 RD  ND\n")?;
        text.extend_from_slice(line.as_bytes())?;
    }
    text.extend_from_slice(lines.as_bytes())?;
    with_private(alloc, text.as_slice())
}

/// The lines after the most glyphs, and why the font is refused, if it is.
const ENDS: &[(&str, Option<Unread>)] = &[
    ("end", None),
    ("/0 1 RD x ND end", None),
    ("/x -1", Some(Unread::PastLimit)),
    ("/0 -1", Some(Unread::BadCharStrings)),
];

/// Why a font of the most glyphs with these lines isn't read, if it isn't.
fn unread_after(alloc: Global, lines: &str) -> Result<Option<Unread>, Unread> {
    let mut file = with_most_glyphs(alloc, lines)?;
    unread(alloc, &mut file)
}

/// A name that was given before isn't counted again; the length after one too many isn't read.
#[test]
fn the_most_glyphs_are_read(rt: HostRuntime) -> Result<(), Fail> {
    for (lines, reason) in ENDS {
        assert_eq!(rt; unread_after(rt.alloc(), lines)?, *reason, "{lines}");
    }
    Ok(())
}

/// What the most glyphs are.
const LAST: &[Fact] = &[Fact::Glyphs(65_535), Fact::Glyph(b"65534", Some(b""))];

#[test]
fn the_last_glyph_is_found(rt: HostRuntime) -> Result<(), Fail> {
    let mut file = with_most_glyphs(rt.alloc(), "end")?;
    assert_all(&rt, rt.alloc(), &mut file, LAST)
}
