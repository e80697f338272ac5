//! What proofs don't show: that calls succeed, and that the definitions say what the standard and this
//! program's own reading of fonts mean. Expected values are worked out by hand.
//!
//! A row of a table has a text, which is a part of its font, and a fact of that font. Where the font isn't read, it
//! has the reason. Fonts are read from the bytes of a file, by `OpenFont`; the tests of clear texts and of sections
//! test the parts below it.

mod charstrings;
mod clear_texts;
mod encodings;
mod files;
mod limits;
mod private_texts;
mod readers;
mod sections;
mod subrs;
mod values;

use std::alloc::Global;
use std::process::Abort;
use std::test::Fail;
use t1_font::{Encoding, Entry, Font, Key, OpenFont, Unread};
use t1_samples::{FontFile, font_of};

/// A clear text that states nothing.
const NO_CLEAR: &[u8] = b"%!\neexec\n";

/// A private text that states nothing.
const NO_PRIVATE: &[u8] = b"/CharStrings 0 dict dup begin end";

/// Where a row's text is in its font: between which words of which text. The other text states nothing.
#[derive(Clone, Copy)]
enum Part {
    Clear(&'static str, &'static str),
    Private(&'static str, &'static str),
}

/// The lines of the clear text.
const CLEAR_LINES: Part = Part::Clear("%!\n", " eexec\n");

/// The whole private text.
const PRIVATE_TEXT: Part = Part::Private("", "");

/// The lines of the private text before its CharStrings.
const PRIVATE_LINES: Part = Part::Private("", " /CharStrings 0 dict dup begin end");

/// A fact of a font.
#[derive(Clone, Copy)]
enum Fact {
    /// A key has that value.
    Value(Key, Value),
    /// So many glyphs are there.
    Glyphs(usize),
    /// The glyph of a name has that charstring, or isn't there.
    Glyph(&'static [u8], Option<&'static [u8]>),
    /// A place has a glyph of that name and that charstring, or none.
    GlyphAt(usize, Option<(&'static [u8], &'static [u8])>),
    /// The glyph at a place is given twice, or isn't.
    GlyphTwice(usize, bool),
    /// The font has so many Subrs.
    SubrSize(u32),
    /// A Subr has that charstring, or isn't there.
    Subr(u32, Option<&'static [u8]>),
    /// A Subr is given twice, or isn't.
    SubrTwice(u32, bool),
    /// A charstring has so many random bytes before it.
    LenIv(i8),
    /// The Encoding has that form.
    Form(Encoding),
    /// A code has that name, or none.
    Code(u32, Option<&'static [u8]>),
    /// The Encoding has a bad code, or hasn't.
    BadCode(bool),
    /// The file has no end segment, or has one.
    NoEnd(bool),
    /// Bytes are after the end segment, or none.
    Extra(bool),
}

/// The value of a key. Numbers are in units of 10^-9.
#[derive(Clone, Copy)]
enum Value {
    Absent,
    Number(i64),
    /// How many numbers there are, and the first 16.
    Numbers(usize, &'static [i64]),
    Other,
}

fn is_value(entry: &Entry, value: Value) -> bool {
    match (entry, value) {
        (Entry::Absent, Value::Absent) => true,
        (Entry::Number(number), Value::Number(wanted)) => *number == wanted,
        (Entry::Numbers { count, first }, Value::Numbers(wanted, numbers)) => {
            *count == wanted && first.as_slice() == numbers
        }
        (Entry::Other, Value::Other) => true,
        _ => false,
    }
}

fn has_value(font: &Font<'_>, key: Key, value: Value) -> bool {
    is_value(&font.entry(key), value)
}

fn has_glyph(font: &Font<'_>, name: &[u8], bytes: Option<&[u8]>) -> bool {
    font.glyphs().get(&name).copied() == bytes
}

fn has_glyph_at(font: &Font<'_>, place: usize, glyph: Option<(&[u8], &[u8])>) -> bool {
    let found = font.glyphs().get_index(place);
    found.map(|(name, bytes)| (*name, *bytes)) == glyph
}

/// Whether that is a fact of a font.
fn holds(font: &Font<'_>, fact: Fact) -> bool {
    match fact {
        Fact::Value(key, value) => has_value(font, key, value),
        Fact::Glyphs(count) => font.glyphs().len() == count,
        Fact::Glyph(name, bytes) => has_glyph(font, name, bytes),
        Fact::GlyphAt(place, glyph) => has_glyph_at(font, place, glyph),
        Fact::GlyphTwice(place, twice) => font.glyph_twice(place) == twice,
        Fact::SubrSize(size) => font.subr_size() == size,
        Fact::Subr(number, bytes) => font.subr(number) == bytes,
        Fact::SubrTwice(number, twice) => font.subr_twice(number) == twice,
        Fact::LenIv(len_iv) => font.len_iv() == len_iv,
        Fact::Form(encoding) => font.encoding() == encoding,
        Fact::Code(code, name) => font.encoded(code) == name,
        Fact::BadCode(bad) => font.bad_code() == bad,
        Fact::NoEnd(missing) => font.no_end() == missing,
        Fact::Extra(extra) => font.extra() == extra,
    }
}

/// The file of a font with these texts, opened. White space ends the clear text.
fn with_texts(alloc: Global, clear: &[u8], private: &[u8]) -> Result<OpenFont, Unread> {
    let file = FontFile::of(clear, private).pfa(alloc)?;
    OpenFont::open(alloc, file.as_slice())
}

/// A font with this private text.
fn with_private(alloc: Global, private: &[u8]) -> Result<OpenFont, Unread> {
    with_texts(alloc, NO_CLEAR, private)
}

/// A font with this text as a part.
fn with_part(alloc: Global, part: Part, text: &str) -> Result<OpenFont, Unread> {
    match part {
        Part::Clear(front, back) => {
            let clear = format!(in alloc; "{front}{text}{back}")?;
            with_texts(alloc, clear.as_bytes(), NO_PRIVATE)
        }
        Part::Private(front, back) => {
            let private = format!(in alloc; "{front}{text}{back}")?;
            with_private(alloc, private.as_bytes())
        }
    }
}

/// Whether that is a fact of a file's font.
fn holds_in(alloc: Global, file: &mut OpenFont, fact: Fact) -> Result<bool, Unread> {
    let font = font_of(alloc, file)?;
    Ok(holds(&font, fact))
}

/// Whether that is a fact of the font with this text as a part.
fn holds_with(alloc: Global, part: Part, text: &str, fact: Fact) -> Result<bool, Unread> {
    let mut file = with_part(alloc, part, text)?;
    holds_in(alloc, &mut file, fact)
}

/// A font with each of these texts as that part has the fact beside it.
fn assert_facts(
    rt: &impl Abort,
    alloc: Global,
    part: Part,
    cases: &[(&str, Fact)],
) -> Result<(), Fail> {
    for (row, (text, fact)) in cases.iter().enumerate() {
        assert!(rt; holds_with(alloc, part, text, *fact)?, "row {row}: {text}");
    }
    Ok(())
}

/// A file's font has all of these facts.
fn assert_all(
    rt: &impl Abort,
    alloc: Global,
    file: &mut OpenFont,
    facts: &[Fact],
) -> Result<(), Fail> {
    for (row, fact) in facts.iter().enumerate() {
        assert!(rt; holds_in(alloc, file, *fact)?, "row {row}");
    }
    Ok(())
}

/// Why a file's font isn't read, if it isn't. Want of memory is an error.
fn unread(alloc: Global, file: &mut OpenFont) -> Result<Option<Unread>, Unread> {
    match font_of(alloc, file) {
        Ok(_) => Ok(None),
        Err(Unread::Memory) => Err(Unread::Memory),
        Err(unread) => Ok(Some(unread)),
    }
}

/// Why a font with this text as a part isn't read, if it isn't.
fn unread_with(alloc: Global, part: Part, text: &str) -> Result<Option<Unread>, Unread> {
    let mut file = with_part(alloc, part, text)?;
    unread(alloc, &mut file)
}

/// A font with each of these texts as that part isn't read, for the reason beside it.
fn assert_unread(
    rt: &impl Abort,
    alloc: Global,
    part: Part,
    cases: &[(&str, Unread)],
) -> Result<(), Fail> {
    for (text, unread) in cases {
        assert_eq!(rt; unread_with(alloc, part, text)?, Some(*unread), "{text}");
    }
    Ok(())
}
