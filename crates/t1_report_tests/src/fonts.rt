//! Fonts that are written as words, and what the fonts of several tests begin with.

use std::alloc::{AllocError, Global};
use std::test::Fail;
use t1_samples::{Sample, assembled};

/// The file of a sound font with these parts, which have bars between them. A part is a name, a colon and words: a
/// number names a Subr, `key` a line of the private text, `encoding` that of the Encoding, `subrs` that before the Subrs,
/// and all else a glyph.
pub(super) fn file_of(alloc: Global, parts: &str) -> Result<Vec<u8>, Fail> {
    let mut sample = Sample::new(alloc)?;
    for part in parts.split('|') {
        sample = with_part(alloc, sample, part)?;
    }
    Ok(sample.pfb()?)
}

/// The sample with one more part, if a colon is in these words.
fn with_part(alloc: Global, sample: Sample, part: &str) -> Result<Sample, Fail> {
    match part.split_once(':') {
        Some((name, words)) => with_named(alloc, sample, name.trim(), words.trim()),
        None => Ok(sample),
    }
}

fn with_named(alloc: Global, sample: Sample, name: &str, words: &str) -> Result<Sample, Fail> {
    if name == "key" {
        Ok(sample.key(words.as_bytes())?)
    } else if name == "encoding" || name == "subrs" {
        Ok(with_line(alloc, sample, name, words)?)
    } else {
        with_code(alloc, sample, name, words)
    }
}

/// The sample with this line in place of the Encoding or before the Subrs.
fn with_line(alloc: Global, sample: Sample, name: &str, words: &str) -> Result<Sample, AllocError> {
    let line = format!(in alloc; "{words}\n")?;
    if name == "subrs" {
        sample.subrs(line.as_bytes())
    } else {
        sample.encoding(line.as_bytes())
    }
}

/// The sample with one more Subr or glyph.
fn with_code(alloc: Global, sample: Sample, name: &str, words: &str) -> Result<Sample, Fail> {
    let code = code_of(alloc, words)?;
    match name.parse::<u32>() {
        Ok(number) => Ok(sample.subr(number, code.as_slice())?),
        Err(_) => Ok(sample.glyph(name.as_bytes(), code.as_slice())?),
    }
}

/// The charstring of words, of which those in braces come as often as their first says.
fn code_of(alloc: Global, words: &str) -> Result<Vec<u8>, Fail> {
    let mut text = String::new(alloc);
    for part in words.split('{') {
        add_repeated(&mut text, part)?;
    }
    assembled(alloc, text.as_str())
}

/// Adds words up to the brace as often as their first says, and the others once.
fn add_repeated(text: &mut String, part: &str) -> Result<(), Fail> {
    let Some((block, rest)) = part.split_once('}') else {
        return Ok(text.push_str(part)?);
    };
    let (times, words) = block.split_once(' ').ok_or("words that are repeated")?;
    for _ in 0..times.parse::<u32>()? {
        add_words(text, words)?;
    }
    Ok(text.push_str(rest)?)
}

fn add_words(text: &mut String, words: &str) -> Result<(), AllocError> {
    text.push_str(words)?;
    text.push_str(" ")
}

/// The words are a glyph A.
pub(super) const IN_A: &str = "A: ";

/// The words are a glyph C beside A, of sidebearing 0, and B, of sidebearing 7.
pub(super) const IN_C: &str = "A: 0 500 hsbw endchar | B: 7 500 hsbw endchar | C: ";

/// The words are a glyph A. Subr 4 has seven points of a flex, each after a move by 1 to the right, and Subr 5 has one.
pub(super) const WITH_POINTS: &str = "\
4: {7 1 hmoveto 0 2 callothersubr} return |\
5: 1 hmoveto 0 2 callothersubr return |\
A: ";

/// The words are a glyph A. Subrs 4 and 5 have 94 stems each, from 0 to 94, each of them a unit wide and right above
/// the one before.
pub(super) const WITH_MANY_STEMS: &str = "\
3: return |\
4: 0 1 hstem 1 1 hstem 2 1 hstem 3 1 hstem 4 1 hstem 5 1 hstem 6 1 hstem 7 1 hstem 8 1 hstem \
9 1 hstem 10 1 hstem 11 1 hstem 12 1 hstem 13 1 hstem 14 1 hstem 15 1 hstem 16 1 hstem 17 1 hstem \
18 1 hstem 19 1 hstem 20 1 hstem 21 1 hstem 22 1 hstem 23 1 hstem 24 1 hstem 25 1 hstem 26 1 hstem \
27 1 hstem 28 1 hstem 29 1 hstem 30 1 hstem 31 1 hstem 32 1 hstem 33 1 hstem 34 1 hstem 35 1 hstem \
36 1 hstem 37 1 hstem 38 1 hstem 39 1 hstem 40 1 hstem 41 1 hstem 42 1 hstem 43 1 hstem 44 1 hstem \
45 1 hstem 46 1 hstem 47 1 hstem 48 1 hstem 49 1 hstem 50 1 hstem 51 1 hstem 52 1 hstem 53 1 hstem \
54 1 hstem 55 1 hstem 56 1 hstem 57 1 hstem 58 1 hstem 59 1 hstem 60 1 hstem 61 1 hstem 62 1 hstem \
63 1 hstem 64 1 hstem 65 1 hstem 66 1 hstem 67 1 hstem 68 1 hstem 69 1 hstem 70 1 hstem 71 1 hstem \
72 1 hstem 73 1 hstem 74 1 hstem 75 1 hstem 76 1 hstem 77 1 hstem 78 1 hstem 79 1 hstem 80 1 hstem \
81 1 hstem 82 1 hstem 83 1 hstem 84 1 hstem 85 1 hstem 86 1 hstem 87 1 hstem 88 1 hstem 89 1 hstem \
90 1 hstem 91 1 hstem 92 1 hstem 93 1 hstem return |\
5: 0 1 vstem 1 1 vstem 2 1 vstem 3 1 vstem 4 1 vstem 5 1 vstem 6 1 vstem 7 1 vstem 8 1 vstem \
9 1 vstem 10 1 vstem 11 1 vstem 12 1 vstem 13 1 vstem 14 1 vstem 15 1 vstem 16 1 vstem 17 1 vstem \
18 1 vstem 19 1 vstem 20 1 vstem 21 1 vstem 22 1 vstem 23 1 vstem 24 1 vstem 25 1 vstem 26 1 vstem \
27 1 vstem 28 1 vstem 29 1 vstem 30 1 vstem 31 1 vstem 32 1 vstem 33 1 vstem 34 1 vstem 35 1 vstem \
36 1 vstem 37 1 vstem 38 1 vstem 39 1 vstem 40 1 vstem 41 1 vstem 42 1 vstem 43 1 vstem 44 1 vstem \
45 1 vstem 46 1 vstem 47 1 vstem 48 1 vstem 49 1 vstem 50 1 vstem 51 1 vstem 52 1 vstem 53 1 vstem \
54 1 vstem 55 1 vstem 56 1 vstem 57 1 vstem 58 1 vstem 59 1 vstem 60 1 vstem 61 1 vstem 62 1 vstem \
63 1 vstem 64 1 vstem 65 1 vstem 66 1 vstem 67 1 vstem 68 1 vstem 69 1 vstem 70 1 vstem 71 1 vstem \
72 1 vstem 73 1 vstem 74 1 vstem 75 1 vstem 76 1 vstem 77 1 vstem 78 1 vstem 79 1 vstem 80 1 vstem \
81 1 vstem 82 1 vstem 83 1 vstem 84 1 vstem 85 1 vstem 86 1 vstem 87 1 vstem 88 1 vstem 89 1 vstem \
90 1 vstem 91 1 vstem 92 1 vstem 93 1 vstem return |\
A: ";

/// The words are glyphs. Subr 0 is 99,987 steps and a return. Subr 5 is ten times dotsection, and Subrs 4, 3 and 2 call
/// the next one ten times.
pub(super) const WITH_LONG_SUBRS: &str = "\
0: {7 2 callsubr} {4 3 callsubr} {9 4 callsubr} {9 5 callsubr} {10 dotsection} return |\
2: {10 3 callsubr} return |\
3: {10 4 callsubr} return |\
4: {10 5 callsubr} return |\
5: {10 dotsection} return |";
