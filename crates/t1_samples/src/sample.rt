//! The texts of a small font: Type 1 Font Format 1.1, chapters 2 and 5.

use crate::cipher::charstring;
use crate::file::FontFile;
use std::alloc::{AllocError, Global};

/// The clear text of the sample with its standard Encoding, up to the line end after `eexec`.
pub const CLEAR: &[u8] = b"%!PS-AdobeFont-1.0: T\n/FontType 1 def\n/PaintType 0 def\n\
/Encoding StandardEncoding def\ncurrentfile eexec\n";

/// The plain charstring of `.notdef`: `0 500 hsbw endchar`.
pub const NOTDEF: &[u8] = b"\x8b\xf8\x88\x0d\x0e";

/// How charstrings are written in the private text.
#[derive(Clone, Copy, Debug, PartialEq, Eq)]
pub enum Charstrings {
    /// As they are, under `/lenIV -1`.
    Plain,
    /// Encrypted after so many zero bytes, under that number as `/lenIV`.
    Encrypted(u8),
    /// Encrypted after four zero bytes, without a `/lenIV`.
    WithoutLenIv,
}

/// A small font while it is put together. What a call adds comes after what was added before.
#[derive(Drop)]
pub struct Sample {
    alloc: Global,
    charstrings: Charstrings,
    encoding: Vec<u8>,
    keys: Vec<u8>,
    subrs: Vec<u8>,
    /// What ends the Subrs.
    subrs_end: &'static [u8],
    glyphs: Vec<u8>,
}

impl Sample {
    /// A font with the standard Encoding, plain charstrings, no Subr, and the glyph `.notdef` alone.
    pub fn new(alloc: Global) -> Result<Sample, AllocError> {
        Sample::with_charstrings(alloc, Charstrings::Plain)
    }

    /// The same, with its charstrings in that form.
    pub fn with_charstrings(alloc: Global, charstrings: Charstrings) -> Result<Sample, AllocError> {
        let keys = match charstrings {
            Charstrings::Plain => Vec::from_slice(alloc, b"/lenIV -1 def\n")?,
            Charstrings::Encrypted(zeros) => {
                format!(in alloc; "/lenIV {zeros} def\n")?.into_bytes()
            }
            Charstrings::WithoutLenIv => Vec::new(alloc),
        };
        let sample = Sample {
            alloc,
            charstrings,
            encoding: Vec::from_slice(alloc, b"/Encoding StandardEncoding def\n")?,
            keys,
            subrs: Vec::from_slice(alloc, b"/Subrs 6 array\n")?,
            subrs_end: b"ND\n",
            glyphs: Vec::new(alloc),
        };
        sample.glyph(b".notdef", NOTDEF)
    }

    /// Puts these lines, which end with a line end, in place of the Encoding's.
    pub fn encoding(mut self, lines: &[u8]) -> Result<Sample, AllocError> {
        self.encoding = Vec::from_slice(self.alloc, lines)?;
        Ok(self)
    }

    /// Adds a line, given without its line end, after that of `/lenIV`.
    pub fn key(mut self, line: &[u8]) -> Result<Sample, AllocError> {
        self.keys.extend_from_slice(line)?;
        self.keys.extend_from_slice(b"\n")?;
        Ok(self)
    }

    /// Puts these lines, which end with a line end, in place of the Subrs'.
    pub fn subrs(mut self, lines: &[u8]) -> Result<Sample, AllocError> {
        self.subrs = Vec::from_slice(self.alloc, lines)?;
        self.subrs_end = b"";
        Ok(self)
    }

    /// Adds a Subr's line, of its plain charstring.
    pub fn subr(mut self, number: u32, bytes: &[u8]) -> Result<Sample, AllocError> {
        let head = format!(in self.alloc; "dup {number}")?;
        let entry = entry(self.alloc, self.charstrings, head.as_bytes(), bytes)?;
        self.subrs.extend_from_slice(entry.as_slice())?;
        self.subrs.extend_from_slice(b" NP\n")?;
        Ok(self)
    }

    /// Adds a glyph's line, of its name without the slash and its plain charstring.
    pub fn glyph(mut self, name: &[u8], bytes: &[u8]) -> Result<Sample, AllocError> {
        let entry = entry(self.alloc, self.charstrings, name, bytes)?;
        self.glyphs.extend_from_slice(b"/")?;
        self.glyphs.extend_from_slice(entry.as_slice())?;
        self.glyphs.extend_from_slice(b" ND\n")?;
        Ok(self)
    }

    /// The clear text, up to the line end after `eexec`.
    pub fn clear(&self) -> Result<Vec<u8>, AllocError> {
        let mut text = Vec::from_slice(
            self.alloc,
            b"%!PS-AdobeFont-1.0: T\n/FontType 1 def\n/PaintType 0 def\n",
        )?;
        text.extend_from_slice(self.encoding.as_slice())?;
        text.extend_from_slice(b"currentfile eexec\n")?;
        Ok(text)
    }

    /// The private text, up to the line end after the `end` of the CharStrings.
    pub fn private(&self) -> Result<Vec<u8>, AllocError> {
        let mut text = Vec::from_slice(
            self.alloc,
            b"dup /Private 8 dict dup begin\n/password 5839 def\n/MinFeature {16 16} def\n",
        )?;
        text.extend_from_slice(self.keys.as_slice())?;
        text.extend_from_slice(self.subrs.as_slice())?;
        text.extend_from_slice(self.subrs_end)?;
        text.extend_from_slice(b"2 index /CharStrings 4 dict dup begin\n")?;
        text.extend_from_slice(self.glyphs.as_slice())?;
        text.extend_from_slice(b"end\n")?;
        Ok(text)
    }

    /// The font as a PFB file of a text segment, a binary segment and an end segment.
    pub fn pfb(&self) -> Result<Vec<u8>, AllocError> {
        let clear = self.clear()?;
        let private = self.private()?;
        FontFile::of(clear.as_slice(), private.as_slice()).pfb(self.alloc)
    }
}

/// What an entry is called, its length, `RD` and its charstring.
fn entry(
    alloc: Global,
    charstrings: Charstrings,
    head: &[u8],
    bytes: &[u8],
) -> Result<Vec<u8>, AllocError> {
    let cipher = match charstrings {
        Charstrings::Plain => Vec::from_slice(alloc, bytes)?,
        Charstrings::Encrypted(zeros) => charstring(alloc, zeros, bytes)?,
        Charstrings::WithoutLenIv => charstring(alloc, 4, bytes)?,
    };
    let len = cipher.len();
    let length = format!(in alloc; " {len} RD ")?;
    let mut text = Vec::from_slice(alloc, head)?;
    text.extend_from_slice(length.as_bytes())?;
    text.extend_from_slice(cipher.as_slice())?;
    Ok(text)
}
