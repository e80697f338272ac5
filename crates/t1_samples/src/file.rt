//! Font files: Technical Note 5040, the IBM PC format, and Type 1 Font Format 1.1, chapter 7.

ghost use Rattle.std.specs.Prelude.{◌≡◌, ◌++◌, IfOk};
ghost use Rattle.t1_seal.specs.Cipher.{eexec_start};
ghost use Rattle.t1_seal.specs.Laws.Cipher.{encrypted};

use crate::cipher::eexec;
use std::alloc::{AllocError, Global};

/// The segment that ends a PFB file.
pub const END_SEGMENT: &[u8] = b"\x80\x03";

/// What follows the encrypted section: 512 zeros in lines of 64, and `cleartomark`.
pub const TRAILER: &[u8] = b"\
0000000000000000000000000000000000000000000000000000000000000000\n\
0000000000000000000000000000000000000000000000000000000000000000\n\
0000000000000000000000000000000000000000000000000000000000000000\n\
0000000000000000000000000000000000000000000000000000000000000000\n\
0000000000000000000000000000000000000000000000000000000000000000\n\
0000000000000000000000000000000000000000000000000000000000000000\n\
0000000000000000000000000000000000000000000000000000000000000000\n\
0000000000000000000000000000000000000000000000000000000000000000\n\
cleartomark\n";

/// What is inside pairs of hexadecimal digits: before the second digit of every third byte.
const BREAKS: [&[u8]; 5] = [b"\r", b"\n", b" ", b"\r\n", b"\t "];

const TEXT: u8 = 1;

const BINARY: u8 = 2;

/// What a font's file is made of.
#[derive(Clone, Copy)]
pub struct FontFile<'a> {
    /// The clear text, up to the white space after `eexec`.
    pub clear: &'a [u8],
    /// The private text, plain.
    pub private: &'a [u8],
    /// The four plain bytes before the private text, which a reader discards.
    pub discarded: [u8; 4],
    /// The text after the encrypted section; a segment of its own in a PFB file, where it isn't empty.
    pub trailer: &'a [u8],
    /// What a PFB file has after its last segment.
    pub end: &'a [u8],
}

impl<'a> FontFile<'a> {
    /// A file of these texts: four zero bytes are discarded, no trailer, an end segment.
    pub fn of(clear: &'a [u8], private: &'a [u8]) -> FontFile<'a>
        ensures clear { result.clear.now ≡ clear.now }
        ensures private { result.private.now ≡ private.now }
    {
        FontFile {
            clear,
            private,
            discarded: [0; 4],
            trailer: b"",
            end: END_SEGMENT,
        }
    }

    /// The PFB file: a text segment, a binary segment, the trailer's segment, the end.
    pub fn pfb(&self, alloc: Global) -> Result<Vec<u8>, AllocError> {
        let section = eexec(alloc, self.discarded, self.private)?;
        let mut file = Vec::new(alloc);
        add_segment(&mut file, TEXT, self.clear)?;
        add_segment(&mut file, BINARY, section.as_slice())?;
        if !self.trailer.is_empty() {
            add_segment(&mut file, TEXT, self.trailer)?;
        }
        file.extend_from_slice(self.end)?;
        Ok(file)
    }

    /// The PFA file whose section is binary.
    pub fn pfa(&self, alloc: Global) -> Result<Vec<u8>, AllocError>
        ensures { IfOk result (λ file. file.items ≡
            (self.now.clear.now ++ encrypted eexec_start (self.now.discarded ++ self.now.private.now))
            ++ self.now.trailer.now) }
    {
        let section = eexec(alloc, self.discarded, self.private)?;
        let mut file = Vec::from_slice(alloc, self.clear)?;
        file.extend_from_slice(section.as_slice())?;
        file.extend_from_slice(self.trailer)?;
        Ok(file)
    }

    /// The PFA file whose section is hexadecimal, with line ends and blanks inside pairs of digits.
    pub fn pfa_hexadecimal(&self, alloc: Global) -> Result<Vec<u8>, AllocError> {
        let section = eexec(alloc, self.discarded, self.private)?;
        let mut file = Vec::from_slice(alloc, self.clear)?;
        add_digits(alloc, &mut file, section.as_slice())?;
        file.extend_from_slice(b"\n")?;
        file.extend_from_slice(self.trailer)?;
        Ok(file)
    }
}

/// Adds a segment: 128, its type, its length of four bytes, and its payload.
fn add_segment(file: &mut Vec<u8>, kind: u8, payload: &[u8]) -> Result<(), AllocError> {
    let len = u32::try_from(payload.len()).unwrap_or(u32::MAX);
    file.extend_from_slice(&[128, kind])?;
    file.extend_from_slice(&len.to_le_bytes())?;
    file.extend_from_slice(payload)
}

/// Adds the digits of cipher bytes, with the breaks inside pairs after the fourth digit.
fn add_digits(alloc: Global, file: &mut Vec<u8>, section: &[u8]) -> Result<(), AllocError> {
    let digits = hex::encode(alloc, section)?;
    for (pair, place) in digits.as_bytes().chunks(2).zip(0u64..) {
        let (high, low) = pair.split_at(1);
        file.extend_from_slice(high)?;
        if place >= 2 && place % 3 == 2 {
            file.extend_from_slice(BREAKS[((place - 2) % 5) as usize])?;
        }
        file.extend_from_slice(low)?;
    }
    Ok(())
}
