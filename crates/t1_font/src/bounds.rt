//! How many codes an Encoding has (Type 1 Font Format 1.1, chapter 2), and how much this program reads at most.

/// How many codes an encoding has.
pub const CODES: u32 = 256;

/// A font states at most so many Subrs; the greatest number of one is below.
pub const MOST_SUBRS: u32 = 65_535;

/// A font has at most so many glyphs, and the head of its CharStrings counts at most so many.
pub const MOST_GLYPHS: u32 = 65_535;

/// A charstring has at most so many bytes.
pub const LONGEST_CHARSTRING: u32 = 65_535;

/// Of the numbers of an array or a procedure so many are kept, the first.
pub const KEPT_NUMBERS: usize = 16;

/// The greatest lenIV.
pub const GREATEST_LEN_IV: u32 = 64;
