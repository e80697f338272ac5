//! The forms of an Encoding: Type 1 Font Format 1.1, chapter 2.

/// How a font encodes its characters.
#[derive(Clone, Copy, Debug, PartialEq, Eq)]
pub enum Encoding {
    /// The clear text has no `/Encoding`.
    Absent,
    /// `StandardEncoding`.
    Standard,
    /// `256 array` and then `dup`, code, name, `put` for each code.
    Custom,
    /// Anything else.
    Other,
}
