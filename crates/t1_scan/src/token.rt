//! Tokens: Type 1 Font Format 1.1, chapters 2 and 10.

/// What a token is.
#[derive(Clone, Copy, Debug, PartialEq, Eq)]
pub enum Kind {
    /// A number, in units of 10^-9, further decimals cut: `-.5` is -500000000.
    Number(i64),
    /// `/` and the regular bytes after it, as `/FontName`; there may be none.
    Name,
    /// A run of regular bytes that is no number, as `def`; `<<`, `>>`, or one of `> ) ] }` that
    /// closes nothing.
    Word,
    /// A string, `(..)` or `<..>`.
    Text,
    /// A procedure, `{..}`.
    Proc,
    /// An array, `[..]`.
    Array,
}

/// A token of a text.
#[derive(Clone, Copy, Debug, PartialEq, Eq)]
pub struct Token<'a> {
    pub kind: Kind,
    /// Its bytes, brackets and all: those of the text from `from` to `to`.
    pub text: &'a [u8],
    /// The place of its first byte, from 0.
    pub from: usize,
    /// The place after its last byte.
    pub to: usize,
}
