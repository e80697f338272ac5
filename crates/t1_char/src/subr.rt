//! Subrs: Type 1 Font Format 1.1, chapter 8.

/// A Subr of the font.
#[derive(Clone, Copy)]
pub(crate) struct Subr<'a> {
    /// Its charstring, as it is in the font.
    pub(crate) code: &'a [u8],
    pub(crate) number: u32,
}
