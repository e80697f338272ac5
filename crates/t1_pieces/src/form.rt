//! The form of a line.

/// The form of a line.
#[derive(Clone, Copy, Debug, PartialEq, Eq)]
pub enum Form<'a> {
    /// t1check's own line.
    Text,
    /// An object of JSON with its level and its reason, as t1check-all writes it of the font of this name.
    Object(&'a str),
}
