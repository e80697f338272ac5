//! Where in a text reading is: what the next token belongs to. Type 1 Font Format 1.1, chapter 2.

/// In the clear text.
#[derive(Clone, Copy)]
pub enum ClearMode {
    /// The font's dictionaries.
    Outside,
    /// A custom encoding.
    Codes,
}

/// In the private text.
#[derive(Clone, Copy)]
pub enum PrivateMode {
    /// The Private dictionary.
    Outside,
    Subrs,
    Glyphs,
}

/// In either text.
#[derive(Clone, Copy)]
pub enum TextMode {
    Clear(ClearMode),
    Private(PrivateMode),
}
