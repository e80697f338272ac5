//! What is read.

use t1_char::Edition;

/// A font and waivers, as they are given.
#[derive(Clone, Copy, Debug)]
pub struct Request<'a> {
    /// The bytes of the font's file.
    pub font: &'a [u8],
    /// The text of waivers; without waivers it is empty.
    pub waivers: &'a [u8],
    /// The edition of the rule book.
    pub edition: Edition,
}
