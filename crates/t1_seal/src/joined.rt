//! The result of `join`: Adobe Technical Note 5040, the IBM PC format.

ghost use Rattle.std.specs.Prelude.{◌≡◌, true};

/// The bytes of a font program without the frame of its segments, and what that frame was.
#[derive(Drop)]
pub struct Joined {
    /// The payloads of the text and binary segments in order, or a PFA file as it is.
    pub bytes: Vec<u8>,
    /// Whether the file was a row of segments.
    pub pfb: bool,
    /// Whether the row ended with an end segment.
    pub end_segment: bool,
    /// Whether bytes followed the end segment. They aren't among `bytes`.
    pub trailing: bool,
    ghost after_the_end: { trailing ≡ true → end_segment ≡ true },
    ghost of_a_row: { end_segment ≡ true → pfb ≡ true },
}
