//! The two directions of stems: Type 1 Font Format 1.1, chapter 5.

ghost use Rattle.std.specs.Prelude.{◌≡◌};
ghost use Rattle.t1_drawing.specs.Touching.{coordinate};

use t1_rules::Point;

/// Which way stems lie.
#[derive(Clone, Copy, Debug, PartialEq, Eq)]
pub enum Direction {
    /// Across the glyph, as hstem and hstem3 set them.
    Across,
    /// Upright, as vstem and vstem3 set them.
    Upright,
}

impl Direction {
    /// The coordinate of a point that stems bound, in units of 1/65536.
    pub fn coordinate(self, point: Point) -> i64
        ensures { result ≡ coordinate self point }
    {
        match self {
            Direction::Across => point.y,
            Direction::Upright => point.x,
        }
    }
}
