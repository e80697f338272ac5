//! How far a drawing reaches.

ghost use Rattle.std.specs.Prelude.{◌≡◌};
ghost use Rattle.t1_picture.specs.Bounds.{extent_of, origin_alone, with_point, with_x, with_y};

use t1_rules::Point;

/// The least box, its sides upright, that has the origin and each point that was taken in. Units of 1/65536.
#[derive(Clone, Copy, Debug, PartialEq, Eq)]
pub(crate) struct Bounds {
    pub(crate) left: i64,
    pub(crate) bottom: i64,
    pub(crate) right: i64,
    pub(crate) top: i64,
}

impl Bounds {
    /// The origin alone.
    pub(crate) fn new() -> Bounds
        ensures { result ≡ origin_alone }
    {
        Bounds {
            left: 0,
            bottom: 0,
            right: 0,
            top: 0,
        }
    }

    /// Takes a point in.
    pub(crate) fn take(&mut self, point: Point)
        ensures { self.new ≡ with_point self.old point }
    {
        self.take_x(point.x);
        self.take_y(point.y);
    }

    /// Takes a place from left to right in.
    pub(crate) fn take_x(&mut self, x: i64)
        ensures { self.new ≡ with_x self.old x }
    {
        self.left = self.left.min(x);
        self.right = self.right.max(x);
    }

    /// Takes a height in.
    pub(crate) fn take_y(&mut self, y: i64)
        ensures { self.new ≡ with_y self.old y }
    {
        self.bottom = self.bottom.min(y);
        self.top = self.top.max(y);
    }

    /// The greater of width and height.
    pub(crate) fn extent(&self) -> i64
        ensures { result ≡ extent_of self.now }
    {
        let width = self.right.saturating_sub(self.left);
        width.max(self.top.saturating_sub(self.bottom))
    }
}
