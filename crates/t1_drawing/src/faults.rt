//! Which rules on segments a step breaks.

ghost use Rattle.std.specs.Prelude.{◌≡◌};
ghost use Rattle.t1_drawing.specs.Private.Joined.{are_some, joined, no_faults};

/// Which rules on segments a step breaks: whether one of the segments that it draws does. Type 1 Font Format 1.1,
/// chapters 2 and 3.
#[derive(Clone, Copy, Debug, Default, PartialEq, Eq)]
pub struct SegmentFaults {
    /// P04: it has the glyph's first line or curve that ends a unit or more outside FontBBox.
    pub is_outside: bool,
    /// P06: a line or a curve, all of whose points are equal.
    pub has_no_length: bool,
    /// P07: a line turns back on the line right before it.
    pub turns_back: bool,
    /// P08: a line goes straight on from the line right before it.
    pub goes_straight_on: bool,
    /// P09: a curve between two points has its control points on the straight line through them.
    pub is_flat: bool,
    /// P10: a curve goes three units or more beyond both of its ends, in x or in y.
    pub lacks_extreme: bool,
}

impl SegmentFaults {
    /// None.
    pub(crate) fn none() -> SegmentFaults
        ensures { result ≡ no_faults }
    {
        SegmentFaults {
            is_outside: false,
            has_no_length: false,
            turns_back: false,
            goes_straight_on: false,
            is_flat: false,
            lacks_extreme: false,
        }
    }

    /// Whether there is one.
    #[inline(always)]
    pub(crate) fn are_some(self) -> bool
        ensures { result ≡ are_some self }
    {
        self.is_outside
            | self.has_no_length
            | self.turns_back
            | self.goes_straight_on
            | self.is_flat
            | self.lacks_extreme
    }

    /// These and others.
    pub(crate) fn join(self, other: SegmentFaults) -> SegmentFaults
        ensures { result ≡ joined self other }
    {
        SegmentFaults {
            is_outside: self.is_outside | other.is_outside,
            has_no_length: self.has_no_length | other.has_no_length,
            turns_back: self.turns_back | other.turns_back,
            goes_straight_on: self.goes_straight_on | other.goes_straight_on,
            is_flat: self.is_flat | other.is_flat,
            lacks_extreme: self.lacks_extreme | other.lacks_extreme,
        }
    }
}
