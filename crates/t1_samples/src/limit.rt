//! When a device fails on purpose.

ghost use Rattle.std.specs.Prelude.{◌≡◌};
ghost use Rattle.t1_samples.specs.Limits.{has_blown, let_through, burnt};

/// When a [`Fuse`](crate::Fuse) fails, or how much it moves.
#[derive(Clone, Copy, Debug, PartialEq, Eq)]
pub enum Limit {
    /// So many bytes are moved yet; then every call fails.
    Bytes(usize),
    /// So many calls are made yet; then every call fails.
    Calls(usize),
    /// At most so many bytes are moved a call, and no call fails by the fuse.
    BytesPerCall(usize),
}

impl Limit {
    /// Whether every further call fails.
    pub fn has_blown(self) -> bool
        ensures { result ≡ has_blown self }
    {
        match self {
            Limit::Bytes(left) | Limit::Calls(left) => left == 0,
            Limit::BytesPerCall(_) => false,
        }
    }

    /// How many of `count` bytes a call may move.
    pub fn let_through(self, count: usize) -> usize
        ensures { result ≡ let_through self count }
    {
        match self {
            Limit::Bytes(most) | Limit::BytesPerCall(most) => most.min(count),
            Limit::Calls(_) => count,
        }
    }

    /// What is left after a call that moved `count` bytes.
    pub fn burnt(self, count: usize) -> Limit
        ensures { result ≡ burnt self count }
    {
        match self {
            Limit::Bytes(left) => Limit::Bytes(left.saturating_sub(count)),
            Limit::Calls(left) => Limit::Calls(left.saturating_sub(1)),
            Limit::BytesPerCall(most) => Limit::BytesPerCall(most),
        }
    }
}
